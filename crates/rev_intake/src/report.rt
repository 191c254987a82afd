//! What an import tells of itself.
ghost use Rattle.std.specs.Prelude.{◌≡◌, ◌++◌, OnOk};
ghost use Rattle.rev_intake.specs.Report.{behind, part, read_parts, server_parts, dropped_parts, stats_parts, inferred_parts, written_parts, report_text, run_parts, unfollowed_text, setting_text, settings_text};

use crate::counts::LineCounts;
use itoa::Buffer;
use rev_import::figures::{EventCounts, Figures};
use rev_import::setup::Unfollowed;
use rev_watch::settings::LogStats;
use std::alloc::{AllocError, Allocator};

/// Writes a number between two texts.
pub fn put_part<A: Allocator>(
    out: &mut Vec<u8, A>,
    front: &[u8],
    number: u64,
    back: &[u8],
) -> Result<(), AllocError>
    ensures { OnOk result (out.new.items ≡ out.old.items ++ part front.now number back.now) }
{
    let mut digits = Buffer::new();
    out.extend_from_slice(front)?;
    out.extend_from_slice(digits.format(number).as_bytes())?;
    out.extend_from_slice(back)
}

fn put_read<A: Allocator>(
    out: &mut Vec<u8, A>,
    counts: &LineCounts,
    events: &EventCounts,
) -> Result<(), AllocError>
    ensures { OnOk result (out.new.items ≡ behind out.old.items (read_parts counts.now events.now)) }
{
    put_part(out, b"read: ", counts.lines, b" lines")?;
    put_part(out, b", ", events.look_ups, b" look-ups")?;
    put_part(out, b", ", events.stores, b" stores")?;
    put_part(out, b", ", events.deletions, b" deletions")
}

fn put_server<A: Allocator>(
    out: &mut Vec<u8, A>,
    counts: &LineCounts,
    events: &EventCounts,
) -> Result<(), AllocError>
    ensures { OnOk result (out.new.items ≡ behind out.old.items (server_parts counts.now events.now)) }
{
    put_part(out, b", ", events.evictions, b" evictions")?;
    put_part(out, b", ", events.page_moves, b" page moves")?;
    put_part(out, b", ", events.crawl_ends, b" ends of crawls")?;
    put_part(out, b", ", events.connections, b" of connections")?;
    put_part(out, b", ", events.unknown, b" of unknown kinds")?;
    put_part(out, b", ", counts.other, b" of no log\n")
}

fn put_dropped<A: Allocator>(out: &mut Vec<u8, A>, counts: &LineCounts) -> Result<(), AllocError>
    ensures { OnOk result (out.new.items ≡ behind out.old.items (dropped_parts counts.now)) }
{
    put_part(out, b"left out: ", counts.left_out, b" outside the range")?;
    put_part(out, b", ", counts.late, b" too late for their place")?;
    put_part(out, b", ", counts.repeated, b" with the number of another")?;
    put_part(out, b", ", counts.cut_off, b" cut off at an end")?;
    put_part(
        out,
        b", ",
        counts.skipped,
        b" skipped by the server for a slow watcher\n",
    )
}

fn put_stats<A: Allocator>(out: &mut Vec<u8, A>, stats: Option<LogStats>) -> Result<(), AllocError>
    ensures { OnOk result (out.new.items ≡ behind out.old.items (stats_parts stats)) }
{
    let Some(stats) = stats else {
        return Ok(());
    };
    put_part(
        out,
        b"not logged: ",
        stats.worker_dropped,
        b" dropped by the server's threads",
    )?;
    put_part(
        out,
        b", ",
        stats.watcher_skipped,
        b" skipped for all its watchers\n",
    )
}

fn put_inferred<A: Allocator>(out: &mut Vec<u8, A>, figures: &Figures) -> Result<(), AllocError>
    ensures { OnOk result (out.new.items ≡ behind out.old.items (inferred_parts figures.now)) }
{
    put_part(
        out,
        b"inferred: ",
        figures.own_look_ups,
        b" look-ups of other commands",
    )?;
    put_part(
        out,
        b", ",
        figures.deletes_in_place,
        b" deletes in place of hits",
    )?;
    put_part(
        out,
        b", ",
        figures.deletes_late,
        b" deletes in front of misses",
    )?;
    put_part(
        out,
        b", ",
        figures.unexplained,
        b" keys gone for no reason that was logged",
    )?;
    put_part(out, b", ", figures.too_large, b" stores too large")?;
    put_part(
        out,
        b", ",
        figures.other_classes,
        b" moves and crawls of other classes\n",
    )
}

fn put_wrote<A: Allocator>(out: &mut Vec<u8, A>, figures: &Figures) -> Result<(), AllocError>
    ensures { OnOk result (out.new.items ≡ behind out.old.items (written_parts figures.now)) }
{
    put_part(out, b"wrote: ", figures.lines, b" steps")?;
    put_part(out, b", ", figures.hits, b" hits")?;
    put_part(out, b", ", figures.misses, b" misses\n")
}

/// Writes what an import tells of itself: which lines it read, what was left out, what the server did not log, where
/// that is known, what was inferred, and how many steps it wrote, a line for each.
pub fn put_report<A: Allocator>(
    out: &mut Vec<u8, A>,
    counts: &LineCounts,
    figures: &Figures,
    stats: Option<LogStats>,
) -> Result<(), AllocError>
    ensures { OnOk result (out.new.items ≡ report_text out.old.items counts.now figures.now stats) }
{
    put_read(out, counts, &figures.events)?;
    put_server(out, counts, &figures.events)?;
    put_dropped(out, counts)?;
    put_stats(out, stats)?;
    put_inferred(out, figures)?;
    put_wrote(out, figures)
}

// Writes of a setting that is not followed what is used in its place.
fn put_setting<A: Allocator>(out: &mut Vec<u8, A>, setting: Unfollowed) -> Result<(), AllocError>
    ensures { OnOk result (out.new.items ≡ out.old.items ++ unfollowed_text setting) }
{
    match setting {
        Unfollowed::TooLittleMemory => out.extend_from_slice(
            b"settings: less memory than a page of 1048576 bytes: --pages 1 is used\n",
        ),
        Unfollowed::TooMuchMemory => out.extend_from_slice(
            b"settings: more memory than 4096 pages: --pages 4096 is used\n",
        ),
        Unfollowed::ChunkSize(bytes) => put_part(
            out,
            b"settings: chunk_size ",
            u64::from(bytes),
            b" is not followed: classes begin as by 48\n",
        ),
        Unfollowed::ItemSizeMax(bytes) => put_part(
            out,
            b"settings: item_size_max ",
            u64::from(bytes),
            b" is not followed: items of up to 1048576 bytes are stored\n",
        ),
        Unfollowed::Factor => out.extend_from_slice(
            b"settings: a growth factor outside 21/20 to 4, or with numbers above 1000: 5/4 is used\n",
        ),
        Unfollowed::TooManyClasses => out.extend_from_slice(
            b"settings: a growth factor that makes more than 62 classes: 5/4 is used\n",
        ),
        Unfollowed::Tune => out.extend_from_slice(
            b"settings: shares or age factors outside the limits of `lru tune`: 20, 40, 0.2 and 2 are used\n",
        ),
        Unfollowed::TemporaryTtl(seconds) => put_part(
            out,
            b"settings: temporary_ttl ",
            u64::from(seconds),
            b" is not followed: 2147483647 is used\n",
        ),
    }
}

fn put_if_unfollowed<A: Allocator>(
    out: &mut Vec<u8, A>,
    setting: Option<Unfollowed>,
) -> Result<(), AllocError>
    ensures { OnOk result (out.new.items ≡ out.old.items ++ setting_text setting) }
{
    match setting {
        None => Ok(()),
        Some(setting) => put_setting(out, setting),
    }
}

/// Writes a line for each setting that is not followed, with what is used in its place.
pub fn put_unfollowed<A: Allocator>(
    out: &mut Vec<u8, A>,
    unfollowed: &[Option<Unfollowed>],
) -> Result<(), AllocError>
    ensures { OnOk result (out.new.items ≡ settings_text out.old.items unfollowed.now) }
{
    for setting in unfollowed {
        put_if_unfollowed(out, *setting)?;
    }
    Ok(())
}

/// Writes how the script of these files is run.
pub fn put_run<A: Allocator>(out: &mut Vec<u8, A>, prefix: &[u8]) -> Result<(), AllocError>
    ensures { OnOk result (out.new.items ≡ behind out.old.items (run_parts prefix.now)) }
{
    out.extend_from_slice(b"to run it: lrudb run $(cat ")?;
    out.extend_from_slice(prefix)?;
    out.extend_from_slice(b".options) < ")?;
    out.extend_from_slice(prefix)?;
    out.extend_from_slice(b".script\n")
}
