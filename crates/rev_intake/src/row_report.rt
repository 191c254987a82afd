//! What an import of traces tells of itself.
ghost use Rattle.std.specs.Prelude.{◌≡◌, OnOk};
ghost use Rattle.rev_intake.specs.Report.{behind};
ghost use Rattle.rev_intake.specs.RowReport.{client_parts, storage_parts, other_parts, row_report_text, thin_parts};

use crate::report::put_part;
use crate::row_counts::RowCounts;
use rev_import::figures::Figures;
use std::alloc::{AllocError, Allocator};

fn put_clients<A: Allocator>(out: &mut Vec<u8, A>, counts: &RowCounts) -> Result<(), AllocError>
    ensures { OnOk result (out.new.items ≡ behind out.old.items (client_parts counts.now)) }
{
    put_part(out, b"read: ", counts.asked, b" rows")?;
    put_part(out, b", ", counts.get, b" get")?;
    put_part(out, b", ", counts.gets, b" gets")?;
    put_part(out, b", ", counts.delete, b" delete")?;
    put_part(out, b", ", counts.increment, b" incr")?;
    put_part(out, b", ", counts.decrement, b" decr")
}

fn put_storage<A: Allocator>(out: &mut Vec<u8, A>, counts: &RowCounts) -> Result<(), AllocError>
    ensures { OnOk result (out.new.items ≡ behind out.old.items (storage_parts counts.now)) }
{
    put_part(out, b", ", counts.set, b" set")?;
    put_part(out, b", ", counts.add, b" add")?;
    put_part(out, b", ", counts.replace, b" replace")?;
    put_part(out, b", ", counts.append, b" append")?;
    put_part(out, b", ", counts.prepend, b" prepend")?;
    put_part(out, b", ", counts.cas, b" cas written as set\n")
}

fn put_others<A: Allocator>(
    out: &mut Vec<u8, A>,
    counts: &RowCounts,
    figures: &Figures,
) -> Result<(), AllocError>
    ensures { OnOk result (out.new.items ≡ behind out.old.items (other_parts counts.now figures.now)) }
{
    put_part(
        out,
        b"late: ",
        counts.late,
        b" rows with an earlier second than one before them\n",
    )?;
    put_part(
        out,
        b"unknown: ",
        counts.unknown,
        b" rows of other operations\n",
    )?;
    put_part(
        out,
        b"sample: ",
        counts.left_out,
        b" rows of other keys left out\n",
    )?;
    put_part(
        out,
        b"too large: ",
        figures.too_large,
        b" values for a page\n",
    )?;
    put_part(out, b"wrote: ", figures.lines, b" steps\n")
}

/// Writes what an import of traces tells of itself: how many rows it read of each operation, how many were late, of
/// unknown operations, left out and too large, and how many steps it wrote.
pub fn put_row_report<A: Allocator>(
    out: &mut Vec<u8, A>,
    counts: &RowCounts,
    figures: &Figures,
) -> Result<(), AllocError>
    ensures { OnOk result (out.new.items ≡ row_report_text out.old.items counts.now figures.now) }
{
    put_clients(out, counts)?;
    put_storage(out, counts)?;
    put_others(out, counts, figures)
}

/// Writes that the pages of a sample would be too small, and what is used in their place.
pub fn put_thin<A: Allocator>(out: &mut Vec<u8, A>, one_of: u32) -> Result<(), AllocError>
    ensures { OnOk result (out.new.items ≡ behind out.old.items (thin_parts one_of)) }
{
    put_part(
        out,
        b"sample: pages of 1/",
        u64::from(one_of),
        b" would be under 256 bytes: --page-size 256 is used\n",
    )
}
