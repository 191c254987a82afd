//! The words for a run of a script.
ghost use Rattle.std.specs.Prelude.{◌≡◌, ◌++◌, OnOk};
ghost use Rattle.rev_intake.specs.Report.{behind};
ghost use Rattle.rev_intake.specs.Words.{option, options_text, size_parts, more_parts, temp_ttl_text, all_options_text};

use itoa::Buffer;
use rev_classes::Config;
use std::alloc::{AllocError, Allocator};

// Writes an option with its number.
fn put_option<A: Allocator>(
    out: &mut Vec<u8, A>,
    name: &[u8],
    number: u32,
) -> Result<(), AllocError>
    ensures { OnOk result (out.new.items ≡ out.old.items ++ option name.now number) }
{
    let mut digits = Buffer::new();
    out.extend_from_slice(name)?;
    out.extend_from_slice(digits.format(number).as_bytes())
}

/// Writes the words by which `lrudb run` is opened as the script wants it, on one line: pages, their size and the
/// growth factor. What else a configuration has is as `lrudb run` has it, or is set by the script's first lines.
pub fn put_options<A: Allocator>(out: &mut Vec<u8, A>, config: &Config) -> Result<(), AllocError>
    ensures { OnOk result (out.new.items ≡ out.old.items ++ options_text config.entry.now) }
{
    put_option(out, b"--page-size ", config.page_size)?;
    put_option(out, b" --pages ", config.pages)?;
    put_option(out, b" --num ", config.num)?;
    put_option(out, b" --den ", config.den)?;
    out.extend_from_slice(b"\n")
}

// Writes the words of pages, their size and the growth factor.
fn put_sizes<A: Allocator>(out: &mut Vec<u8, A>, config: &Config) -> Result<(), AllocError>
    ensures { OnOk result (out.new.items ≡ behind out.old.items (size_parts config.entry.now)) }
{
    put_option(out, b"--page-size ", config.page_size)?;
    put_option(out, b" --pages ", config.pages)?;
    put_option(out, b" --num ", config.num)?;
    put_option(out, b" --den ", config.den)
}

// Writes the words of what else a configuration has, but for TEMP.
fn put_more<A: Allocator>(out: &mut Vec<u8, A>, config: &Config) -> Result<(), AllocError>
    ensures { OnOk result (out.new.items ≡ behind out.old.items (more_parts config.entry.now)) }
{
    put_option(out, b" --bump ", config.bump)?;
    put_option(out, b" --hash-power ", config.hash_power)?;
    put_option(out, b" --now ", config.now)
}

// Writes the seconds below which a time to live leads to TEMP, where any does.
fn put_temp_ttl<A: Allocator>(out: &mut Vec<u8, A>, seconds: i32) -> Result<(), AllocError>
    ensures { OnOk result (out.new.items ≡ out.old.items ++ temp_ttl_text seconds) }
{
    if seconds < 0 {
        Ok(())
    } else {
        put_option(out, b" --temp-ttl ", seconds as u32)
    }
}

/// Writes the words by which `lrudb run` is opened with this configuration, on one line.
pub fn put_all_options<A: Allocator>(
    out: &mut Vec<u8, A>,
    config: &Config,
) -> Result<(), AllocError>
    ensures { OnOk result (out.new.items ≡ all_options_text out.old.items config.entry.now) }
{
    put_sizes(out, config)?;
    put_more(out, config)?;
    put_temp_ttl(out, config.temp_ttl)?;
    out.extend_from_slice(b"\n")
}
