//! What an import of logs tells of a sample of the keys, and of a start in front of its script.
ghost use Rattle.std.specs.Prelude.{◌≡◌, OnOk};
ghost use Rattle.rev_intake.specs.Report.{behind};
ghost use Rattle.rev_intake.specs.Told.{sample_parts, split_parts, run_behind_parts};

use crate::counts::LineCounts;
use crate::report::put_part;
use rev_import::figures::Figures;
use std::alloc::{AllocError, Allocator};

/// Writes how many events of keys were left out that a sample does not take, and how many items no page holds, a line
/// for each.
pub fn put_sample<A: Allocator>(
    out: &mut Vec<u8, A>,
    counts: &LineCounts,
    figures: &Figures,
) -> Result<(), AllocError>
    ensures { OnOk result (out.new.items ≡ behind out.old.items (sample_parts counts.now figures.now)) }
{
    put_part(
        out,
        b"sample: ",
        counts.other_keys,
        b" events of other keys left out\n",
    )?;
    put_part(out, b"too large: ", figures.unfit, b" values for a page\n")
}

/// Writes how many steps stand in a start, and how many in the script behind it.
pub fn put_split<A: Allocator>(
    out: &mut Vec<u8, A>,
    start: u64,
    script: u64,
) -> Result<(), AllocError>
    ensures { OnOk result (out.new.items ≡ behind out.old.items (split_parts start script)) }
{
    put_part(out, b"split: ", start, b" steps in the start")?;
    put_part(out, b", ", script, b" in the script\n")
}

/// Writes how the script of these files is run behind its start.
pub fn put_run_behind<A: Allocator>(out: &mut Vec<u8, A>, prefix: &[u8]) -> Result<(), AllocError>
    ensures { OnOk result (out.new.items ≡ behind out.old.items (run_behind_parts prefix.now)) }
{
    out.extend_from_slice(b"to run it: lrudb run $(cat ")?;
    out.extend_from_slice(prefix)?;
    out.extend_from_slice(b".options) --start ")?;
    out.extend_from_slice(prefix)?;
    out.extend_from_slice(b".start < ")?;
    out.extend_from_slice(prefix)?;
    out.extend_from_slice(b".script\n")
}
