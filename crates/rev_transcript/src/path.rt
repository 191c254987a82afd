//! The lines of the steps on the way from a session's root to its current node.
ghost use Rattle.std.specs.Prelude.{◌≡◌, ◌&&◌, IfOk};
ghost use Rattle.rev_transcript.specs.Path.{path_steps, PutAll};

use rev_lines::put_step;
use rev_undotree::Session;
use std::alloc::{AllocError, Allocator};

fn both(first: bool, second: bool) -> bool
    ensures { result ≡ first && second }
{
    first && second
}

/// Writes the lines of the steps on the way from the root to the current node, the first one first, behind what `out`
/// holds. A step that has no line is left out. The answer is whether each has one.
///
/// What a script reader makes of the lines is just these steps, where each has one.
///
/// Err: memory was refused.
pub fn put_path<A: Allocator, B: Allocator + Clone>(
    out: &mut Vec<u8, A>,
    session: &Session<B>,
) -> Result<bool, AllocError>
    ensures { IfOk result (λ told. PutAll out.old.items out.new.items told (path_steps session.now.rows session.now.current)) }
{
    let mut all_told = true;
    for depth in 0..session.depth() {
        let Some((_, step, _, _)) = session.trail(depth + 1) else {
            unreachable!();
        };
        let told = put_step(out, step)?;
        all_told = both(all_told, told);
    }
    Ok(all_told)
}
