//! The steps on the way from the root to the current node.
ghost use Rattle.std.specs.Prelude.{◌≡◌, IfOk, map};
ghost use Rattle.rev_requests.specs.Plain.{plain_step};
ghost use Rattle.rev_whatif.specs.Trials.{path_steps};

use rev_requests::Step;
use rev_undotree::Session;
use std::alloc::{AllocError, Allocator};

/// The steps on the way from the root to the current node, the first one first. They are lent.
///
/// Err: a growth was refused.
pub fn steps<'a, A: Allocator + Clone>(
    session: &'a Session<A>,
) -> Result<Vec<&'a Step<A>, A>, AllocError>
    ensures { IfOk result (λ steps. map (λ step. plain_step step.now) steps.items ≡ path_steps session.now.rows session.now.current) }
{
    let mut depth = session.depth();
    let mut steps = Vec::with_capacity(session.store().alloc()?, depth)?;
    'nodes: while let Some((_, step, _, _)) = session.trail(depth) {
        steps.push(step)?;
        depth -= 1;
    }
    steps.reverse();
    Ok(steps)
}
