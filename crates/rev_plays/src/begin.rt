//! The session that a program begins with.
ghost use Rattle.std.specs.Prelude.{◌≡◌, IfSome};
ghost use Rattle.rev_classes.specs.Limits.{IsWithinLimits};
ghost use Rattle.rev_plays.specs.Begin.{opened};

use rev_classes::Config;
use rev_inverse::Store;
use rev_undotree::Session;
use std::alloc::{AllocError, Allocator};

fn two_handles<A: Allocator + Clone>(alloc: &A) -> Result<(A, A), AllocError> {
    Ok((alloc.clone()?, alloc.clone()?))
}

/// The session that a program's run begins with: an empty store, and no node but the root. None where there is no
/// memory.
pub fn open_session<A: Allocator + Clone>(alloc: &A, config: &Config) -> Option<Session<A>>
    requires { IsWithinLimits config.now }
    ensures { IfSome result (λ session. session ≡ opened config.entry.now) }
{
    let Ok((alloc, other)) = two_handles(alloc) else {
        return None;
    };
    let Ok(store) = Store::open(alloc, *config) else {
        return None;
    };
    match Session::open(other, store) {
        Ok(session) => Some(session),
        Err(refused) => {
            drop(refused);
            None
        }
    }
}
