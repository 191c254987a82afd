//! What a test makes and lets go at once, by a call. A store or a session has many parts: where it is dropped in place,
//! each of them is, all of which the check reads. So a function that owns one drops it by `drop`, or asks this module.
ghost use Rattle.rev_model.specs.Sound.{Sound};

use rev_inverse::Store;
use rev_undotree::Session;
use std::alloc::Allocator;
use std::process::Abort;

/// A session over this store. The test fails where there is no memory for one.
pub fn session_over<R: Abort, A: Allocator + Clone>(rt: &R, alloc: A, store: Store<A>) -> Session<A>
    requires { Sound store }
{
    match Session::open(alloc, store) {
        Ok(session) => session,
        Err(_) => panic!(rt; "no session"),
    }
}

/// Whether it was made, with which it is let go.
pub fn is_made<T: Drop, E: Drop>(made: Result<T, E>) -> bool {
    made.is_ok()
}
