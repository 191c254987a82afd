//! The settings.
ghost use Rattle.std.specs.Prelude.{◌≡◌, ◌≤◌, length, IfOk, OnOk, OnErr, []};
ghost use Rattle.rev_model.specs.Actor.{tune as tune_of, temp_ttl, kept_ttl};
ghost use Rattle.rev_model.specs.Sound.{Sound};
ghost use Rattle.rev_model.specs.Move.{LeadsBack};
ghost use Rattle.rev_inverse.specs.Telling.{TellsAll};

use crate::globals::exchange;
use rev_inverse::{Record, Store};
use rev_model::{GlobalPart, Outcome, Settings};
use rev_requests::Tune;
use std::alloc::{AllocError, Allocator};

/// The shares and age factors of HOT and WARM become these (protocol.txt, `lru tune`): Okay.
///
/// Err: a growth was refused, and the store is as it was.
pub fn retune<A: Allocator + Clone>(
    store: &mut Store<A>,
    tune: Tune,
) -> Result<(Outcome, Record<A>), AllocError>
    requires { Sound store.old }
    ensures step { IfOk result (λ p. (store.new, p.0) ≡ tune_of store.old tune.hot_share tune.warm_share tune.hot_factor tune.warm_factor) }
    ensures sound { OnOk result (Sound store.new) }
    ensures leads { IfOk result (λ p. LeadsBack p.1.moves store.new store.old) }
    ensures few { IfOk result (λ p. length p.1.moves ≤ 64) }
    ensures err { OnErr result (store.new ≡ store.old) }
    ensures told { IfOk result (λ p. TellsAll p.1 store.new []) }
{
    let settings = tune.applied_to(store.globals().settings);
    exchange(store, GlobalPart::Settings(settings))
}

/// TEMP's bound as it is kept: each negative one is -1.
fn kept_ttl(ttl: i32) -> i32
    ensures { result ≡ kept_ttl ttl }
{
    if ttl < 0 { -1 } else { ttl }
}

/// An item that expires within fewer seconds enters TEMP (protocol.txt, `lru temp_ttl`): Okay. A negative number closes
/// TEMP.
///
/// Err: a growth was refused, and the store is as it was.
pub fn set_temp_ttl<A: Allocator + Clone>(
    store: &mut Store<A>,
    ttl: i32,
) -> Result<(Outcome, Record<A>), AllocError>
    requires { Sound store.old }
    ensures step { IfOk result (λ p. (store.new, p.0) ≡ temp_ttl store.old ttl) }
    ensures sound { OnOk result (Sound store.new) }
    ensures leads { IfOk result (λ p. LeadsBack p.1.moves store.new store.old) }
    ensures few { IfOk result (λ p. length p.1.moves ≤ 64) }
    ensures err { OnErr result (store.new ≡ store.old) }
    ensures told { IfOk result (λ p. TellsAll p.1 store.new []) }
{
    let settings = Settings {
        temp_ttl: kept_ttl(ttl),
        ..store.globals().settings
    };
    exchange(store, GlobalPart::Settings(settings))
}
