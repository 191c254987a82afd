//! A store on which a trace is tried.
ghost use Rattle.std.specs.Prelude.{◌≡◌, fold, IfOk, OnOk, map};
ghost use Rattle.rev_model.specs.Sound.{Sound};
ghost use Rattle.rev_requests.specs.Plain.{plain_step};
ghost use Rattle.rev_inverse.specs.Empty.{empty_state};
ghost use Rattle.rev_whatif.specs.Trials.{no_counts, tried, tuned};

use crate::trial::{Counts, play, try_step};
use rev_classes::Config;
use rev_inverse::Store;
use rev_requests::{Step, Tune};
use std::alloc::{AllocError, Global};
use std::marker::Model;

/// A store on which a trace is tried, and what was counted there.
#[derive(Drop)]
pub struct Run {
    store: Store<Global>,
    counts: Counts,
}

impl Model for Run {
    ghost use Rattle.std.specs.Coded.{codes};
    ghost use Rattle.rev_model.specs.Codes.{coded_contents, coded_keys};
    ghost use Rattle.rev_model.specs.Sound.{Sound};
    ghost use Rattle.rev_whatif.specs.Runs.{PlainRun};

    ghost Value = { PlainRun };

    ghost coded = { Prim.hlevel (codes, coded_contents, coded_keys) };

    ghost view = { λ r. record { state = r.store; counts = r.counts } };

    ghost invariant = { λ r. Sound r.store };
}

/// The empty store of a configuration, once its shares and factors are set, if they are to be.
///
/// Err: a growth was refused.
fn opened(alloc: Global, config: Config, tune: Option<Tune>) -> Result<Store<Global>, AllocError>
    ensures state { IfOk result (λ store. store ≡ tuned tune (empty_state config)) }
    ensures sound { IfOk result (λ store. Sound store) }
{
    let Ok(mut store) = Store::open(alloc, config) else {
        return Err(AllocError);
    };
    match tune {
        None => Ok(store),
        Some(tune) => {
            let _played = play(&mut store, &Step::Tune(tune))?;
            Ok(store)
        }
    }
}

impl Run {
    /// That store, and nothing counted.
    ///
    /// Err: a growth was refused.
    pub fn open(alloc: Global, config: Config, tune: Option<Tune>) -> Result<Run, AllocError>
        ensures { IfOk result (λ run. run ≡ record { state = tuned tune (empty_state config); counts = no_counts }) }
    {
        Ok(Run {
            store: opened(alloc, config, tune)?,
            counts: Counts::NONE,
        })
    }

    /// What was counted so far.
    pub fn counts(&self) -> Counts
        ensures { result ≡ self.now.counts }
    {
        self.counts
    }

    /// Plays a step, and counts what it did, if it is not left out.
    ///
    /// Err: a growth was refused.
    fn play(&mut self, step: &Step<Global>) -> Result<(), AllocError>
        ensures { OnOk result (self.new ≡ tried self.old (plain_step step.now)) }
    {
        try_step(&mut self.store, &mut self.counts, step)
    }

    /// Plays the steps in order, but for those that are left out, and counts what they did.
    ///
    /// Err: a growth was refused.
    pub fn play_all(&mut self, steps: &[&Step<Global>]) -> Result<(), AllocError>
        ensures { OnOk result (self.new ≡ fold tried self.old (map (λ step. plain_step step.now) steps.now)) }
    {
        for step in steps {
            self.play(step)?;
        }
        Ok(())
    }
}
