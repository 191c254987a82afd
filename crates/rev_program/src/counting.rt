//! What a report counts of the parts of a trace: figures, what tells that keys left, and trials with other settings.
ghost use Rattle.std.specs.Prelude.{◌≡◌};

use crate::trials::Attempts;
use rev_classes::Config;
use rev_comparisons::what_if::WhatIf as Told;
use rev_evidence::verdict::{Evidence, Reason, Verdict};
use rev_explain::clock_at;
use rev_figures::Sums;
use rev_lead::Viewer;
use rev_options::WhatIf;
use rev_report::evidence::LeftBy;
use rev_undotree::{NodeId, Session};
use std::alloc::{AllocError, Global};
use std::mem;
use std::thread::Threads;

/// What is counted of the parts of a trace that are let go.
#[derive(Drop)]
pub(crate) struct Counting {
    alloc: Global,
    // none where no part was let go
    sums: Option<Sums<Global>>,
    // a row for each reason (no word: one that names `'static` is not handed on beside other lifetimes)
    evidence: Vec<LeftFor>,
    attempts: Attempts,
}

/// How many keys left for a reason, by what tells it.
#[derive(Clone, Copy)]
struct LeftFor {
    reason: Reason,
    logged: u64,
    replayed: u64,
    inferred: u64,
}

impl LeftFor {
    // No key.
    fn none(reason: Reason) -> LeftFor {
        LeftFor {
            reason,
            logged: 0,
            replayed: 0,
            inferred: 0,
        }
    }

    // The same with a key more.
    fn with(self, evidence: Evidence) -> LeftFor {
        match evidence {
            Evidence::Logged => LeftFor {
                logged: self.logged.saturating_add(1),
                ..self
            },
            Evidence::Replayed => LeftFor {
                replayed: self.replayed.saturating_add(1),
                ..self
            },
            Evidence::Inferred => LeftFor {
                inferred: self.inferred.saturating_add(1),
                ..self
            },
        }
    }

    // What a report tells of it.
    fn told(&self) -> LeftBy {
        LeftBy {
            cause: cause_name(self.reason),
            logged: self.logged,
            replayed: self.replayed,
            inferred: self.inferred,
        }
    }
}

// A reason, as the table by class names it.
fn cause_name(reason: Reason) -> &'static str {
    match reason {
        Reason::EvictedByMover => "evicted by mover",
        Reason::DroppedByFailedSet => "dropped by a failed set",
        reason => reason.word(),
    }
}

// Counts a key that left.
fn add_verdict(rows: &mut Vec<LeftFor>, verdict: Verdict) -> Result<(), AllocError> {
    for row in rows.iter_mut() {
        if row.reason == verdict.reason {
            *row = row.with(verdict.evidence);
            return Ok(());
        }
    }
    rows.push(LeftFor::none(verdict.reason).with(verdict.evidence))?;
    Ok(())
}

impl Counting {
    /// No part was let go, of a trace whose store has this configuration, with these other settings.
    pub(crate) fn open(
        alloc: Global,
        config: Config,
        others: &[WhatIf],
    ) -> Result<Counting, AllocError> {
        Ok(Counting {
            alloc,
            sums: None,
            evidence: Vec::new(alloc),
            attempts: Attempts::open(alloc, config, others)?,
        })
    }

    pub(crate) fn alloc(&self) -> Global {
        self.alloc
    }

    /// What was counted is of no trace any more.
    pub(crate) fn begin_anew(&mut self) -> Result<(), AllocError> {
        drop(mem::replace(&mut self.sums, None));
        self.evidence.clear();
        self.attempts.reopen()
    }

    // Adds the figures of a part: the steps from the session's root to its current node.
    fn add_figures(&mut self, session: &mut Session<Global>) -> Result<(), AllocError>
        ensures { session.new ≡ session.old }
    {
        if self.sums.is_none() {
            self.sums = Some(Sums::new(clock_at(session, NodeId(0)), self.alloc)?);
        }
        match &mut self.sums {
            Some(sums) => sums.add(session),
            None => Ok(()),
        }
    }

    /// Feeds a part to the trials.
    pub(crate) fn feed<R: Threads + Sync>(
        &mut self,
        rt: &R,
        session: &Session<Global>,
    ) -> Result<(), AllocError> {
        self.attempts.feed(rt, session)
    }

    /// Counts a part, and feeds it to the trials.
    pub(crate) fn add<R: Threads + Sync>(
        &mut self,
        rt: &R,
        session: &mut Session<Global>,
    ) -> Result<(), AllocError>
        ensures { session.new ≡ session.old }
    {
        self.add_figures(session)?;
        self.feed(rt, session)
    }

    /// Counts what tells that keys left.
    pub(crate) fn add_verdicts(&mut self, verdicts: &[Verdict]) -> Result<(), AllocError> {
        for verdict in verdicts {
            add_verdict(&mut self.evidence, *verdict)?;
        }
        Ok(())
    }

    /// The figures of the parts that were let go, which are counted no more; none where no part was let go.
    pub(crate) fn take_sums(&mut self) -> Option<Sums<Global>> {
        mem::replace(&mut self.sums, None)
    }

    /// How many keys left by each cause, where a log leads.
    pub(crate) fn evidence(&self) -> Result<Vec<LeftBy>, AllocError> {
        let mut told = Vec::new(self.alloc);
        for row in &self.evidence {
            told.push(row.told())?;
        }
        Ok(told)
    }

    /// What other settings would have done with the trace whose last part the session has.
    pub(crate) fn what_ifs<R: Threads + Sync>(
        &mut self,
        rt: &R,
        session: &Session<Global>,
    ) -> Result<Vec<Told>, AllocError> {
        self.attempts.feed(rt, session)?;
        self.attempts.told(session)
    }
}

impl Viewer<Global> for Counting {
    type Fault = AllocError;

    fn view(&mut self, session: &mut Session<Global>) -> Result<(), AllocError> {
        self.add_figures(session)
    }
}
