//! The server's own second of a line: its clock ticks once a second, at a phase of its own.
ghost use Rattle.std.specs.Prelude.{◌≡◌, ◌<◌, ◌≤◌, ◌^◌, length, map, nat_le, replicate};
ghost use Rattle.std.specs.List.{All, list_any};
ghost use Rattle.rev_log.specs.Seconds.{ticks, counts_for, count, counted, half, aged, voted, most as most_of, next_runs, IsMiddle, IsBest, IsSecond};

use rev_watch::event::Timestamp;
use std::marker::Model;

// How many phases of the clock are told apart.
const PHASES: usize = 200;

// The microseconds from one phase to the next.
const STEP: u64 = 5000;

// With so many votes of one phase all are halved (this project's own figure: a clock drifts, so that old votes count
// for less).
const FULL: u32 = 65536;

/// Tells at which phase of a second the server's clock ticks. Each item of a known lifetime that was evicted votes for
/// the phases by which the clock ticked as often as its lifetime fell. There are 200 phases, 5 ms apart.
#[derive(Drop)]
pub struct Seconds {
    votes: [u32; PHASES],
    best: usize,
}

impl Model for Seconds {
    ghost use Rattle.std.specs.Prelude.{◌≡◌, ◌<◌, List, ℕ, length};
    ghost use Rattle.std.specs.List.{All};
    ghost use Rattle.rev_log.specs.Seconds.{IsBest};

    ghost Value = { List ℕ };

    ghost view = { λ s. s.votes };

    ghost invariant = { λ s. All (λ n. n < 65536) s.votes × IsBest s.votes s.best };
}

// How often a clock of this phase has ticked at a time, since a second before second 0.
fn ticks(phase: usize, time: Timestamp) -> u64
    requires { phase < 2 ^ 32 }
    ensures value { result ≡ ticks phase time }
    ensures few { result < 2 ^ 33 }
{
    let seconds = u64::from(time.seconds);
    if phase as u64 * STEP <= u64::from(time.microseconds) {
        seconds + 1
    } else {
        seconds
    }
}

// Whether a clock of this phase ticks so often from one time to the other.
fn counts_for(stored: Timestamp, evicted: Timestamp, elapsed: u32, phase: usize) -> bool
    requires { phase < 2 ^ 32 }
    ensures { result ≡ counts_for stored evicted elapsed phase }
{
    ticks(phase, evicted) == ticks(phase, stored) + u64::from(elapsed)
}

// One vote more for a phase that it counts for.
fn count(stored: Timestamp, evicted: Timestamp, elapsed: u32, phase: usize, votes: u32) -> u32
    requires phase { phase < 2 ^ 32 }
    requires votes { votes < 65536 }
    ensures { result ≡ count stored evicted elapsed phase votes }
{
    if counts_for(stored, evicted, elapsed, phase) {
        votes + 1
    } else {
        votes
    }
}

// Counts a vote for each phase that it is for.
fn count_all(votes: &mut [u32], stored: Timestamp, evicted: Timestamp, elapsed: u32)
    requires few { All (λ n. n < 65536) votes.old }
    requires phases { length votes.old < 2 ^ 32 }
    ensures { votes.new ≡ counted stored evicted elapsed 0 votes.old }
{
    for phase in 0..votes.len() {
        votes[phase] = count(stored, evicted, elapsed, phase, votes[phase]);
    }
}

fn is_full(votes: &[u32]) -> bool
    ensures { result ≡ list_any (nat_le 65536) votes.now }
{
    votes.iter().any(|count| FULL <= *count)
}

fn halve(votes: &mut [u32])
    ensures { votes.new ≡ map half votes.old }
{
    for phase in 0..votes.len() {
        votes[phase] /= 2;
    }
}

// Halves all votes, where there are too many of a phase.
fn age(votes: &mut [u32])
    ensures { votes.new ≡ aged votes.old }
{
    if is_full(votes) {
        halve(votes);
    }
}

// The most votes of a phase.
fn most(votes: &[u32]) -> u32
    ensures { result ≡ most_of votes.now }
{
    let mut most = 0;
    for count in votes {
        most = most.max(*count);
    }
    most
}

// Runs of phases with the most votes: how long the one is that ends at the phases so far, and where the longest one
// starts.
#[derive(Clone, Copy)]
struct Runs {
    run: usize,
    start: usize,
    longest: usize,
}

// The runs with one more phase.
fn next_runs(runs: Runs, phase: usize, is_best: bool) -> Runs
    requires run { runs.run ≤ phase }
    requires phase { phase < 2 ^ 32 }
    ensures { result ≡ next_runs runs phase is_best }
{
    if !is_best {
        return Runs {
            run: 0,
            start: runs.start,
            longest: runs.longest,
        };
    }
    let run = runs.run + 1;
    if runs.longest < run {
        Runs {
            run,
            start: phase + 1 - run,
            longest: run,
        }
    } else {
        Runs {
            run,
            start: runs.start,
            longest: runs.longest,
        }
    }
}

// The middle of the longest run of phases that have this many votes.
fn middle(votes: &[u32], most: u32) -> usize
    requires most { most ≡ most_of votes.now }
    requires phases { length votes.now < 2 ^ 32 }
    ensures { IsMiddle votes.now result }
{
    let mut runs = Runs {
        run: 0,
        start: 0,
        longest: 0,
    };
    for phase in 0..votes.len() {
        runs = next_runs(runs, phase, votes[phase] == most);
    }
    runs.start + runs.longest / 2
}

// The phase that is taken by these votes.
fn best(votes: &[u32]) -> usize
    requires { length votes.now < 2 ^ 32 }
    ensures { IsBest votes.now result }
{
    let most = most(votes);
    if most == 0 { 0 } else { middle(votes, most) }
}

impl Seconds {
    /// No vote.
    pub fn new() -> Seconds
        ensures { result ≡ replicate 200 0 }
    {
        Seconds {
            votes: [0; PHASES],
            best: 0,
        }
    }

    /// Counts a vote: an item that was stored at one time and evicted at another one had so many seconds less to live
    /// then. It counts for each phase by which the clock ticked as often between the two.
    #[tactic(auto, unfolding(crate::specs::Seconds::voted))]
    pub fn vote(&mut self, stored: Timestamp, evicted: Timestamp, elapsed: u32)
        ensures { self.new ≡ voted self.old stored evicted elapsed }
    {
        count_all(&mut self.votes, stored, evicted, elapsed);
        age(&mut self.votes);
        self.best = best(&self.votes);
    }

    /// The server's own second of a time: how often its clock ticked until then, at the phase that the votes tell.
    pub fn second_of(&self, time: Timestamp) -> u32
        ensures { IsSecond self.now time result }
    {
        if self.best as u64 * STEP <= u64::from(time.microseconds) {
            time.seconds
        } else {
            time.seconds.saturating_sub(1)
        }
    }
}
