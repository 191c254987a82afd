//! Each player plays its steps on a thread of its own.
ghost use Rattle.std.specs.Prelude.{◌≡◌, ◌≤◌, ◌<◌, ℕ, [], length, map, slice_index_or, vec_len, vec_capacity, IfOk, IfErr};
ghost use Rattle.rev_requests.specs.Plain.{plain_step};
ghost use Rattle.rev_recorder.specs.Running.{AllRan, JobRan, RunsTo, asks, asked, answers};

use crate::hand::Hand;
use crate::recorder::{RecordFault, Recorder};
use rev_requests::Step;
use std::alloc::{AllocError, Global};
use std::collections::VecDeque;
use std::sync::Wait;
use std::thread;
use std::thread::Threads;

/// What is called round each step of a player, by the player's thread and outside the lock.
pub trait Gate {
    /// Called before the player plays step `index` of its steps, from 0.
    fn before(&self, player: usize, index: usize);

    /// Called after that step was answered, a refusal too.
    fn after(&self, player: usize, index: usize);
}

/// A hand, the steps that it has not played, and how it ended.
#[derive(Drop)]
pub(crate) struct Job {
    pub(crate) hand: Hand,
    pub(crate) steps: VecDeque<Step<Global>>,
    pub(crate) result: Result<(), RecordFault>,
}

/// Plays the steps of each hand, on as many threads as there are hands; where no thread can be made, one hand after
/// another. A hand stops at its first refusal, which is its result, and the steps that it did not play are dropped.
/// The hands come back in the order they came.
///
/// Err: a growth was refused. Nothing was started, and all is handed back.
pub fn run_actors<R: Threads + Wait + Sync, G: Gate + Sync>(
    rt: &R,
    recorder: &Recorder,
    work: Vec<(Hand, Vec<Step<Global>>)>,
    gate: &G,
) -> Result<Vec<(Hand, Result<(), RecordFault>)>, (AllocError, Vec<(Hand, Vec<Step<Global>>)>)>
    ensures ok { IfOk result (λ done. AllRan recorder.now.seal work.items done.items) }
    ensures err { IfErr result (λ e. e.1 ≡ work) }
{
    let alloc = *work.allocator();
    let count = work.len();
    let Ok(jobs) = Vec::with_capacity(alloc, count) else {
        return Err((AllocError, work));
    };
    let Ok(done) = Vec::with_capacity(alloc, count) else {
        return Err((AllocError, work));
    };
    let mut jobs = into_jobs(work, jobs);
    run_jobs(rt, recorder, jobs.as_mut_slice(), gate);
    Ok(into_results(jobs, done))
}

/// Moves the hands and their steps into jobs.
fn into_jobs(work: Vec<(Hand, Vec<Step<Global>>)>, mut jobs: Vec<Job>) -> Vec<Job>
    requires empty { jobs.items ≡ [] }
    requires room { vec_len work ≤ vec_capacity jobs }
    ensures { map asks result.items ≡ map asked work.items }
{
    let mut rest = VecDeque::from_vec(work);
    while let Some((hand, steps)) = rest.pop_front() {
        jobs.push_reserved(Job {
            hand,
            steps: VecDeque::from_vec(steps),
            result: Ok(()),
        });
    }
    jobs
}

/// Runs each job on a thread of its own, where one can be made.
fn run_jobs<R: Threads + Wait + Sync, G: Gate + Sync>(
    rt: &R,
    recorder: &Recorder,
    jobs: &mut [Job],
    gate: &G,
)
    ensures { (i : ℕ) (d : _) → i < length jobs.old → JobRan recorder.now.seal (slice_index_or jobs.old i d) (slice_index_or jobs.new i d) }
{
    let threads = jobs.len();
    if threads != 0 {
        thread::for_each_mut(rt, jobs, threads, &|_, job| job.run(rt, recorder, gate));
    }
}

/// Moves the hands and their results out of the jobs.
fn into_results(
    jobs: Vec<Job>,
    mut done: Vec<(Hand, Result<(), RecordFault>)>,
) -> Vec<(Hand, Result<(), RecordFault>)>
    requires empty { done.items ≡ [] }
    requires room { vec_len jobs ≤ vec_capacity done }
    ensures { result.items ≡ map answers jobs.items }
{
    let mut rest = VecDeque::from_vec(jobs);
    while let Some(job) = rest.pop_front() {
        let Job {
            hand,
            steps: _,
            result,
        } = job;
        done.push_reserved((hand, result));
    }
    done
}

impl Job {
    /// Plays the steps of the job.
    fn run<R: Wait, G: Gate>(&mut self, rt: &R, recorder: &Recorder, gate: &G)
        ensures { JobRan recorder.now.seal self.old self.new }
    {
        self.result = play_all(rt, recorder, &mut self.hand, &mut self.steps, gate);
    }
}

/// Plays steps in order, up to the first refusal.
fn play_all<R: Wait, G: Gate>(
    rt: &R,
    recorder: &Recorder,
    hand: &mut Hand,
    steps: &mut VecDeque<Step<Global>>,
    gate: &G,
) -> Result<(), RecordFault>
    ensures { RunsTo recorder.now.seal (map plain_step steps.old.items) hand.old result hand.new }
{
    let player = hand.player();
    let count = steps.len();
    while let Some(step) = steps.pop_front() {
        let index = count - steps.len() - 1;
        gate.before(player, index);
        let answer = recorder.play(rt, hand, step);
        gate.after(player, index);
        if let Err((fault, _)) = answer {
            return Err(fault);
        }
    }
    Ok(())
}
