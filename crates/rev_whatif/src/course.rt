//! Trials under way: a trace is fed to them in parts, and what they counted is told at its end.
ghost use Rattle.std.specs.Prelude.{◌≡◌, ◌++◌, ◌<◌, [], ℕ, List, Ok, IfOk, OnOk, length, map, slice_index_or};
ghost use Rattle.rev_model.specs.Actor.{Step as PlainStep};
ghost use Rattle.rev_requests.specs.Plain.{plain_step};
ghost use Rattle.rev_whatif.specs.Settings.{fault_with};
ghost use Rattle.rev_whatif.specs.Trials.{path_steps, first_run, course_by, course_of, courses_of, trial_by, trial_of};

use crate::path::steps;
use crate::run::Run;
use crate::setting::{Setting, SettingFault};
use crate::trial::Trial;
use rev_classes::Config;
use rev_requests::Step;
use rev_undotree::Session;
use std::alloc::{AllocError, Global};
use std::marker::Model;
use std::thread::Threads;
use std::{mem, thread};

/// A trial under way: its setting, and the store on which the trace is tried, or why no cache has the setting.
#[derive(Drop)]
pub struct Course {
    pub setting: Setting,
    pub run: Result<Run, SettingFault>,
}

impl Course {
    /// A trial of which no step is played.
    ///
    /// Err: a growth was refused.
    fn open(alloc: Global, config: &Config, setting: Setting) -> Result<Course, AllocError>
        ensures { IfOk result (λ course. course ≡ course_of config.entry.now [] setting) }
    {
        let run = match setting.applied_to(config) {
            Ok((config, tune)) => Ok(Run::open(alloc, config, tune)?),
            Err(fault) => Err(fault),
        };
        Ok(Course { setting, run })
    }

    /// The trial once these steps are played, if a cache has its setting.
    ///
    /// Err: a growth was refused.
    fn fed(self, steps: &[&Step<Global>]) -> Result<Course, AllocError>
        ensures { IfOk result (λ course. course ≡ course_by (map (λ step. plain_step step.now) steps.now) self) }
    {
        let Course { setting, run } = self;
        match run {
            Ok(mut run) => {
                run.play_all(steps)?;
                Ok(Course {
                    setting,
                    run: Ok(run),
                })
            }
            Err(fault) => Ok(Course {
                setting,
                run: Err(fault),
            }),
        }
    }

    /// What is told of it.
    fn told(&self) -> Trial
        ensures { result ≡ trial_by self.now }
    {
        Trial {
            setting: self.setting,
            outcome: match &self.run {
                Ok(run) => Ok(run.counts()),
                Err(fault) => Err(*fault),
            },
        }
    }
}

/// All trials once these steps are played, each on a thread of its own where one can be made.
///
/// Err: a growth was refused.
fn fed_each<R: Threads + Sync>(
    rt: &R,
    courses: Vec<Course>,
    steps: &[&Step<Global>],
) -> Result<Vec<Result<Course, AllocError>>, AllocError>
    ensures count { IfOk result (λ results. length results.items ≡ length courses.items) }
    ensures each { IfOk result (λ results. (i : ℕ) (d : _) (x : _) → i < length courses.items → IfOk (slice_index_or results.items i d) (λ course. course ≡ course_by (map (λ step. plain_step step.now) steps.now) (slice_index_or courses.items i x))) }
{
    thread::map_vec(rt, courses, &|course| course.fed(steps))
}

/// The trials, if none lacked memory.
///
/// Err: a growth was refused.
fn all_done(
    results: Vec<Result<Course, AllocError>>,
    alloc: Global,
) -> Result<Vec<Course>, AllocError>
    ensures { IfOk result (λ courses. map Ok courses.items ≡ results.items) }
{
    let mut courses = Vec::with_capacity(alloc, results.len())?;
    for result in results {
        courses.push(result?)?;
    }
    Ok(courses)
}

/// What is told of each trial.
///
/// Err: a growth was refused.
fn told_each(courses: &[Course], alloc: Global) -> Result<Vec<Trial>, AllocError>
    ensures { IfOk result (λ trials. trials.items ≡ map trial_by courses.now) }
{
    let mut trials = Vec::with_capacity(alloc, courses.len())?;
    for course in courses {
        trials.push(course.told())?;
    }
    Ok(trials)
}

/// Trials under way, one of each of some settings: the same trace is tried on an empty store that has the configuration
/// with this one setting. It is fed in parts, one behind another, so it may have any number of steps.
///
/// Steps of `~evict` are left out: by them a log says what made way in the cache that was recorded.
///
/// A step that names a class by its number names the class of that number in the trial's own table of classes, and is
/// answered as it is there.
///
/// A trial holds a store, whose data may be those of the steps that it was fed; it keeps no node and no record.
#[derive(Drop)]
pub struct Trials {
    courses: Vec<Course>,
}

impl Model for Trials {
    ghost use Rattle.std.specs.Prelude.{List};
    ghost use Rattle.std.specs.Coded.{codes};
    ghost use Rattle.rev_model.specs.Codes.{coded_contents, coded_keys};
    ghost use Rattle.rev_whatif.specs.declared.course.Course.{Course};

    ghost Value = { List Course };

    ghost coded = { Prim.hlevel (codes, coded_contents, coded_keys) };

    ghost view = { λ t. t.courses.items };
}

impl Trials {
    /// A trial of each setting, in their order. No step is played.
    ///
    /// Err: a growth was refused.
    pub fn open(alloc: Global, config: &Config, settings: &[Setting]) -> Result<Trials, AllocError>
        ensures { IfOk result (λ trials. trials ≡ courses_of config.entry.now [] settings.now) }
    {
        let mut courses = Vec::with_capacity(alloc, settings.len())?;
        for setting in settings {
            courses.push(Course::open(alloc, config, *setting)?)?;
        }
        Ok(Trials { courses })
    }

    /// Plays the steps on the way from the session's root to its current node, behind those that were fed before. What
    /// led to the root is not played. The session is only read.
    ///
    /// Each trial has a thread of its own, where one can be made, and counts what it would count alone.
    ///
    /// Err: a growth was refused, and no trial is left.
    pub fn feed<R: Threads + Sync>(
        &mut self,
        rt: &R,
        session: &Session<Global>,
    ) -> Result<(), AllocError>
        ensures { OnOk result ((config : Config) (fed : List PlainStep) (settings : List Setting) → self.old ≡ courses_of config fed settings → self.new ≡ courses_of config (fed ++ path_steps session.now.rows session.now.current) settings) }
    {
        let alloc = session.store().alloc()?;
        let steps = steps(session)?;
        let courses = mem::replace(&mut self.courses, Vec::new(alloc));
        let results = fed_each(rt, courses, steps.as_slice())?;
        self.courses = all_done(results, alloc)?;
        Ok(())
    }

    /// What is told of each, in the order of the settings.
    ///
    /// Err: a growth was refused.
    pub fn told(&self, alloc: Global) -> Result<Vec<Trial>, AllocError>
        ensures { IfOk result (λ trials. (config : Config) (fed : List PlainStep) (settings : List Setting) → self.now ≡ courses_of config fed settings → trials.items ≡ map (trial_of config fed) settings) }
    {
        told_each(&self.courses, alloc)
    }
}
