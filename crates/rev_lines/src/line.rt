//! The line of any step.
ghost use Rattle.std.specs.Prelude.{◌≡◌, ◌++◌, IfOk, OnOk};
ghost use Rattle.rev_model.specs.Actor.{CrawlStart, TempTtl};
ghost use Rattle.rev_requests.specs.Plain.{plain_actor, plain_step};
ghost use Rattle.rev_script.specs.Steps.{tune_step};
ghost use Rattle.rev_lines.specs.Lines.{Put, tune_text};

use crate::client::put_client;
use crate::text::{
    put_factor, put_number, put_queue, put_signed_of, put_two_numbers, put_word, put_words,
};
use itoa::Buffer;
use rev_model::ClassSet;
use rev_requests::{ActorStep, Step, Tune};
use std::alloc::{AllocError, Allocator};

// Writes the line that sends the crawler out, if it has one.
fn put_crawl_start<A: Allocator>(
    out: &mut Vec<u8, A>,
    classes: ClassSet,
) -> Result<bool, AllocError>
    ensures { IfOk result (λ told. Put out.old.items out.new.items told (CrawlStart classes)) }
{
    match classes {
        ClassSet::All => {
            put_words(out, b"lru_crawler", &[b"crawl", b"all"])?;
            Ok(true)
        }
        ClassSet::These(_) => Ok(false),
    }
}

// Writes the line of TEMP's bound.
fn put_temp_ttl<A: Allocator>(out: &mut Vec<u8, A>, seconds: i32) -> Result<bool, AllocError>
    ensures { IfOk result (λ told. Put out.old.items out.new.items told (TempTtl seconds)) }
{
    put_signed_of(out, b"lru", b"temp_ttl", seconds)?;
    Ok(true)
}

// Writes the line of an actor's step, if it has one.
fn put_actor<A: Allocator>(out: &mut Vec<u8, A>, step: ActorStep) -> Result<bool, AllocError>
    ensures { IfOk result (λ told. Put out.old.items out.new.items told (plain_actor step)) }
{
    match step {
        ActorStep::Pull { class, queue } => {
            put_queue(out, b"~pull", class, queue)?;
            Ok(true)
        }
        ActorStep::Bump => {
            put_words(out, b"~bump", &[])?;
            Ok(true)
        }
        ActorStep::StartCrawl(classes) => put_crawl_start(out, classes),
        ActorStep::Crawl { class, queue } => {
            put_queue(out, b"~crawl", class, queue)?;
            Ok(true)
        }
        ActorStep::Reassign { source, target } => {
            put_two_numbers(out, b"slabs", b"reassign", source, target)?;
            Ok(true)
        }
        ActorStep::Advance => {
            put_words(out, b"~move", &[])?;
            Ok(true)
        }
        ActorStep::Clock(now) => {
            put_number(out, b"@", now)?;
            Ok(true)
        }
        ActorStep::TempTtl(seconds) => put_temp_ttl(out, seconds),
    }
}

// Writes shares and age factors: `lru tune HOT WARM HOT_FACTOR WARM_FACTOR`, shares in per cent.
fn put_numbers<A: Allocator>(out: &mut Vec<u8, A>, tune: Tune) -> Result<(), AllocError>
    ensures { OnOk result (out.new.items ≡ out.old.items ++ tune_text tune) }
{
    let mut hot = Buffer::new();
    let mut warm = Buffer::new();
    out.extend_from_slice(b"lru")?;
    put_word(out, b"tune")?;
    put_word(out, hot.format(tune.hot_share()).as_bytes())?;
    put_word(out, warm.format(tune.warm_share()).as_bytes())?;
    put_factor(out, tune.hot_factor())?;
    put_factor(out, tune.warm_factor())?;
    out.extend_from_slice(b"\r\n")
}

// Writes the line of shares and age factors.
fn put_tune<A: Allocator>(out: &mut Vec<u8, A>, tune: Tune) -> Result<bool, AllocError>
    ensures { IfOk result (λ told. Put out.old.items out.new.items told (tune_step tune)) }
{
    let _within = tune.hot_share();
    put_numbers(out, tune)?;
    Ok(true)
}

/// Writes the line of a step behind what `out` holds, if the step has one; else nothing. The answer is whether it has.
/// A step has none where its data are more than 1048576 bytes or not known, and where it sends the crawler to some of
/// the classes.
///
/// What a script reader makes of the line is just this step, whatever follows it.
///
/// Err: memory was refused.
pub fn put_step<A: Allocator, B: Allocator>(
    out: &mut Vec<u8, A>,
    step: &Step<B>,
) -> Result<bool, AllocError>
    ensures { IfOk result (λ told. Put out.old.items out.new.items told (plain_step step.now)) }
{
    match step {
        Step::Client(step) => put_client(out, step),
        Step::Actor(step) => put_actor(out, *step),
        Step::Tune(tune) => put_tune(out, *tune),
    }
}
