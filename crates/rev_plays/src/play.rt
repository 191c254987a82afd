//! Steps played on a session, with their answers.
ghost use Rattle.std.specs.Prelude.{◌≡◌, ◌++◌, OnOk, IfOk};
ghost use Rattle.rev_model.specs.Sound.{Sound};
ghost use Rattle.rev_steps.specs.Plain.{plain_step};
ghost use Rattle.rev_texts.specs.Texts.{item_of, found_value};
ghost use Rattle.rev_script.specs.Steps.{get};
ghost use Rattle.rev_plays.specs.Replies.{state_of, reply, after_step, reply_text, value_of, values, after_gets, was_hit};

use rev_inverse::Store;
use rev_items::Key;
use rev_model::Outcome;
use rev_script::steps::get_step;
use rev_steps::Step;
use rev_texts::text::{put_outcome, put_output, put_value};
use rev_undotree::{PlayFault, Played, Session};
use std::alloc::{AllocError, Allocator};

/// How a play ended: with its step's outcome, or refused by a limit of the tree.
#[derive(Clone, Copy)]
pub(crate) enum Reply {
    Played(Outcome),
    TooManyNodes,
    TooDeep,
}

// Why a step was refused; the step is let go.
fn why<A: Allocator>(refused: (PlayFault, Step<A>)) -> PlayFault
    ensures { result ≡ refused.0 }
{
    let (fault, _step) = refused;
    fault
}

// Plays a step for which there was no memory once more, where some can be given back.
#[cold]
fn play_narrowed<A: Allocator + Clone>(
    session: &mut Session<A>,
    step: Step<A>,
) -> Result<Reply, AllocError>
    ensures reply { IfOk result (λ r. r ≡ reply session.old (plain_step step)) }
    ensures session { OnOk result (session.new ≡ after_step session.old (plain_step step)) }
{
    if !session.narrow() {
        return Err(AllocError);
    }
    match session.play_once(step) {
        Ok(Played { outcome, .. }) => Ok(Reply::Played(outcome)),
        Err(refused) => match why(refused) {
            PlayFault::TooManyNodes => Ok(Reply::TooManyNodes),
            PlayFault::TooDeep => Ok(Reply::TooDeep),
            PlayFault::Memory => Err(AllocError),
        },
    }
}

/// Plays a step. At an error the session is as it was.
#[inline(always)]
pub(crate) fn play<A: Allocator + Clone>(
    session: &mut Session<A>,
    step: Step<A>,
) -> Result<Reply, AllocError>
    ensures reply { IfOk result (λ r. r ≡ reply session.old (plain_step step)) }
    ensures session { OnOk result (session.new ≡ after_step session.old (plain_step step)) }
{
    match session.play_once(step) {
        Ok(Played { outcome, .. }) => Ok(Reply::Played(outcome)),
        Err((PlayFault::Memory, step)) => play_narrowed(session, step),
        Err(refused) => match why(refused) {
            PlayFault::TooManyNodes => Ok(Reply::TooManyNodes),
            PlayFault::TooDeep => Ok(Reply::TooDeep),
            PlayFault::Memory => Err(AllocError),
        },
    }
}

/// Writes what a play is answered: `noreply` drops the outcome, and not a refusal.
pub(crate) fn put_reply<A: Allocator>(
    answer: &mut Vec<u8, A>,
    noreply: bool,
    reply: Reply,
) -> Result<(), AllocError>
    ensures { OnOk result (answer.new.items ≡ answer.old.items ++ reply_text noreply reply) }
{
    match reply {
        Reply::Played(outcome) => {
            if noreply {
                Ok(())
            } else {
                put_outcome(answer, outcome)
            }
        }
        Reply::TooManyNodes => put_output(answer, b"SERVER_ERROR too many nodes"),
        Reply::TooDeep => put_output(answer, b"SERVER_ERROR too many nested forks"),
    }
}

/// Plays the step of a line, and writes what is answered.
#[inline(always)]
pub fn play_line<A: Allocator + Clone>(
    session: &mut Session<A>,
    step: Step<A>,
    noreply: bool,
    answer: &mut Vec<u8, A>,
) -> Result<(), AllocError>
    ensures text { OnOk result (answer.new.items ≡ answer.old.items ++ reply_text noreply (reply session.old (plain_step step))) }
    ensures session { OnOk result (session.new ≡ after_step session.old (plain_step step)) }
{
    let reply = play(session, step)?;
    put_reply(answer, noreply, reply)
}

// Writes the value of a key's item, dead or not, where there is one.
fn put_found<A: Allocator + Clone>(
    store: &Store<A>,
    key: &Key<A>,
    with_cas: bool,
    answer: &mut Vec<u8, A>,
) -> Result<(), AllocError>
    requires { Sound store.now }
    ensures { OnOk result (answer.new.items ≡ answer.old.items ++ found_value with_cas (item_of store.now key.now)) }
{
    match store.item(key) {
        None => Ok(()),
        Some((_, item)) => put_value(answer, with_cas, item),
    }
}

fn was_hit(reply: Reply) -> bool
    ensures { result ≡ was_hit reply }
{
    matches!(reply, Reply::Played(Outcome::Hit { .. }))
}

// Plays the get of one key, and writes its value at a hit.
fn get_one<A: Allocator + Clone>(
    session: &mut Session<A>,
    key: Key<A>,
    with_cas: bool,
    answer: &mut Vec<u8, A>,
) -> Result<Reply, AllocError>
    ensures reply { IfOk result (λ r. r ≡ reply session.old (get key)) }
    ensures session { OnOk result (session.new ≡ after_step session.old (get key)) }
    ensures text { IfOk result (λ r. answer.new.items ≡ answer.old.items ++ value_of with_cas r (state_of session.old) key) }
{
    let start = answer.len();
    put_found(session.store(), &key, with_cas, answer)?;
    let reply = play(session, get_step(key))?;
    if !was_hit(reply) {
        answer.truncate(start);
    }
    Ok(reply)
}

/// Plays a get for each of the keys in order, and writes the values of the hits and `END`. A refusal
/// ends the line.
pub fn put_values<A: Allocator + Clone>(
    session: &mut Session<A>,
    keys: Vec<Key<A>, A>,
    with_cas: bool,
    answer: &mut Vec<u8, A>,
) -> Result<(), AllocError>
    ensures text { OnOk result (answer.new.items ≡ answer.old.items ++ values with_cas session.old keys.items) }
    ensures session { OnOk result (session.new ≡ after_gets session.old keys.items) }
{
    for key in keys {
        match get_one(session, key, with_cas, answer)? {
            Reply::Played(_) => {}
            Reply::TooManyNodes => return put_output(answer, b"SERVER_ERROR too many nodes"),
            Reply::TooDeep => return put_output(answer, b"SERVER_ERROR too many nested forks"),
        }
    }
    put_output(answer, b"END")
}
