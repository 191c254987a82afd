//! What happened in each slot of a path, in one pass over its rows.
ghost use Rattle.std.specs.Prelude.{◌≡◌, ◌<◌, ◌^◌, ◌+◌, ℕ, IfOk, cond, get_or, length, max, nat_eq};
ghost use Rattle.rev_figures.specs.Classes.{with_cause, more};
ghost use Rattle.rev_figures.specs.Slots.{slot_of, slot_counts, slot_moves};
ghost use Rattle.rev_figures.specs.declared.tables.CauseCounts.{CauseCounts};

use crate::by_class::{more, with_cause};
use crate::path::{Leaving, PageMove, Path};
use crate::tables::{CauseCounts, NO_CAUSES};
use std::alloc::{AllocError, Allocator};

/// Which slot a step is in, from 0; steps are counted from 1.
fn slot_of(step: usize, slot_length: usize) -> usize
    ensures { result ≡ slot_of slot_length step }
{
    step.saturating_sub(1) / slot_length.max(1)
}

/// Counts a key that left in a slot, if there is the slot.
fn count_leaving(counts: &mut [CauseCounts], slot: usize, leaving: &Leaving)
    ensures count { length counts.new ≡ length counts.old }
    ensures counts { (k : ℕ) (d : CauseCounts) → k < length counts.old → get_or counts.new k d ≡ cond (nat_eq k slot) (with_cause (get_or counts.old k d) leaving.now) (get_or counts.old k d) }
{
    if slot < counts.len() {
        counts[slot] = with_cause(counts[slot], leaving);
    }
}

fn count_leavings<A: Allocator>(
    leavings: &[Leaving],
    slot_length: usize,
    slots: usize,
    alloc: A,
) -> Result<Vec<CauseCounts, A>, AllocError>
    requires { length leavings.now < 2 ^ 63 }
    ensures count { IfOk result (λ counts. length counts.items ≡ slots) }
    ensures counts { IfOk result (λ counts. (k : ℕ) (d : CauseCounts) → k < slots → get_or counts.items k d ≡ slot_counts slot_length k leavings.now) }
{
    let mut counts = vec![in alloc; NO_CAUSES; slots]?;
    for leaving in leavings {
        count_leaving(&mut counts, slot_of(leaving.step, slot_length), leaving);
    }
    Ok(counts)
}

/// How many keys left by each cause in each of so many slots.
///
/// Err: a growth was refused.
pub fn left_by_slot<A: Allocator + Clone>(
    path: &Path<A>,
    slots: usize,
    alloc: &A,
) -> Result<Vec<CauseCounts, A>, AllocError>
    ensures count { IfOk result (λ counts. length counts.items ≡ slots) }
    ensures counts { IfOk result (λ counts. (k : ℕ) (d : CauseCounts) → k < slots → get_or counts.items k d ≡ slot_counts path.now.slot_length k path.now.leavings.items) }
{
    count_leavings(&path.leavings, path.slot_length, slots, alloc.clone()?)
}

/// Counts a page that moved in a slot, if there is the slot.
fn count_move(counts: &mut [usize], slot: usize)
    ensures count { length counts.new ≡ length counts.old }
    ensures counts { (k : ℕ) (d : ℕ) → k < length counts.old → get_or counts.new k d ≡ more (nat_eq k slot) (get_or counts.old k d) }
{
    if slot < counts.len() {
        counts[slot] = more(true, counts[slot]);
    }
}

fn count_moves<A: Allocator>(
    moves: &[PageMove],
    slot_length: usize,
    slots: usize,
    alloc: A,
) -> Result<Vec<usize, A>, AllocError>
    requires { length moves.now < 2 ^ 63 }
    ensures count { IfOk result (λ counts. length counts.items ≡ slots) }
    ensures counts { IfOk result (λ counts. (k : ℕ) (d : ℕ) → k < slots → get_or counts.items k d ≡ slot_moves slot_length k moves.now) }
{
    let mut counts = vec![in alloc; 0; slots]?;
    for moved in moves {
        count_move(&mut counts, slot_of(moved.step, slot_length));
    }
    Ok(counts)
}

/// How many pages moved in each of so many slots.
///
/// Err: a growth was refused.
pub fn moves_by_slot<A: Allocator + Clone>(
    path: &Path<A>,
    slots: usize,
    alloc: &A,
) -> Result<Vec<usize, A>, AllocError>
    ensures count { IfOk result (λ counts. length counts.items ≡ slots) }
    ensures counts { IfOk result (λ counts. (k : ℕ) (d : ℕ) → k < slots → get_or counts.items k d ≡ slot_moves path.now.slot_length k path.now.moves.items) }
{
    count_moves(&path.moves, path.slot_length, slots, alloc.clone()?)
}
