//! A change is made, and becomes the one that undoes it; a record is turned.
ghost use Rattle.std.specs.Prelude.{◌≡◌, ℕ, ◌+◌, ◌≤◌, ◌++◌, ◌∷◌, [], None, length, map, not, reverse as list_reverse};
ghost use Rattle.rev_model.specs.State.{WellFormed};
ghost use Rattle.rev_model.specs.Move as plain;
ghost use Rattle.rev_model.specs.Move.{Fits, Possible, moved, reverse, turned};
ghost use Rattle.rev_inverse.specs.Seen.{plain_moves, plain_notes};
ghost use Rattle.rev_inverse.specs.Leads.{Leads};
ghost use Rattle.rev_inverse.specs.Record.{plain_change, in_order, moves_in, notes_in};
ghost use Rattle.rev_inverse.specs.Changes.{Enters, Leaves, Links, Unlinks, Revives, Frees, Lays, Lifts};

use crate::changes::Change;
use crate::record::{Record, place_of};
use crate::store::Store;
use rev_model::{Listed, Placed};
use std::alloc::Allocator;
use std::mem::{self, ManuallyDrop};

// The change becomes another. What it was has nothing of its own left, so nothing of it is dropped: to ask which kind
// it was would cost more than to write the new one.
#[inline(always)]
fn set<A: Allocator>(change: &mut Change<A>, next: Change<A>)
    ensures { change.new ≡ next }
{
    let _emptied = ManuallyDrop::new(mem::replace(change, next));
}

impl<A: Allocator> Store<A> {
    // An item enters; the change becomes the one by which it leaves. What a change holds is taken out meanwhile, of
    // each kind by a function of its own: a local that may be of two kinds is copied by single bytes where their fields
    // lie across one another.
    #[inline(always)]
    fn enter_in(&mut self, change: &mut Change<A>)
        requires kind { Enters change.old }
        requires well { WellFormed self.old }
        requires possible { Fits (plain_moves change.old) self.old }
        ensures state { self.new ≡ (turned (plain_moves change.old) self.old).0 }
        ensures reverse { plain_moves change.new ≡ (turned (plain_moves change.old) self.old).1 }
        ensures notes { plain_notes change.new ≡ list_reverse (plain_notes change.old) }
    {
        match mem::replace(change, Change::BumpOut) {
            Change::Enter {
                queue,
                cause,
                chunk,
                class,
                item,
                after,
            } => {
                let under = self.enter(class, queue, chunk, after, item);
                let reverse = Change::Leave {
                    queue,
                    cause,
                    chunk,
                    class,
                    under,
                };
                set(change, reverse);
            }
            _ => unreachable!(),
        }
    }

    // An item leaves; the change becomes the one by which it enters.
    #[inline(always)]
    fn leave_in(&mut self, change: &mut Change<A>)
        requires kind { Leaves change.old }
        requires well { WellFormed self.old }
        requires possible { Fits (plain_moves change.old) self.old }
        ensures state { self.new ≡ (turned (plain_moves change.old) self.old).0 }
        ensures reverse { plain_moves change.new ≡ (turned (plain_moves change.old) self.old).1 }
        ensures notes { plain_notes change.new ≡ list_reverse (plain_notes change.old) }
    {
        match mem::replace(change, Change::BumpOut) {
            Change::Leave {
                queue,
                cause,
                chunk,
                class,
                under,
            } => {
                let (after, item) = self.leave(class, queue, chunk, under);
                let reverse = Change::Enter {
                    queue,
                    cause,
                    chunk,
                    class,
                    item,
                    after,
                };
                set(change, reverse);
            }
            _ => unreachable!(),
        }
    }

    // A new item enters, and the last cas number is exchanged; the change becomes the one that takes both back.
    #[inline(always)]
    fn link_in(&mut self, change: &mut Change<A>)
        requires kind { Links change.old }
        requires well { WellFormed self.old }
        requires possible { Fits (plain_moves change.old) self.old }
        ensures state { self.new ≡ (turned (plain_moves change.old) self.old).0 }
        ensures reverse { plain_moves change.new ≡ (turned (plain_moves change.old) self.old).1 }
        ensures notes { plain_notes change.new ≡ list_reverse (plain_notes change.old) }
    {
        match mem::replace(change, Change::BumpOut) {
            Change::Link {
                queue,
                class,
                chunk,
                item,
                after,
                last_cas,
            } => {
                let under = self.enter(class as usize, queue, chunk, after, item);
                let last_cas = self.set_last_cas(last_cas);
                let reverse = Change::Unlink {
                    queue,
                    class,
                    chunk,
                    under,
                    last_cas,
                };
                set(change, reverse);
            }
            _ => unreachable!(),
        }
    }

    // The last cas number is exchanged, and an item leaves; the change becomes the one that takes both back.
    #[inline(always)]
    fn unlink_in(&mut self, change: &mut Change<A>)
        requires kind { Unlinks change.old }
        requires well { WellFormed self.old }
        requires possible { Fits (plain_moves change.old) self.old }
        ensures state { self.new ≡ (turned (plain_moves change.old) self.old).0 }
        ensures reverse { plain_moves change.new ≡ (turned (plain_moves change.old) self.old).1 }
        ensures notes { plain_notes change.new ≡ list_reverse (plain_notes change.old) }
    {
        match mem::replace(change, Change::BumpOut) {
            Change::Unlink {
                queue,
                class,
                chunk,
                under,
                last_cas,
            } => {
                let last_cas = self.set_last_cas(last_cas);
                let (after, item) = self.leave(class as usize, queue, chunk, under);
                let reverse = Change::Link {
                    queue,
                    class,
                    chunk,
                    item,
                    after,
                    last_cas,
                };
                set(change, reverse);
            }
            _ => unreachable!(),
        }
    }

    // A chunk leaves its free list, and an item enters it; the change becomes the one by which the item leaves.
    #[inline(always)]
    fn revive_in(&mut self, change: &mut Change<A>)
        requires kind { Revives change.old }
        requires well { WellFormed self.old }
        requires possible { Fits (plain_moves change.old) self.old }
        ensures state { self.new ≡ (turned (plain_moves change.old) self.old).0 }
        ensures reverse { plain_moves change.new ≡ (turned (plain_moves change.old) self.old).1 }
        ensures notes { plain_notes change.new ≡ list_reverse (plain_notes change.old) }
    {
        match mem::replace(change, Change::BumpOut) {
            Change::Revive {
                queue,
                cause,
                chunk,
                class,
                item,
                after,
            } => {
                let behind = self.take_from_free(class, chunk);
                let under = self.enter(class, queue, chunk, after, item);
                let reverse = Change::Free {
                    queue,
                    cause,
                    chunk,
                    class,
                    behind,
                };
                match under {
                    None => set(change, reverse),
                    Some(_) => unreachable!(),
                }
            }
            _ => unreachable!(),
        }
    }

    // An item leaves, and its chunk enters its free list; the change becomes the one by which the item enters again.
    #[inline(always)]
    fn free_in(&mut self, change: &mut Change<A>)
        requires kind { Frees change.old }
        requires well { WellFormed self.old }
        requires possible { Fits (plain_moves change.old) self.old }
        ensures state { self.new ≡ (turned (plain_moves change.old) self.old).0 }
        ensures reverse { plain_moves change.new ≡ (turned (plain_moves change.old) self.old).1 }
        ensures notes { plain_notes change.new ≡ list_reverse (plain_notes change.old) }
    {
        match mem::replace(change, Change::BumpOut) {
            Change::Free {
                queue,
                cause,
                chunk,
                class,
                behind,
            } => {
                let (after, item) = self.leave(class, queue, chunk, None);
                self.put_to_free(class, chunk, behind);
                let reverse = Change::Revive {
                    queue,
                    cause,
                    chunk,
                    class,
                    item,
                    after,
                };
                set(change, reverse);
            }
            _ => unreachable!(),
        }
    }

    // A page gets a class and slots; the change becomes the one by which it loses them.
    fn lay_in(&mut self, change: &mut Change<A>)
        requires kind { Lays change.old }
        requires well { WellFormed self.old }
        requires possible { Fits (plain_moves change.old) self.old }
        ensures state { self.new ≡ (turned (plain_moves change.old) self.old).0 }
        ensures reverse { plain_moves change.new ≡ (turned (plain_moves change.old) self.old).1 }
        ensures notes { plain_notes change.new ≡ list_reverse (plain_notes change.old) }
    {
        match mem::replace(change, Change::BumpOut) {
            Change::Lay(page, class, parts, form) => {
                let shelf = self.lay(page, class, parts, form);
                set(change, Change::Lift(page, form, shelf));
            }
            _ => unreachable!(),
        }
    }

    // A page loses its class and slots; the change becomes the one by which it gets them.
    fn lift_in(&mut self, change: &mut Change<A>)
        requires kind { Lifts change.old }
        requires well { WellFormed self.old }
        requires possible { Fits (plain_moves change.old) self.old }
        ensures state { self.new ≡ (turned (plain_moves change.old) self.old).0 }
        ensures reverse { plain_moves change.new ≡ (turned (plain_moves change.old) self.old).1 }
        ensures notes { plain_notes change.new ≡ list_reverse (plain_notes change.old) }
    {
        match mem::replace(change, Change::BumpOut) {
            Change::Lift(page, form, shelf) => {
                let (class, parts) = self.lift(page, form, shelf);
                set(change, Change::Lay(page, class, parts, form));
            }
            _ => unreachable!(),
        }
    }

    // Takes an entry out of its list; the change becomes the one that puts it back.
    #[inline(always)]
    fn take_in(&mut self, change: &mut Change<A>, at: Listed)
        requires well { WellFormed self.old }
        requires possible { Possible (plain.Takes at) self.old }
        ensures state { self.new ≡ moved (plain.Takes at) self.old }
        ensures reverse { plain_moves change.new ≡ reverse (plain.Takes at) self.old ∷ [] }
        ensures notes { plain_notes change.new ≡ None ∷ [] }
    {
        let reverse = Change::Put(self.take(at));
        set(change, reverse);
    }

    // Puts an entry into a list; the change becomes the one that takes it out.
    #[inline(always)]
    fn put_in(&mut self, change: &mut Change<A>, at: Placed)
        requires well { WellFormed self.old }
        requires possible { Possible (plain.Puts at) self.old }
        ensures state { self.new ≡ moved (plain.Puts at) self.old }
        ensures reverse { plain_moves change.new ≡ reverse (plain.Puts at) self.old ∷ [] }
        ensures notes { plain_notes change.new ≡ None ∷ [] }
    {
        let reverse = Change::Take(self.put(at));
        set(change, reverse);
    }

    // The entry at the back of the bump queue leaves; the change becomes the one by which it enters there.
    fn bump_back_in(&mut self, change: &mut Change<A>)
        requires well { WellFormed self.old }
        requires possible { Possible plain.BumpsBack self.old }
        ensures state { self.new ≡ moved plain.BumpsBack self.old }
        ensures reverse { plain_moves change.new ≡ reverse plain.BumpsBack self.old ∷ [] }
        ensures notes { plain_notes change.new ≡ None ∷ [] }
    {
        let reverse = Change::BumpIn(self.bump_back());
        set(change, reverse);
    }

    // The entry in front of the bump queue leaves; the change becomes the one by which it enters there.
    fn bump_out_in(&mut self, change: &mut Change<A>)
        requires well { WellFormed self.old }
        requires possible { Possible plain.BumpsOut self.old }
        ensures state { self.new ≡ moved plain.BumpsOut self.old }
        ensures reverse { plain_moves change.new ≡ reverse plain.BumpsOut self.old ∷ [] }
        ensures notes { plain_notes change.new ≡ None ∷ [] }
    {
        let reverse = Change::BumpFront(self.bump_out());
        set(change, reverse);
    }

    // Makes a change, which then is the one that undoes it. It is read and written where it stands. Who makes a change
    // names its kind: inlined there, with all that it calls, one arm of the match is left. An arm that makes a change
    // anew is a function of its own, since the parts of all arms are cleared where `exchange` begins.
    #[inline(always)]
    fn turn_change(&mut self, change: &mut Change<A>)
        requires well { WellFormed self.old }
        requires possible { Fits (plain_moves change.old) self.old }
        ensures state { self.new ≡ (turned (plain_moves change.old) self.old).0 }
        ensures reverse { plain_moves change.new ≡ (turned (plain_moves change.old) self.old).1 }
        ensures notes { plain_notes change.new ≡ list_reverse (plain_notes change.old) }
    {
        match change {
            Change::Enter { .. } => self.enter_in(change),
            Change::Leave { .. } => self.leave_in(change),
            Change::Link { .. } => self.link_in(change),
            Change::Unlink { .. } => self.unlink_in(change),
            Change::Revive { .. } => self.revive_in(change),
            Change::Free { .. } => self.free_in(change),
            Change::Lay(_, _, _, _) => self.lay_in(change),
            Change::Lift(_, _, _) => self.lift_in(change),
            Change::Requeue {
                class,
                after,
                chunk,
                from,
                to,
            } => {
                *after = self.requeue(*class, *from, *to, *chunk, *after);
                mem::swap(from, to);
            }
            Change::Take(at) => {
                let at = *at;
                self.take_in(change, at);
            }
            Change::Put(at) => {
                let at = *at;
                self.put_in(change, at);
            }
            Change::Touch(chunk, next) => *next = self.touch(*chunk, *next),
            Change::Shift(from, to) => {
                self.shift(*from, *to);
                mem::swap(from, to);
            }
            Change::Count(class, counter, value) => *value = self.count(*class, *counter, *value),
            Change::LastCas(cas) => *cas = self.set_last_cas(*cas),
            Change::Timing(timing) => *timing = self.set_timing(*timing),
            Change::Mover(mover) => *mover = self.set_mover(*mover),
            Change::Settings(settings) => *settings = self.set_settings(*settings),
            Change::BumpIn(entry) => {
                self.bump_in(*entry);
                set(change, Change::BumpBack);
            }
            Change::BumpBack => self.bump_back_in(change),
            Change::BumpOut => self.bump_out_in(change),
            Change::BumpFront(entry) => {
                self.bump_front(*entry);
                set(change, Change::BumpOut);
            }
            Change::Marks(classes) => {
                let classes = *classes;
                self.mark_all(classes);
                set(change, Change::Unmarks(classes));
            }
            Change::Unmarks(classes) => {
                let classes = *classes;
                self.unmark_all(classes);
                set(change, Change::Marks(classes));
            }
        }
    }

    /// Makes a change, and adds the one that undoes it to the record. It takes no memory.
    #[inline(always)]
    pub fn make(&mut self, next: Change<A>, undo: &mut Record<A>)
        requires well { WellFormed self.old }
        requires possible { Fits (plain_moves next) self.old }
        requires room { length undo.old.moves + length (plain_moves next) ≤ undo.old.room }
        ensures state { self.new ≡ (turned (plain_moves next) self.old).0 }
        ensures moves { undo.new.moves ≡ undo.old.moves ++ (turned (plain_moves next) self.old).1 }
        ensures notes { undo.new.notes ≡ undo.old.notes ++ list_reverse (plain_notes next) }
        ensures room { undo.new.room ≡ undo.old.room }
        ensures well { WellFormed self.new }
        ensures leads { Leads undo.old self.old undo.new self.new }
    {
        let mut change = next;
        self.turn_change(&mut change);
        undo.push(change);
    }

    /// Plays the changes of a record that stand in a list, or the other way round there, from the last to the first,
    /// each where it stands. The list then holds the reverses, and what was their order is turned over. It takes no
    /// memory.
    pub fn turn_changes(&mut self, changes: &mut [Change<A>], is_turned: bool)
        requires well { WellFormed self.old }
        requires fits { Fits (moves_in (in_order is_turned (map plain_change changes.old))) self.old }
        ensures state { self.new ≡ (turned (moves_in (in_order is_turned (map plain_change changes.old))) self.old).0 }
        ensures moves { moves_in (in_order (not is_turned) (map plain_change changes.new)) ≡ (turned (moves_in (in_order is_turned (map plain_change changes.old))) self.old).1 }
        ensures notes { notes_in (in_order (not is_turned) (map plain_change changes.new)) ≡ list_reverse (notes_in (in_order is_turned (map plain_change changes.old))) }
        ensures length { length changes.new ≡ length changes.old }
        ensures well { WellFormed self.new }
    {
        let count = changes.len();
        let mut place = count;
        while place > 0 {
            place -= 1;
            let at = place_of(is_turned, place, count);
            self.turn_change(&mut changes[at]);
        }
    }

    /// Plays the record from its last move to its first. The record then holds the reverses, each with the note that it
    /// had, and turns the store back. It takes no memory.
    pub fn turn(&mut self, undo: &mut Record<A>)
        requires well { WellFormed self.old }
        requires fits { Fits undo.old.moves self.old }
        ensures state { self.new ≡ (turned undo.old.moves self.old).0 }
        ensures moves { undo.new.moves ≡ (turned undo.old.moves self.old).1 }
        ensures notes { undo.new.notes ≡ list_reverse undo.old.notes }
        ensures room { undo.new.room ≡ undo.old.room }
        ensures well { WellFormed self.new }
        ensures fits { Fits undo.new.moves self.new }
        ensures back { turned undo.new.moves self.new ≡ (self.old, undo.old.moves) }
    {
        let mut place = undo.len();
        while place > 0 {
            place -= 1;
            self.turn_change(undo.change_mut(place));
        }
        undo.turn_over();
    }
}
