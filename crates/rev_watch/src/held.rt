//! Lines by rising numbers, as a window holds them.
ghost use Rattle.std.specs.Prelude.{◌≡◌, ◌<◌, ◌-◌, ℕ, [], ◌∷◌, length, true, false, IfOk, OnOk, OnErr, IfSome, IfNone, slice_index_or};
ghost use Rattle.std.specs.BTreeMap.{insert_entry};
ghost use Rattle.std.specs.Ordering.{nat_cmp};
ghost use Rattle.rev_watch.specs.Held.{IsNear, is_first};
ghost use Rattle.rev_watch.specs.Window.{is_held};

use crate::strays::Strays;
use std::alloc::{AllocError, Allocator};
use std::collections::VecDeque;
use std::marker::Model;

/// How many lines of the run are moved at most to let in another one (this project's own figure: most lines that are
/// out of order have to go back by a few).
const NEAR: usize = 64;

/// Lines by rising numbers. Most come nearly in the order of their numbers: these stand in a run, and only the others,
/// the strays, in a tree.
#[derive(Drop)]
pub struct HeldLines<T, A: Allocator> {
    run: VecDeque<(u64, T), A>,
    strays: Strays<T, A>,
}

impl<T, A: Allocator> Model for HeldLines<T, A> {
    ghost use Rattle.std.specs.Prelude.{ℕ, List};
    ghost use Rattle.rev_watch.specs.Held.{together, IsRun};

    ghost Value = { List (ℕ × T) };

    ghost view = { λ h. together h.run.items h.strays };

    ghost invariant = { λ h. IsRun h.run.items h.strays };
}

// Whether a number is above all of a run.
fn is_above<T, A: Allocator>(number: u64, run: &VecDeque<(u64, T), A>) -> bool
    ensures { result ≡ true → (d : ℕ × T) → 0 < length run.now.items → (slice_index_or run.now.items (length run.now.items - 1) d).0 < number }
{
    match run.back() {
        None => true,
        Some(last) => last.0 < number,
    }
}

// The place in the run of a number that it does not hold, where few lines stand behind that. Most lines that are out of
// order go back by a few, and the last lines are at hand.
fn place_near<T, A: Allocator>(number: u64, run: &VecDeque<(u64, T), A>) -> Option<usize>
    ensures { IfSome result (IsNear run.now.items number) }
{
    let mut place = run.len();
    'lines: while place > 0 {
        let before = run[place - 1].0;
        if before < number {
            return Some(place);
        }
        if before == number || run.len() - place >= NEAR {
            return None;
        }
        place -= 1;
    }
    Some(place)
}

// Whether the lowest number is the first one of the run.
fn is_first<T, A: Allocator>(run: &VecDeque<(u64, T), A>, strays: &Strays<T, A>) -> bool
    ensures { result ≡ is_first run.now.items strays.now }
{
    let Some(line) = run.front() else {
        return false;
    };
    match strays.first_number() {
        None => true,
        Some(number) => line.0 < number,
    }
}

impl<T: Drop, A: Allocator + Clone> HeldLines<T, A> {
    /// No lines. No memory is taken.
    pub fn new(alloc: A) -> HeldLines<T, A>
        ensures { result ≡ [] }
    {
        HeldLines {
            run: VecDeque::new(alloc),
            strays: Strays::none(),
        }
    }

    /// How many lines are held.
    pub fn len(&self) -> usize
        ensures { result ≡ length self.now }
    {
        self.run.len() + self.strays.len()
    }

    /// Takes in a line with its number, in the place of one of the same number, and answers whether one was held. It
    /// takes time logarithmic in how many are held, and little where the numbers come nearly in order.
    ///
    /// Err: memory was refused; the line is dropped.
    pub fn insert(&mut self, number: u64, line: T) -> Result<bool, AllocError>
        ensures had { IfOk result (λ had. had ≡ is_held number self.old) }
        ensures ok { OnOk result (self.new ≡ insert_entry nat_cmp self.old number line) }
        ensures err { OnErr result (self.new ≡ self.old) }
    {
        if is_above(number, &self.run) && self.strays.are_below(number) {
            self.run.push_back((number, line))?;
            return Ok(false);
        }
        if let Some(place) = place_near(number, &self.run) {
            if self.strays.has(number) {
                return self.strays.insert(self.run.allocator(), number, line);
            }
            self.run.insert(place, (number, line))?;
            return Ok(false);
        }
        match self.run.binary_search_by_key(&number, |held| held.0) {
            Ok(place) => {
                self.run[place] = (number, line);
                Ok(true)
            }
            Err(_) => self.strays.insert(self.run.allocator(), number, line),
        }
    }

    /// Gives out the line of the lowest number, where any is held.
    pub fn pop_first(&mut self) -> Option<(u64, T)>
        ensures some { IfSome result (λ line. self.old ≡ line ∷ self.new) }
        ensures none { IfNone result ((self.old ≡ []) × (self.new ≡ [])) }
    {
        if is_first(&self.run, &self.strays) {
            self.run.pop_front()
        } else {
            self.strays.pop_first()
        }
    }
}
