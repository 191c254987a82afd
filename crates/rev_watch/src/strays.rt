//! Lines apart from the run, by rising numbers.
ghost use Rattle.std.specs.Prelude.{◌≡◌, ◌<◌, ◌^◌, [], ◌∷◌, length, true, false, IfOk, OnOk, OnErr, IfSome, IfNone};
ghost use Rattle.std.specs.BTreeMap.{insert_entry};
ghost use Rattle.std.specs.Ordering.{nat_cmp};
ghost use Rattle.rev_watch.specs.Held.{first_number};
ghost use Rattle.rev_watch.specs.Window.{is_held};

use std::alloc::{AllocError, Allocator};
use std::collections::BTreeMap;
use std::marker::Model;

/// Lines apart from the run, the strays, by rising numbers. Most logs have none, and only the first makes a tree.
#[derive(Drop)]
pub struct Strays<T, A: Allocator> {
    tree: Option<BTreeMap<u64, T, A>>,
}

impl<T, A: Allocator> Model for Strays<T, A> {
    ghost use Rattle.std.specs.Prelude.{ℕ, List};
    ghost use Rattle.rev_watch.specs.Held.{in_tree};

    ghost Value = { List (ℕ × T) };

    ghost view = { λ s. in_tree s.tree };
}

impl<T, A: Allocator> Strays<T, A> {
    /// No lines. No memory is taken.
    pub fn none() -> Strays<T, A>
        ensures { result ≡ [] }
    {
        Strays { tree: None }
    }

    /// How many lines there are.
    pub fn len(&self) -> usize
        ensures value { result ≡ length self.now }
        ensures small { result < 2 ^ 63 }
    {
        match &self.tree {
            None => 0,
            Some(tree) => tree.len(),
        }
    }

    /// Whether one has this number.
    pub fn has(&self, number: u64) -> bool
        ensures { result ≡ is_held number self.now }
    {
        match &self.tree {
            None => false,
            Some(tree) => tree.contains_key(&number),
        }
    }

    /// Whether all have lower numbers, and so none this one.
    pub fn are_below(&self, number: u64) -> bool
        ensures { result ≡ true → is_held number self.now ≡ false }
    {
        match &self.tree {
            None => true,
            Some(tree) => match tree.last_key_value() {
                None => true,
                Some((last, _)) => *last < number,
            },
        }
    }

    /// The lowest number.
    pub fn first_number(&self) -> Option<u64>
        ensures { result ≡ first_number self.now }
    {
        match &self.tree {
            None => None,
            Some(tree) => match tree.first_key_value() {
                None => None,
                Some((number, _)) => Some(*number),
            },
        }
    }
}

impl<T: Drop, A: Allocator + Clone> Strays<T, A> {
    /// Takes in a line with its number, in the place of one of the same number, and answers whether there was one. The
    /// tree takes its memory from `alloc`.
    ///
    /// Err: memory was refused; the line is dropped.
    pub fn insert(&mut self, alloc: &A, number: u64, line: T) -> Result<bool, AllocError>
        ensures had { IfOk result (λ had. had ≡ is_held number self.old) }
        ensures ok { OnOk result (self.new ≡ insert_entry nat_cmp self.old number line) }
        ensures err { OnErr result (self.new ≡ self.old) }
    {
        let mut tree = match self.tree.take() {
            Some(tree) => tree,
            None => BTreeMap::new(alloc.clone()?),
        };
        let inserted = tree.insert(number, line);
        self.tree = Some(tree);
        Ok(inserted?.is_some())
    }

    /// Gives out the line of the lowest number, where there is any.
    pub fn pop_first(&mut self) -> Option<(u64, T)>
        ensures some { IfSome result (λ line. self.old ≡ line ∷ self.new) }
        ensures none { IfNone result ((self.old ≡ []) × (self.new ≡ [])) }
    {
        let mut tree = self.tree.take()?;
        let first = tree.pop_first();
        self.tree = Some(tree);
        first
    }
}
