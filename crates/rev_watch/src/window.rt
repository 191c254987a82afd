//! Lines in the order of their numbers.
ghost use Rattle.std.specs.Prelude.{◌≡◌, IfOk, OnErr, None};
ghost use Rattle.rev_watch.specs.Window.{put_of, pop_of, empty_window, is_late};

use crate::held::HeldLines;
use std::alloc::{AllocError, Allocator};
use std::marker::Model;

/// The most lines that are held back.
pub const MOST_HELD: usize = 65536;

/// What became of a line.
#[derive(Drop)]
pub enum Put<T> {
    /// It is held back.
    Held,
    /// As many lines as may be were held, and now the one of the lowest number is given out.
    Given(u64, T),
    /// A line of its number or of a higher one was given out before: it came too late, and is dropped.
    Late,
    /// A line of its number was held. It is dropped, and the new one stands for it.
    Repeated,
}

/// Holds back lines, each with its number, and gives them out in the order of their numbers: the server's threads write
/// their lines side by side, so a line may come long after those of higher numbers.
#[derive(Drop)]
pub struct Window<T, A: Allocator> {
    held: HeldLines<T, A>,
    last: Option<u64>,
}

impl<T, A: Allocator> Model for Window<T, A> {
    ghost use Rattle.rev_watch.specs.Window.{PlainWindow};

    ghost Value = { PlainWindow T };

    ghost view = { λ w. record { held = w.held; last = w.last } };
}

impl<T: Drop, A: Allocator + Clone> Window<T, A> {
    /// A window that holds nothing. No memory is taken.
    pub fn new(alloc: A) -> Window<T, A>
        ensures { result ≡ empty_window }
    {
        Window {
            held: HeldLines::new(alloc),
            last: None,
        }
    }

    // Whether a line of this number or of a higher one was given out.
    fn is_late(&self, gid: u64) -> bool
        ensures { result ≡ is_late gid self.now.last }
    {
        match self.last {
            Some(last) => gid <= last,
            None => false,
        }
    }

    /// Takes in a line with its number, in time logarithmic in how many are held.
    ///
    /// Err: memory was refused; the line is dropped.
    #[tactic(auto, unfolding(crate::specs::Window::put_of))]
    pub fn put(&mut self, gid: u64, line: T) -> Result<Put<T>, AllocError>
        ensures ok { IfOk result (λ put. (self.new, put) ≡ put_of self.old gid line) }
        ensures err { OnErr result (self.new ≡ self.old) }
    {
        if self.is_late(gid) {
            return Ok(Put::Late);
        }
        if self.held.insert(gid, line)? {
            return Ok(Put::Repeated);
        }
        if self.held.len() <= MOST_HELD {
            return Ok(Put::Held);
        }
        match self.held.pop_first() {
            Some((gid, line)) => {
                self.last = Some(gid);
                Ok(Put::Given(gid, line))
            }
            None => Ok(Put::Held),
        }
    }

    /// Gives out the line of the lowest number, where any is held.
    #[tactic(auto, unfolding(crate::specs::Window::pop_of))]
    pub fn pop(&mut self) -> Option<(u64, T)>
        ensures { (self.new, result) ≡ pop_of self.old }
    {
        let (lowest, line) = self.held.pop_first()?;
        self.last = Some(lowest);
        Some((lowest, line))
    }
}
