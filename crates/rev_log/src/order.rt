//! Lines in the order of their numbers, and the starts of the server between them.
ghost use Rattle.std.specs.Prelude.{◌≡◌, IfOk, OnErr, None};
ghost use Rattle.rev_watch.specs.Window.{empty_window};
ghost use Rattle.rev_log.specs.Order.{empty_order, microseconds, is_much_later, one_more, is_restart, greater, put_line, pop_line};

use rev_watch::event::{LogLine, Timestamp};
use rev_watch::window::{Put, Window};
use std::alloc::{AllocError, Allocator};
use std::marker::Model;

// How much later than the line of the greatest number a line of no greater one may be, and still be of the same life
// of the server, in microseconds (this project's own figure: threads write their lines side by side).
const MOST_LATER: u64 = 1000000;

// The number of a line, with its time.
#[derive(Clone, Copy, Debug, PartialEq, Eq)]
pub struct Greatest {
    pub gid: u64,
    pub time: Timestamp,
}

/// Gives out the lines of a log in the order of their numbers, and tells where the server was started anew. At most
/// 65536 lines are held back.
#[derive(Drop)]
pub struct Order<A: Allocator> {
    alloc: A,
    window: Window<LogLine<A>, A>,
    greatest: Option<Greatest>,
    late: u64,
    repeated: u64,
}

impl<A: Allocator> Model for Order<A> {
    ghost use Rattle.rev_log.specs.Order.{PlainOrder};

    ghost Value = { PlainOrder A };

    ghost view = { λ o. record { window = o.window; greatest = o.greatest; late = o.late; repeated = o.repeated } };
}

// The microseconds from second 0 to a time.
fn microseconds(time: Timestamp) -> u64
    ensures { result ≡ microseconds time }
{
    u64::from(time.seconds) * 1000000 + u64::from(time.microseconds)
}

// Whether a time is more than a second later than the one before.
fn is_much_later(before: Timestamp, time: Timestamp) -> bool
    ensures { result ≡ is_much_later before time }
{
    microseconds(before) + MOST_LATER < microseconds(time)
}

// One more, or as many where 64 bits hold no more.
fn one_more(count: &mut u64)
    ensures { count.new ≡ one_more count.old }
{
    if *count < u64::MAX {
        *count += 1;
    }
}

// The greatest number, where one more line came.
fn greater(greatest: Option<Greatest>, gid: u64, time: Timestamp) -> Option<Greatest>
    ensures { result ≡ greater greatest gid time }
{
    match greatest {
        None => Some(Greatest { gid, time }),
        Some(before) => {
            if gid <= before.gid {
                Some(before)
            } else {
                Some(Greatest { gid, time })
            }
        }
    }
}

impl<A: Allocator + Copy> Order<A> {
    /// No line came. No memory is taken.
    pub fn new(alloc: A) -> Order<A>
        ensures { result ≡ empty_order }
    {
        Order {
            alloc,
            window: Window::new(alloc),
            greatest: None,
            late: 0,
            repeated: 0,
        }
    }

    /// Whether a line shows that the server was started anew, where its numbers begin at 1: the line's number is at
    /// most the greatest one so far, and its time is more than a second later than that line's.
    pub fn is_restart(&self, line: &LogLine<A>) -> bool
        ensures { result ≡ is_restart self.now.greatest line.now }
    {
        match self.greatest {
            None => false,
            Some(greatest) => {
                line.gid <= greatest.gid && is_much_later(greatest.time, line.time)
            }
        }
    }

    /// Takes in a line. Where 65536 are held, the one of the lowest number is given out. A line is dropped and counted
    /// as late where one of its number or of a higher one was given out before. Where a line of its number is held, the
    /// new one stands for it, and is counted as repeated.
    ///
    /// Err: memory was refused; the line is dropped.
    #[tactic(auto, unfolding(crate::specs::Order::put_line))]
    pub fn put(&mut self, line: LogLine<A>) -> Result<Option<LogLine<A>>, AllocError>
        ensures ok { IfOk result (λ given. (self.new, given) ≡ put_line self.old line) }
        ensures err { OnErr result (self.new ≡ self.old) }
    {
        let gid = line.gid;
        let time = line.time;
        let put = self.window.put(gid, line)?;
        self.greatest = greater(self.greatest, gid, time);
        match put {
            Put::Held => Ok(None),
            Put::Given(_, line) => Ok(Some(line)),
            Put::Late => {
                one_more(&mut self.late);
                Ok(None)
            }
            Put::Repeated => {
                one_more(&mut self.repeated);
                Ok(None)
            }
        }
    }

    /// Gives out the line of the lowest number, where any is held.
    #[tactic(auto, unfolding(crate::specs::Order::pop_line))]
    pub fn pop(&mut self) -> Option<LogLine<A>>
        ensures { (self.new, result) ≡ pop_line self.old }
    {
        let (_, line) = self.window.pop()?;
        Some(line)
    }

    /// Forgets the numbers, since those of another life of the server begin at 1. A line that is held is dropped.
    pub fn begin_life(&mut self)
        ensures { self.new ≡ record self.old { window = empty_window; greatest = None } }
    {
        self.window = Window::new(self.alloc);
        self.greatest = None;
    }

    /// How many lines came too late; at most 2^64 - 1 are counted.
    pub fn late(&self) -> u64
        ensures { result ≡ self.now.late }
    {
        self.late
    }

    /// How many lines had the number of one that was held; at most 2^64 - 1 are counted.
    pub fn repeated(&self) -> u64
        ensures { result ≡ self.now.repeated }
    {
        self.repeated
    }
}
