//! The events that wait, one behind another.
ghost use Rattle.std.specs.Prelude.{◌≡◌, ◌<◌, ◌∷◌, ◌++◌, [], ◌&&◌, ◌==◌, nat_lt, None};
ghost use Rattle.std.specs.List.{list_any};
ghost use Rattle.std.specs.Option.{option_copied};
ghost use Rattle.std.specs.VecDeque.{deque_len, deque_capacity};
ghost use Rattle.rev_log.specs.Events.{connection_of, commanded_key, move_source};
ghost use Rattle.rev_log.specs.Waiting.{place_of, at_number, mark_number, mark_for, link, next_in, move_here, moves_behind};

use crate::coming::Coming;
use crate::connections::Connections;
use crate::events::{commanded_key, connection_of, is_look_up, move_source, names};
use rev_items::Key;
use rev_watch::event::Event;
use std::alloc::Allocator;
use std::collections::VecDeque;

// The place of the event of this number among those that wait, where the first of them has that one.
fn place_of(first: u64, number: u64) -> Option<usize>
    ensures { result ≡ place_of first number }
{
    Some(number.checked_sub(first)? as usize)
}

// The event of this number, where it waits.
pub fn at_number<A: Allocator>(
    waiting: &VecDeque<Coming<A>, A>,
    first: u64,
    number: u64,
) -> Option<&Coming<A>>
    ensures { option_copied result ≡ at_number first waiting.now.items number }
{
    waiting.get(place_of(first, number)?)
}

// The number that the event of this one leads to.
pub fn next_in<A: Allocator>(
    nexts: &VecDeque<Option<u64>, A>,
    first: u64,
    number: u64,
) -> Option<u64>
    ensures { result ≡ next_in first nexts.now.items number }
{
    *nexts.get(place_of(first, number)?)?
}

// Marks the event of this number, where it waits and is a look-up of the key.
fn mark<A: Allocator>(
    waiting: &mut VecDeque<Coming<A>, A>,
    first: u64,
    number: Option<u64>,
    key: &Key<A>,
)
    ensures items { waiting.new.items ≡ mark_number first key.now number waiting.old.items }
    ensures len { deque_len waiting.new ≡ deque_len waiting.old }
    ensures capacity { deque_capacity waiting.new ≡ deque_capacity waiting.old }
{
    let Some(number) = number else {
        return;
    };
    let Some(place) = place_of(first, number) else {
        return;
    };
    if let Some(coming) = waiting.get_mut(place) {
        if is_look_up(&coming.line.event) && names(&coming.line.event, key) {
            coming.own = true;
        }
    }
}

// Marks the last line of the event's connection, where it is a look-up that this command made.
pub fn mark_own<A: Allocator + Copy>(
    waiting: &mut VecDeque<Coming<A>, A>,
    first: u64,
    connections: &Connections<A>,
    event: &Event<A>,
)
    ensures items { waiting.new.items ≡ mark_for first (connection_of event.now) (commanded_key event.now) connections.now.map.entries waiting.old.items }
    ensures len { deque_len waiting.new ≡ deque_len waiting.old }
    ensures capacity { deque_capacity waiting.new ≡ deque_capacity waiting.old }
{
    let Some(connection) = connection_of(event) else {
        return;
    };
    if let Some(key) = commanded_key(event) {
        mark(waiting, first, connections.get(connection), key);
    }
}

// The event of the number `before`, where there is one, leads to that of the number.
pub fn link<A: Allocator>(
    nexts: &mut VecDeque<Option<u64>, A>,
    first: u64,
    before: Option<u64>,
    number: u64,
)
    ensures items { nexts.new.items ≡ link first before number nexts.old.items }
    ensures len { deque_len nexts.new ≡ deque_len nexts.old }
    ensures capacity { deque_capacity nexts.new ≡ deque_capacity nexts.old }
{
    let Some(before) = before else {
        return;
    };
    let Some(place) = place_of(first, before) else {
        return;
    };
    if let Some(next) = nexts.get_mut(place) {
        *next = Some(number);
    }
}

// Notes the event of this number, where it moves a page. There is room for one more.
pub fn note_move<A: Allocator>(moves: &mut VecDeque<(u64, u32), A>, event: &Event<A>, number: u64)
    requires { deque_len moves.old < deque_capacity moves.old }
    ensures { moves.new.items ≡ moves.old.items ++ move_here (move_source event.now) number [] }
{
    if let Some(source) = move_source(event) {
        moves.push_back_reserved((number, source));
    }
}

// Whether a page move, by its number and its class, is from this class and stands in front of the event of this number.
fn is_from(moved: &(u64, u32), class: u32, number: u64) -> bool
    ensures { result ≡ (nat_lt moved.now.0 number && moved.now.1 == class) }
{
    moved.0 < number && moved.1 == class
}

// Whether any is.
pub fn has_move<A: Allocator>(moves: &VecDeque<(u64, u32), A>, class: u32, number: u64) -> bool
    ensures { result ≡ list_any (λ m. nat_lt m.0 number && m.1 == class) moves.now.items }
{
    moves.iter().any(|moved| is_from(moved, class, number))
}

// The first event is gone, and its page move, where it is one.
pub fn forget_move<A: Allocator>(moves: &mut VecDeque<(u64, u32), A>, event: &Event<A>)
    ensures { moves.new.items ≡ moves_behind (move_source event.now) moves.old.items }
{
    if move_source(event).is_some() {
        let _ = moves.pop_front();
    }
}
