//! The script that brings lrudb to the state of a running memcached.
//!
//! First each class gets its pages: filler is stored in them and taken away again. Then each item is set at its second,
//! into HOT or TEMP. At last those that stand in WARM or COLD are pulled out of HOT, in their order.
ghost use Rattle.std.specs.Prelude.{◌≡◌, ◌≤◌, [], ◌∷◌, length, nat_lt, true, false, OnOk, IfOk, IfSome};
ghost use Rattle.rev_import.specs.Writing.{Writes};
ghost use Rattle.rev_snapshot.specs.Start.{is_fill_key, is_warm, hit_lines, set_lines, stored_lines, item_lines, items_lines, Fills, Starts};

use crate::counts::Counts;
use crate::dump::CLASSES;
use crate::order::Placed;
use itoa::Buffer;
use rev_classes::ClassTable;
use rev_import::setup::Setup;
use rev_import::writing::{
    MOST_DATA, Storing, put_clock, put_delete, put_get, put_pull, put_store, put_temp_ttl, put_tune,
};
use rev_items::{Key, KeyFault, footprint};
use rev_model::Queue;
use rev_requests::Tune;
use std::alloc::{AllocError, Allocator};

/// What of a start goes by the items that were set so far.
#[derive(Drop)]
struct Writer<'a> {
    classes: &'a ClassTable,
    // the last second that the clock was set to
    clock: u32,
    // how many items of each class are to leave HOT
    leaving: [u32; CLASSES],
}

// The key of filler with this number.
fn fill_key<A: Allocator + Copy>(alloc: A, number: u32) -> Result<Option<Key<A>>, AllocError>
    ensures { IfOk result (λ made. IfSome made (λ key. is_fill_key key ≡ true)) }
{
    let mut digits = Buffer::new();
    let mut bytes = Vec::new(alloc);
    bytes.push(b'~')?;
    bytes.extend_from_slice(digits.format(number).as_bytes())?;
    match Key::new(alloc, bytes.as_slice()) {
        Ok(key) => Ok(Some(key)),
        Err(KeyFault::BadKey) => Ok(None),
        Err(KeyFault::Memory) => Err(AllocError),
    }
}

// Fills a chunk of so many bytes.
fn fill<A: Allocator>(out: &mut Vec<u8, A>, key: &Key<A>, chunk: u32) -> Result<(), AllocError>
    requires { is_fill_key key.now ≡ true }
    ensures { OnOk result (Fills out.old.items out.new.items) }
{
    let size = u64::from(chunk).saturating_sub(footprint(key, 0, 0));
    let size = size.min(u64::from(MOST_DATA)) as u32;
    put_store(out, Storing::Set, key, 0, 0, size)
}

// Takes filler away.
fn clear<A: Allocator>(out: &mut Vec<u8, A>, key: &Key<A>) -> Result<(), AllocError>
    requires { is_fill_key key.now ≡ true }
    ensures { OnOk result (Fills out.old.items out.new.items) }
{
    put_delete(out, key)
}

fn put_fill<A: Allocator + Copy>(
    out: &mut Vec<u8, A>,
    alloc: A,
    number: u32,
    chunk: u32,
) -> Result<(), AllocError>
    ensures { OnOk result (Fills out.old.items out.new.items) }
{
    match fill_key(alloc, number)? {
        Some(key) => fill(out, &key, chunk),
        None => Ok(()),
    }
}

fn take_fill<A: Allocator + Copy>(
    out: &mut Vec<u8, A>,
    alloc: A,
    number: u32,
) -> Result<(), AllocError>
    ensures { OnOk result (Fills out.old.items out.new.items) }
{
    match fill_key(alloc, number)? {
        Some(key) => clear(out, &key),
        None => Ok(()),
    }
}

// How many chunks are to be filled for so many pages: all of all but one, and one more.
fn fills_of(pages: u32, per_page: u32) -> u32 {
    if pages == 0 {
        return 0;
    }
    let chunks = u64::from(pages - 1) * u64::from(per_page) + 1;
    chunks.min(u64::from(u32::MAX)) as u32
}

// Has a class take so many pages.
fn put_pages<A: Allocator + Copy>(
    out: &mut Vec<u8, A>,
    alloc: A,
    classes: &ClassTable,
    class: usize,
    pages: u32,
) -> Result<(), AllocError>
    requires { (1 ≤ class) × (class ≤ length classes.now.sizes) }
    ensures { OnOk result (Fills out.old.items out.new.items) }
{
    let chunk = classes.chunk_size(class);
    let count = fills_of(pages, classes.per_page(class));
    for number in 0..count {
        put_fill(out, alloc, number, chunk)?;
    }
    for number in 0..count {
        take_fill(out, alloc, number)?;
    }
    Ok(())
}

// The pages of a class that has one alone, or of one that has more.
fn pages_of(counts: &Counts, class: usize, alone: bool) -> u32 {
    let pages = counts.of(class).pages;
    if (pages == 1) == alone { pages } else { 0 }
}

// Has each class take its pages that has one alone, or each that has more.
fn put_all_pages<A: Allocator + Copy>(
    out: &mut Vec<u8, A>,
    alloc: A,
    classes: &ClassTable,
    counts: &Counts,
    alone: bool,
) -> Result<(), AllocError>
    ensures { OnOk result (Fills out.old.items out.new.items) }
{
    for class in 1..=classes.last() {
        put_pages(out, alloc, classes, class, pages_of(counts, class, alone))?;
    }
    Ok(())
}

// Sets shares and age factors.
fn put_shares<A: Allocator>(
    out: &mut Vec<u8, A>,
    hot: u32,
    warm: u32,
    hot_factor: u32,
    warm_factor: u32,
) -> Result<(), AllocError>
    ensures { OnOk result (Writes out.old.items out.new.items []) }
{
    match Tune::new(hot, warm, hot_factor, warm_factor) {
        Ok(tune) => put_tune(out, tune),
        Err(_) => Ok(()),
    }
}

// Sets shares and age factors that a server has, or the usual ones.
fn put_shares_of<A: Allocator>(out: &mut Vec<u8, A>, tune: Option<Tune>) -> Result<(), AllocError>
    ensures { OnOk result (Writes out.old.items out.new.items []) }
{
    match tune {
        Some(tune) => put_tune(out, tune),
        None => put_shares(out, 20, 40, 200, 2000),
    }
}

// Whether no script can store so many bytes of data.
fn is_too_large(size: u32) -> bool
    ensures { result ≡ nat_lt 1048576 size }
{
    size > MOST_DATA
}

fn is_warm(queue: Queue) -> bool
    ensures { result ≡ is_warm queue }
{
    match queue {
        Queue::Warm => true,
        Queue::Hot | Queue::Cold | Queue::Temp => false,
    }
}

fn put_one_get<A: Allocator>(out: &mut Vec<u8, A>, key: &Key<A>) -> Result<(), AllocError>
    ensures { OnOk result (Writes out.old.items out.new.items (hit_lines key.now false true)) }
{
    put_get(out, key)
}

fn put_two_gets<A: Allocator>(out: &mut Vec<u8, A>, key: &Key<A>) -> Result<(), AllocError>
    ensures { OnOk result (Writes out.old.items out.new.items (hit_lines key.now true false)) }
{
    put_get(out, key)?;
    put_get(out, key)
}

// Hits an item that was set.
fn put_hits<A: Allocator>(
    out: &mut Vec<u8, A>,
    key: &Key<A>,
    warm: bool,
    fetched: bool,
) -> Result<(), AllocError>
    ensures { OnOk result (Writes out.old.items out.new.items (hit_lines key.now warm fetched)) }
{
    if warm {
        put_two_gets(out, key)
    } else if fetched {
        put_one_get(out, key)
    } else {
        Ok(())
    }
}

// Sets an item and hits it.
fn put_set<A: Allocator>(
    out: &mut Vec<u8, A>,
    key: &Key<A>,
    exptime: i32,
    size: u32,
    warm: bool,
    fetched: bool,
) -> Result<(), AllocError>
    requires { size ≤ 1048576 }
    ensures { OnOk result (Writes out.old.items out.new.items (set_lines key.now exptime size warm fetched)) }
{
    put_store(out, Storing::Set, key, 0, exptime, size)?;
    put_hits(out, key, warm, fetched)
}

// Sets an item whose data a script can store, and hits it where it was hit.
fn put_stored<A: Allocator>(out: &mut Vec<u8, A>, placed: &Placed<A>) -> Result<(), AllocError>
    requires { placed.now.item.size ≤ 1048576 }
    ensures { OnOk result (Writes out.old.items out.new.items (stored_lines placed.now)) }
{
    let item = &placed.item;
    let warm = is_warm(placed.queue);
    put_set(out, &item.key, item.exptime, item.size, warm, item.fetched)
}

// The same for an item that enters TEMP.
fn put_temp<A: Allocator>(out: &mut Vec<u8, A>, placed: &Placed<A>) -> Result<(), AllocError>
    requires { placed.now.item.size ≤ 1048576 }
    ensures { OnOk result (Writes out.old.items out.new.items (stored_lines placed.now)) }
{
    put_temp_ttl(out, i32::MAX)?;
    put_stored(out, placed)?;
    put_temp_ttl(out, -1)
}

fn put_by_queue<A: Allocator>(out: &mut Vec<u8, A>, placed: &Placed<A>) -> Result<(), AllocError>
    requires { placed.now.item.size ≤ 1048576 }
    ensures { OnOk result (Writes out.old.items out.new.items (stored_lines placed.now)) }
{
    if placed.queue == Queue::Temp {
        put_temp(out, placed)
    } else {
        put_stored(out, placed)
    }
}

impl<'a> Writer<'a> {
    fn set_clock<A: Allocator>(
        &mut self,
        out: &mut Vec<u8, A>,
        second: u32,
    ) -> Result<(), AllocError>
        ensures { OnOk result (Writes out.old.items out.new.items []) }
    {
        if second <= self.clock {
            return Ok(());
        }
        self.clock = second;
        put_clock(out, second)
    }

    // Counts an item that is to leave HOT.
    fn count<A: Allocator>(&mut self, placed: &Placed<A>) {
        if placed.queue != Queue::Warm && placed.queue != Queue::Cold {
            return;
        }
        let item = &placed.item;
        let class = self
            .classes
            .class_of(footprint(&item.key, 0, u64::from(item.size)));
        let Some(class) = class else { return };
        if let Some(count) = self.leaving.get_mut(class) {
            *count = count.saturating_add(1);
        }
    }

    // Sets an item at its second.
    fn put_item<A: Allocator>(
        &mut self,
        out: &mut Vec<u8, A>,
        placed: &Placed<A>,
    ) -> Result<(), AllocError>
        ensures { OnOk result (Writes out.old.items out.new.items (item_lines placed.now)) }
    {
        if is_too_large(placed.item.size) {
            return Ok(());
        }
        self.count(placed);
        self.set_clock(out, placed.second)?;
        put_by_queue(out, placed)
    }

    fn put_items<A: Allocator>(
        &mut self,
        out: &mut Vec<u8, A>,
        items: &[Placed<A>],
    ) -> Result<(), AllocError>
        ensures { OnOk result (Writes out.old.items out.new.items (items_lines items.now)) }
    {
        for placed in items {
            self.put_item(out, placed)?;
        }
        Ok(())
    }

    // Pulls so many items of a class out of HOT.
    fn put_pulls<A: Allocator>(
        &self,
        out: &mut Vec<u8, A>,
        class: u32,
        count: u32,
    ) -> Result<(), AllocError>
        ensures { OnOk result (Writes out.old.items out.new.items []) }
    {
        for _ in 0..count {
            put_pull(out, class, Queue::Hot)?;
        }
        Ok(())
    }

    // Pulls those items out of HOT that are to leave it.
    fn put_leaving<A: Allocator>(&self, out: &mut Vec<u8, A>) -> Result<(), AllocError>
        ensures { OnOk result (Writes out.old.items out.new.items []) }
    {
        for class in 0..CLASSES {
            self.put_pulls(out, class as u32, self.leaving[class])?;
        }
        Ok(())
    }
}

// The latest second of an access.
fn latest<A: Allocator>(items: &[Placed<A>]) -> u32 {
    let mut latest = 0;
    for placed in items {
        latest = placed.item.time.max(latest);
    }
    latest
}

/// Writes the script that brings lrudb, opened as the setup says, to the state that was told: `items` in the order in
/// which they are set. Each line makes one step.
///
/// Err: memory was refused.
pub fn put_start<A: Allocator + Copy>(
    out: &mut Vec<u8, A>,
    alloc: A,
    setup: &Setup,
    counts: &Counts,
    items: &[Placed<A>],
) -> Result<(), AllocError>
    ensures { OnOk result (Starts out.old.items out.new.items items.now) }
{
    put_temp_ttl(out, -1)?;
    put_all_pages(out, alloc, &setup.classes, counts, false)?;
    put_all_pages(out, alloc, &setup.classes, counts, true)?;
    let mut writer = Writer {
        classes: &setup.classes,
        clock: 0,
        leaving: [0; CLASSES],
    };
    writer.put_items(out, items)?;
    writer.set_clock(out, latest(items))?;
    put_shares(out, 1, 1, 1, 1)?;
    writer.put_leaving(out)?;
    put_shares_of(out, setup.tune)?;
    put_temp_ttl(out, setup.temp_ttl.unwrap_or(-1))
}
