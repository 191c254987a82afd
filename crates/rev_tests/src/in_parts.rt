//! Figures of a trace that is read in parts, beside those of the same trace in one part.
use crate::classes::SMALL_PAGES;
use crate::owned::session_over;
use crate::storing::store_of;
use rev_classes::Config;
use rev_figures::{
    ByPrefix, CauseCounts, ClassFigures, PageMove, PrefixCounts, SlotSum, Sums, by_prefix,
    class_figures, gather,
};
use rev_inverse::Store;
use rev_items::Key;
use rev_model::Queue;
use rev_steps::{ActorStep, ClientStep, KeyCommand, Payload, Step, StoreVerb};
use rev_undotree::Session;
use std::alloc::Global;
use std::process::Abort;

// So few pages that most keys are evicted.
const CACHE: Config = Config {
    pages: 4,
    ..SMALL_PAGES
};

// How many steps a trace has, and how many a part of it.
static TRACES: [(usize, usize); 6] = [(0, 1), (1, 1), (239, 7), (241, 240), (1500, 1), (2500, 333)];

// A number that differs from step to step, and comes again.
fn chance(place: usize, below: usize) -> usize {
    let turned = place.wrapping_mul(2654435761) >> 9;
    turned % below.max(1)
}

// A key of one of three prefixes, or of none.
fn key_at<R: Abort>(rt: &R, alloc: Global, place: usize) -> Key<Global> {
    let mut name = Vec::new(alloc);
    let letter = u8::try_from(chance(place, 26)).unwrap_or(0);
    let front = match letter % 4 {
        0 => "a:",
        1 => "k:",
        2 => "k:a:",
        _ => "k",
    };
    name.extend_from_slice(front.as_bytes())
        .expect(rt, "no memory");
    name.push(b'a'.wrapping_add(letter)).expect(rt, "no memory");
    Key::new(alloc, name.as_slice()).expect(rt, "no key")
}

fn set_at<R: Abort>(rt: &R, alloc: Global, place: usize) -> Step<Global> {
    let letters = if place % 2 == 0 { 20 } else { 150 };
    let data = vec![in alloc; b'x'; letters].expect(rt, "no memory");
    let data = Payload::from_vec(data).expect(rt, "no memory");
    store_of(StoreVerb::Set, key_at(rt, alloc, place), data)
}

fn step_at<R: Abort>(rt: &R, alloc: Global, place: usize) -> Step<Global> {
    let command = match place % 9 {
        0 => {
            let second = u32::try_from(place / 4 + 2).unwrap_or(u32::MAX);
            return Step::Actor(ActorStep::Clock(second));
        }
        1 | 3 => return set_at(rt, alloc, place),
        2 => {
            return Step::Actor(ActorStep::Pull {
                class: 1,
                queue: Queue::Hot,
            });
        }
        4 if place % 5 == 0 => {
            let (source, target) = if place % 2 == 0 { (1, 5) } else { (5, 1) };
            return Step::Actor(ActorStep::Reassign { source, target });
        }
        5 if place % 4 == 0 => KeyCommand::Delete,
        6 => return Step::Actor(ActorStep::Advance),
        _ => KeyCommand::Get,
    };
    Step::Client(ClientStep::Keyed {
        command,
        key: key_at(rt, alloc, place),
    })
}

fn opened<R: Abort>(rt: &R, alloc: Global) -> Session<Global> {
    let store = Store::open(alloc, CACHE).expect(rt, "no store");
    session_over(rt, alloc, store)
}

fn add<R: Abort>(rt: &R, sums: &mut Sums<Global>, session: &mut Session<Global>) {
    let node = session.current();
    sums.add(session).expect(rt, "no memory");
    assert!(rt; session.current() == node);
}

// Plays a trace, and adds each so many steps as a part.
fn read<R: Abort>(
    rt: &R,
    alloc: Global,
    session: &mut Session<Global>,
    steps: usize,
    part: usize,
) -> Sums<Global> {
    let mut sums = Sums::new(session.store().globals().clock, alloc).expect(rt, "no memory");
    for place in 0..steps {
        if place > 0 && place % part.max(1) == 0 {
            add(rt, &mut sums, session);
            session.restart();
        }
        match session.play(step_at(rt, alloc, place)) {
            Ok(_) => (),
            Err(_) => panic!(rt; "step {place} was refused"),
        }
    }
    add(rt, &mut sums, session);
    sums
}

fn causes_of(left: &CauseCounts) -> [usize; 8] {
    [
        left.evicted,
        left.evicted_by_mover,
        left.reclaimed_by_pull,
        left.reclaimed_by_crawler,
        left.reclaimed_by_hit,
        left.reclaimed_by_mover,
        left.deleted,
        left.dropped_by_failed_set,
    ]
}

fn numbers_of(figures: &ClassFigures) -> [usize; 7] {
    [
        usize::from(figures.class),
        figures.stores,
        figures.hits,
        figures.misses as usize,
        figures.evicted,
        figures.unfetched,
        figures.asked,
    ]
}

fn same_class<R: Abort>(rt: &R, one: &ClassFigures, other: &ClassFigures) {
    let class = one.class;
    assert!(rt;
        numbers_of(one) == numbers_of(other),
        "class {class}: numbers"
    );
    assert!(rt;
        causes_of(&one.left) == causes_of(&other.left),
        "class {class}: causes"
    );
    assert!(rt; one.idle == other.idle, "class {class}: idle");
    assert!(rt;
        one.asked_after == other.asked_after,
        "class {class}: asked after"
    );
}

fn same_totals<R: Abort>(rt: &R, one: &Sums<Global>, other: &Sums<Global>) {
    let (a, b) = (one.totals, other.totals);
    assert!(rt; a.steps == b.steps && a.hits == b.hits && a.misses == b.misses);
    assert!(rt; a.stores == b.stores && causes_of(&a.left) == causes_of(&b.left));
    assert!(rt; a.first_second == b.first_second && a.last_second == b.last_second);
    assert!(rt; one.first_use == other.first_use);
}

fn same_move<R: Abort>(rt: &R, one: &PageMove, other: &PageMove) {
    assert!(rt; one.step == other.step && one.second == other.second);
    assert!(rt; one.from == other.from && one.to == other.to);
}

fn same_slot<R: Abort>(rt: &R, one: &SlotSum<Global>, other: &SlotSum<Global>) {
    let to = one.to;
    assert!(rt;
        to == other.to && one.second == other.second,
        "slot up to {to}"
    );
    assert!(rt; causes_of(&one.left) == causes_of(&other.left) && one.moves == other.moves);
    assert!(rt;
        one.bytes.len() == other.bytes.len(),
        "slot up to {to}: classes"
    );
    for (a, b) in one.bytes.iter().zip(other.bytes.iter()) {
        assert!(rt; a.step == b.step && a.class == b.class && a.pages == b.pages);
        assert!(rt; a.hot == b.hot && a.warm == b.warm && a.cold == b.cold && a.temp == b.temp);
    }
}

fn same_sums<R: Abort>(rt: &R, one: &Sums<Global>, other: &Sums<Global>) {
    same_totals(rt, one, other);
    assert!(rt; one.moves.len() == other.moves.len());
    for (a, b) in one.moves.iter().zip(other.moves.iter()) {
        same_move(rt, a, b);
    }
    assert!(rt; one.slots().len() == other.slots().len());
    for (a, b) in one.slots().iter().zip(other.slots().iter()) {
        same_slot(rt, a, b);
    }
}

fn counts_of(counts: &PrefixCounts) -> [u64; 6] {
    [
        counts.stores,
        counts.hits,
        counts.misses,
        counts.evicted,
        counts.left,
        counts.asked,
    ]
}

fn same_prefixes<R: Abort>(rt: &R, one: &ByPrefix<Global>, other: &ByPrefix<Global>) {
    assert!(rt; one.rows.len() == other.rows.len(), "other prefixes");
    for (a, b) in one.rows.iter().zip(other.rows.iter()) {
        assert!(rt;
            a.prefix.as_slice() == b.prefix.as_slice(),
            "another prefix"
        );
        assert!(rt;
            counts_of(&a.counts) == counts_of(&b.counts),
            "other counts"
        );
    }
    assert!(rt; counts_of(&one.others) == counts_of(&other.others));
}

// The prefixes together have the counts of all steps.
fn all_prefixes<R: Abort>(rt: &R, sums: &Sums<Global>, prefixes: &ByPrefix<Global>) {
    let mut all = prefixes.others;
    for row in prefixes.rows.iter() {
        all = all.plus(row.counts);
    }
    let totals = sums.totals;
    let mut gone = 0usize;
    for count in &causes_of(&totals.left) {
        gone = gone.saturating_add(*count);
    }
    assert!(rt; all.stores == totals.stores as u64 && all.hits == totals.hits as u64);
    assert!(rt; all.misses == totals.misses as u64);
    assert!(rt;
        all.evicted.saturating_add(all.left) == gone as u64,
        "keys that left"
    );
}

// What became of the keys of each prefix is in parts what it is in the whole session.
fn same_by_prefix<R: Abort>(
    rt: &R,
    alloc: Global,
    session: &mut Session<Global>,
    one: &Sums<Global>,
    other: &Sums<Global>,
) {
    let path = gather(session).expect(rt, "no memory");
    let whole = by_prefix(&*session, &path, alloc).expect(rt, "no memory");
    let first = one.by_prefix().expect(rt, "no memory");
    let second = other.by_prefix().expect(rt, "no memory");
    same_prefixes(rt, &whole, &first);
    same_prefixes(rt, &whole, &second);
    all_prefixes(rt, one, &whole);
}

// The figures of each class of a trace in parts are those of the whole session.
fn same_classes<R: Abort>(
    rt: &R,
    alloc: Global,
    session: &mut Session<Global>,
    sums: &Sums<Global>,
) {
    let last = session.store().table().last() as u8;
    let path = gather(session).expect(rt, "no memory");
    let rows = class_figures(&path, last, &alloc).expect(rt, "no memory");
    for row in &rows {
        let figures = sums.figures(row.class).expect(rt, "no memory");
        same_class(rt, &figures, row);
    }
}

// The longest trace has something of each kind.
fn tells_all<R: Abort>(rt: &R, sums: &Sums<Global>) {
    let totals = sums.totals;
    assert!(rt;
        totals.hits > 100 && totals.misses > 100 && totals.stores > 100,
        "steps"
    );
    assert!(rt;
        totals.left.evicted > 100 && totals.left.deleted > 10,
        "keys that left"
    );
    assert!(rt;
        !sums.moves.is_empty() && sums.slots().len() > 120,
        "moves and slots"
    );
    let mut asked = 0usize;
    for class in 1..10 {
        let figures = sums.figures(class).expect(rt, "no memory");
        asked = asked.saturating_add(figures.asked);
    }
    assert!(rt; asked > 10, "asked again: {asked}");
}

#[test]
fn parts_are_the_whole(rt: HostRuntime) {
    let alloc = rt.alloc();
    for (steps, part) in &TRACES {
        let mut whole = opened(&rt, alloc);
        let mut parted = opened(&rt, alloc);
        let one = read(&rt, alloc, &mut whole, *steps, usize::MAX);
        let other = read(&rt, alloc, &mut parted, *steps, *part);
        same_sums(&rt, &one, &other);
        same_classes(&rt, alloc, &mut whole, &one);
        same_classes(&rt, alloc, &mut whole, &other);
        same_by_prefix(&rt, alloc, &mut whole, &one, &other);
        if *steps > 2000 {
            tells_all(&rt, &one);
        }
        drop(parted);
        drop(whole);
        drop(one);
        drop(other);
    }
}
