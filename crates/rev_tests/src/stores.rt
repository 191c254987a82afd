//! Stores, records and keys that are made at their limits.
use crate::classes::{DEFAULTS, FAULTS};
use rev_inverse::{Record, Store};
use rev_items::{Key, KeyFault};
use rev_model::{Globals, Settings};
use std::alloc::Global;
use std::process::Abort;

// What an empty store tells.
fn look_at<R: Abort>(rt: &R, store: &Store<Global>) {
    let globals = Globals {
        clock: 1,
        last_cas: 0,
        flush_limit: 0,
        flush: None,
        mover: None,
        settings: Settings {
            hot_share: 20,
            warm_share: 40,
            hot_factor: 200,
            warm_factor: 2000,
            temp_ttl: -1,
        },
    };
    let (pages, bump) = store.limits();
    assert!(rt; store.table().last() == 42 && pages == 64 && bump == 64);
    assert!(rt; store.made() == 0 && store.bump_len() == 0 && store.globals() == globals);
}

#[test]
fn opens(rt: HostRuntime) {
    let store = Store::open(rt.alloc(), DEFAULTS).expect(&rt, "no store");
    look_at(&rt, &store);
    drop(store);
    let record = Record::with_room(rt.alloc(), 64).expect(&rt, "no memory");
    assert!(rt; record.len() == 0);
}

#[test]
fn does_not_open(rt: HostRuntime) {
    for case in &FAULTS {
        let fault = Store::open(rt.alloc(), case.config).err();
        assert!(rt; fault == Some(case.fault));
    }
}

// So many letters, and whether they are a key.
static LETTERS: [(usize, bool); 4] = [(0, false), (1, true), (250, true), (251, false)];

#[test]
fn keys(rt: HostRuntime) {
    let longest = vec![in rt.alloc(); b'k'; 251].expect(&rt, "no memory");
    for (letters, is_key) in &LETTERS {
        let name = longest.as_slice().get(..*letters).expect(&rt, "too many");
        match Key::new(rt.alloc(), name) {
            Ok(key) => assert!(rt; *is_key && key.bytes() == name, "{letters} letters"),
            Err(fault) => {
                assert!(rt; !*is_key && fault == KeyFault::BadKey, "{letters} letters");
            }
        }
    }
    let fault = Key::new(rt.alloc(), b"a b").err();
    assert!(rt; fault == Some(KeyFault::BadKey));
}
