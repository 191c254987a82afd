//! The table of slab classes, against figures worked out by hand.
use rev_classes::{ClassTable, Config, ConfigFault};

/// The configuration that the program has without options.
pub const DEFAULTS: Config = Config {
    page_size: 1048576,
    pages: 64,
    num: 5,
    den: 4,
    bump: 64,
    hash_power: 10,
    temp_ttl: -1,
    now: 1,
};

/// The same with small pages and few buckets.
pub const SMALL_PAGES: Config = Config {
    page_size: 1024,
    hash_power: 4,
    ..DEFAULTS
};

// Chunk sizes at pages of 1048576 bytes and the factor 5/4.
static SIZES: [u32; 42] = [
    96, 120, 152, 192, 240, 304, 384, 480, 600, 752, 944, 1184, 1480, 1856, 2320, 2904, 3632, 4544,
    5680, 7104, 8880, 11104, 13880, 17352, 21696, 27120, 33904, 42384, 52984, 66232, 82792, 103496,
    129376, 161720, 202152, 252696, 315872, 394840, 493552, 616944, 771184, 1048576,
];

// Chunks of a page, for the first classes of them.
static PER_PAGE: [u32; 12] = [
    10922, 8738, 6898, 5461, 4369, 3449, 2730, 2184, 1747, 1394, 1110, 885,
];

// Chunk sizes and chunks of a page at pages of 1024 bytes and the factor 5/4.
static SMALL: [(u32, u32); 11] = [
    (96, 10),
    (120, 8),
    (152, 6),
    (192, 5),
    (240, 4),
    (304, 3),
    (384, 2),
    (480, 2),
    (600, 1),
    (752, 1),
    (1024, 1),
];

#[test]
fn sizes(rt: HostRuntime) {
    let table = ClassTable::build(&DEFAULTS).expect(&rt, "no table");
    for (index, size) in SIZES.iter().enumerate() {
        assert!(rt;
            index < table.last()
                && table.chunk_size(index + 1) == *size
                && table.class_of(u64::from(*size)) == Some(index + 1),
            "chunks of {size} bytes"
        );
    }
    for (index, count) in PER_PAGE.iter().enumerate() {
        assert!(rt;
            index < table.last() && table.per_page(index + 1) == *count,
            "{count} chunks of a page"
        );
    }
    assert!(rt; table.last() == 42 && table.class_of(1048577).is_none());
}

#[test]
fn small_pages(rt: HostRuntime) {
    let config = Config {
        page_size: 1024,
        ..DEFAULTS
    };
    let table = ClassTable::build(&config).expect(&rt, "no table");
    assert!(rt; table.last() == 11);
    for (index, (size, count)) in SMALL.iter().enumerate() {
        assert!(rt;
            index < table.last()
                && table.chunk_size(index + 1) == *size
                && table.per_page(index + 1) == *count,
            "chunks of {size} bytes"
        );
    }
}

pub struct Case {
    pub config: Config,
    pub fault: ConfigFault,
}

pub static FAULTS: [Case; 5] = [
    Case {
        config: Config {
            page_size: 1001,
            ..DEFAULTS
        },
        fault: ConfigFault::BadPage,
    },
    Case {
        config: Config {
            num: 1,
            den: 1,
            now: 0,
            ..DEFAULTS
        },
        fault: ConfigFault::BadFactor,
    },
    Case {
        config: Config {
            num: 21,
            den: 20,
            ..DEFAULTS
        },
        fault: ConfigFault::TooManyClasses,
    },
    Case {
        config: Config { now: 0, ..DEFAULTS },
        fault: ConfigFault::BadLimit,
    },
    Case {
        config: Config {
            pages: 4097,
            ..DEFAULTS
        },
        fault: ConfigFault::BadLimit,
    },
];

#[test]
fn faults(rt: HostRuntime) {
    for case in &FAULTS {
        let fault = ClassTable::build(&case.config).err();
        assert!(rt; fault == Some(case.fault));
    }
}
