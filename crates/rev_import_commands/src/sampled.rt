//! What lrudb is opened with for a sample of a cache: its bytes are as many times fewer as its keys.
ghost use Rattle.std.specs.Prelude.{◌≡◌, ◌≤◌, IfOk};
ghost use Rattle.rev_import_commands.specs.Sampled.{pages_left, sample_config, shrunk};

use rev_choices::{LEAST_PAGE, Sample};
use rev_classes::{ClassTable, Config, fault_of};
use rev_import::setup::{MOST_PAGES, PAGE_SIZE, Setup, Unfollowed};
use rev_intake::row_report::put_thin;
use rev_messages::Stop;
use rev_watch::settings::Settings;
use std::alloc::AllocError;

// A sample has more pages than these, where its pages can be made so small: 32 for each of 16 busy classes.
const ENOUGH: u64 = 512;

// The pages of a sample.
#[derive(Clone, Copy)]
struct SamplePages {
    // how many times smaller they are
    times: u32,
    // how many there are
    pages: u32,
}

// The pages of a sample of a cache with so many.
fn shrunk(sample: Sample, pages: u32) -> SamplePages
    requires { 1 ≤ pages }
    ensures times { result.times ≡ shrunk sample.one_of pages }
    ensures pages { result.pages ≡ pages_left sample.one_of pages }
{
    let (one_of, pages) = (u64::from(sample.one_of), u64::from(pages));
    let times = ENOUGH * one_of / pages + 1;
    if times < one_of {
        SamplePages {
            times: times as u32,
            pages: (pages * times / one_of) as u32,
        }
    } else {
        SamplePages {
            times: sample.one_of,
            pages: pages as u32,
        }
    }
}

// The configuration for a sample, and a note where its pages would be too small.
fn smaller(config: &Config, sample: Sample, notes: &mut Vec<u8>) -> Result<Config, AllocError>
    requires { 1 ≤ config.now.pages }
    ensures { IfOk result (λ made. made ≡ sample_config sample.one_of config.entry.now) }
{
    let SamplePages { times, pages } = shrunk(sample, config.pages);
    let smaller = Sample { one_of: times };
    let page_size = match smaller.page_size(config.page_size) {
        Some(bytes) => bytes,
        None => {
            put_thin(notes, times)?;
            LEAST_PAGE
        }
    };
    Ok(Config {
        page_size,
        pages,
        ..*config
    })
}

/// The configuration for a sample, and a note where its pages would be too small.
///
/// Err: the configuration has a fault, or memory was refused.
pub fn sampled(config: &Config, sample: Sample, notes: &mut Vec<u8>) -> Result<Config, Stop>
    ensures { IfOk result (λ made. made ≡ sample_config sample.one_of config.entry.now) }
{
    if let Some(fault) = fault_of(config) {
        return Err(Stop::from(fault));
    }
    Ok(smaller(config, sample, notes)?)
}

// The pages of a server, of which there is one at least. They may be more than lrudb is opened with.
fn pages_of(settings: &Settings) -> u32
    ensures { 1 ≤ result }
{
    match u32::try_from(settings.max_bytes / u64::from(PAGE_SIZE)) {
        Ok(0) => 1,
        Ok(pages) => pages,
        Err(_) => u32::MAX,
    }
}

// As many pages as lrudb can have, of these, and what cannot be followed where they are more.
fn bounded(pages: u32) -> (u32, Option<Unfollowed>) {
    if pages > MOST_PAGES {
        (MOST_PAGES, Some(Unfollowed::TooMuchMemory))
    } else {
        (pages, None)
    }
}

/// What lrudb is opened with for a sample of a server with these settings, in the place of the whole of it; and a note
/// where its pages would be too small.
pub(crate) fn sampled_setup(
    setup: Setup,
    settings: &Settings,
    sample: Sample,
    notes: &mut Vec<u8>,
) -> Result<Setup, Stop> {
    if sample.one_of <= 1 {
        return Ok(setup);
    }
    let server = Config {
        pages: pages_of(settings),
        ..setup.config
    };
    let sized = smaller(&server, sample, notes)?;
    let (pages, memory) = bounded(sized.pages);
    let config = Config { pages, ..sized };
    let [_, chunks, items, growth, shares, seconds] = setup.unfollowed;
    match ClassTable::build(&config) {
        Ok(classes) => Ok(Setup {
            config,
            classes,
            unfollowed: [memory, chunks, items, growth, shares, seconds],
            ..setup
        }),
        Err(fault) => Err(Stop::from(fault)),
    }
}
