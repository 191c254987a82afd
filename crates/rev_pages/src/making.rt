//! New tables and slots.
ghost use Rattle.std.specs.Prelude.{◌≡◌, ◌≤◌, ◌+◌, ℕ, IfOk, length};
ghost use Rattle.rev_pages.specs.Opened.{AreEmpty};
ghost use Rattle.rev_pages.specs.State.{no_pages};

use crate::pages::Pages;
use crate::parts::Slots;
use crate::places::{FreeLink, FreeList};
use crate::table::Table;
use rev_classes::{ClassTable, Config, MAX_CLASSES};
use rev_links::{Cells, CountedGrid, Link, RingPlace};
use std::alloc::{AllocError, Allocator};

/// Slots of a page, with links that lead nowhere. A want of memory is the only error.
pub fn slots<A: Allocator + Drop>(alloc: A, n: u16) -> Result<Slots<A>, AllocError>
    ensures { IfOk result (λ s. s ≡ n) }
{
    let place = RingPlace::End(FreeList { class: 0 });
    let link = Link {
        previous: place,
        next: place,
    };
    Ok(Slots {
        links: vec![in alloc; link; usize::from(n)]?,
    })
}

// The ends of so many lists, each before and behind itself.
fn empty_ends<A: Allocator + Drop>(alloc: A, lists: u16) -> Result<Vec<FreeLink, A>, AllocError>
    ensures count { IfOk result (λ v. length v.items ≡ lists) }
    ensures empty { IfOk result (λ v. AreEmpty v.items) }
{
    let mut ends = Vec::with_capacity(alloc, usize::from(lists))?;
    for class in 0..lists {
        let place = RingPlace::End(FreeList { class });
        ends.push(Link {
            previous: place,
            next: place,
        })?;
    }
    Ok(ends)
}

impl<A: Allocator + Clone + Drop> Pages<A> {
    /// No page, an empty free list of each class and of the page pool, and a page table with a place for each page that
    /// may ever be made: the limit's pages, and one for each class. A want of memory is the only error.
    pub fn open(alloc: A, config: &Config, table: &ClassTable) -> Result<Pages<A>, AllocError>
        requires pages { config.now.pages ≤ 4096 }
        ensures { IfOk result (λ s. s ≡ no_pages (length table.entry.now.sizes + 1) (config.entry.now.pages + 62)) }
    {
        let places = config.pages as usize + MAX_CLASSES;
        let lists = table.last() + 1;
        let owners = vec![in alloc.clone()?; 0; places]?;
        let owned = vec![in alloc.clone()?; 0; lists]?;
        let ends = empty_ends(alloc.clone()?, lists as u16)?;
        let links = CountedGrid::open(alloc, places)?;
        let table = Table {
            ends: Cells::over(ends),
            links,
        };
        Ok(Pages {
            owners,
            made: 0,
            owned,
            table,
        })
    }
}
