//! The pages of some tables, as a sink in which each table's objects have the numbers of its place.
ghost use Rattle.std.specs.Prelude.{◌≡◌, ◌<◌, ◌+◌, ◌/◌, ℕ, None, length};
ghost use Rattle.iq_base.specs.declared.limits.TheConstants.{MOST_TABLES};
ghost use Rattle.iq_database.specs.Standing.{coming_at, going_at};
ghost use Rattle.iq_memory.specs.Told.{told_in, count_in};

use crate::sure_pages::SurePages;
use iq_base::{MOST_TABLES, NoMemory, Page};
use iq_pages::{PageFault, PageSink, PageSource};
use std::alloc::Global;

/// The pages of as many tables as there may be, in their order: those behind the last table have none. The objects of the table at
/// place `p` have the numbers from `256 p` on. No call fails but for want of memory; objects of other numbers aren't told, and can't
/// be made.
#[derive(Drop)]
pub(crate) struct TablePages {
    pub(crate) tables: Vec<SurePages>,
    ghost full: { length tables.items ≡ MOST_TABLES },
}

/// How many numbers of objects a table has.
const OBJECTS: u32 = 256;

impl TablePages {
    /// The places of all tables, each without pages.
    pub(crate) fn new(alloc: Global) -> Result<TablePages, NoMemory> {
        let mut tables = Vec::with_capacity(alloc, MOST_TABLES)?;
        'places: while tables.len() < MOST_TABLES {
            tables.push(SurePages::new(alloc))?;
        }
        Ok(TablePages { tables })
    }

    /// A table without pages comes in at a place; the last place, which no table has, goes. Behind the last place nothing comes.
    pub(crate) fn come(&mut self, alloc: Global, place: usize)
        ensures { (object : ℕ) → object / 256 < MOST_TABLES → told_in self.new.tables.items object ≡ coming_at place (told_in self.old.tables.items) object }
    {
        if place >= MOST_TABLES {
            return;
        }
        self.tables.remove(MOST_TABLES - 1);
        self.tables.insert(place, SurePages::new(alloc)).unwrap();
    }

    /// The table at a place goes; a place without pages comes behind the last.
    pub(crate) fn go(&mut self, alloc: Global, place: usize)
        requires { place < MOST_TABLES }
        ensures { (object : ℕ) → object / 256 + 1 < MOST_TABLES → told_in self.new.tables.items object ≡ going_at place (told_in self.old.tables.items) object }
    {
        self.tables.remove(place);
        self.tables.push(SurePages::new(alloc)).unwrap();
    }
}

impl PageSource for TablePages {
    ghost counts = { λ s object. count_in s.tables.items object };

    ghost told = { λ s object. told_in s.tables.items object };

    ghost reads = { λ s. None };

    ghost writes = { λ s. None };

    ghost faults = { λ s. 0 };

    fn pages(&self, object: u32) -> u32 {
        match self.tables.as_slice().get((object / OBJECTS) as usize) {
            None => 0,
            Some(pages) => pages.count(object % OBJECTS),
        }
    }

    fn page(&mut self, object: u32, n: u32, into: &mut Page) -> Result<(), PageFault> {
        let place = (object / OBJECTS) as usize;
        if place >= self.tables.len() {
            unreachable!()
        }
        self.tables[place].page(object % OBJECTS, n, into);
        Ok(())
    }

    fn faults(&self) -> u64 {
        0
    }
}

impl PageSink for TablePages {
    fn set_page(&mut self, object: u32, n: u32, from: &Page) -> Result<(), PageFault> {
        let place = (object / OBJECTS) as usize;
        if place >= self.tables.len() {
            unreachable!()
        }
        self.tables[place].set_page(object % OBJECTS, n, from);
        Ok(())
    }

    fn push_page(&mut self, object: u32, from: &Page) -> Result<(), PageFault> {
        let place = (object / OBJECTS) as usize;
        if place >= self.tables.len() {
            return Err(PageFault::BadPage { object, page: 0 });
        }
        self.tables[place].push_page(object % OBJECTS, from)?;
        Ok(())
    }

    fn new_object(&mut self, object: u32) -> Result<(), PageFault> {
        let place = (object / OBJECTS) as usize;
        if place >= self.tables.len() {
            return Err(PageFault::BadPage { object, page: 0 });
        }
        self.tables[place].clear(object % OBJECTS);
        Ok(())
    }
}
