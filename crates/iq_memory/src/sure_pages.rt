//! Pages in memory of which no call is to fail.
ghost use Rattle.std.specs.Prelude.{◌≡◌, ◌<◌, ◌++◌, ◌∷◌, ℕ, [], Some, length, slice_get, slice_set, IfOk, OnOk, OnErr};
ghost use Rattle.iq_pages.specs.MemoryView.{memory_plan};
ghost use Rattle.iq_base.specs.declared.sizes.TheConstants.{MOST_PAGES};

use iq_base::{NoMemory, Page};
use iq_pages::{MemoryPages, PageSink, PageSource};
use std::alloc::Global;

/// Objects of pages in memory. No call on them is listed to fail, so one is refused for want of memory alone.
#[derive(Drop)]
pub(crate) struct SurePages {
    memory: MemoryPages,
    ghost sure: { (memory_plan memory).fails ≡ [] },
}

impl SurePages {
    ghost use Rattle.iq_memory.specs.Told.{pages_of, AreKept, AreChanged};

    /// No objects. It takes no memory.
    pub(crate) fn new(alloc: Global) -> SurePages
        ensures { (object : ℕ) → pages_of result object ≡ [] }
    {
        SurePages {
            memory: MemoryPages::new(alloc, Vec::new(alloc)),
        }
    }

    /// The same objects once more. It copies each page.
    pub(crate) fn copied(&self) -> Result<SurePages, NoMemory>
        ensures { IfOk result (λ copy. AreKept self.now copy) }
    {
        Ok(SurePages {
            memory: self.memory.copied()?,
        })
    }

    /// How many pages an object has.
    pub(crate) fn count(&self, object: u32) -> u32
        ensures { result ≡ length (pages_of self.now object) }
    {
        self.memory.pages(object)
    }

    /// Reads a page of an object.
    pub(crate) fn page(&mut self, object: u32, n: u32, into: &mut Page)
        requires { n < length (pages_of self.old object) }
        ensures page { slice_get (pages_of self.old object) n ≡ Some into.new }
        ensures kept { AreKept self.old self.new }
    {
        match self.memory.page(object, n, into) {
            Ok(()) => {}
            Err(_) => unreachable!(),
        }
    }

    /// Writes a page of an object anew.
    pub(crate) fn set_page(&mut self, object: u32, n: u32, from: &Page)
        requires { n < length (pages_of self.old object) }
        ensures { AreChanged object (slice_set (pages_of self.old object) n from.now) self.old self.new }
    {
        match self.memory.set_page(object, n, from) {
            Ok(()) => {}
            Err(_) => unreachable!(),
        }
    }

    /// Puts a page at the end of an object.
    pub(crate) fn push_page(&mut self, object: u32, from: &Page) -> Result<(), NoMemory>
        requires { length (pages_of self.old object) < MOST_PAGES }
        ensures ok { OnOk result (AreChanged object (pages_of self.old object ++ from.now ∷ []) self.old self.new) }
        ensures err { OnErr result (AreKept self.old self.new) }
    {
        match self.memory.push_page(object, from) {
            Ok(()) => Ok(()),
            Err(_) => Err(NoMemory),
        }
    }

    /// Takes all pages of an object away.
    pub(crate) fn clear(&mut self, object: u32)
        ensures { AreChanged object [] self.old self.new }
    {
        match self.memory.new_object(object) {
            Ok(()) => {}
            Err(_) => unreachable!(),
        }
    }
}
