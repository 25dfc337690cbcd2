//! A sink of pages in memory, which fails at listed calls.
ghost use Rattle.std.specs.Prelude.{◌≡◌, ◌≤◌, ◌<◌, ℕ, [], Some, length, is_err, IsTrue, IsOk, IfOk, false};
ghost use Rattle.iq_base.specs.declared.sizes.TheConstants.{MOST_PAGES};
ghost use Rattle.iq_outside.specs.Calls.{plan_of, is_listed};
ghost use Rattle.iq_pages.specs.MemoryPages.{pages_in, FollowsPlan};

use crate::memory_objects::{self, Object};
use crate::page_faults::PageFault;
use crate::pages::{PageSink, PageSource};
use iq_base::{NoMemory, Page};
use iq_outside::Calls;
use std::alloc::Global;

/// Objects of pages in memory. It tells everything, and an object that was never made has no pages.
///
/// The calls of `page`, `set_page`, `push_page` and `new_object` are counted together, from 1. Those with a listed number
/// fail, and change nothing. A read copies a page; a push takes, on average, as long as a copy.
#[derive(Debug, Drop)]
pub struct MemoryPages {
    alloc: Global,
    objects: Vec<Object>,
    calls: Calls,
    reads: u64,
    writes: u64,
    ghost few: { (object : ℕ) → length (pages_in objects.items object) ≤ MOST_PAGES },
}

impl MemoryPages {
    ghost use Rattle.iq_pages.specs.MemoryView.{memory_pages, memory_plan, memory_reads, memory_writes};

    /// No objects, and the numbers of the calls that are to fail. It takes no memory.
    pub fn new(alloc: Global, fails: Vec<u64>) -> MemoryPages
        ensures pages { (object : ℕ) → memory_pages result object ≡ [] }
        ensures plan { memory_plan result ≡ plan_of fails.items }
        ensures reads { memory_reads result ≡ Some 0 }
        ensures writes { memory_writes result ≡ Some 0 }
    {
        MemoryPages {
            alloc,
            objects: Vec::new(alloc),
            calls: Calls::new(fails),
            reads: 0,
            writes: 0,
        }
    }

    /// The same objects once more; no call on them is to fail, and none was counted. It copies each page.
    pub fn copied(&self) -> Result<MemoryPages, NoMemory>
        ensures pages { IfOk result (λ copy. (object : ℕ) → memory_pages copy object ≡ memory_pages self.now object) }
        ensures plan { IfOk result (λ copy. memory_plan copy ≡ plan_of []) }
    {
        Ok(MemoryPages {
            alloc: self.alloc,
            objects: memory_objects::copied(&self.objects, self.alloc)?,
            calls: Calls::new(Vec::new(self.alloc)),
            reads: 0,
            writes: 0,
        })
    }
}

impl PageSource for MemoryPages {
    ghost use Rattle.iq_pages.specs.MemoryView.{memory_pages, memory_plan, memory_reads, memory_writes, memory_seen};
    ghost use Rattle.iq_pages.specs.Pages.{ReadsPage};

    ghost counts = { λ s object. length (memory_pages s object) };

    ghost told = { λ s object. Some (memory_pages s object) };

    ghost reads = { memory_reads };

    ghost writes = { memory_writes };

    ghost faults = { λ s. (memory_plan s).faults };

    fn pages(&self, object: u32) -> u32 {
        memory_objects::count_of(&self.objects, object) as u32
    }

    fn page(&mut self, object: u32, n: u32, into: &mut Page) -> Result<(), PageFault>
        requires { n < length (memory_pages self.old object) }
        ensures read { ReadsPage object n into.new result (memory_seen self.old) (memory_seen self.new) }
        ensures plan { FollowsPlan result (memory_plan self.old) (memory_plan self.new) }
        ensures sure { is_listed (memory_plan self.old) ≡ false → IsOk result }
    {
        self.reads = self.reads.saturating_add(1);
        call(&mut self.calls)?;
        memory_objects::read(&self.objects, object, n as usize, into);
        Ok(())
    }

    fn faults(&self) -> u64 {
        self.calls.faults()
    }
}

impl PageSink for MemoryPages {
    ghost use Rattle.iq_pages.specs.MemoryView.{memory_pages, memory_plan, memory_reads, memory_seen};
    ghost use Rattle.iq_pages.specs.Pages.{SetsPage, PushesPage, MakesObject};

    fn set_page(&mut self, object: u32, n: u32, from: &Page) -> Result<(), PageFault>
        requires { n < length (memory_pages self.old object) }
        ensures written { SetsPage object n from.now result (memory_seen self.old) (memory_seen self.new) }
        ensures plan { FollowsPlan result (memory_plan self.old) (memory_plan self.new) }
        ensures sure { is_listed (memory_plan self.old) ≡ false → IsOk result }
    {
        call(&mut self.calls)?;
        memory_objects::write(&mut self.objects, object, n as usize, from);
        self.writes = self.writes.saturating_add(1);
        Ok(())
    }

    fn push_page(&mut self, object: u32, from: &Page) -> Result<(), PageFault>
        requires { length (memory_pages self.old object) < MOST_PAGES }
        ensures written { PushesPage object from.now result (memory_seen self.old) (memory_seen self.new) }
        ensures plan { FollowsPlan result (memory_plan self.old) (memory_plan self.new) }
    {
        call(&mut self.calls)?;
        memory_objects::push(&mut self.objects, self.alloc, object, from)?;
        self.writes = self.writes.saturating_add(1);
        Ok(())
    }

    fn new_object(&mut self, object: u32) -> Result<(), PageFault>
        ensures made { MakesObject object result (memory_seen self.old) (memory_seen self.new) }
        ensures plan { FollowsPlan result (memory_plan self.old) (memory_plan self.new) }
        ensures sure { is_listed (memory_plan self.old) ≡ false → IsOk result }
    {
        call(&mut self.calls)?;
        memory_objects::clear(&mut self.objects, object);
        Ok(())
    }
}

/// Counts one more call, which fails where its number is listed.
fn call(calls: &mut Calls) -> Result<(), PageFault>
    ensures plan { FollowsPlan result calls.old calls.new }
    ensures listed { is_err result ≡ is_listed calls.old }
    ensures later { calls.old.faults ≤ calls.new.faults }
{
    let before = calls.faults();
    match calls.call() {
        Ok(()) => Ok(()),
        Err(_) => Err(PageFault::Failed {
            before,
            after: calls.faults(),
        }),
    }
}
