//! Sources and sinks of pages: an object is a list of pages behind a number.
ghost use Rattle.std.specs.Prelude.{◌≡◌, ◌<◌, ℕ, Option, IfSome, length};
ghost use Rattle.iq_base.specs.declared.sizes.TheConstants.{MOST_PAGES};
ghost use Rattle.iq_pages.specs.Pages.{Pages, seen, ReadsPage, SetsPage, PushesPage, MakesObject};

use crate::page_faults::PageFault;
use iq_base::Page;

/// Pages that can be read.
pub trait PageSource {
    /// How many pages each object has.
    ghost counts: { Self → ℕ → ℕ };

    /// The pages of each object, where they are told.
    ghost told: { Self → ℕ → Option Pages };

    /// How many pages were read, where that is told.
    ghost reads: { Self → Option ℕ };

    /// How many pages were written, where that is told.
    ghost writes: { Self → Option ℕ };

    /// How often the store below failed. A count at the last value of a `u64` stays there.
    ghost faults: { Self → ℕ };

    /// How many pages an object has.
    fn pages(&self, object: u32) -> u32
        ensures count { result ≡ counts self.now object }
        ensures told { IfSome (told self.now object) (λ pages. length pages ≡ result) };

    /// Reads a page of an object, counted from 0. After an `Err` the buffer may hold anything.
    fn page(&mut self, object: u32, n: u32, into: &mut Page) -> Result<(), PageFault>
        requires { n < counts self.old object }
        ensures { ReadsPage object n into.new result (seen counts told reads writes faults self.old)
            (seen counts told reads writes faults self.new) };

    /// How often the store below failed. `Failed` comes only where it rose.
    fn faults(&self) -> u64
        ensures { result ≡ faults self.now };
}

/// Pages that can be written too. A call that fails leaves every object as it was.
pub trait PageSink: PageSource {
    /// Writes a page of an object anew.
    fn set_page(&mut self, object: u32, n: u32, from: &Page) -> Result<(), PageFault>
        requires { n < Self.counts self.old object }
        ensures { SetsPage object n from.now result (seen Self.counts Self.told Self.reads Self.writes Self.faults self.old)
            (seen Self.counts Self.told Self.reads Self.writes Self.faults self.new) };

    /// Puts a page at the end of an object, which has at most 63,504.
    fn push_page(&mut self, object: u32, from: &Page) -> Result<(), PageFault>
        requires { Self.counts self.old object < MOST_PAGES }
        ensures { PushesPage object from.now result (seen Self.counts Self.told Self.reads Self.writes Self.faults self.old)
            (seen Self.counts Self.told Self.reads Self.writes Self.faults self.new) };

    /// Makes an object without pages. One that was there has none afterwards.
    fn new_object(&mut self, object: u32) -> Result<(), PageFault>
        ensures { MakesObject object result (seen Self.counts Self.told Self.reads Self.writes Self.faults self.old)
            (seen Self.counts Self.told Self.reads Self.writes Self.faults self.new) };
}
