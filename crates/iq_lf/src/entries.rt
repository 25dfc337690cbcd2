//! Entries: numbers of 4 bytes in pages, 252 a page.
ghost use Rattle.std.specs.Prelude.{◌≡◌, ◌≢◌, ◌<◌, ◌≤◌, ◌*◌, ◌^◌, ℕ, length};
ghost use Rattle.iq_cells.specs.Codes.{code_in};
ghost use Rattle.iq_lf.specs.Entries.{entry_in};

use byteorder::{ByteOrder, LittleEndian};
use iq_base::Page;

/// How many entries a page has.
pub(crate) const ENTRIES: usize = 252;

/// A number of a page, counted from 0.
fn number_at(page: &Page, i: usize) -> u32
    requires { i < ENTRIES }
    ensures { result ≡ code_in 4 page.now i }
{
    let at = i * 4;
    LittleEndian::read_uint(&page[at..at + 4], 4) as u32
}

/// Writes a number of a page. The others stay.
pub(crate) fn put_number(number: u32, page: &mut Page, i: usize)
    requires { i < ENTRIES }
    ensures here { code_in 4 page.new i ≡ number }
    ensures others { (j : ℕ) → j ≢ i → code_in 4 page.new j ≡ code_in 4 page.old j }
{
    let at = i * 4;
    LittleEndian::write_uint(&mut page[at..at + 4], u64::from(number), 4);
}

/// Entry k.
#[tactic(auto, unfolding(crate::specs::Entries::entry_in))]
pub(crate) fn entry(pages: &[Page], k: usize) -> u32
    requires { k < ENTRIES * length pages.now }
    ensures { result ≡ entry_in pages.now k }
{
    number_at(&pages[k / ENTRIES], k % ENTRIES)
}
