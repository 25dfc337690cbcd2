//! Codes of W bytes in a page: numbers, the lowest byte first, of 1, 2 or 3 bytes each.
ghost use Rattle.std.specs.Prelude.{◌≡◌, ◌≢◌, ℕ, ◌<◌, ◌≤◌, ◌^◌, ◌++◌, length, take, OnOk, OnErr};
ghost use Rattle.byteorder.specs.Endian.{little_bytes};
ghost use Rattle.iq_cells.specs.Pieces.{piece_in};
ghost use Rattle.iq_cells.specs.Codes.{code_in, codes_in, codes_per_page};

use byteorder::{ByteOrder, LittleEndian};
use iq_base::{NoMemory, Page};

/// A code of a page, counted from 0.
pub fn code_at<const W: usize>(page: &Page, i: usize) -> u32
    requires width { (1 ≤ W) × (W ≤ 3) }
    requires within { i < codes_per_page W }
    ensures value { result ≡ code_in W page.now i }
    ensures small { result < 256 ^ W }
{
    let at = i * W;
    LittleEndian::read_uint(&page[at..at + W], W) as u32
}

/// Writes a code of a page. The other codes stay.
pub fn put_code<const W: usize>(code: u32, page: &mut Page, i: usize)
    requires width { (1 ≤ W) × (W ≤ 3) }
    requires within { i < codes_per_page W }
    requires small { code < 256 ^ W }
    ensures here { code_in W page.new i ≡ code }
    ensures others { (j : ℕ) → j ≢ i → code_in W page.new j ≡ code_in W page.old j }
    ensures bytes { piece_in W page.new i ≡ little_bytes W code }
    ensures rest { (j : ℕ) → j ≢ i → piece_in W page.new j ≡ piece_in W page.old j }
{
    let at = i * W;
    LittleEndian::write_uint(&mut page[at..at + W], u64::from(code), W);
}

/// Puts the first `n` codes of a page at the end of a list. Where memory is wanting, what stood in the list is at its front.
#[tactic(auto, using(crate::proofs::CodeLaws::code_steps))]
pub fn codes_of<const W: usize>(page: &Page, n: usize, codes: &mut Vec<u32>) -> Result<(), NoMemory>
    requires width { (1 ≤ W) × (W ≤ 3) }
    requires within { n ≤ codes_per_page W }
    ensures ok { OnOk result (codes.new.items ≡ codes.old.items ++ codes_in W page.now n) }
    ensures err { OnErr result (take (length codes.old.items) codes.new.items ≡ codes.old.items) }
{
    for i in 0..n {
        codes.push(code_at::<W>(page, i))?;
    }
    Ok(())
}
