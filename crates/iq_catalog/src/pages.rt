//! Pages as bytes one behind the other.
ghost use Rattle.std.specs.Prelude.{◌≡◌, ◌*◌, ◌++◌, length, IfOk, OnOk};
ghost use Rattle.iq_catalog.specs.Pages.{zeros, filled, joined};

use iq_base::{NoMemory, PAGE_BYTES, Page};
use std::alloc::Global;

/// Puts so many zeros at the end.
#[tactic(auto, unfolding(crate::specs::Pages::zeros))]
pub fn put_zeros(out: &mut Vec<u8>, count: usize) -> Result<(), NoMemory>
    ensures { OnOk result (out.new.items ≡ out.old.items ++ zeros count) }
{
    for _ in 0..count {
        out.push(0)?;
    }
    Ok(())
}

/// Puts zeros at the end, up to the end of the last page.
#[tactic(auto, unfolding(crate::specs::Pages::filled))]
pub fn fill(out: &mut Vec<u8>) -> Result<(), NoMemory>
    ensures { OnOk result (out.new.items ≡ filled out.old.items) }
{
    let size = out.len();
    put_zeros(out, PAGE_BYTES * size.div_ceil(PAGE_BYTES) - size)
}

/// Bytes as so many pages.
pub fn cut(alloc: Global, count: usize, bytes: &[u8]) -> Result<Vec<Page>, NoMemory>
    requires { length bytes.now ≡ 1008 * count }
    ensures whole { IfOk result (λ pages. joined pages.items ≡ bytes.now) }
    ensures count { IfOk result (λ pages. length pages.items ≡ count) }
{
    let mut pages = Vec::with_capacity(alloc, count)?;
    let mut rest = bytes;
    for _ in 0..count {
        let (front, back) = rest.split_at(PAGE_BYTES);
        let mut page = [0; 1008];
        page.copy_from_slice(front);
        pages.push(page)?;
        rest = back;
    }
    Ok(pages)
}

/// Pages as bytes.
pub fn join(alloc: Global, pages: &[Page]) -> Result<Vec<u8>, NoMemory>
    ensures { IfOk result (λ bytes. bytes.items ≡ joined pages.now) }
{
    let mut bytes = Vec::new(alloc);
    for page in pages {
        bytes.extend_from_slice(page)?;
    }
    Ok(bytes)
}
