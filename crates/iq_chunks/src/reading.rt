//! Reading all bits of an object.
ghost use Rattle.std.specs.Prelude.{◌≡◌, ◌<◌, ◌≤◌, ◌*◌, length, IfOk, IfErr};
ghost use Rattle.iq_pages.specs.PageCalls.{view};
ghost use Rattle.iq_pieces.specs.Counts.{OnlyReads};
ghost use Rattle.iq_chunks.specs.Chunks.{chunks_for, GivesBits, HasBitsCause};

use iq_base::PAGE_BYTES;
use iq_bitmap::{Bitmap, CHUNK_ROWS};
use iq_pages::{PageFault, PageSource};
use iq_pieces::read_page;
use std::alloc::Global;

/// Reads the bits of `len` rows, each page of them once. It takes a bit a row.
pub fn read_bits<S: PageSource>(
    alloc: Global,
    source: &mut S,
    object: u32,
    len: u32,
) -> Result<Bitmap, PageFault>
    ensures long { IfOk result (λ bits. length bits ≡ len) }
    ensures bits { IfOk result (λ bits. GivesBits (S.told source.old object) len bits) }
    ensures reads { OnlyReads (chunks_for len) (view S.PageSource source.old) (view S.PageSource source.new) }
    ensures cause { IfErr result (HasBitsCause object len (view S.PageSource source.old) (view S.PageSource source.new)) }
{
    let mut bits = Bitmap::empty(alloc, len)?;
    for chunk in 0..len.div_ceil(CHUNK_ROWS) {
        let mut page = [0; PAGE_BYTES];
        read_page(source, object, chunk, &mut page)?;
        bits.load_page(chunk, &page);
    }
    Ok(bits)
}
