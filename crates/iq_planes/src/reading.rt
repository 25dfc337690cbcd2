//! Reading the bits of one plane.
ghost use Rattle.std.specs.Prelude.{◌≡◌, ◌<◌, ◌≤◌, ◌*◌, length, IfOk, IfErr};
ghost use Rattle.iq_base.specs.declared.sizes.TheConstants.{MOST_PAGES};
ghost use Rattle.iq_pages.specs.PageCalls.{view};
ghost use Rattle.iq_pieces.specs.Counts.{OnlyReads};
ghost use Rattle.iq_chunks.specs.Chunks.{chunks_for};
ghost use Rattle.iq_planes.specs.Planes.{GivesPlane, HasPlanesCause};

use iq_base::PAGE_BYTES;
use iq_bitmap::{Bitmap, CHUNK_ROWS};
use iq_pages::{PageFault, PageSource};
use iq_pieces::read_page;
use std::alloc::Global;

/// Reads plane `j` of the `k` planes of `len` rows, each page of it once. It takes a bit a row.
pub fn read_plane<S: PageSource>(
    alloc: Global,
    source: &mut S,
    object: u32,
    k: u32,
    len: u32,
    j: u32,
) -> Result<Bitmap, PageFault>
    requires plane { j < k }
    requires most { k * chunks_for len ≤ MOST_PAGES }
    ensures long { IfOk result (λ bits. length bits ≡ len) }
    ensures bits { IfOk result (GivesPlane (S.told source.old object) k len j) }
    ensures reads { OnlyReads (chunks_for len) (view S.PageSource source.old) (view S.PageSource source.new) }
    ensures cause { IfErr result (HasPlanesCause object k len (view S.PageSource source.old) (view S.PageSource source.new)) }
{
    let mut bits = Bitmap::empty(alloc, len)?;
    for chunk in 0..len.div_ceil(CHUNK_ROWS) {
        let mut page = [0; PAGE_BYTES];
        read_page(source, object, chunk * k + j, &mut page)?;
        bits.load_page(chunk, &page);
    }
    Ok(bits)
}
