//! Clearing rows of an object of bits.
ghost use Rattle.std.specs.Prelude.{◌≡◌, ◌<◌, ◌≤◌, ◌+◌, ◌*◌, length, OnOk, OnErr, IfErr};
ghost use Rattle.std.specs.Option.{option_map};
ghost use Rattle.iq_pages.specs.PageCalls.{view};
ghost use Rattle.iq_pages.specs.Pages.{CountsMore};
ghost use Rattle.iq_pieces.specs.Counts.{CountsUpTo, KeepsOthers};
ghost use Rattle.iq_chunks.specs.Chunks.{chunks_hit, hit_in, ClearsBits, ClearsChunk, HasBitsCause};

use crate::one_page::{chunk_rows, clear_in_page};
use iq_base::PAGE_BYTES;
use iq_bitmap::{Bitmap, CHUNK_ROWS};
use iq_pages::{PageFault, PageSink, PageSource};
use iq_pieces::read_page;
use std::alloc::Global;

/// Clears the rows of an object that are set in a bitmap of as many rows. Only pages with such a row are touched, each read and
/// written once. After an `Err` some of these may be written.
pub fn clear_bits<S: PageSink>(
    alloc: Global,
    sink: &mut S,
    object: u32,
    found: &Bitmap,
) -> Result<(), PageFault>
    ensures ok { OnOk result (ClearsBits found.now (S.told sink.old object) (S.told sink.new object)) }
    ensures others { KeepsOthers object (view S.PageSource sink.old) (view S.PageSource sink.new) }
    ensures reads { CountsUpTo (chunks_hit found.now) (S.reads sink.old) (S.reads sink.new) }
    ensures written { OnOk result (CountsMore (chunks_hit found.now) (S.writes sink.old) (S.writes sink.new)) }
    ensures unwritten { OnErr result (CountsUpTo (chunks_hit found.now) (S.writes sink.old) (S.writes sink.new)) }
    ensures later { S.faults sink.old ≤ S.faults sink.new }
    ensures cause { IfErr result (HasBitsCause object (length found.now) (view S.PageSource sink.old) (view S.PageSource sink.new)) }
{
    for chunk in 0..found.len().div_ceil(CHUNK_ROWS) {
        clear_chunk(alloc, sink, object, chunk, found)?;
    }
    Ok(())
}

/// Clears the rows of one chunk.
fn clear_chunk<S: PageSink>(
    alloc: Global,
    sink: &mut S,
    object: u32,
    chunk: u32,
    found: &Bitmap,
) -> Result<(), PageFault>
    requires { chunk * CHUNK_ROWS < length found.now }
    ensures ok { OnOk result (ClearsChunk chunk found.now (S.told sink.old object) (S.told sink.new object)) }
    ensures long { OnOk result (option_map length (S.told sink.new object) ≡ option_map length (S.told sink.old object)) }
    ensures others { KeepsOthers object (view S.PageSource sink.old) (view S.PageSource sink.new) }
    ensures reads { CountsUpTo (hit_in found.now chunk) (S.reads sink.old) (S.reads sink.new) }
    ensures written { OnOk result (CountsMore (hit_in found.now chunk) (S.writes sink.old) (S.writes sink.new)) }
    ensures unwritten { OnErr result (S.writes sink.new ≡ S.writes sink.old) }
    ensures later { S.faults sink.old ≤ S.faults sink.new }
    ensures cause { IfErr result (HasBitsCause object (length found.now) (view S.PageSource sink.old) (view S.PageSource sink.new)) }
{
    let gone = chunk_rows(alloc, found, chunk)?;
    if gone.has_none() {
        return Ok(());
    }
    let mut page = [0; PAGE_BYTES];
    read_page(sink, object, chunk, &mut page)?;
    clear_in_page(alloc, &mut page, &gone)?;
    sink.set_page(object, chunk, &page)
}
