//! Objects read: how many blocks that takes.
use super::*;
use iq_outside::FuseDevice;
use std::process::Abort;

/// The pages, the calls of the device for a walk, the first of which the test makes, and those for a read of the last page.
const ROWS: [(usize, u64, u64); 5] = [(0, 2, 0), (1, 3, 4), (252, 3, 4), (253, 5, 5), (600, 6, 5)];

/// An object, and the blocks that it stands in.
#[derive(Drop)]
struct Stored {
    blocks: Vec<Block>,
    object: Ref,
}

impl Stored {
    /// A device of the blocks that passes so many calls.
    fn fused(&self, alloc: Global, calls: u64) -> Result<FuseDevice, MapFault> {
        if self.blocks.len() > 20 {
            return Err(NO_CALL);
        }
        Ok(FuseDevice::new(self.blocks.to_vec(alloc)?, calls))
    }

    /// Walks to the pages, or to all that the object reaches, by so many calls.
    fn walked(&self, alloc: Global, calls: u64, maps: bool) -> Result<(), MapFault> {
        walk(alloc, &mut self.fused(alloc, calls)?, self.object, maps)?;
        Ok(())
    }

    /// Reads the last page by so many calls.
    fn last(&self, alloc: Global, calls: u64) -> Result<(u32, u8, u8), MapFault> {
        let last = self.object.pages.saturating_sub(1);
        ends(&mut self.fused(alloc, calls)?, self.object, last)
    }
}

/// Walks and reads with as many calls as that takes, and with one less.
fn counted(rt: &impl Abort, alloc: Global, row: &(usize, u64, u64)) -> Result<(), MapFault> {
    let (pages, calls, reads) = *row;
    let (blocks, object) = store(alloc, pages)?;
    let stored = Stored { blocks, object };
    same(rt, &stored.walked(alloc, calls, true), &Ok(()), pages);
    let fewer = stored.walked(alloc, calls.saturating_sub(1), true);
    same(rt, &fewer, &Err(FIRST), pages);
    same(rt, &stored.walked(alloc, calls, false), &Ok(()), pages);
    if reads > 0 {
        same(rt, &stored.last(alloc, reads), &Ok(SEVENS), pages);
        let fewer = stored.last(alloc, reads.saturating_sub(1));
        same(rt, &fewer, &Err(FIRST), pages);
    }
    Ok(())
}

#[test]
fn a_walk_reads_each_map_once(rt: HostRuntime) -> Result<(), Fail> {
    for row in ROWS.iter() {
        counted(&rt, rt.alloc(), row)?;
    }
    Ok(())
}
