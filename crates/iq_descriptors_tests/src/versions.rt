//! The descriptors of a version.
use crate::stores::{NO_CALL, put, same, table, to_take, zeros};
use iq_descriptors::{DescriptorFault, tables};
use iq_outside::SureDevice;
use std::alloc::Global;
use std::test::Fail;

/// Heads, and how many tables they give or the block that is bad. The tables in blocks 10 to 13 are named b, a, c and b; the next is
/// none.
const ROWS: [(&[u32], Result<usize, DescriptorFault>); 9] = [
    (&[], Ok(0)),
    (&[10], Ok(1)),
    (&[11, 10, 12], Ok(3)),
    (&[10, 11], Err(DescriptorFault::Bad { block: 11 })),
    (&[10, 13], Err(DescriptorFault::Bad { block: 13 })),
    (&[11, 10, 10], Err(DescriptorFault::Bad { block: 10 })),
    (&[10, 12, 11], Err(DescriptorFault::Bad { block: 11 })),
    (&[12, 14, 10], Err(DescriptorFault::Bad { block: 14 })),
    (&[10, 3], Err(DescriptorFault::Bad { block: 3 })),
];

/// A store with these tables.
fn four(alloc: Global) -> Result<SureDevice, DescriptorFault> {
    let mut disk = zeros(alloc)?;
    let mut space = to_take(8);
    for text in ["b", "a", "c", "b"] {
        put(alloc, &mut disk, &mut space, &table(alloc, text, 1, 0)?)?;
    }
    Ok(disk)
}

/// How many tables heads give, where their first name is not behind the last.
fn counted(alloc: Global, disk: &mut SureDevice, heads: &[u32]) -> Result<usize, DescriptorFault> {
    let found = tables(alloc, disk, heads)?;
    match (found.first(), found.last()) {
        (Some(first), Some(last)) if first.name > last.name => Err(NO_CALL),
        _ => Ok(found.len()),
    }
}

#[test]
fn the_tables_of_a_version_are_read_in_order(rt: HostRuntime) -> Result<(), Fail> {
    let alloc = rt.alloc();
    let mut disk = four(alloc)?;
    for (k, (heads, wanted)) in ROWS.iter().enumerate() {
        same(&rt, &counted(alloc, &mut disk, heads), wanted, k);
    }
    Ok(())
}
