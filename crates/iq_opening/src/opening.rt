//! The way through a store, from its newest root.
ghost use Rattle.std.specs.Prelude.{◌≡◌, Ok, [], IfOk, IfErr, length};
ghost use Rattle.iq_block_store.specs.Looks.{HasLooked};
ghost use Rattle.iq_block_map.specs.Refs.{WhereTold};
ghost use Rattle.iq_opening.specs.Tables.{coded};
ghost use Rattle.iq_opening.specs.Steps.{tables_steps};
ghost use Rattle.iq_opening.specs.Walk.{walked};
ghost use Rattle.iq_opening.specs.Opening.{body_of, none_reached, root_opened, opened, tables_at, Opens};
ghost use Rattle.iq_opening.specs.Calls.{IsOpenFault};

use crate::faults::bad;
use crate::tables::reach_tables;
use crate::{OpenFault, StoreCause};
use iq_base::{Descriptor, Listed};
use iq_bitmap::Bitmap;
use iq_block_store::count_of;
use iq_outside::Device;
use iq_root::{Root, RootFault, newest_root};
use std::alloc::Global;

/// A table of a store: the block of its descriptor's head, and what the descriptor says.
#[derive(Debug, Drop)]
pub struct StoredTable {
    pub head: u32,
    pub table: Descriptor,
}

/// How a store opened: its newest root; the root's tables, in ascending order of names; and the blocks that they reach, as a bit for
/// each block of the store. Blocks 0 to 3, which hold the roots, are not among them.
#[derive(Debug, Drop)]
pub struct Opening {
    pub root: Root,
    pub tables: Listed<StoredTable>,
    pub reached: Bitmap,
}

/// Opens a store: reads its newest root, and every block that this reaches, each once. It takes a bit for each block of the store, and
/// the tables' descriptors. `NotAStore` tells the first fault, in the order in which the blocks are reached, and the block that shows it;
/// `StoreFault` comes where the device failed meanwhile.
pub fn open<D: Device>(alloc: Global, disk: &mut D) -> Result<Opening, OpenFault>
    ensures looked { HasLooked D.Device disk.old disk.new }
    ensures ok { IfOk result (λ opening. WhereTold (D.blocks disk.old)
        (λ all. Opens all opening)) }
    ensures count { IfOk result (λ opening. length opening.reached ≡ opening.root.count) }
    ensures cause { IfErr result (λ e. IsOpenFault opened e
        (D.blocks disk.old) (D.faults disk.old) (D.faults disk.new)) }
{
    let root = match newest_root(disk) {
        Ok(root) => root,
        Err(RootFault::NoRoot) => return Err(bad(0, StoreCause::NoRoot)),
        Err(RootFault::StoreFault { before, after }) => {
            return Err(OpenFault::StoreFault { before, after });
        }
    };
    open_root(alloc, disk, root)
}

/// The block of a root's body.
fn body_of(root: &Root) -> u32
    ensures { result ≡ body_of root.now }
{
    2 * (root.generation % 2) as u32
}

/// Opens a store by its newest root.
fn open_root<D: Device>(alloc: Global, disk: &mut D, root: Root) -> Result<Opening, OpenFault>
    ensures looked { HasLooked D.Device disk.old disk.new }
    ensures root { IfOk result (λ opening. opening.root ≡ root) }
    ensures count { IfOk result (λ opening. length opening.reached ≡ root.count) }
    ensures tables { IfOk result (λ opening. WhereTold (D.blocks disk.old)
        (λ all. opening.tables ≡ tables_at all root.tables)) }
    ensures ok { IfOk result (λ opening. WhereTold (D.blocks disk.old)
        (λ all. root_opened all root ≡ Ok opening.reached)) }
    ensures cause { IfErr result (λ e. IsOpenFault (λ all. root_opened all root) e
        (D.blocks disk.old) (D.faults disk.old) (D.faults disk.new)) }
{
    let body = body_of(&root);
    if root.format == 1 {
        return Err(bad(body, StoreCause::OldFormat));
    }
    let count = count_of(disk)?;
    if count < 4 || count != root.count {
        return Err(bad(body, StoreCause::Size));
    }
    let (tables, reached) = reach_root(alloc, disk, count, body, &root)?;
    Ok(Opening {
        root,
        tables,
        reached,
    })
}

/// Reaches all that a root names, from its body on, in a store of so many blocks.
fn reach_root<D: Device>(
    alloc: Global,
    disk: &mut D,
    count: u32,
    body: u32,
    root: &Root,
) -> Result<(Listed<StoredTable>, Bitmap), OpenFault>
    requires { WhereTold (D.blocks disk.old) (λ all. count ≡ length all) }
    ensures looked { HasLooked D.Device disk.old disk.new }
    ensures tables { IfOk result (λ found. WhereTold (D.blocks disk.old)
        (λ all. found.0 ≡ tables_at all root.now.tables)) }
    ensures count { IfOk result (λ found. length found.1 ≡ count) }
    ensures ok { IfOk result (λ found. WhereTold (D.blocks disk.old)
        (λ all. walked all (none_reached count)
        (tables_steps all coded body [] root.now.tables) ≡ Ok found.1)) }
    ensures cause { IfErr result (λ e. IsOpenFault (λ all. walked all (none_reached count)
        (tables_steps all coded body [] root.now.tables)) e
        (D.blocks disk.old) (D.faults disk.old) (D.faults disk.new)) }
{
    let mut reached = Bitmap::empty(alloc, count)?;
    let tables = reach_tables(alloc, disk, &mut reached, body, root.tables.as_slice())?;
    Ok((tables, reached))
}
