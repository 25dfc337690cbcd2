//! The objects of a table: maps, each before what it names, and pages.
ghost use Rattle.std.specs.Prelude.{◌≡◌, ◌≤◌, ◌<◌, ◌+◌, ◌*◌, true, length, IfErr, OnOk};
ghost use Rattle.iq_base.specs.declared.descriptors.Descriptor.{Descriptor};
ghost use Rattle.iq_opening.specs.Steps.{leaf_steps, high_steps, object_steps, object_from, column_steps, columns_steps, index_steps, indexes_steps, objects_steps};
ghost use Rattle.iq_opening.specs.Calls.{Goes, Stops, HasBits};
ghost use Rattle.iq_catalog.specs.Storable.{IsStorable, are_columns, are_indexes};

use crate::OpenFault;
use crate::reaching::{reach, reach_map};
use iq_base::{ColumnPart, Descriptor, IndexPart, Ref};
use iq_bitmap::Bitmap;
use iq_block_store::PAGE;
use iq_outside::Device;

/// Reaches a map of level 1, and the pages that it names.
fn reach_leaf<D: Device>(
    disk: &mut D,
    reached: &mut Bitmap,
    holder: u32,
    at: u32,
    used: u32,
) -> Result<(), OpenFault>
    requires bits { HasBits (D.blocks disk.old) reached.old }
    requires used { used ≤ 252 }
    ensures ok { OnOk result (Goes D.Device (λ all. leaf_steps all holder at used)
        disk.old disk.new reached.old reached.new) }
    ensures err { IfErr result (Stops D.Device (λ all. leaf_steps all holder at used)
        disk.old disk.new reached.old) }
{
    let places = reach_map(disk, reached, holder, at, 1, used as usize)?;
    let mut block = [0; 1024];
    let named = places.split_at(used as usize).0;
    for page in named {
        reach(disk, reached, at, *page, PAGE, &mut block)?;
    }
    Ok(())
}

/// Reaches an object of more than 252 pages.
fn reach_high<D: Device>(
    disk: &mut D,
    reached: &mut Bitmap,
    holder: u32,
    object: Ref,
) -> Result<(), OpenFault>
    requires bits { HasBits (D.blocks disk.old) reached.old }
    requires few { object.pages ≤ 63504 }
    ensures ok { OnOk result (Goes D.Device (λ all. high_steps all holder object)
        disk.old disk.new reached.old reached.new) }
    ensures err { IfErr result (Stops D.Device (λ all. high_steps all holder object)
        disk.old disk.new reached.old) }
{
    let count = (object.pages as usize + 251) / 252;
    let places = reach_map(disk, reached, holder, object.root, 2, count)?;
    let leaves = places.split_at(count).0;
    let mut pages = object.pages;
    for leaf in leaves {
        reach_leaf(disk, reached, object.root, *leaf, pages.min(252))?;
        pages = pages.saturating_sub(252);
    }
    Ok(())
}

/// Reaches an object, whose reference stands in a block. It reads each of its blocks once, and takes no memory.
fn reach_object<D: Device>(
    disk: &mut D,
    reached: &mut Bitmap,
    holder: u32,
    object: Ref,
) -> Result<(), OpenFault>
    requires bits { HasBits (D.blocks disk.old) reached.old }
    requires few { object.pages ≤ 63504 }
    ensures ok { OnOk result (Goes D.Device (λ all. object_steps all holder object)
        disk.old disk.new reached.old reached.new) }
    ensures err { IfErr result (Stops D.Device (λ all. object_steps all holder object)
        disk.old disk.new reached.old) }
{
    if object.pages == 0 {
        return Ok(());
    }
    if object.pages <= 252 {
        return reach_leaf(disk, reached, holder, object.root, object.pages);
    }
    reach_high(disk, reached, holder, object)
}

/// Reaches an object whose reference begins at this byte of the pages in these blocks.
fn reach_from<D: Device>(
    disk: &mut D,
    reached: &mut Bitmap,
    blocks: &[u32; 4],
    byte: usize,
    object: Ref,
) -> Result<(), OpenFault>
    requires bits { HasBits (D.blocks disk.old) reached.old }
    requires few { object.pages ≤ 63504 }
    requires byte { byte < 4032 }
    ensures ok { OnOk result (Goes D.Device (λ all. object_from all blocks.now byte object)
        disk.old disk.new reached.old reached.new) }
    ensures err { IfErr result (Stops D.Device (λ all. object_from all blocks.now byte object)
        disk.old disk.new reached.old) }
{
    reach_object(disk, reached, blocks[byte / 1008], object)
}

/// Reaches the objects of a column that begins at this byte.
fn reach_column<D: Device>(
    disk: &mut D,
    reached: &mut Bitmap,
    blocks: &[u32; 4],
    byte: usize,
    column: &ColumnPart,
) -> Result<(), OpenFault>
    requires bits { HasBits (D.blocks disk.old) reached.old }
    requires cells { column.now.cells.pages ≤ 63504 }
    requires values { column.now.values.pages ≤ 63504 }
    requires byte { byte < 3900 }
    ensures ok { OnOk result (Goes D.Device (λ all. column_steps all blocks.now byte column.now)
        disk.old disk.new reached.old reached.new) }
    ensures err { IfErr result (Stops D.Device
        (λ all. column_steps all blocks.now byte column.now) disk.old disk.new reached.old) }
{
    reach_from(disk, reached, blocks, byte + 39, column.cells)?;
    reach_from(disk, reached, blocks, byte + 47, column.values)
}

/// Reaches the objects of an index that begins at this byte.
fn reach_index<D: Device>(
    disk: &mut D,
    reached: &mut Bitmap,
    blocks: &[u32; 4],
    byte: usize,
    index: &IndexPart,
) -> Result<(), OpenFault>
    requires bits { HasBits (D.blocks disk.old) reached.old }
    requires first { index.now.first.pages ≤ 63504 }
    requires second { index.now.second.pages ≤ 63504 }
    requires third { index.now.third.pages ≤ 63504 }
    requires byte { byte < 3900 }
    ensures ok { OnOk result (Goes D.Device (λ all. index_steps all blocks.now byte index.now)
        disk.old disk.new reached.old reached.new) }
    ensures err { IfErr result (Stops D.Device
        (λ all. index_steps all blocks.now byte index.now) disk.old disk.new reached.old) }
{
    reach_from(disk, reached, blocks, byte + 38, index.first)?;
    reach_from(disk, reached, blocks, byte + 46, index.second)?;
    reach_from(disk, reached, blocks, byte + 54, index.third)
}

fn reach_columns<D: Device>(
    disk: &mut D,
    reached: &mut Bitmap,
    blocks: &[u32; 4],
    columns: &[ColumnPart],
) -> Result<(), OpenFault>
    requires bits { HasBits (D.blocks disk.old) reached.old }
    requires few { length columns.now ≤ 32 }
    requires storable { are_columns columns.now ≡ true }
    ensures ok { OnOk result (Goes D.Device (λ all. columns_steps all blocks.now 57 columns.now)
        disk.old disk.new reached.old reached.new) }
    ensures err { IfErr result (Stops D.Device
        (λ all. columns_steps all blocks.now 57 columns.now) disk.old disk.new reached.old) }
{
    let mut byte = 57;
    for column in columns {
        reach_column(disk, reached, blocks, byte, column)?;
        byte += 55;
    }
    Ok(())
}

fn reach_indexes<D: Device>(
    disk: &mut D,
    reached: &mut Bitmap,
    blocks: &[u32; 4],
    columns: usize,
    indexes: &[IndexPart],
) -> Result<(), OpenFault>
    requires bits { HasBits (D.blocks disk.old) reached.old }
    requires columns { columns ≤ 32 }
    requires few { length indexes.now ≤ 32 }
    requires storable { are_indexes columns indexes.now ≡ true }
    ensures ok { OnOk result (Goes D.Device
        (λ all. indexes_steps all blocks.now (57 + 55 * columns) indexes.now)
        disk.old disk.new reached.old reached.new) }
    ensures err { IfErr result (Stops D.Device
        (λ all. indexes_steps all blocks.now (57 + 55 * columns) indexes.now)
        disk.old disk.new reached.old) }
{
    let mut byte = 57 + 55 * columns;
    for index in indexes {
        reach_index(disk, reached, blocks, byte, index)?;
        byte += 62;
    }
    Ok(())
}

/// Reaches the objects of a table, whose descriptor is in these blocks, by their numbers.
pub fn reach_objects<D: Device>(
    disk: &mut D,
    reached: &mut Bitmap,
    blocks: &[u32; 4],
    table: &Descriptor,
) -> Result<(), OpenFault>
    requires bits { HasBits (D.blocks disk.old) reached.old }
    requires storable { IsStorable table.now }
    ensures ok { OnOk result (Goes D.Device (λ all. objects_steps all blocks.now table.now)
        disk.old disk.new reached.old reached.new) }
    ensures err { IfErr result (Stops D.Device
        (λ all. objects_steps all blocks.now table.now) disk.old disk.new reached.old) }
{
    reach_from(disk, reached, blocks, 49, table.existence)?;
    let columns = table.columns.as_slice();
    reach_columns(disk, reached, blocks, columns)?;
    reach_indexes(
        disk,
        reached,
        blocks,
        columns.len(),
        table.indexes.as_slice(),
    )
}
