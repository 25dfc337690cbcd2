//! The tables that a root names, one after the other.
ghost use Rattle.std.specs.Prelude.{◌≡◌, [], Some, None, true, false, IfOk, IfErr, OnOk, IfSome};
ghost use Rattle.iq_block_map.specs.Refs.{WhereTold};
ghost use Rattle.iq_base.specs.declared.descriptors.Descriptor.{Descriptor};
ghost use Rattle.iq_catalog.specs.Storable.{IsStorable};
ghost use Rattle.iq_descriptors.specs.Parts.{said_by, are_packed, table_at};
ghost use Rattle.iq_descriptors.specs.Stored.{comes_behind};
ghost use Rattle.iq_opening.specs.Tables.{coded, may_stand, is_table};
ghost use Rattle.iq_opening.specs.Steps.{table_steps, tables_steps};
ghost use Rattle.iq_opening.specs.Opening.{tables_at};
ghost use Rattle.iq_opening.specs.Calls.{Goes, Stops, HasBits};

use crate::descriptors::{Found, reach_descriptor};
use crate::faults::bad;
use crate::objects::reach_objects;
use crate::{OpenFault, StoreCause, StoredTable};
use iq_base::{Descriptor, Listed, Name, NoMemory, Page};
use iq_bitmap::Bitmap;
use iq_catalog::{CatalogFault, fits_slots, get};
use iq_descriptors::{are_packed, comes_behind};
use iq_outside::Device;
use std::alloc::Global;

/// Whether a table may stand here: no address is missing in the middle, its name comes behind another, and its objects have their
/// sizes.
fn may_stand(before: &Name, more: &[u32], table: &Descriptor) -> bool
    ensures { result ≡ may_stand coded before.now more.now table.now }
{
    are_packed(more) && comes_behind(before, &table.name) && fits_slots(table)
}

/// The table that pages say, where its name comes behind another and its objects have their sizes; none where they say no such
/// table.
fn table_of(
    alloc: Global,
    before: &Name,
    more: &[u32],
    pages: &[Page],
) -> Result<Option<Descriptor>, NoMemory>
    ensures some { IfOk result (λ found. IfSome found (λ table.
        (is_table coded before.now more.now pages.now ≡ true) × (table ≡ said_by pages.now) × IsStorable table)) }
    ensures none { IfOk result (λ found. found ≡ None
        → is_table coded before.now more.now pages.now ≡ false) }
{
    let table = match get(alloc, pages) {
        Ok(table) => table,
        Err(CatalogFault::BadCatalog { .. }) => return Ok(None),
        Err(CatalogFault::NoMemory) => return Err(NoMemory),
    };
    if may_stand(before, more, &table) {
        Ok(Some(table))
    } else {
        Ok(None)
    }
}

/// Reaches a table whole: the blocks of its descriptor, and its objects.
fn reach_table<D: Device>(
    alloc: Global,
    disk: &mut D,
    reached: &mut Bitmap,
    body: u32,
    before: &Name,
    head: u32,
) -> Result<Descriptor, OpenFault>
    requires { HasBits (D.blocks disk.old) reached.old }
    ensures ok { OnOk result (Goes D.Device (λ all. table_steps all coded body before.now head)
        disk.old disk.new reached.old reached.new) }
    ensures table { IfOk result (λ table. WhereTold (D.blocks disk.old)
        (λ all. table ≡ table_at all head)) }
    ensures err { IfErr result (Stops D.Device
        (λ all. table_steps all coded body before.now head) disk.old disk.new reached.old) }
{
    let found = reach_descriptor(alloc, disk, reached, body, head)?;
    let Some(table) = table_of(
        alloc,
        before,
        found.block_numbers.split_at(1).1,
        &found.pages,
    )?
    else {
        return Err(bad(head, StoreCause::BadCatalog));
    };
    reach_objects(disk, reached, &found.block_numbers, &table)?;
    Ok(table)
}

/// Reaches the tables that the body of a root names, in order.
pub fn reach_tables<D: Device>(
    alloc: Global,
    disk: &mut D,
    reached: &mut Bitmap,
    body: u32,
    heads: &[u32],
) -> Result<Listed<StoredTable>, OpenFault>
    requires { HasBits (D.blocks disk.old) reached.old }
    ensures ok { OnOk result (Goes D.Device (λ all. tables_steps all coded body [] heads.now)
        disk.old disk.new reached.old reached.new) }
    ensures tables { IfOk result (λ tables. WhereTold (D.blocks disk.old)
        (λ all. tables ≡ tables_at all heads.now)) }
    ensures err { IfErr result (Stops D.Device
        (λ all. tables_steps all coded body [] heads.now) disk.old disk.new reached.old) }
{
    let mut tables = Listed::new(alloc);
    let mut before = no_name();
    for head in heads {
        let table = reach_table(alloc, disk, reached, body, &before, *head)?;
        before = table.name.again();
        tables.push(StoredTable { head: *head, table })?;
    }
    Ok(tables)
}

/// The name that stands before each other.
fn no_name() -> Name
    ensures { result ≡ [] }
{
    match Name::of("") {
        Some(name) => name,
        None => unreachable!(),
    }
}
