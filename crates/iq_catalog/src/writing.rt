//! A descriptor as pages.
ghost use Rattle.std.specs.Prelude.{◌≡◌, ◌≤◌, ◌++◌, length, flat_map, IfOk, OnOk};
ghost use Rattle.iq_catalog.specs.Texts.{name_text, ref_text, column_text, index_text, head_text, descriptor_text};
ghost use Rattle.iq_catalog.specs.Pages.{descriptor_bytes, HasPages};
ghost use Rattle.iq_catalog.specs.Storable.{IsStorable};
ghost use Rattle.iq_block_store.specs.Frames.{bytes_of};

use crate::codes::{MOST_NAME, bytes_of, index_code, kind_code, null_code, second_code};
use crate::pages::{cut, fill, put_zeros};
use iq_base::{
    ColumnPart, Descriptor, IndexPart, Name, NoMemory, PAGE_BYTES, Page, Ref, text_length,
};
use std::alloc::Global;

/// The most bytes of a descriptor's pages.
const MOST_BYTES: usize = 4 * PAGE_BYTES;

/// The pages of a descriptor, as few as hold it: 1 to 4. The three addresses at the front of the first are 0. It takes the
/// bytes twice.
pub fn put(alloc: Global, table: &Descriptor) -> Result<Vec<Page>, NoMemory>
    requires { IsStorable table.now }
    ensures pages { IfOk result (λ pages. HasPages table.now pages.items) }
    ensures some { IfOk result (λ pages. 1 ≤ length pages.items) }
    ensures few { IfOk result (λ pages. length pages.items ≤ 4) }
{
    let all = descriptor_bytes(alloc, table)?;
    let bytes = all.as_slice();
    cut(alloc, bytes.len() / PAGE_BYTES, bytes)
}

/// The bytes of the pages of a descriptor.
#[tactic(auto, unfolding(crate::specs::Pages::descriptor_bytes, crate::specs::Texts::descriptor_text))]
pub fn descriptor_bytes(alloc: Global, table: &Descriptor) -> Result<Vec<u8>, NoMemory>
    requires columns { length table.now.columns ≤ 255 }
    requires indexes { length table.now.indexes ≤ 255 }
    ensures { IfOk result (λ bytes. bytes.items ≡ descriptor_bytes table.now) }
{
    let mut out = Vec::with_capacity(alloc, MOST_BYTES)?;
    put_zeros(&mut out, 12)?;
    put_head(&mut out, table)?;
    put_columns(&mut out, table.columns.as_slice())?;
    put_indexes(&mut out, table.indexes.as_slice())?;
    fill(&mut out)?;
    Ok(out)
}

#[tactic(auto, unfolding(crate::specs::Texts::head_text))]
fn put_head(out: &mut Vec<u8>, table: &Descriptor) -> Result<(), NoMemory>
    requires columns { length table.now.columns ≤ 255 }
    requires indexes { length table.now.indexes ≤ 255 }
    ensures { OnOk result (out.new.items ≡ out.old.items ++ head_text table.now) }
{
    put_name(out, &table.name)?;
    out.push(table.columns.len() as u8)?;
    out.push(table.indexes.len() as u8)?;
    put_number(out, table.slots)?;
    put_ref(out, table.existence)
}

fn put_columns(out: &mut Vec<u8>, columns: &[ColumnPart]) -> Result<(), NoMemory>
    ensures { OnOk result (out.new.items ≡ out.old.items ++ flat_map column_text columns.now) }
{
    for column in columns {
        put_column(out, column)?;
    }
    Ok(())
}

fn put_indexes(out: &mut Vec<u8>, indexes: &[IndexPart]) -> Result<(), NoMemory>
    ensures { OnOk result (out.new.items ≡ out.old.items ++ flat_map index_text indexes.now) }
{
    for index in indexes {
        put_index(out, index)?;
    }
    Ok(())
}

#[tactic(auto, unfolding(crate::specs::Texts::column_text))]
fn put_column(out: &mut Vec<u8>, column: &ColumnPart) -> Result<(), NoMemory>
    ensures { OnOk result (out.new.items ≡ out.old.items ++ column_text column.now) }
{
    put_name(out, &column.name)?;
    out.push(kind_code(column.kind))?;
    out.push(text_length(column.kind))?;
    out.push(null_code(column.null))?;
    out.push(column.form)?;
    put_number(out, column.distinct)?;
    put_ref(out, column.cells)?;
    put_ref(out, column.values)
}

#[tactic(auto, unfolding(crate::specs::Texts::index_text))]
fn put_index(out: &mut Vec<u8>, index: &IndexPart) -> Result<(), NoMemory>
    ensures { OnOk result (out.new.items ≡ out.old.items ++ index_text index.now) }
{
    put_name(out, &index.spec.name)?;
    out.push(index_code(index.spec.kind))?;
    out.push(index.spec.column)?;
    out.push(second_code(index.spec.second))?;
    put_number(out, index.distinct)?;
    put_ref(out, index.first)?;
    put_ref(out, index.second)?;
    put_ref(out, index.third)
}

#[tactic(auto, unfolding(crate::specs::Texts::name_text, crate::specs::Pages::zeros))]
fn put_name(out: &mut Vec<u8>, name: &Name) -> Result<(), NoMemory>
    ensures { OnOk result (out.new.items ≡ out.old.items ++ name_text name.now) }
{
    let bytes = name.as_str().as_bytes();
    out.push(bytes.len() as u8)?;
    out.extend_from_slice(bytes)?;
    put_zeros(out, MOST_NAME - bytes.len())
}

fn put_number(out: &mut Vec<u8>, n: u32) -> Result<(), NoMemory>
    ensures { OnOk result (out.new.items ≡ out.old.items ++ bytes_of n) }
{
    out.extend_from_slice(&bytes_of(n))?;
    Ok(())
}

#[tactic(auto, unfolding(crate::specs::Texts::ref_text))]
fn put_ref(out: &mut Vec<u8>, object: Ref) -> Result<(), NoMemory>
    ensures { OnOk result (out.new.items ≡ out.old.items ++ ref_text object) }
{
    put_number(out, object.root)?;
    put_number(out, object.pages)
}
