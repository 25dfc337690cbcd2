//! The steps of the way through a store, all of them as a list.
ghost use Rattle.std.specs.Prelude.{◌≡◌, ◌≤◌, ◌+◌, ◌*◌, ◌++◌, [], slice_index, length, IfOk, OnOk};
ghost use Rattle.iq_block_map.specs.Objects.{leaf_count};
ghost use Rattle.iq_descriptors.specs.Parts.{more_of, blocks_at, table_at};
ghost use Rattle.iq_opening.specs.Tables.{coded};
ghost use Rattle.iq_opening.specs.Steps.{visit, visit_map, table, named, page_steps, leaf_steps, leaves_steps, high_steps, object_steps, object_from, column_steps, columns_steps, index_steps, indexes_steps, objects_steps, other_steps, block_steps, table_steps, tables_steps};
ghost use Rattle.iq_plain_opening.specs.Asked.{step_of};

use crate::bytes::{block_of, number_at, numbers_at};
use crate::tables::table_at;
use crate::texts::no_name;
use iq_base::{ColumnPart, Descriptor, IndexPart, Listed, Name, NoMemory, Ref};
use iq_outside::Block;
use std::alloc::Global;
use std::marker::Model;

/// What a step asks.
#[derive(Drop)]
pub enum Ask {
    /// An address that stands in a block is to lead to a block of a kind.
    Visit {
        holder: u32,
        at: u32,
        kind: u8,
    },
    /// It is to lead to a map of a level, of which so many places are in use.
    VisitMap {
        holder: u32,
        at: u32,
        level: u32,
        used: u32,
    },
    /// The descriptor with this head is to be that of a table whose name comes behind another.
    Table {
        head: u32,
        before: Name,
    },
}

/// One step of the way.
#[derive(Drop)]
pub struct Step {
    ask: Ask,
}

impl Model for Step {
    ghost use Rattle.iq_opening.specs.Steps.{Step};
    ghost use Rattle.iq_plain_opening.specs.Asked.{step_of};

    ghost Value = { Step };

    ghost view = { λ s. step_of s.ask };
}

impl Step {
    fn visit(holder: u32, at: u32, kind: u8) -> Step
        ensures { result ≡ visit holder at kind }
    {
        Step {
            ask: Ask::Visit { holder, at, kind },
        }
    }

    fn map(holder: u32, at: u32, level: u32, used: u32) -> Step
        ensures { result ≡ visit_map holder at level used }
    {
        Step {
            ask: Ask::VisitMap {
                holder,
                at,
                level,
                used,
            },
        }
    }

    fn table(head: u32, before: Name) -> Step
        ensures { result ≡ table coded head before }
    {
        Step {
            ask: Ask::Table { head, before },
        }
    }

    /// What the step asks.
    pub fn ask(&self) -> &Ask
        ensures { step_of result.now ≡ self.now }
    {
        &self.ask
    }
}

/// The places of a map that are in use.
#[tactic(auto, unfolding(iq_block_map::specs::Maps::places))]
fn named(alloc: Global, blocks: &[Block], at: u32, used: u32) -> Result<Vec<u32>, NoMemory>
    ensures { IfOk result (λ numbers. numbers.items ≡ named blocks.now at used) }
{
    let mut places = numbers_at(alloc, block_of(blocks, at), 16, 252)?;
    places.truncate(used as usize);
    Ok(places)
}

/// How many maps of level 1 name so many pages.
fn leaf_count(pages: u32) -> u32
    ensures { result ≡ leaf_count pages }
{
    ((u64::from(pages) + 251) / 252) as u32
}

fn push_pages(out: &mut Listed<Step>, at: u32, pages: &[u32]) -> Result<(), NoMemory>
    ensures { OnOk result (out.new ≡ out.old ++ page_steps at pages.now) }
{
    for page in pages {
        out.push(Step::visit(at, *page, 5))?;
    }
    Ok(())
}

#[tactic(auto, unfolding(iq_opening::specs::Steps::leaf_steps))]
fn push_leaf(
    alloc: Global,
    out: &mut Listed<Step>,
    blocks: &[Block],
    holder: u32,
    at: u32,
    used: u32,
) -> Result<(), NoMemory>
    ensures { OnOk result (out.new ≡ out.old ++ leaf_steps blocks.now holder at used) }
{
    out.push(Step::map(holder, at, 1, used))?;
    let pages = named(alloc, blocks, at, used)?;
    push_pages(out, at, pages.as_slice())
}

fn push_leaves(
    alloc: Global,
    out: &mut Listed<Step>,
    blocks: &[Block],
    top: u32,
    pages: u32,
    leaves: &[u32],
) -> Result<(), NoMemory>
    ensures { OnOk result (out.new ≡ out.old ++ leaves_steps blocks.now top pages leaves.now) }
{
    let mut left = pages;
    for leaf in leaves {
        push_leaf(alloc, out, blocks, top, *leaf, left.min(252))?;
        left = left.saturating_sub(252);
    }
    Ok(())
}

#[tactic(auto, unfolding(iq_opening::specs::Steps::high_steps))]
fn push_high(
    alloc: Global,
    out: &mut Listed<Step>,
    blocks: &[Block],
    holder: u32,
    object: Ref,
) -> Result<(), NoMemory>
    ensures { OnOk result (out.new ≡ out.old ++ high_steps blocks.now holder object) }
{
    let count = leaf_count(object.pages);
    out.push(Step::map(holder, object.root, 2, count))?;
    let leaves = named(alloc, blocks, object.root, count)?;
    push_leaves(
        alloc,
        out,
        blocks,
        object.root,
        object.pages,
        leaves.as_slice(),
    )
}

#[tactic(auto, unfolding(iq_opening::specs::Steps::object_steps))]
fn push_object(
    alloc: Global,
    out: &mut Listed<Step>,
    blocks: &[Block],
    holder: u32,
    object: Ref,
) -> Result<(), NoMemory>
    ensures { OnOk result (out.new ≡ out.old ++ object_steps blocks.now holder object) }
{
    if object.pages == 0 {
        return Ok(());
    }
    if object.pages <= 252 {
        return push_leaf(alloc, out, blocks, holder, object.root, object.pages);
    }
    push_high(alloc, out, blocks, holder, object)
}

/// A number of a list, and 0 past the end.
fn number_in(numbers: &[u32], i: usize) -> u32
    ensures { result ≡ slice_index numbers.now i }
{
    if i < numbers.len() { numbers[i] } else { 0 }
}

fn push_from(
    alloc: Global,
    out: &mut Listed<Step>,
    blocks: &[Block],
    numbers: &[u32],
    byte: usize,
    object: Ref,
) -> Result<(), NoMemory>
    ensures { OnOk result (out.new ≡ out.old ++ object_from blocks.now numbers.now byte object) }
{
    push_object(alloc, out, blocks, number_in(numbers, byte / 1008), object)
}

#[tactic(auto, unfolding(iq_opening::specs::Steps::column_steps))]
fn push_column(
    alloc: Global,
    out: &mut Listed<Step>,
    blocks: &[Block],
    numbers: &[u32],
    byte: usize,
    column: &ColumnPart,
) -> Result<(), NoMemory>
    requires { byte ≤ 65536 }
    ensures { OnOk result (out.new ≡ out.old
        ++ column_steps blocks.now numbers.now byte column.now) }
{
    push_from(alloc, out, blocks, numbers, byte + 39, column.cells)?;
    push_from(alloc, out, blocks, numbers, byte + 47, column.values)
}

#[tactic(auto, unfolding(iq_opening::specs::Steps::index_steps))]
fn push_index(
    alloc: Global,
    out: &mut Listed<Step>,
    blocks: &[Block],
    numbers: &[u32],
    byte: usize,
    index: &IndexPart,
) -> Result<(), NoMemory>
    requires { byte ≤ 65536 }
    ensures { OnOk result (out.new ≡ out.old ++ index_steps blocks.now numbers.now byte index.now) }
{
    push_from(alloc, out, blocks, numbers, byte + 38, index.first)?;
    push_from(alloc, out, blocks, numbers, byte + 46, index.second)?;
    push_from(alloc, out, blocks, numbers, byte + 54, index.third)
}

fn push_columns(
    alloc: Global,
    out: &mut Listed<Step>,
    blocks: &[Block],
    numbers: &[u32],
    columns: &[ColumnPart],
) -> Result<(), NoMemory>
    requires { length columns.now ≤ 255 }
    ensures { OnOk result (out.new ≡ out.old
        ++ columns_steps blocks.now numbers.now 57 columns.now) }
{
    for (k, column) in columns.iter().enumerate() {
        push_column(alloc, out, blocks, numbers, 57 + 55 * k, column)?;
    }
    Ok(())
}

fn push_indexes(
    alloc: Global,
    out: &mut Listed<Step>,
    blocks: &[Block],
    numbers: &[u32],
    columns: usize,
    indexes: &[IndexPart],
) -> Result<(), NoMemory>
    requires columns { columns ≤ 255 }
    requires few { length indexes.now ≤ 255 }
    ensures { OnOk result (out.new ≡ out.old
        ++ indexes_steps blocks.now numbers.now (57 + 55 * columns) indexes.now) }
{
    for (k, index) in indexes.iter().enumerate() {
        let byte = 57 + 55 * columns + 62 * k;
        push_index(alloc, out, blocks, numbers, byte, index)?;
    }
    Ok(())
}

#[tactic(auto, unfolding(iq_opening::specs::Steps::objects_steps))]
fn push_objects(
    alloc: Global,
    out: &mut Listed<Step>,
    blocks: &[Block],
    numbers: &[u32],
    table: &Descriptor,
) -> Result<(), NoMemory>
    requires columns { length table.now.columns ≤ 255 }
    requires indexes { length table.now.indexes ≤ 255 }
    ensures { OnOk result (out.new ≡ out.old ++ objects_steps blocks.now numbers.now table.now) }
{
    push_from(alloc, out, blocks, numbers, 49, table.existence)?;
    let columns = table.columns.as_slice();
    push_columns(alloc, out, blocks, numbers, columns)?;
    let indexes = table.indexes.as_slice();
    push_indexes(alloc, out, blocks, numbers, columns.len(), indexes)
}

#[tactic(auto, unfolding(iq_opening::specs::Steps::other_steps))]
fn push_other(out: &mut Listed<Step>, head: u32, at: u32) -> Result<(), NoMemory>
    ensures { OnOk result (out.new ≡ out.old ++ other_steps head at) }
{
    if at == 0 {
        return Ok(());
    }
    out.push(Step::visit(head, at, 3))
}

#[tactic(auto, unfolding(iq_opening::specs::Steps::block_steps))]
fn push_blocks(
    out: &mut Listed<Step>,
    blocks: &[Block],
    body: u32,
    head: u32,
) -> Result<(), NoMemory>
    ensures { OnOk result (out.new ≡ out.old ++ block_steps blocks.now body head) }
{
    let block = block_of(blocks, head);
    out.push(Step::visit(body, head, 3))?;
    push_other(out, head, number_at(block, 16))?;
    push_other(out, head, number_at(block, 20))?;
    push_other(out, head, number_at(block, 24))
}

/// The blocks of the descriptor whose head is in this block, 0 where there is none.
fn blocks_at(blocks: &[Block], head: u32) -> [u32; 4]
    ensures { result ≡ blocks_at blocks.now head }
{
    let block = block_of(blocks, head);
    [
        head,
        number_at(block, 16),
        number_at(block, 20),
        number_at(block, 24),
    ]
}

/// Puts the steps of a table at the end, and answers its name.
#[tactic(auto, unfolding(iq_opening::specs::Steps::table_steps))]
fn push_table(
    alloc: Global,
    out: &mut Listed<Step>,
    blocks: &[Block],
    body: u32,
    before: &Name,
    head: u32,
) -> Result<Name, NoMemory>
    ensures steps { OnOk result (out.new ≡ out.old
        ++ table_steps blocks.now coded body before.now head) }
    ensures name { IfOk result (λ name. name ≡ (table_at blocks.now head).name) }
{
    push_blocks(out, blocks, body, head)?;
    out.push(Step::table(head, before.again()))?;
    let table = table_at(alloc, blocks, head)?;
    push_objects(alloc, out, blocks, &blocks_at(blocks, head), &table)?;
    Ok(table.name.again())
}

/// The steps through the tables that a root's body names.
pub fn tables_steps(
    alloc: Global,
    blocks: &[Block],
    body: u32,
    heads: &[u32],
) -> Result<Listed<Step>, NoMemory>
    ensures { IfOk result (λ steps. steps ≡ tables_steps blocks.now coded body [] heads.now) }
{
    let mut out = Listed::new(alloc);
    let mut before = no_name();
    for head in heads {
        before = push_table(alloc, &mut out, blocks, body, &before, *head)?;
    }
    Ok(out)
}
