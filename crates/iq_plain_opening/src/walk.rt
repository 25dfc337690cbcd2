//! The first step at fault.
ghost use Rattle.std.specs.Prelude.{◌≡◌, true, length, slice_set, IfOk};
ghost use Rattle.iq_opening.specs.Walk.{fault, is_reached, reach_fault, is_map_of, is_spare_zero, fault_at, reached_after, walked};
ghost use Rattle.iq_opening.specs.Opening.{body_of, none_reached, root_opened, opened};
ghost use Rattle.iq_opening.specs.Steps.{visit, visit_map};

use crate::bytes::{block_of, has_header, number_at, numbers_at, rest};
use crate::roots::newest;
use crate::steps::{Ask, Step, tables_steps};
use crate::tables::{is_table, is_zero};
use iq_base::{Listed, NoMemory};
use iq_opening::StoreCause;
use iq_outside::Block;
use iq_root::Root;
use std::alloc::Global;
use std::marker::Model;

/// What is wrong, and the block that shows it.
#[derive(Debug, Drop)]
pub struct Fault {
    pub block: u32,
    pub cause: StoreCause,
}

impl Model for Fault {
    ghost use Rattle.iq_opening.specs.Walk.{Fault, fault};

    ghost Value = { Fault };

    ghost view = { λ f. fault f.block f.cause };
}

fn bad(block: u32, cause: StoreCause) -> Fault
    ensures { result ≡ fault block cause }
{
    Fault { block, cause }
}

/// A bit of a list, and none past the end.
fn is_reached(reached: &[bool], at: u32) -> bool
    ensures { result ≡ is_reached reached.now at }
{
    let place = at as usize;
    if place < reached.len() {
        reached[place]
    } else {
        false
    }
}

/// What is wrong with an address that stands in a block of a store of so many.
fn reach_fault(count: usize, reached: &[bool], holder: u32, at: u32) -> Option<Fault>
    ensures { result ≡ reach_fault count reached.now holder at }
{
    if at < 4 || count <= at as usize {
        return Some(bad(holder, StoreCause::OutOfRange));
    }
    if is_reached(reached, at) {
        return Some(bad(at, StoreCause::Shared));
    }
    None
}

/// Whether a block is a map of a level.
fn is_map_of(level: u32, at: u32, block: &[u8]) -> bool
    ensures { result ≡ is_map_of level at block.now }
{
    has_header(4, at, block) && number_at(block, 12) == level
}

/// Whether the places of a map behind those in use are zero.
#[tactic(auto, unfolding(iq_block_map::specs::Maps::places))]
fn is_spare_zero(alloc: Global, used: u32, block: &[u8]) -> Result<bool, NoMemory>
    ensures { IfOk result (λ right. right ≡ is_spare_zero used block.now) }
{
    let places = numbers_at(alloc, block, 16, 252)?;
    Ok(is_zero(rest(places.as_slice(), used as usize)))
}

/// What is wrong with a step that is to lead to a block of a kind.
#[tactic(auto, unfolding(iq_opening::specs::Walk::fault_at))]
fn visit_fault(blocks: &[Block], reached: &[bool], holder: u32, at: u32, kind: u8) -> Option<Fault>
    ensures { result ≡ fault_at blocks.now reached.now (visit holder at kind) }
{
    if let Some(found) = reach_fault(blocks.len(), reached, holder, at) {
        return Some(found);
    }
    if has_header(kind, at, block_of(blocks, at)) {
        None
    } else {
        Some(bad(at, StoreCause::BadHeader))
    }
}

/// What is wrong with a step that is to lead to a map.
#[tactic(auto, unfolding(iq_opening::specs::Walk::fault_at))]
fn map_fault(
    alloc: Global,
    blocks: &[Block],
    reached: &[bool],
    holder: u32,
    at: u32,
    level: u32,
    used: u32,
) -> Result<Option<Fault>, NoMemory>
    ensures { IfOk result (λ found. found
        ≡ fault_at blocks.now reached.now (visit_map holder at level used)) }
{
    if let Some(found) = reach_fault(blocks.len(), reached, holder, at) {
        return Ok(Some(found));
    }
    if !is_map_of(level, at, block_of(blocks, at)) {
        return Ok(Some(bad(at, StoreCause::BadHeader)));
    }
    if is_spare_zero(alloc, used, block_of(blocks, at))? {
        Ok(None)
    } else {
        Ok(Some(bad(at, StoreCause::BadMap)))
    }
}

/// What is wrong with a step, where some blocks are reached already.
#[tactic(auto, unfolding(iq_opening::specs::Walk::fault_at))]
fn fault_at(
    alloc: Global,
    blocks: &[Block],
    reached: &[bool],
    step: &Step,
) -> Result<Option<Fault>, NoMemory>
    ensures { IfOk result (λ found. found ≡ fault_at blocks.now reached.now step.now) }
{
    match step.ask() {
        Ask::Visit { holder, at, kind } => Ok(visit_fault(blocks, reached, *holder, *at, *kind)),
        Ask::VisitMap {
            holder,
            at,
            level,
            used,
        } => map_fault(alloc, blocks, reached, *holder, *at, *level, *used),
        Ask::Table { head, before } => {
            if is_table(alloc, blocks, *head, before)? {
                Ok(None)
            } else {
                Ok(Some(bad(*head, StoreCause::BadCatalog)))
            }
        }
    }
}

fn set(reached: &mut [bool], at: u32)
    ensures { reached.new ≡ slice_set reached.old at true }
{
    let place = at as usize;
    if place < reached.len() {
        reached[place] = true;
    }
}

/// Sets the bit of the block to which a step leads.
fn reach(reached: &mut [bool], step: &Step)
    ensures { reached.new ≡ reached_after reached.old step.now }
{
    match step.ask() {
        Ask::Visit { at, .. } => set(reached, *at),
        Ask::VisitMap { at, .. } => set(reached, *at),
        Ask::Table { .. } => {}
    }
}

/// Some bits that aren't set.
#[tactic(auto, unfolding(iq_opening::specs::Opening::none_reached))]
fn none_reached(alloc: Global, count: usize) -> Result<Vec<bool>, NoMemory>
    ensures { IfOk result (λ bits. bits.items ≡ none_reached count) }
{
    Ok(vec![in alloc; false; count]?)
}

/// The blocks that are reached after some steps, or the first fault.
#[tactic(auto, unfolding(iq_opening::specs::Walk::walked))]
fn walked(
    alloc: Global,
    blocks: &[Block],
    steps: &[Step],
) -> Result<Result<Listed<bool>, Fault>, NoMemory>
    ensures { IfOk result (λ outcome. outcome
        ≡ walked blocks.now (none_reached (length blocks.now)) steps.now) }
{
    let mut reached = none_reached(alloc, blocks.len())?;
    for step in steps {
        if let Some(found) = fault_at(alloc, blocks, reached.as_slice(), step)? {
            return Ok(Err(found));
        }
        reach(reached.as_mut_slice(), step);
    }
    Ok(Ok(Listed::from_vec(reached)))
}

/// The block of a root's body.
fn body_of(root: &Root) -> u32
    ensures { result ≡ body_of root.now }
{
    2 * (root.generation % 2) as u32
}

/// What a root reaches, or the first fault.
fn root_opened(
    alloc: Global,
    blocks: &[Block],
    root: &Root,
) -> Result<Result<Listed<bool>, Fault>, NoMemory>
    ensures { IfOk result (λ outcome. outcome ≡ root_opened blocks.now root.now) }
{
    let body = body_of(root);
    if root.format == 1 {
        return Ok(Err(bad(body, StoreCause::OldFormat)));
    }
    if blocks.len() < 4 || blocks.len() != root.count as usize {
        return Ok(Err(bad(body, StoreCause::Size)));
    }
    let steps = tables_steps(alloc, blocks, body, root.tables.as_slice())?;
    walked(alloc, blocks, steps.as_slice())
}

/// The blocks that a store's newest root reaches, as a bit for each, or the first fault. It takes a record for each step of the way,
/// also of a way that goes wrong early.
pub fn plain_opened(
    alloc: Global,
    blocks: &[Block],
) -> Result<Result<Listed<bool>, Fault>, NoMemory>
    ensures { IfOk result (λ outcome. outcome ≡ opened blocks.now) }
{
    match newest(alloc, blocks)? {
        None => Ok(Err(bad(0, StoreCause::NoRoot))),
        Some(root) => root_opened(alloc, blocks, &root),
    }
}
