//! The entry of a step.
ghost use Rattle.std.specs.Prelude.{◌≡◌, IfOk, Some};
ghost use Rattle.iq_model.specs.declared.scripts.Step.TheVariants as steps;
ghost use Rattle.iq_replay.specs.Refusals.{step_refusal};
ghost use Rattle.iq_plain_runs.specs.Courses.{IsStepOf, IsFoundOf};

use crate::following::is_certain;
use crate::step_refusals::step_refusal;
use iq_base::{Census, Name, NoMemory, Refusal};
use iq_history::Entry;
use iq_model::Step;
use iq_plain_state::{PlainState, nodes_taking, report_of};
use std::alloc::Global;

/// The entry of the first step that is left, if it has this number.
pub(crate) fn next_step(
    state: &PlainState,
    alloc: Global,
    l: u32,
) -> Result<Option<Entry>, NoMemory>
    ensures { IfOk result (IsFoundOf state.now l) }
{
    if state.is_closing() {
        return Ok(None);
    }
    let Some(step) = state.step_at(l) else {
        return Ok(None);
    };
    match step_refusal(state, step) {
        Some(cause) => Ok(refused(state, l, step, cause)),
        None => granted(state, alloc, l, step),
    }
}

/// The refusal of a step.
fn refused(state: &PlainState, l: u32, step: &Step, cause: Refusal) -> Option<Entry>
    requires at { IsStepOf state.now l step.now }
    requires first { step_refusal state.now step.now ≡ Some cause }
    ensures { IsFoundOf state.now l result }
{
    let _ = state;
    let _ = step;
    if is_certain(&cause) {
        return Some(Entry::Refused { s: None, l, cause });
    }
    None
}

/// The entry of a step that no test refuses.
fn granted(
    state: &PlainState,
    alloc: Global,
    l: u32,
    step: &Step,
) -> Result<Option<Entry>, NoMemory>
    requires { IsStepOf state.now l step.now }
    ensures { IfOk result (IsFoundOf state.now l) }
{
    match step {
        Step::Apply(name) => Ok(applied(state, l, name)),
        Step::Report(name) => reported(state, alloc, l, name),
        Step::Lose(number) => Ok(lost(state, l, *number)),
        Step::Take(number) => taken(state, alloc, l, *number),
        Step::Restart(name) => Ok(restarted(state, l, name)),
        Step::Exclude(name) => Ok(excluded(state, l, name)),
        Step::Include(name) => Ok(included(state, l, name)),
        Step::Space => Ok(counted(state, l)),
        Step::Versions => Ok(told(state, l)),
    }
}

/// A node goes on to the next commit.
fn applied(state: &PlainState, l: u32, name: &Name) -> Option<Entry>
    requires { IsStepOf state.now l (steps.Apply name.now) }
    ensures { IsFoundOf state.now l result }
{
    let n = state.place_named(name)?;
    let node = state.node_at(n)?;
    let position = node.position(state.latest());
    if node.is_excluded() || state.latest() <= position {
        return None;
    }
    let c = position.checked_add(1)?;
    Some(Entry::Apply { n, l, c })
}

/// A node's floor is sent, or taken where the node is the coordinator.
fn reported(
    state: &PlainState,
    alloc: Global,
    l: u32,
    name: &Name,
) -> Result<Option<Entry>, NoMemory>
    requires { IsStepOf state.now l (steps.Report name.now) }
    ensures { IfOk result (IsFoundOf state.now l) }
{
    let Some(n) = state.place_named(name) else {
        return Ok(None);
    };
    let Some(node) = state.node_at(n) else {
        return Ok(None);
    };
    if node.is_coordinator() {
        let horizon = state.horizon_over(alloc, state.nodes())?;
        return Ok(Some(Entry::Own {
            n,
            l,
            horizon,
            freed: 0,
        }));
    }
    if node.is_excluded() {
        return Ok(None);
    }
    let number = state.next_number();
    let floor = state.floor_of(alloc, n, node)?;
    Ok(Some(Entry::Send {
        n,
        l,
        number,
        floor,
    }))
}

/// A report is lost.
fn lost(state: &PlainState, l: u32, number: u32) -> Option<Entry>
    requires { IsStepOf state.now l (steps.Lose number) }
    ensures { IsFoundOf state.now l result }
{
    match report_of(state.bag(), number) {
        None => None,
        Some(_) => Some(Entry::Lose { l, number }),
    }
}

/// A report is taken.
fn taken(state: &PlainState, alloc: Global, l: u32, number: u32) -> Result<Option<Entry>, NoMemory>
    requires { IsStepOf state.now l (steps.Take number) }
    ensures { IfOk result (IsFoundOf state.now l) }
{
    let Some(report) = report_of(state.bag(), number) else {
        return Ok(None);
    };
    let taking = nodes_taking(alloc, state.nodes(), report)?;
    let horizon = state.horizon_over(alloc, taking.as_slice())?;
    Ok(Some(Entry::Take {
        l,
        number,
        horizon,
        freed: 0,
    }))
}

/// A node starts again.
fn restarted(state: &PlainState, l: u32, name: &Name) -> Option<Entry>
    requires { IsStepOf state.now l (steps.Restart name.now) }
    ensures { IsFoundOf state.now l result }
{
    let n = state.place_named(name)?;
    let node = state.node_at(n)?;
    if node.is_coordinator() || node.is_excluded() {
        return None;
    }
    let incarnation = node.incarnation().checked_add(1)?;
    Some(Entry::Restart { n, l, incarnation })
}

/// A node is excluded.
fn excluded(state: &PlainState, l: u32, name: &Name) -> Option<Entry>
    requires { IsStepOf state.now l (steps.Exclude name.now) }
    ensures { IsFoundOf state.now l result }
{
    let n = state.place_named(name)?;
    let node = state.node_at(n)?;
    if node.is_coordinator() || node.is_excluded() {
        return None;
    }
    let incarnation = node.incarnation().checked_add(1)?;
    Some(Entry::Exclude { n, l, incarnation })
}

/// A node is included again, at the latest commit.
fn included(state: &PlainState, l: u32, name: &Name) -> Option<Entry>
    requires { IsStepOf state.now l (steps.Include name.now) }
    ensures { IsFoundOf state.now l result }
{
    let n = state.place_named(name)?;
    let node = state.node_at(n)?;
    if !node.is_excluded() {
        return None;
    }
    let c = state.latest();
    Some(Entry::Include { n, l, c })
}

/// The blocks are counted: all but the four root blocks are free, since the plain program keeps none.
fn counted(state: &PlainState, l: u32) -> Option<Entry>
    requires { IsStepOf state.now l steps.Space }
    ensures { IsFoundOf state.now l result }
{
    let free = state.blocks().checked_sub(4)?;
    let census = Census {
        free,
        reserved: 0,
        private: 0,
        reached: 0,
        waiting: 0,
    };
    Some(Entry::Space { l, census })
}

/// The versions are told.
fn told(state: &PlainState, l: u32) -> Option<Entry>
    requires { IsStepOf state.now l steps.Versions }
    ensures { IsFoundOf state.now l result }
{
    let _ = state;
    Some(Entry::Versions { l })
}
