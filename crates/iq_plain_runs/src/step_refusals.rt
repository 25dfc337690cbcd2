//! The first refusal of a step.
ghost use Rattle.std.specs.Prelude.{◌≡◌, ◌∷◌, [], is_none};
ghost use Rattle.std.specs.Option.{option_copied};
ghost use Rattle.iq_base.specs.declared.refusals.Refusal.TheVariants as refusals;
ghost use Rattle.iq_statements.specs.Checks.{found_if};
ghost use Rattle.iq_replay.specs.Refusals.{at_node, excluded_refusal, coordinator_refusal, end_refusal, no_report, included_refusal, node_refusal, step_refusal};

use crate::refusals::excluded_refusal;
use iq_base::{Name, Refusal};
use iq_model::Step;
use iq_plain_sessions::PlainNode;
use iq_plain_state::{PlainState, report_of};

/// The first refusal of a step.
pub(crate) fn step_refusal(state: &PlainState, step: &Step) -> Option<Refusal>
    ensures { result ≡ step_refusal state.now step.now }
{
    match step {
        Step::Apply(name) => apply_refusal(state, name),
        Step::Report(name) => report_refusal(state, name),
        Step::Lose(number) | Step::Take(number) => no_report(state, *number),
        Step::Restart(name) | Step::Exclude(name) => secondary_refusal(state, name),
        Step::Include(name) => include_refusal(state, name),
        Step::Space | Step::Versions => None,
    }
}

/// A node that isn't there, is excluded, or is at the log's end.
fn apply_refusal(state: &PlainState, name: &Name) -> Option<Refusal>
    ensures { result ≡ node_refusal state.now name.now (excluded_refusal ∷ end_refusal state.now.latest ∷ []) }
{
    let node = state.node_named(name);
    if let Some(cause) = no_node(node, name) {
        return Some(cause);
    }
    if let Some(cause) = excluded_refusal(node) {
        return Some(cause);
    }
    end_refusal(state.latest(), node)
}

/// A node that isn't there, or is excluded.
fn report_refusal(state: &PlainState, name: &Name) -> Option<Refusal>
    ensures { result ≡ node_refusal state.now name.now (excluded_refusal ∷ []) }
{
    let node = state.node_named(name);
    if let Some(cause) = no_node(node, name) {
        return Some(cause);
    }
    excluded_refusal(node)
}

/// A node that isn't there, is the coordinator, or is excluded.
fn secondary_refusal(state: &PlainState, name: &Name) -> Option<Refusal>
    ensures { result ≡ node_refusal state.now name.now (coordinator_refusal ∷ excluded_refusal ∷ []) }
{
    let node = state.node_named(name);
    if let Some(cause) = no_node(node, name) {
        return Some(cause);
    }
    if let Some(cause) = coordinator_refusal(node) {
        return Some(cause);
    }
    excluded_refusal(node)
}

/// A node that isn't there, is the coordinator, or isn't excluded.
fn include_refusal(state: &PlainState, name: &Name) -> Option<Refusal>
    ensures { result ≡ node_refusal state.now name.now (coordinator_refusal ∷ included_refusal ∷ []) }
{
    let node = state.node_named(name);
    if let Some(cause) = no_node(node, name) {
        return Some(cause);
    }
    if let Some(cause) = coordinator_refusal(node) {
        return Some(cause);
    }
    included_refusal(node)
}

/// No node of a name.
fn no_node(node: Option<&PlainNode>, name: &Name) -> Option<Refusal>
    ensures { result ≡ found_if (is_none (option_copied node.entry)) (refusals.NoNode name.now) }
{
    match node {
        None => Some(Refusal::NoNode { name: name.again() }),
        Some(_) => None,
    }
}

/// A node that is the coordinator.
fn coordinator_refusal(node: Option<&PlainNode>) -> Option<Refusal>
    ensures { result ≡ at_node coordinator_refusal (option_copied node.entry) }
{
    let node = node?;
    if node.is_coordinator() {
        return Some(Refusal::IsCoordinator {
            name: node.name().again(),
        });
    }
    None
}

/// A node whose position is the log's end.
fn end_refusal(latest: u64, node: Option<&PlainNode>) -> Option<Refusal>
    ensures { result ≡ at_node (end_refusal latest) (option_copied node.entry) }
{
    let node = node?;
    if node.position(latest) == latest {
        return Some(Refusal::AtEnd { commit: latest });
    }
    None
}

/// A node that isn't excluded.
fn included_refusal(node: Option<&PlainNode>) -> Option<Refusal>
    ensures { result ≡ at_node included_refusal (option_copied node.entry) }
{
    let node = node?;
    if node.is_excluded() {
        return None;
    }
    Some(Refusal::NotExcluded {
        node: node.name().again(),
    })
}

/// No report of a number in the bag.
fn no_report(state: &PlainState, number: u32) -> Option<Refusal>
    ensures { result ≡ no_report state.now number }
{
    match report_of(state.bag(), number) {
        None => Some(Refusal::NoReport { number }),
        Some(_) => None,
    }
}
