//! The bag of reports, and the nodes whose floors are taken.
ghost use Rattle.std.specs.Prelude.{◌≡◌, IfOk};
ghost use Rattle.std.specs.Option.{option_copied};
ghost use Rattle.iq_replay.specs.State.{changed_at};
ghost use Rattle.iq_replay.specs.Nodes.{report_of};
ghost use Rattle.iq_replay.specs.Changes.{without_report, taken_up};

use iq_base::NoMemory;
use iq_plain_sessions::{PlainNode, PlainReport};
use std::alloc::Global;

/// The first report of a number.
pub fn report_of(bag: &[PlainReport], number: u32) -> Option<&PlainReport>
    ensures { option_copied result ≡ report_of number bag.now }
{
    bag.iter().find(|report| report.number() == number)
}

/// The reports of other numbers.
pub(crate) fn without_report(
    alloc: Global,
    bag: &[PlainReport],
    number: u32,
) -> Result<Vec<PlainReport>, NoMemory>
    ensures { IfOk result (λ kept. kept.items ≡ without_report number bag.now) }
{
    let mut kept = Vec::new(alloc);
    for report in bag {
        if report.number() == number {
            continue;
        }
        kept.push(report.again())?;
    }
    Ok(kept)
}

/// The nodes, where a report is taken.
pub fn nodes_taking(
    alloc: Global,
    nodes: &[PlainNode],
    report: &PlainReport,
) -> Result<Vec<PlainNode>, NoMemory>
    ensures { IfOk result (λ taking. taking.items ≡ changed_at report.now.node (taken_up report.now.floor) nodes.now) }
{
    let mut taking = copied_nodes(alloc, nodes)?;
    take_up_at(&mut taking, report.node(), report.floor());
    Ok(taking)
}

/// The taken floor of the node at a place is at least this.
#[tactic(auto, using(crate::proofs::Places::changed_at_past))]
fn take_up_at(nodes: &mut [PlainNode], n: u32, floor: u64)
    ensures { nodes.new ≡ changed_at n (taken_up floor) nodes.old }
{
    let place = n as usize;
    if place < nodes.len() {
        nodes[place].take_up(floor);
    }
}

/// The same nodes once more.
fn copied_nodes(alloc: Global, nodes: &[PlainNode]) -> Result<Vec<PlainNode>, NoMemory>
    ensures { IfOk result (λ copies. copies.items ≡ nodes.now) }
{
    let mut copies = Vec::new(alloc);
    for node in nodes {
        copies.push(node.again())?;
    }
    Ok(copies)
}
