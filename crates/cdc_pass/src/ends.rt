//! Why a pass ended, by its nodes and its merging.

ghost use Rattle.std.specs.Prelude.{◌≡◌, ◌≤◌, ◌<◌, ◌^◌, length};
ghost use Rattle.cdc_windows.specs.Causes.{IsFirstPassCause};
ghost use Rattle.cdc_headline.specs.Ending.{cause_of_node, causes_of_nodes, cause_of_merge};

use cdc_merge_stage::MergeEnd;
use cdc_opening::Outcome;
use cdc_outside::Source;
use cdc_reader::NodeEnd;
use cdc_windows::SourcedNode;

// What the end of a node's reading says of the pass.
fn cause_of_node(node: u32, end: NodeEnd) -> Outcome
    ensures { result ≡ cause_of_node node end }
{
    match end {
        NodeEnd::Open | NodeEnd::Whole => Outcome::Done,
        NodeEnd::Read => Outcome::Read { node },
        NodeEnd::Memory => Outcome::Memory,
        NodeEnd::Fault { place, fault } => Outcome::Node { node, place, fault },
    }
}

/// Of the ends of all nodes' readings the one that is answered.
pub(crate) fn nodes_cause<S: Source>(nodes: &[SourcedNode<S>]) -> Outcome
    requires { length nodes.now ≤ 256 }
    ensures { IsFirstPassCause (causes_of_nodes 1 nodes.now) result }
{
    let mut first = Outcome::Done;
    for index in 0..nodes.len() {
        let cause = cause_of_node(index as u32 + 1, nodes[index].stage().end());
        first = first.earlier(cause);
    }
    first
}

/// What the end of the merging says of the pass.
pub(crate) fn merge_cause(end: MergeEnd) -> Outcome
    ensures { result ≡ cause_of_merge end }
{
    match end {
        MergeEnd::Open | MergeEnd::Whole => Outcome::Done,
        MergeEnd::TooLarge { number, bytes } => Outcome::TooLarge { number, bytes },
        MergeEnd::Memory => Outcome::Memory,
    }
}
