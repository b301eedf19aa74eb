//! How a print ends, but for its sink.

ghost use Rattle.std.specs.Prelude.{◌≡◌, ◌<◌, ◌≤◌, length};
ghost use Rattle.cdc_print.specs.Reading.{ends_of, failed_node, some_lacking, fault_end, end_by};

use crate::end::PrintEnd;
use crate::node::NodeReader;
use crate::printing::Beyond;
use cdc_reader::NodeEnd;

// The least node whose source failed.
fn failed_node(nodes: &[NodeReader]) -> Option<u32>
    requires { length nodes.now ≤ 256 }
    ensures { result ≡ failed_node 1 (ends_of nodes.now) }
{
    for index in 0..nodes.len() {
        if let NodeEnd::Read = nodes[index].end() {
            return Some(index as u32 + 1);
        }
    }
    None
}

// Whether some node had no memory to read on.
fn some_lacking(nodes: &[NodeReader]) -> bool
    ensures { result ≡ some_lacking (ends_of nodes.now) }
{
    for index in 0..nodes.len() {
        if let NodeEnd::Memory = nodes[index].end() {
            return true;
        }
    }
    false
}

// The end for the least node whose log has a fault, or done.
fn fault_end(nodes: &[NodeReader]) -> PrintEnd
    requires { length nodes.now ≤ 256 }
    ensures { result ≡ fault_end 1 (ends_of nodes.now) }
{
    for index in 0..nodes.len() {
        if let NodeEnd::Fault { place, fault } = nodes[index].end() {
            return PrintEnd::Fault {
                node: index as u32 + 1,
                place,
                fault,
            };
        }
    }
    PrintEnd::Done
}

/// The first cause that holds: a source that failed, want of memory, a transaction that is too large, a fault of a log.
/// The order of a print's ends stands here alone.
pub(crate) fn end_by(nodes: &[NodeReader], prints: bool, beyond: Option<Beyond>) -> PrintEnd
    requires { length nodes.now ≤ 256 }
    ensures { result ≡ end_by (ends_of nodes.now) prints beyond }
{
    if let Some(node) = failed_node(nodes) {
        return PrintEnd::Read { node };
    }
    if !prints || some_lacking(nodes) {
        return PrintEnd::Memory;
    }
    match beyond {
        Some(Beyond { number, bytes }) => PrintEnd::TooLarge { number, bytes },
        None => fault_end(nodes),
    }
}
