//! The words that ask for a sorter or a merger, and what they do.

ghost use Rattle.std.specs.Prelude.{◌≡◌, ◌≤◌, IfSome};

use crate::merging::merge_rounds;
use crate::sorting::sort_entries;
use crate::tally::Tally;
use cdc_base::{Memory, NODES_MAX, Text};
use std::alloc::Global;
use std::marker::Brand;
use std::sync::ledger::Blank;

/// What goes through a part that orders.
#[derive(Clone, Copy, Debug)]
pub enum Flow {
    /// Entries through a sorter with so many branches open.
    Sort { open: u32, count: u32 },
    /// Branches of so many nodes through a merger, in so many rounds.
    Merge { nodes: u32, rounds: u32 },
}

/// The number of a word; none where it isn't one.
fn number_of(word: &Text) -> Option<u32> {
    word.as_str().parse::<u32>().ok()
}

/// What the words ask for: `sort`, `open`, how many branches and how often, or `merge`, `nodes`, how many (from 1 to 256) and
/// how many rounds. None for any others.
pub fn flow_of(words: &[Text]) -> Option<Flow> {
    let [task, which, size, count] = words else {
        return None;
    };
    let size = number_of(size)?;
    let count = number_of(count)?;
    if task.as_str() == "sort" && which.as_str() == "open" {
        return Some(Flow::Sort { open: size, count });
    }
    if task.as_str() == "merge" && which.as_str() == "nodes" {
        return Some(Flow::Merge {
            nodes: size,
            rounds: count,
        });
    }
    None
}

/// Does it; none where an entry was refused, or there may not be so many nodes.
pub fn do_flow(alloc: Global, flow: Flow) -> Result<Option<Tally>, Memory> {
    match flow {
        Flow::Sort { open, count } => sort_entries(alloc, open, count),
        Flow::Merge { nodes, rounds } => {
            if nodes == 0 || nodes as usize > NODES_MAX {
                return Ok(None);
            }
            let tally = merge_rounds::<Brand>(alloc, nodes, rounds, Blank::new(1))?;
            Ok(Some(tally))
        }
    }
}
