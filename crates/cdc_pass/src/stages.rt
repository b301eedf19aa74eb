//! The stages of a pass at its beginning.

ghost use Rattle.std.specs.Prelude.{◌≡◌, ◌≤◌, ◌<◌, ◌^◌, length, map, IfOk};
ghost use Rattle.std.specs.List.{AllByRecursion};
ghost use Rattle.cdc_model.specs.Restart.{first_point};
ghost use Rattle.cdc_records.specs.Checkpoint.{IsCut};
ghost use Rattle.cdc_kept.specs.Kept.{opened_start};
ghost use Rattle.cdc_windows.specs.Jobs.{pass_start};
ghost use Rattle.cdc_headline.specs.Running.{merge_start_of};
ghost use Rattle.cdc_pass.specs.Starting.{StagesBegin};

use cdc_base::{Key, Memory, Place, first_key};
use cdc_merge_stage::MergeStart;
use cdc_model::{HeldList, Layout, NodeCut};
use cdc_node_stage::NodeStage;
use cdc_opening::Opened;
use cdc_records::CutList;
use std::alloc::Global;

// The start of a log, as a point of it.
fn start_of_log(alloc: Global) -> NodeCut
    ensures { result ≡ first_point }
{
    NodeCut {
        entry: 1,
        place: Place { file: 1, at: 0 },
        mark: 0,
        checksum: 0,
        held: HeldList::new(alloc),
    }
}

/// The starts of the logs of all nodes, as points of them.
pub(crate) fn first_cuts<S>(alloc: Global, nodes: &[S]) -> Result<CutList, Memory>
    ensures { IfOk result (λ cuts. cuts ≡ map (λ _. first_point) nodes.now) }
{
    let mut cuts = CutList::new(alloc);
    for _ in 0..nodes.len() {
        let Ok(()) = cuts.push(start_of_log(alloc)) else {
            return Err(Memory);
        };
    }
    Ok(cuts)
}

/// Where the merging of a pass begins that was opened.
pub(crate) fn merge_start<S>(opened: &Opened, nodes: &[S]) -> MergeStart
    ensures { result ≡ merge_start_of (opened_start nodes.now opened.now) }
{
    match opened.used() {
        None => MergeStart {
            count: 0,
            last: first_key(),
            before: Layout {
                file: 0,
                length: 0,
                closed: false,
            },
        },
        Some(point) => MergeStart {
            count: point.count,
            last: point.last,
            before: point.layout,
        },
    }
}

/// The stages of nodes whose logs are read on from these points, for branches with keys above this one, in windows of so many
/// bytes.
pub(crate) fn stages_from(
    alloc: Global,
    window: u64,
    mut points: CutList,
    last: &Key,
) -> Result<Vec<NodeStage>, Memory>
    requires few { length points ≤ 256 }
    requires cuts { AllByRecursion IsCut points }
    requires bytes { AllByRecursion (λ cut. cut.place.at < 2 ^ 63) points }
    ensures { IfOk result (λ stages. StagesBegin 1 last.now points stages.items) }
{
    let Ok(mut stages) = Vec::with_capacity(alloc, points.len()) else {
        return Err(Memory);
    };
    let mut node = 1;
    while !points.is_empty() {
        let stage = NodeStage::resumed(alloc, node, window, points.remove(0), last)?;
        stages.push_reserved(stage);
        node += 1;
    }
    Ok(stages)
}
