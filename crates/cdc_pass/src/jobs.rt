//! The jobs of nodes: made of stages and sources, and taken apart again.

ghost use Rattle.std.specs.Prelude.{◌≡◌, ◌+◌, ◌≤◌, ◌++◌, [], length, vec_capacity, IfOk, OnOk, OnErr};
ghost use Rattle.std.specs.List.{AllByRecursion};
ghost use Rattle.cdc_headline.specs.Running.{sources_of};
ghost use Rattle.cdc_pass.specs.Starting.{BeginsBehind, stages_of};

use cdc_base::{Key, Memory};
use cdc_node_stage::{NodeJob, NodeStage};
use cdc_outside::Source;
use cdc_windows::SourcedNode;
use std::alloc::Global;

/// The jobs of stages that begin behind this key, each over its source. It takes memory for their list; where there is none the
/// sources stay where they are.
pub(crate) fn node_jobs<S: Source>(
    alloc: Global,
    mut stages: Vec<NodeStage>,
    sources: &mut Vec<S>,
    last: &Key,
) -> Result<Vec<SourcedNode<S>>, Memory>
    requires begun { AllByRecursion (BeginsBehind last.now) stages.items }
    requires many { length stages.items ≡ length sources.old.items }
    ensures jobs { IfOk result (λ jobs. (stages_of jobs.items ≡ stages.items) × (sources_of jobs.items ≡ sources.old.items)) }
    ensures taken { OnOk result (sources.new.items ≡ []) }
    ensures kept { OnErr result (sources.new.items ≡ sources.old.items) }
    ensures room { vec_capacity sources.new ≡ vec_capacity sources.old }
{
    let Ok(mut jobs) = Vec::with_capacity(alloc, sources.len()) else {
        return Err(Memory);
    };
    while !sources.is_empty() {
        let job = NodeJob::new(stages.remove(0), sources.remove(0));
        jobs.push_reserved(SourcedNode::new(job, *last));
    }
    Ok(jobs)
}

/// Gives the sources of jobs back, in order. It takes no memory.
pub(crate) fn give_sources<S: Source>(mut jobs: Vec<SourcedNode<S>>, sources: &mut Vec<S>)
    requires { length sources.old.items + length jobs.items ≤ vec_capacity sources.old }
    ensures { sources.new.items ≡ sources.old.items ++ sources_of jobs.items }
{
    while !jobs.is_empty() {
        let (_stage, source) = jobs.remove(0).into_parts();
        sources.push_reserved(source);
    }
}
