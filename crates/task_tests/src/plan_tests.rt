//! Checkpoints of other plans, and where a pass begins.

use crate::samples::{FIRST, ROTATION, sample, with_slots};
use cdc_task::{Start, TaskFault, load, resume};
use std::alloc::Global;
use std::test::Fail;

// What the first sample is refused with under a plan; none where it isn't.
fn refusal(alloc: Global, nodes: u32, rotation: u64) -> Result<Option<TaskFault>, Fail> {
    let mut disk = with_slots(alloc, &FIRST, b"")?;
    Ok(match load(alloc, &mut disk, nodes, rotation) {
        Ok((_cell, _kept)) => None,
        Err(fault) => Some(fault),
    })
}

#[test]
fn another_plan_is_refused_nodes_first(rt: HostRuntime) -> Result<(), Fail> {
    let alloc = rt.alloc();
    let other_nodes = TaskFault::NodeCount { kept: 1, given: 2 };
    let other_rotation = TaskFault::Rotation {
        kept: ROTATION,
        given: 512,
    };
    let same = refusal(alloc, 1, ROTATION)?;
    assert!(rt; same.is_none());
    let nodes = refusal(alloc, 2, ROTATION)?;
    assert!(rt; nodes == Some(other_nodes));
    let both = refusal(alloc, 2, 512)?;
    assert!(rt; both == Some(other_nodes));
    let rotation = refusal(alloc, 1, 512)?;
    assert!(rt; rotation == Some(other_rotation));
    Ok(())
}

#[test]
fn a_pass_goes_on_where_no_output_is_behind(rt: HostRuntime) -> Result<(), Fail> {
    let point = sample(rt.alloc(), true)?;
    let rows: [([u64; 2], Start); 5] = [
        ([2, 2], Start::Cut),
        ([2, 9], Start::Cut),
        ([9, 1], Start::First),
        ([1, 9], Start::First),
        ([0, 0], Start::First),
    ];
    for (counts, want) in rows {
        assert!(rt; resume(Some(&point), &counts) == want, "{counts:?}");
        assert!(rt; resume(None, &counts) == Start::First, "{counts:?}");
    }
    assert!(rt; resume(Some(&point), &[]) == Start::Cut);
    Ok(())
}
