//! What a node's stage sends, as a text.

ghost use Rattle.std.specs.Prelude.{◌≤◌};

use cdc_base::Key;
use cdc_item::NodeItem;
use cdc_lane::PlainLane;
use cdc_memory::MemSource;
use cdc_model::Branch;
use cdc_node_stage::{NodeJob, NodeStage};
use cdc_outside::LaneOut;
use cdc_reader::NodeEnd;
use cdc_turns::{NodeTurns, Turn};
use std::alloc::{AllocError, Global};
use std::test::Fail;

/// No window of a test has as many turns.
const TURNS: u32 = 100_000;

/// What was sent so far, without the Ends, how many Ends, and whether the last item was one.
#[derive(Drop)]
pub struct Sent {
    pub items: String,
    pub ends: u32,
    pub closed: bool,
}

/// The stage of node 1 that reads a log from its start, with the source of the log.
pub fn job_over(alloc: Global, source: MemSource, window: u64) -> Result<NodeJob<MemSource>, Fail> {
    let stage = NodeStage::new(alloc, 1, window)?;
    Ok(NodeJob::new(stage, source))
}

/// A branch as its timestamp, the last letter of its id, the entry that committed it, and how many rows it has.
fn branch_text(alloc: Global, branch: &Branch) -> Result<String, AllocError> {
    let (entry, rows) = (branch.entry, branch.rows.len());
    match branch.key {
        Key::Shared { timestamp, gtrid } => {
            let last = gtrid.bytes().last().copied().unwrap_or(0);
            format!(in alloc; "{timestamp}:{last}#{entry}/{rows} ")
        }
        Key::Plain { timestamp, .. } => format!(in alloc; "{timestamp}:local#{entry}/{rows} "),
    }
}

/// Notes an item.
fn note(alloc: Global, sent: &mut Sent, item: &NodeItem) -> Result<(), AllocError> {
    sent.closed = false;
    match item {
        NodeItem::Branch(branch) => sent.items.push_str(&branch_text(alloc, branch)?)?,
        NodeItem::Bound(bound) => sent.items.push_str(&format!(in alloc; "={bound} ")?)?,
        NodeItem::End => {
            sent.ends = sent.ends.saturating_add(1);
            sent.closed = true;
        }
    }
    Ok(())
}

/// Takes all that a lane holds, and notes it.
fn drain(alloc: Global, lane: &mut PlainLane<NodeItem>, sent: &mut Sent) -> Result<(), AllocError> {
    for _ in 0..TURNS {
        let Some(item) = lane.pop() else {
            return Ok(());
        };
        note(alloc, sent, &item)?;
    }
    Ok(())
}

/// Turns the job until it has sent the window's End; where its lane is full, that is emptied.
fn send_window(
    alloc: Global,
    job: &mut NodeJob<MemSource>,
    lane: &mut PlainLane<NodeItem>,
    sent: &mut Sent,
) -> Result<(), Fail> {
    for _ in 0..TURNS {
        match job.turn(lane) {
            Turn::Moved => {}
            Turn::Blocked => drain(alloc, lane, sent)?,
            Turn::Done => {
                drain(alloc, lane, sent)?;
                return Ok(());
            }
        }
    }
    Err("no end")?
}

/// Sends one window more, of which the last item must be the End, and no other one. Whether the reading goes on.
fn one_more(
    alloc: Global,
    job: &mut NodeJob<MemSource>,
    lane: &mut PlainLane<NodeItem>,
    sent: &mut Sent,
) -> Result<bool, Fail> {
    let before = sent.ends;
    send_window(alloc, job, lane, sent)?;
    if !sent.closed || sent.ends != before.saturating_add(1) {
        return Err("the window isn't closed by one End")?;
    }
    Ok(job.stage().end() == NodeEnd::Open)
}

/// All that a job sends over a lane with room for so many items.
pub fn sent_by(alloc: Global, job: &mut NodeJob<MemSource>, room: usize) -> Result<Sent, Fail>
    requires { 1 ≤ room }
{
    let mut lane = PlainLane::new(alloc, room)?;
    let mut sent = Sent {
        items: String::new(alloc),
        ends: 0,
        closed: false,
    };
    for _ in 0..TURNS {
        if !one_more(alloc, job, &mut lane, &mut sent)? {
            return Ok(sent);
        }
        if !job.stage().has_ended() {
            return Err("the window hasn't ended")?;
        }
        job.again();
    }
    Err("no end")?
}
