//! A step, behind a node's log.

ghost use Rattle.std.specs.Prelude.{◌≡◌, ◌+◌, ◌^◌, ◌<◌, ◌≤◌, length, OnOk};
ghost use Rattle.cdc_gen.specs.Events.{start_events, finish_events, prepare_events, commit_events, local_events, end_events, step_events};
ghost use Rattle.cdc_gen.specs.Logs.{with_events};

use crate::bodies::{begin, xid_of};
use crate::events::{Author, put_event, put_row, put_table_map, put_timestamp, put_xa};
use crate::step::{Step, StepKind};
use cdc_base::{Buffer, Memory};
use cdc_event::{Body, kind};
use cdc_query::Verb;
use std::alloc::Global;

/// When a transaction's events are written, but for its number.
const FIRST_SECONDS: u32 = 1_700_000_000;

/// The class of a commit's timestamp.
const COMMIT_CLASS: u8 = 1;

/// The class of a beat.
const BEAT_CLASS: u8 = 2;

fn put_start(alloc: Global, number: u32, node: u32, log: &mut Buffer) -> Result<(), Memory>
    requires node { node ≤ 256 }
    requires number { number ≤ 100000 }
    ensures grown { OnOk result (length log.new ≤ length log.old + 357) }
    ensures ok { length log.old + 357 < 2 ^ 32 → OnOk result (log.new ≡ with_events node log.old (start_events number node)) }
{
    let author = Author {
        node,
        seconds: FIRST_SECONDS + number,
    };
    put_xa(alloc, &author, &Verb::XaStart(xid_of(number, node)), log)?;
    put_table_map(&author, log)?;
    put_row(alloc, &author, number, log)
}

fn put_finish(alloc: Global, number: u32, node: u32, log: &mut Buffer) -> Result<(), Memory>
    requires node { node ≤ 256 }
    requires number { number ≤ 100000 }
    ensures { length log.old + 238 < 2 ^ 32 → OnOk result (log.new ≡ with_events node log.old (finish_events number node)) }
{
    let author = Author {
        node,
        seconds: FIRST_SECONDS + number,
    };
    put_xa(alloc, &author, &Verb::XaEnd(xid_of(number, node)), log)?;
    let prepare = Body::XaPrepare {
        one_phase: 0,
        xid: xid_of(number, node),
    };
    put_event(&author, kind::XA_PREPARE, prepare, log)
}

fn put_prepare(alloc: Global, number: u32, node: u32, log: &mut Buffer) -> Result<(), Memory>
    requires node { node ≤ 256 }
    requires number { number ≤ 100000 }
    ensures { length log.old + 595 < 2 ^ 32 → OnOk result (log.new ≡ with_events node log.old (prepare_events number node)) }
{
    put_start(alloc, number, node, log)?;
    put_finish(alloc, number, node, log)
}

fn put_commit(alloc: Global, number: u32, node: u32, log: &mut Buffer) -> Result<(), Memory>
    requires node { node ≤ 256 }
    requires number { number ≤ 100000 }
    ensures { length log.old + 595 < 2 ^ 32 → OnOk result (log.new ≡ with_events node log.old (commit_events number node)) }
{
    let author = Author {
        node,
        seconds: FIRST_SECONDS + number,
    };
    put_timestamp(&author, COMMIT_CLASS, 10 * u64::from(number), log)?;
    put_xa(alloc, &author, &Verb::XaCommit(xid_of(number, node)), log)
}

fn put_local(alloc: Global, number: u32, node: u32, log: &mut Buffer) -> Result<(), Memory>
    requires node { node ≤ 256 }
    requires number { number ≤ 100000 }
    ensures { length log.old + 595 < 2 ^ 32 → OnOk result (log.new ≡ with_events node log.old (local_events number)) }
{
    let author = Author {
        node,
        seconds: FIRST_SECONDS + number,
    };
    let end = Body::Xid {
        number: u64::from(number),
    };
    put_timestamp(&author, BEAT_CLASS, 10 * u64::from(number), log)?;
    put_event(&author, kind::QUERY, begin(), log)?;
    put_table_map(&author, log)?;
    put_row(alloc, &author, number, log)?;
    put_event(&author, kind::XID, end, log)
}

fn put_end(count: u32, node: u32, log: &mut Buffer) -> Result<(), Memory>
    requires { node ≤ 256 }
    ensures { length log.old + 595 < 2 ^ 32 → OnOk result (log.new ≡ with_events node log.old (end_events count)) }
{
    let author = Author { node, seconds: 0 };
    put_timestamp(&author, BEAT_CLASS, 10 * u64::from(count) + 1, log)
}

/// Appends the events of a step, each at its true place where the log stays below 2^32 bytes.
pub fn put_step(alloc: Global, step: &Step, log: &mut Buffer) -> Result<(), Memory>
    requires node { step.now.node ≤ 256 }
    requires number { step.now.number ≤ 100000 }
    ensures { length log.old + 595 < 2 ^ 32 → OnOk result (log.new ≡ with_events step.now.node log.old (step_events step.now)) }
{
    match step.kind {
        StepKind::Prepare => put_prepare(alloc, step.number, step.node, log),
        StepKind::Commit => put_commit(alloc, step.number, step.node, log),
        StepKind::Local => put_local(alloc, step.number, step.node, log),
        StepKind::End => put_end(step.number, step.node, log),
    }
}
