//! What one entry more leaves.

ghost use Rattle.std.specs.Prelude.{◌≡◌, ◌+◌, ◌<◌, ◌^◌, OnOk};
ghost use Rattle.cdc_model.specs.Start.{next};

use crate::open_branches::{enter, without};
use cdc_base::Memory;
use cdc_model::{Entry, EntryKind, Opened, StartingPoint};

/// Goes one entry on. On `Memory` the starting point is spent.
pub fn advance(start: &mut StartingPoint, entry: &Entry) -> Result<(), Memory>
    requires { start.old.entry + 1 < 2 ^ 64 }
    ensures { OnOk result (start.new ≡ next entry.now.kind start.old) }
{
    let floor = start.mark;
    match &entry.kind {
        EntryKind::Prepare { xid, rows } => {
            let branch = Opened {
                xid: *xid,
                floor,
                entry: start.entry,
                rows: rows.share()?,
            };
            without(&mut start.opened, xid);
            enter(&mut start.opened, branch)?;
        }
        EntryKind::OnePhase { timestamp, .. } => start.mark = floor.max(*timestamp),
        EntryKind::Commit { xid, timestamp, .. } => {
            start.mark = floor.max(*timestamp);
            without(&mut start.opened, xid);
        }
        EntryKind::Rollback { xid } => without(&mut start.opened, xid),
        EntryKind::Plain { .. } => {}
        EntryKind::Beat { timestamp } => start.mark = floor.max(*timestamp),
    }
    start.entry += 1;
    Ok(())
}
