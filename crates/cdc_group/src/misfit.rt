//! Which event doesn't fit, by its sign: the table of faults.

ghost use Rattle.std.specs.Prelude.{◌≡◌};
ghost use Rattle.cdc_model.specs.Records.{Row};
ghost use Rattle.cdc_model.specs.Misfit.{misfit_outside, misfit_waiting, misfit_xa, misfit_ended, misfit_local, misfit_phase, unless_same};
ghost use Rattle.cdc_group.specs.Seen.{sign_seen};
ghost use Rattle.cdc_group.specs.Grouping.{fault_at};
ghost use Rattle.cdc_group.specs.State.{group_content, value_of_time, grouping_of};

use crate::group::{Group, GroupState};
use crate::sign::EventSign;
use crate::time::Time;
use cdc_base::{Xid, same_xid};
use cdc_model::GroupFault;

// Outside a group.
fn misfit_outside(sign: &EventSign) -> Option<GroupFault>
    ensures { (row : Row) → result ≡ misfit_outside (sign_seen row sign.now) }
{
    match sign {
        EventSign::Foreign => Some(GroupFault::Statement),
        EventSign::NoTime => Some(GroupFault::BadTimestamp),
        EventSign::XaEnd(_) => Some(GroupFault::OutOfPlace),
        EventSign::XaCommit(_) => Some(GroupFault::NoTimestamp),
        EventSign::Row => Some(GroupFault::RowsOutside),
        EventSign::Number => Some(GroupFault::OutOfPlace),
        EventSign::Prepare { .. } => Some(GroupFault::OutOfPlace),
        _ => None,
    }
}

// Behind a commit timestamp.
fn misfit_waiting(sign: &EventSign) -> Option<GroupFault>
    ensures { (row : Row) → result ≡ misfit_waiting (sign_seen row sign.now) }
{
    match sign {
        EventSign::Foreign => Some(GroupFault::Statement),
        EventSign::Gtid => None,
        EventSign::XaStart(_) => None,
        EventSign::XaCommit(_) => None,
        _ => Some(GroupFault::BadTimestamp),
    }
}

// A branch's events name that branch.
fn unless_same(xid: &Xid, other: &Xid, fault: Option<GroupFault>) -> Option<GroupFault>
    ensures { result ≡ unless_same xid.now other.now fault }
{
    if same_xid(xid, other) {
        fault
    } else {
        Some(GroupFault::XidDiffers)
    }
}

// A prepare in two phases has no commit timestamp before its group, and one in one phase has one.
fn misfit_phase(time: Option<Time>, one_phase: u8) -> Option<GroupFault>
    ensures { result ≡ misfit_phase (value_of_time time) one_phase }
{
    match time {
        None => {
            if one_phase == 0 {
                None
            } else {
                Some(GroupFault::NoTimestamp)
            }
        }
        Some(_) => {
            if one_phase == 0 {
                Some(GroupFault::BadTimestamp)
            } else {
                None
            }
        }
    }
}

// Behind the end of an XA group.
fn misfit_ended(time: Option<Time>, xid: &Xid, sign: &EventSign) -> Option<GroupFault>
    ensures { (row : Row) → result ≡ misfit_ended (value_of_time time) xid.now (sign_seen row sign.now) }
{
    match sign {
        EventSign::Gtid => None,
        EventSign::Quiet => None,
        EventSign::Statement => None,
        EventSign::Marked => None,
        EventSign::Foreign => Some(GroupFault::Statement),
        EventSign::Other => Some(GroupFault::Statement),
        EventSign::CommitTime(_) => Some(GroupFault::BadTimestamp),
        EventSign::BeatTime(_) => Some(GroupFault::BadTimestamp),
        EventSign::NoTime => Some(GroupFault::BadTimestamp),
        EventSign::Row => Some(GroupFault::RowsOutside),
        EventSign::Prepare {
            one_phase,
            xid: other,
        } => unless_same(xid, other, misfit_phase(time, *one_phase)),
        _ => Some(GroupFault::OutOfPlace),
    }
}

// Inside a local transaction.
fn misfit_local(sign: &EventSign) -> Option<GroupFault>
    ensures { (row : Row) → result ≡ misfit_local (sign_seen row sign.now) }
{
    match sign {
        EventSign::Foreign => Some(GroupFault::Statement),
        EventSign::Other => Some(GroupFault::Statement),
        EventSign::CommitTime(_) => Some(GroupFault::BadTimestamp),
        EventSign::BeatTime(_) => Some(GroupFault::BadTimestamp),
        EventSign::NoTime => Some(GroupFault::BadTimestamp),
        EventSign::Begin => Some(GroupFault::OutOfPlace),
        EventSign::XaStart(_) => Some(GroupFault::OutOfPlace),
        EventSign::XaEnd(_) => Some(GroupFault::OutOfPlace),
        EventSign::XaCommit(_) => Some(GroupFault::OutOfPlace),
        EventSign::XaRollback(_) => Some(GroupFault::OutOfPlace),
        EventSign::Prepare { .. } => Some(GroupFault::OutOfPlace),
        _ => None,
    }
}

impl Group {
    // Inside an XA group.
    fn misfit_xa(&self, sign: &EventSign) -> Option<GroupFault>
        ensures { (row : Row) → result ≡ misfit_xa self.now.xid (group_content self.now.statement self.now.rows) (sign_seen row sign.now) }
    {
        match sign {
            EventSign::Gtid => None,
            EventSign::Quiet => None,
            EventSign::Savepoint => None,
            EventSign::Row => self.misfit_row(),
            EventSign::Statement => self.misfit_statement(),
            EventSign::Marked => Some(GroupFault::BadDdl),
            EventSign::XaEnd(other) => unless_same(&self.xid, other, None),
            EventSign::Foreign => Some(GroupFault::Statement),
            EventSign::Other => Some(GroupFault::Statement),
            EventSign::CommitTime(_) => Some(GroupFault::BadTimestamp),
            EventSign::BeatTime(_) => Some(GroupFault::BadTimestamp),
            EventSign::NoTime => Some(GroupFault::BadTimestamp),
            _ => Some(GroupFault::OutOfPlace),
        }
    }

    /// What is wrong with an event of this sign; none where it fits.
    pub(crate) fn misfit(&self, sign: &EventSign) -> Option<GroupFault>
        ensures { (row : Row) → result ≡ fault_at (grouping_of self.now) (sign_seen row sign.now) }
    {
        match self.state {
            GroupState::Out => misfit_outside(sign),
            GroupState::Wait(_) => misfit_waiting(sign),
            GroupState::Xa(_) => self.misfit_xa(sign),
            GroupState::End(time) => misfit_ended(time, &self.xid, sign),
            GroupState::Local => misfit_local(sign),
            GroupState::Faulty(fault) => Some(fault),
        }
    }
}
