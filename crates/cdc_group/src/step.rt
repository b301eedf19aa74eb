//! Where an event leads that fits, and what the entry says that it ends.

ghost use Rattle.std.specs.Prelude.{◌≡◌, ℕ, IfOk, OnOk, OnErr, IfSome};
ghost use Rattle.cdc_event.specs.declared.body.Body.{Body as Spelled};
ghost use Rattle.cdc_model.specs.Row.{IsRow};
ghost use Rattle.cdc_model.specs.Kept.{IsKeptKind};
ghost use Rattle.cdc_model.specs.Records.{Row};
ghost use Rattle.cdc_model.specs.Group.{Out as HasNone, Wait as HasTime, Local as HasLocal};
ghost use Rattle.cdc_base.specs.declared.xid.Xid.{Xid as Named};
ghost use Rattle.cdc_model.specs.Sign.{PrepareEvent, NumberEvent};
ghost use Rattle.cdc_model.specs.Advance.{advance, made};
ghost use Rattle.cdc_group.specs.Seen.{sign_seen};
ghost use Rattle.cdc_group.specs.Source.{Tells};
ghost use Rattle.cdc_group.specs.Grouping.{fault_at, gone_on, kind_ended, Goes};
ghost use Rattle.cdc_group.specs.State.{grouping_of};
ghost use Rattle.cdc_group.specs.declared.group.GroupState.TheVariants.{Out, Wait, Xa, End, Local};

use crate::group::{Group, GroupState};
use crate::sign::EventSign;
use crate::source::Source;
use crate::time::Time;
use cdc_base::{Memory, Xid};
use cdc_model::EntryKind;
use std::alloc::Global;

impl Group {
    // Outside a group.
    fn begin(&mut self, sign: &EventSign) -> Option<EntryKind>
        requires { self.old.state ≡ Out }
        ensures made { (row : Row) (seconds : ℕ) → result ≡ made HasNone seconds (sign_seen row sign.now) }
        ensures new { (row : Row) → grouping_of self.new ≡ Goes (advance HasNone (sign_seen row sign.now)) }
        ensures kept { IfSome result IsKeptKind }
    {
        match sign {
            EventSign::CommitTime(time) => {
                self.state = GroupState::Wait(*time);
                None
            }
            EventSign::Begin => {
                self.begin_local();
                None
            }
            EventSign::XaStart(xid) => {
                self.begin_xa(None, xid);
                None
            }
            EventSign::BeatTime(time) => Some(EntryKind::Beat {
                timestamp: time.value,
            }),
            EventSign::XaRollback(xid) => Some(EntryKind::Rollback { xid: *xid }),
            _ => None,
        }
    }

    // Behind a commit timestamp.
    fn take_up(&mut self, time: Time, sign: &EventSign, seconds: u32) -> Option<EntryKind>
        requires { self.old.state ≡ Wait time }
        ensures made { (row : Row) → result ≡ made (HasTime time.value) seconds (sign_seen row sign.now) }
        ensures new { (row : Row) → grouping_of self.new ≡ Goes (advance (HasTime time.value) (sign_seen row sign.now)) }
        ensures kept { IfSome result IsKeptKind }
    {
        match sign {
            EventSign::Gtid => None,
            EventSign::XaStart(xid) => {
                self.begin_xa(Some(time), xid);
                None
            }
            EventSign::XaCommit(xid) => {
                self.state = GroupState::Out;
                Some(EntryKind::Commit {
                    xid: *xid,
                    timestamp: time.value,
                    seconds,
                })
            }
            _ => {
                self.state = GroupState::Out;
                None
            }
        }
    }

    // Inside an XA group.
    #[tactic(auto, using(crate::proofs::Contents::statement_added, crate::proofs::Contents::row_added))]
    fn fill_xa(
        &mut self,
        time: Option<Time>,
        sign: &EventSign,
        kind: u8,
        source: &Source<'_>,
    ) -> Result<(), Memory>
        requires state { self.old.state ≡ Xa time }
        requires row { (body : Spelled) × Tells source.now body × IsRow (kind, body) }
        requires fits { (row : Row) → fault_at (grouping_of self.old) (sign_seen row sign.now) ≡ None }
        ensures new { (body : Spelled) → Tells source.now body → IsRow (kind, body) → OnOk result (grouping_of self.new ≡ gone_on (grouping_of self.old) (sign_seen (kind, body) sign.now)) }
        ensures err { OnErr result (self.new ≡ self.old) }
    {
        match sign {
            EventSign::Statement => self.add_row(true, kind, source),
            EventSign::Row => self.add_row(false, kind, source),
            EventSign::XaEnd(_) => {
                self.state = GroupState::End(time);
                Ok(())
            }
            _ => Ok(()),
        }
    }

    // The prepared branch, committed at once where a commit timestamp stands before it.
    #[tactic(auto, using(crate::proofs::Contents::content_rows))]
    fn give_branch(
        &mut self,
        alloc: Global,
        time: Option<Time>,
        seconds: u32,
    ) -> Result<EntryKind, Memory>
        requires { self.old.state ≡ End time }
        ensures made { (one_phase : ℕ) (other : Named) → IfOk result (λ kind. kind_ended (grouping_of self.old) seconds (PrepareEvent one_phase other) ≡ Some kind) }
        ensures kept { IfOk result IsKeptKind }
        ensures new { OnOk result (self.new.state ≡ Out) }
        ensures err { OnErr result (self.new ≡ self.old) }
    {
        let rows = self.rows.finish(alloc)?;
        self.state = GroupState::Out;
        match time {
            None => Ok(EntryKind::Prepare {
                xid: self.xid,
                rows,
            }),
            Some(time) => Ok(EntryKind::OnePhase {
                xid: self.xid,
                rows,
                timestamp: time.value,
                seconds,
            }),
        }
    }

    // Behind the end of an XA group.
    fn prepare(
        &mut self,
        alloc: Global,
        time: Option<Time>,
        sign: &EventSign,
        seconds: u32,
    ) -> Result<Option<EntryKind>, Memory>
        requires { self.old.state ≡ End time }
        ensures made { (row : Row) → IfOk result (λ kind. kind ≡ kind_ended (grouping_of self.old) seconds (sign_seen row sign.now)) }
        ensures new { (row : Row) → OnOk result (grouping_of self.new ≡ gone_on (grouping_of self.old) (sign_seen row sign.now)) }
        ensures kept { IfOk result (λ kind. IfSome kind IsKeptKind) }
        ensures err { OnErr result (self.new ≡ self.old) }
    {
        match sign {
            EventSign::Prepare { .. } => match self.give_branch(alloc, time, seconds) {
                Ok(kind) => Ok(Some(kind)),
                Err(Memory) => Err(Memory),
            },
            _ => Ok(None),
        }
    }

    // The local transaction.
    fn give_local(&mut self, alloc: Global, seconds: u32) -> Result<Option<EntryKind>, Memory>
        requires { self.old.state ≡ Local }
        ensures made { IfOk result (λ kind. kind ≡ kind_ended (grouping_of self.old) seconds NumberEvent) }
        ensures kept { IfOk result (λ kind. IfSome kind IsKeptKind) }
        ensures new { OnOk result (self.new.state ≡ Out) }
        ensures err { OnErr result (self.new ≡ self.old) }
    {
        let rows = self.rows.finish(alloc)?;
        self.state = GroupState::Out;
        Ok(Some(EntryKind::Plain { rows, seconds }))
    }

    // Inside a local transaction.
    fn fill_local(
        &mut self,
        alloc: Global,
        sign: &EventSign,
        seconds: u32,
        kind: u8,
        source: &Source<'_>,
    ) -> Result<Option<EntryKind>, Memory>
        requires state { self.old.state ≡ Local }
        requires row { (body : Spelled) × Tells source.now body × IsRow (kind, body) }
        ensures made { (row : Row) → IfOk result (λ kind. kind ≡ kind_ended (grouping_of self.old) seconds (sign_seen row sign.now)) }
        ensures new { (body : Spelled) → Tells source.now body → IsRow (kind, body) → OnOk result (grouping_of self.new ≡ gone_on (grouping_of self.old) (sign_seen (kind, body) sign.now)) }
        ensures kept { IfOk result (λ kind. IfSome kind IsKeptKind) }
        ensures err { OnErr result (self.new ≡ self.old) }
    {
        match sign {
            EventSign::Row => match self.add_row(false, kind, source) {
                Ok(()) => Ok(None),
                Err(Memory) => Err(Memory),
            },
            EventSign::Number => self.give_local(alloc, seconds),
            EventSign::Commit => self.give_local(alloc, seconds),
            EventSign::Rollback => {
                self.state = GroupState::Out;
                Ok(None)
            }
            _ => Ok(None),
        }
    }

    /// Goes on behind an event that fits: what the entry says that it ends, or none. On `Memory` nothing changes.
    pub(crate) fn go_on(
        &mut self,
        alloc: Global,
        sign: &EventSign,
        seconds: u32,
        kind: u8,
        source: &Source<'_>,
    ) -> Result<Option<EntryKind>, Memory>
        requires row { (body : Spelled) × Tells source.now body × IsRow (kind, body) }
        requires fits { (row : Row) → fault_at (grouping_of self.old) (sign_seen row sign.now) ≡ None }
        ensures made { (row : Row) → IfOk result (λ kind. kind ≡ kind_ended (grouping_of self.old) seconds (sign_seen row sign.now)) }
        ensures new { (body : Spelled) → Tells source.now body → IsRow (kind, body) → OnOk result (grouping_of self.new ≡ gone_on (grouping_of self.old) (sign_seen (kind, body) sign.now)) }
        ensures kept { IfOk result (λ kind. IfSome kind IsKeptKind) }
        ensures err { OnErr result (self.new ≡ self.old) }
    {
        match self.state {
            GroupState::Out => Ok(self.begin(sign)),
            GroupState::Wait(time) => Ok(self.take_up(time, sign, seconds)),
            GroupState::Xa(time) => match self.fill_xa(time, sign, kind, source) {
                Ok(()) => Ok(None),
                Err(Memory) => Err(Memory),
            },
            GroupState::End(time) => self.prepare(alloc, time, sign, seconds),
            GroupState::Local => self.fill_local(alloc, sign, seconds, kind, source),
            GroupState::Faulty(_) => Ok(None),
        }
    }
}
