//! What a grouper keeps of an unfinished group.

ghost use Rattle.std.specs.Prelude.{◌≡◌, false, [], ◌∷◌, ◌++◌, OnOk, OnErr};
ghost use Rattle.cdc_event.specs.declared.body.Body.{Body as Spelled};
ghost use Rattle.cdc_model.specs.Row.{IsRow};
ghost use Rattle.cdc_model.specs.Misfit.{misfit_statement, misfit_row};
ghost use Rattle.cdc_group.specs.Source.{Tells};
ghost use Rattle.cdc_group.specs.State.{group_content};

use crate::source::{Source, push_row};
use crate::time::Time;
use cdc_base::{Gtrid, Memory, Xid};
use cdc_model::{GroupFault, RowRun};
use std::alloc::Global;

/// How far a group has come.
#[derive(Clone, Copy, Debug)]
pub(crate) enum GroupState {
    /// None has begun.
    Out,
    /// A commit timestamp waits for what it belongs to.
    Wait(Time),
    /// An XA group before its end, and the commit timestamp before it.
    Xa(Option<Time>),
    /// An XA group behind its end.
    End(Option<Time>),
    /// A local transaction.
    Local,
    /// An event didn't fit.
    Faulty(GroupFault),
}

/// An unfinished group: of an XA group its branch, and whether its one row is a statement. Its rows are what has come
/// of them; outside a group all this is left over.
#[derive(Debug, Drop)]
pub(crate) struct Group {
    pub(crate) state: GroupState,
    pub(crate) xid: Xid,
    pub(crate) statement: bool,
    pub(crate) rows: RowRun,
}

impl Group {
    /// None.
    pub(crate) fn new(alloc: Global) -> Group
        ensures { result.state ≡ GroupState.Out }
    {
        Group {
            state: GroupState::Out,
            xid: Xid {
                gtrid: Gtrid::empty(),
                bqual: Gtrid::empty(),
                format: 0,
            },
            statement: false,
            rows: RowRun::new(alloc),
        }
    }

    /// A statement may stand where there is no row yet.
    #[tactic(auto, using(crate::proofs::Contents::none_yet, crate::proofs::Contents::some_already))]
    pub(crate) fn misfit_statement(&self) -> Option<GroupFault>
        ensures { result ≡ misfit_statement (group_content self.now.statement self.now.rows) }
    {
        if self.rows.is_empty() {
            None
        } else {
            Some(GroupFault::BadDdl)
        }
    }

    /// A row may stand where there is no statement.
    #[tactic(auto, using(crate::proofs::Contents::one_statement, crate::proofs::Contents::of_tables, crate::proofs::Contents::not_alone))]
    pub(crate) fn misfit_row(&self) -> Option<GroupFault>
        ensures { result ≡ misfit_row (group_content self.now.statement self.now.rows) }
    {
        if self.statement && self.rows.len() == 1 {
            Some(GroupFault::BadDdl)
        } else {
            None
        }
    }

    /// Begins an XA group.
    pub(crate) fn begin_xa(&mut self, time: Option<Time>, xid: &Xid)
        ensures { self.new ≡ record { state = GroupState.Xa time; xid = xid.now; statement = false; rows = [] } }
    {
        self.state = GroupState::Xa(time);
        self.xid = *xid;
        self.statement = false;
        self.rows.clear();
    }

    /// Begins a local transaction.
    pub(crate) fn begin_local(&mut self)
        ensures { self.new ≡ record self.old { state = GroupState.Local; rows = [] } }
    {
        self.state = GroupState::Local;
        self.rows.clear();
    }

    /// Adds a row, which is a statement or not. On `Memory` nothing changes.
    pub(crate) fn add_row(
        &mut self,
        statement: bool,
        kind: u8,
        source: &Source<'_>,
    ) -> Result<(), Memory>
        requires { (body : Spelled) × Tells source.now body × IsRow (kind, body) }
        ensures ok { (body : Spelled) → Tells source.now body → IsRow (kind, body) → OnOk result (self.new ≡ record self.old { statement = statement; rows = self.old.rows ++ (kind, body) ∷ [] }) }
        ensures err { OnErr result (self.new ≡ self.old) }
    {
        push_row(&mut self.rows, kind, source)?;
        self.statement = statement;
        Ok(())
    }
}
