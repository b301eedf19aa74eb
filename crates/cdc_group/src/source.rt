//! The bytes of a row.

ghost use Rattle.std.specs.Prelude.{◌≡◌, [], ◌∷◌, ◌++◌, OnOk, OnErr};
ghost use Rattle.cdc_event.specs.declared.body.Body.{Body as Spelled};
ghost use Rattle.cdc_model.specs.Row.{IsRow};
ghost use Rattle.cdc_group.specs.Source.{Tells};

use cdc_base::Memory;
use cdc_event::Body;
use cdc_model::RowRun;

/// Where a row's bytes come from.
#[derive(Clone, Copy, Debug)]
pub(crate) enum Source<'a> {
    /// The bytes of the event's body, as they stand in the log.
    Bytes(&'a [u8]),
    /// The body.
    Whole(&'a Body),
}

/// Appends the row of this type. On `Memory` nothing changes.
pub(crate) fn push_row(rows: &mut RowRun, kind: u8, source: &Source<'_>) -> Result<(), Memory>
    requires { (body : Spelled) × Tells source.now body × IsRow (kind, body) }
    ensures ok { (body : Spelled) → Tells source.now body → IsRow (kind, body) → OnOk result (rows.new ≡ rows.old ++ (kind, body) ∷ []) }
    ensures err { OnErr result (rows.new ≡ rows.old) }
{
    match source {
        Source::Bytes(bytes) => rows.push_bytes(kind, bytes),
        Source::Whole(body) => rows.push(kind, body),
    }
}
