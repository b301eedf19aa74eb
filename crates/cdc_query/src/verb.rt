//! What a statement does to the branches of its node.

use cdc_base::Xid;

/// What a statement text means for the transactions of its node.
#[derive(Clone, Copy, Debug, PartialEq, Eq)]
pub enum Verb {
    /// `BEGIN` alone.
    Begin,
    /// `COMMIT` alone.
    Commit,
    /// `ROLLBACK` alone.
    Rollback,
    /// `SAVEPOINT` and a name.
    Savepoint,
    /// `XA START` of a branch.
    XaStart(Xid),
    /// `XA END` of a branch.
    XaEnd(Xid),
    /// `XA COMMIT` of a prepared branch.
    XaCommit(Xid),
    /// `XA ROLLBACK` of a branch.
    XaRollback(Xid),
    /// Any other text whose first word is `XA`.
    XaOther,
    /// Any other text.
    Other,
}
