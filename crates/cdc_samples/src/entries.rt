//! Entries of a node's log, of seconds 5.

ghost use Rattle.std.specs.Prelude.{◌≡◌, ◌+◌, ◌*◌, ◌<◌, ◌^◌, IfSome, IsNone, length, ◌↔◌, []};
ghost use Rattle.std.specs.List.{AllByRecursion};
ghost use Rattle.cdc_model.specs.Kept.{IsRow, IsKeptKind};
ghost use Rattle.cdc_model.specs.declared.entry.EntryKind.TheVariants.{Prepare, OnePhase, Commit, Rollback, Plain, Beat};

use cdc_base::{Gtrid, Place, Xid, gtrid_of};
use cdc_model::{Entry, EntryKind, RowList};

/// The branch of an id, of format 1 and without a qualifier; none exactly where the id is too long.
pub fn branch_of(id: &[u8]) -> Option<Xid>
    ensures none { IsNone result ↔ (64 < length id.now) }
    ensures some { IfSome result (λ xid. xid ≡ record { gtrid = id.now; bqual = []; format = 1 }) }
{
    let gtrid = gtrid_of(id)?;
    Some(Xid {
        gtrid,
        bqual: Gtrid::empty(),
        format: 1,
    })
}

/// A branch is prepared.
pub fn prepare(xid: &Xid, rows: RowList) -> EntryKind
    requires { AllByRecursion IsRow rows }
    ensures kept { IsKeptKind result }
    ensures kind { result ≡ Prepare xid.now rows }
{
    EntryKind::Prepare { xid: *xid, rows }
}

/// A branch is prepared and committed at once.
pub fn one_phase(xid: &Xid, rows: RowList, timestamp: u64) -> EntryKind
    requires rows { AllByRecursion IsRow rows }
    requires timestamp { timestamp < 2 ^ 63 }
    ensures kept { IsKeptKind result }
    ensures kind { result ≡ OnePhase xid.now rows timestamp 5 }
{
    EntryKind::OnePhase {
        xid: *xid,
        rows,
        timestamp,
        seconds: 5,
    }
}

/// A prepared branch is committed.
pub fn commit(xid: &Xid, timestamp: u64) -> EntryKind
    requires { timestamp < 2 ^ 63 }
    ensures kept { IsKeptKind result }
    ensures kind { result ≡ Commit xid.now timestamp 5 }
{
    EntryKind::Commit {
        xid: *xid,
        timestamp,
        seconds: 5,
    }
}

/// A prepared branch is rolled back.
pub fn rollback(xid: &Xid) -> EntryKind
    ensures kept { IsKeptKind result }
    ensures kind { result ≡ Rollback xid.now }
{
    EntryKind::Rollback { xid: *xid }
}

/// A local transaction.
pub fn plain(rows: RowList) -> EntryKind
    requires { AllByRecursion IsRow rows }
    ensures kept { IsKeptKind result }
    ensures kind { result ≡ Plain rows 5 }
{
    EntryKind::Plain { rows, seconds: 5 }
}

/// A heartbeat.
pub fn beat(timestamp: u64) -> EntryKind
    requires { timestamp < 2 ^ 63 }
    ensures kept { IsKeptKind result }
    ensures kind { result ≡ Beat timestamp }
{
    EntryKind::Beat { timestamp }
}

/// The entry of this number in file 1, where each entry has 100 bytes: entry 1 stands at 100 and ends at 200.
pub fn entry(number: u32, kind: EntryKind) -> Entry
    requires { IsKeptKind kind }
    ensures { result ≡ record { kind = kind; at = record { file = 1; at = 100 * number }; end = record { file = 1; at = 100 * number + 100 }; checksum = 0 } }
{
    let at = 100 * u64::from(number);
    Entry {
        kind,
        at: Place { file: 1, at },
        end: Place {
            file: 1,
            at: at + 100,
        },
        checksum: 0,
    }
}
