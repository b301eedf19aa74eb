//! The rows of a branch, as one run of bytes.

ghost use Rattle.std.specs.Prelude.{◌≡◌, ◌==◌, ◌-◌, ◌^◌, [], min, length, IfOk};
ghost use Rattle.std.specs.List.{AllByRecursion, sum_by};
ghost use Rattle.cdc_model.specs.Row.{IsRow};
ghost use Rattle.cdc_model.specs.Run.{run_rows, IsRun};
ghost use Rattle.cdc_model.specs.Print.{row_length};

use crate::row_view::Rows;
use cdc_base::{Blob, Memory};
use std::marker::Model;

/// How many bytes more a row's event has than the row in a run.
const EVENT_MORE: u64 = 14;

/// The rows of a branch, seen as a list of pairs (type, body): TABLE_MAP and row events in log order, or the
/// one pair of type 29 whose text is a statement of the whole database. Equal rows share their bytes.
#[derive(Debug, Drop)]
pub struct RowList {
    count: usize,
    bytes: Blob,
}

impl Model for RowList {
    ghost use Rattle.std.specs.Prelude.{List};
    ghost use Rattle.cdc_model.specs.Row.{Row};

    ghost Value = { List Row };

    ghost use Rattle.cdc_model.specs.Run.{run_rows, IsRun};

    ghost view = { λ run. run_rows run.count run.bytes };

    ghost invariant = { λ run. IsRun run.count run.bytes (run_rows run.count run.bytes) };
}

impl RowList {
    /// No rows, which takes no memory.
    pub fn empty() -> RowList
        ensures { result ≡ [] }
    {
        RowList {
            count: 0,
            bytes: Blob::empty(),
        }
    }

    /// The rows of a run.
    pub(crate) fn of_run(count: usize, bytes: Blob) -> RowList
        requires { IsRun count bytes (run_rows count bytes) }
        ensures list { result ≡ run_rows count bytes }
        ensures rows { AllByRecursion IsRow result }
    {
        RowList { count, bytes }
    }

    /// How many rows there are.
    pub fn len(&self) -> usize
        ensures { result ≡ length self.now }
    {
        self.count
    }

    /// Whether there is no row.
    pub fn is_empty(&self) -> bool
        ensures { result ≡ (length self.now == 0) }
    {
        self.count == 0
    }

    /// Equal rows over the same bytes, none of which is copied.
    pub fn share(&self) -> Result<RowList, Memory>
        ensures { IfOk result (λ shared. shared ≡ self.now) }
    {
        Ok(RowList {
            count: self.count,
            bytes: self.bytes.share()?,
        })
    }

    /// The rows, one after another.
    pub fn rows(&self) -> Rows<'_>
        ensures { result ≡ self.now }
    {
        Rows::of_run(self.count, self.bytes.bytes())
    }

    /// How many bytes the rows have as events; 2^64 - 1 where there are more than that. Doesn't walk the rows.
    pub fn events_length(&self) -> u64
        ensures { result ≡ min (sum_by row_length self.now) (2 ^ 64 - 1) }
    {
        EVENT_MORE
            .saturating_mul(self.count as u64)
            .saturating_add(self.bytes.len() as u64)
    }
}
