//! Rows whose transaction's print is a byte too large.

ghost use Rattle.std.specs.Prelude.{◌≤◌, ◌^◌, IfOk};
ghost use Rattle.std.specs.List.{AllByRecursion};
ghost use Rattle.cdc_model.specs.Kept.{IsRow};

use cdc_base::Memory;
use cdc_event::Body;
use cdc_model::{RowList, RowRun};
use cdc_samples::rows::{add_row, add_shared, value_body};
use std::alloc::Global;

/// The body of a row event of 2^20 bytes.
const LARGE: usize = (1 << 20) - 19;

/// The last body: 38 + 255 * 2^20 + (19 + last) + 53 + 27 = 2^28 + 1.
const LAST: usize = (1 << 20) - 136;

// The body of a row event of so many equal bytes.
fn equal_body(alloc: Global, value: u8, count: usize) -> Result<Body, Memory>
    requires { count ≤ 2 ^ 20 }
    ensures { IfOk result (λ body. IsRow (30, body)) }
{
    let bytes = vec![in alloc; value; count]?;
    value_body(alloc, bytes.as_slice())
}

/// 255 rows of 2^20 bytes, and one row more.
pub fn large_rows(alloc: Global) -> Result<RowList, Memory>
    ensures { IfOk result (AllByRecursion IsRow) }
{
    let mut rows = RowRun::new(alloc);
    let large = equal_body(alloc, 7, LARGE)?;
    add_shared(&mut rows, &large, 255)?;
    add_row(&mut rows, (30, equal_body(alloc, 9, LAST)?))?;
    rows.finish(alloc)
}
