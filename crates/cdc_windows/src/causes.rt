//! Why a pass ended as it did.

ghost use Rattle.std.specs.Prelude.{◌≡◌, ◌≤◌, ◌<◌, ◌^◌, length};
ghost use Rattle.cdc_windows.specs.Causes.{cause_of_out, causes_of_outs, IsFirstPassCause};

use cdc_dump_stage::{DumpEnd, DumpJob};
use cdc_opening::Outcome;
use cdc_outside::Disk;

/// What the end of an output's stage says of the pass.
fn cause_of_out(out: u32, end: &DumpEnd) -> Outcome
    ensures { result ≡ cause_of_out out end.now }
{
    match end {
        DumpEnd::Open | DumpEnd::Whole => Outcome::Done,
        DumpEnd::Disk => Outcome::Disk { out },
        DumpEnd::Differs { kept, given } => Outcome::Differs {
            out,
            kept: *kept,
            given: *given,
        },
        DumpEnd::Key { kept, given } => Outcome::Key {
            out,
            kept: *kept,
            given: *given,
        },
    }
}

/// Of the ends of all outputs' stages the one that is answered.
pub fn outs_cause<D: Disk>(dumps: &[DumpJob<D>]) -> Outcome
    requires { length dumps.now ≤ 4 }
    ensures { IsFirstPassCause (causes_of_outs 1 dumps.now) result }
{
    let mut first = Outcome::Done;
    for index in 0..dumps.len() {
        let cause = cause_of_out(index as u32 + 1, dumps[index].stage().end());
        first = first.earlier(cause);
    }
    first
}
