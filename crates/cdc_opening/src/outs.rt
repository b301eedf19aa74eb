//! The opening of outputs.

ghost use Rattle.std.specs.Prelude.{◌≡◌, ℕ, ◌≤◌, IsTrue, length, map, IfOk, IfErr, Err};
ghost use Rattle.std.specs.List.{AllZip};
ghost use Rattle.cdc_outside.specs.Count.{Rose};
ghost use Rattle.cdc_opening.specs.Lists.{AllThree, DeviceRoseAt};
ghost use Rattle.cdc_opening.specs.OpenOuts.{IsOutOpened, IsOutKept};
ghost use Rattle.cdc_opening.specs.OutAnswers.{IsOutAnswer, IsOutsAnswer};

use crate::outcome::Outcome;
use cdc_dumper::{Dumper, OpenFault};
use cdc_outside::Disk;
use cdc_recovery::each_opening_keeps;
use std::alloc::Global;

// Opens the output of a number.
fn open_out<D: Disk>(disk: &mut D, out: u32) -> Result<Dumper, Outcome>
    ensures opened { IfOk result (λ dumper. IsOutOpened D.tells D.seen D.synced D.pending disk.old dumper disk.new) }
    ensures refused { IfErr result (λ e. IsOutAnswer D.tells (D.seen disk.old) out e) }
    ensures kept { IsOutKept D.tells D.seen D.may_leave D.moment D.left_since D.faults disk.old disk.new }
    ensures failed { (number : ℕ) → result ≡ Err (Outcome.Disk number) → Rose (D.faults disk.old) (D.faults disk.new) }
{
    each_opening_keeps();
    match Dumper::open(disk) {
        Ok(dumper) => Ok(dumper),
        Err(OpenFault::DiskFault) => Err(Outcome::Disk { out }),
        Err(fault) => Err(Outcome::Open { out, fault }),
    }
}

/// Opens each output, in order, up to the first that can't be opened.
pub(crate) fn open_outs<D: Disk>(alloc: Global, outs: &mut [D]) -> Result<Vec<Dumper>, Outcome>
    requires { length outs.old ≤ 4 }
    ensures opened { IfOk result (λ dumpers. AllThree (IsOutOpened D.tells D.seen D.synced D.pending) outs.old dumpers.items outs.new) }
    ensures refused { IfErr result (λ e. IsOutsAnswer D.tells (map D.seen outs.old) e) }
    ensures kept { AllZip (IsOutKept D.tells D.seen D.may_leave D.moment D.left_since D.faults) outs.old outs.new }
    ensures failed { (number : ℕ) → result ≡ Err (Outcome.Disk number) → DeviceRoseAt (map D.faults outs.old) (map D.faults outs.new) number }
{
    let Ok(mut dumpers) = Vec::with_capacity(alloc, outs.len()) else {
        return Err(Outcome::Memory);
    };
    for index in 0..outs.len() {
        let dumper = match open_out(&mut outs[index], index as u32 + 1) {
            Ok(dumper) => dumper,
            Err(outcome) => return Err(outcome),
        };
        let Ok(()) = dumpers.push(dumper) else {
            return Err(Outcome::Memory);
        };
    }
    Ok(dumpers)
}
