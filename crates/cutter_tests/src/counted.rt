//! A caller that keeps what a cutter promises over a loop: how many events a file has.

ghost use Rattle.std.specs.Prelude.{◌≡◌, ◌<◌, ◌^◌, ℕ, List, length, Option, IfOk, IfSome};
ghost use Rattle.cdc_event.specs.File.{PlacedEvent, AreFileEvents};
ghost use Rattle.cdc_event.specs.declared.fault.FileFault.{FileFault};

use cdc_base::Memory;
use cdc_cutter::{Cut, Cutter, Peek};
use cdc_samples::Log;
use std::alloc::Global;
use std::test::Fail;

/// How many events a file has; none where it has too many to be counted here.
fn count_events(alloc: Global, file: &[u8]) -> Result<Option<usize>, Memory>
    requires { length file.now < 2 ^ 54 }
    ensures { IfOk result (λ counted. IfSome counted (λ count. (events : List PlacedEvent) × (fault : Option (ℕ × FileFault)) × AreFileEvents file.now events fault × (count ≡ length events))) }
{
    let mut cutter = Cutter::new(alloc)?;
    cutter.feed(file)?;
    for count in 0..file.len() {
        match cutter.next()? {
            Cut::Event { .. } => {}
            Cut::Need | Cut::Fault { .. } => return Ok(Some(count)),
        }
    }
    Ok(None)
}

/// The same, with the events in place.
fn count_in_place(alloc: Global, file: &[u8]) -> Result<Option<usize>, Memory>
    requires { length file.now < 2 ^ 54 }
    ensures { IfOk result (λ counted. IfSome counted (λ count. (events : List PlacedEvent) × (fault : Option (ℕ × FileFault)) × AreFileEvents file.now events fault × (count ≡ length events))) }
{
    let mut cutter = Cutter::new(alloc)?;
    cutter.feed(file)?;
    for count in 0..file.len() {
        match cutter.peek() {
            Peek::Event { end, checksum, .. } => cutter.pass(end, checksum),
            Peek::Need | Peek::Fault { .. } => return Ok(Some(count)),
        }
    }
    Ok(None)
}

#[test]
fn a_file_has_so_many_events(rt: HostRuntime) -> Result<(), Fail> {
    for (words, wanted) in [
        ("M F0", 1),
        ("M F0 S(g1) E(g1) R(g1)", 4),
        ("M F1 S(g1)+ h(2,22)", 2),
        ("M S(g1)", 0),
    ] {
        let log = Log::of(rt.alloc(), words)?;
        let count = count_events(rt.alloc(), log.bytes())?;
        assert_eq!(&rt; count, Some(wanted), "{words}");
        let in_place = count_in_place(rt.alloc(), log.bytes())?;
        assert_eq!(&rt; in_place, Some(wanted), "{words}");
    }
    Ok(())
}
