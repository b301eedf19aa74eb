//! The print of all logs.

ghost use Rattle.std.specs.Prelude.{◌≡◌, ◌≤◌, ◌<◌, length, map};
ghost use Rattle.cdc_print.specs.Outcome.{run_seen, IsPrintEnd, ComesBehindReading, NoCountFell};

use crate::end::PrintEnd;
use crate::printer::Printer;
use cdc_base::{Memory, Steps};
use cdc_model::{feeds_merge_to_order, start_reads_all};
use cdc_outside::{Sink, Source};
use std::alloc::Global;
use std::marker::Brand;
use std::sync::ledger::{Blank, Ledger};

// The same, with a ledger for the merger's steps.
fn print_with<L: Ledger, S: Source, K: Sink>(
    alloc: Global,
    nodes: &mut Vec<S>,
    out: &mut K,
    blank: Blank,
) -> PrintEnd
    requires some { 1 ≤ length nodes.old.items }
    requires few { length nodes.old.items ≤ 256 }
    requires name { blank.name ≡ L.name }
    requires parts { blank.parts ≡ L.parts }
    requires whole { 0 < L.parts }
    ensures ended { IsPrintEnd S.tells K.tells (run_seen S.held S.faults K.written K.faults nodes.old.items nodes.new.items out.old out.new) result }
    ensures ordered { ComesBehindReading S.tells (run_seen S.held S.faults K.written K.faults nodes.old.items nodes.new.items out.old out.new) result }
    ensures later { NoCountFell (map S.faults nodes.old.items) (map S.faults nodes.new.items) }
    ensures held { map S.held nodes.new.items ≡ map S.held nodes.old.items }
    ensures sink_later { K.faults out.old ≤ K.faults out.new }
{
    start_reads_all();
    feeds_merge_to_order();
    let mut steps = Steps::<L>::new(blank);
    let mut printer = match Printer::new(alloc, nodes.len() as u32) {
        Ok(printer) => printer,
        Err(Memory) => return PrintEnd::Memory,
    };
    if !printer.read_all(nodes, &mut steps) {
        return PrintEnd::Memory;
    }
    printer.settle(&mut steps);
    printer.finish(out)
}

/// Reads the logs of all nodes, and writes the one file of what is settled to `out`, without rotation and renaming:
/// nothing where no transaction is settled, else a head and the transactions' prints in the global order.
///
/// Every source is read to its log's end or fault before anything is written; where one fails the others are read on.
/// Until then the file's bytes wait, so memory is taken for them and for what isn't settled yet, not for the logs. How it
/// ended is the first of these that holds: the source of a node failed, and it is the least such node; there was no
/// memory; a transaction is too large; a node's log has a fault, and it is the least such node; the sink failed; all is
/// done. On the first two nothing was written. Nodes are counted from 1.
///
/// Want of memory is answered too behind 2^62 transactions and behind 2^64 - 1 reads, which no logs of 2^54 bytes have.
pub fn print_logs<S: Source, K: Sink>(alloc: Global, nodes: &mut Vec<S>, out: &mut K) -> PrintEnd
    requires some { 1 ≤ length nodes.old.items }
    requires few { length nodes.old.items ≤ 256 }
    // How it ended, why, and what was written.
    ensures ended { IsPrintEnd S.tells K.tells (run_seen S.held S.faults K.written K.faults nodes.old.items nodes.new.items out.old out.new) result }
    // A source that failed and want of memory come before all other ends.
    ensures ordered { ComesBehindReading S.tells (run_seen S.held S.faults K.written K.faults nodes.old.items nodes.new.items out.old out.new) result }
    // No count falls, and sources hold what they held.
    ensures later { NoCountFell (map S.faults nodes.old.items) (map S.faults nodes.new.items) }
    ensures held { map S.held nodes.new.items ≡ map S.held nodes.old.items }
    ensures sink_later { K.faults out.old ≤ K.faults out.new }
{
    print_with::<Brand, S, K>(alloc, nodes, out, Blank::new(1))
}
