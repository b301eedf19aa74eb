//! The listing of all outs.

ghost use Rattle.std.specs.Prelude.{◌≡◌, ◌+◌, ◌<◌, ◌≤◌, ◌^◌, ◌++◌, IsTrue, length, map, IfOk, IfErr, OnOk, IsErrOf};
ghost use Rattle.std.specs.List.{AllByRecursion, AllZip, concat};
ghost use Rattle.cdc_cell.specs.Reading.{IsLeftAlone};
ghost use Rattle.cdc_dumper.specs.Opening.{IsFound, IsOpenFault, IsFrontOrNone};
ghost use Rattle.cdc_list.specs.Lines as lines;
ghost use Rattle.cdc_list.specs.Listing.{image_of, list_seen, AllLater, IsListEnd, IsListing, IsStopped, OutRose};

use crate::list_end::ListEnd;
use crate::out_lines::{OutStop, push_out_lines};
use cdc_base::{Buffer, Items, Memory};
use cdc_dumper::{OpenFault, look};
use cdc_outside::{Disk, Failed, Sink};
use cdc_records::Front;
use std::alloc::Global;

/// The Front of one out.
fn look_at<D: Disk>(outs: &mut Vec<D>, index: usize) -> Result<Front, OpenFault>
    requires { index < length outs.old.items }
    ensures found { IsTrue D.tells → IfOk result (λ front. IsFound (image_of (map D.seen outs.old.items) (index + 1)) front) }
    ensures refused { IsTrue D.tells → IfErr result (λ fault. IsOpenFault (image_of (map D.seen outs.old.items) (index + 1)) fault) }
    ensures shaped { IfOk result (λ front. IsFrontOrNone front) }
    ensures failed { IsErrOf result OpenFault.DiskFault → OutRose (map D.faults outs.old.items) (map D.faults outs.new.items) (index + 1) }
    ensures alone { IsTrue D.tells → AllZip (IsLeftAlone D.seen D.synced D.pending D.may_leave D.moment D.left_since) outs.old.items outs.new.items }
    ensures later { AllLater D.faults outs.old.items outs.new.items }
{
    look(&mut outs[index])
}

/// The Fronts of all outs, where each can be opened.
pub(crate) fn look_at_each<D: Disk>(
    alloc: Global,
    outs: &mut Vec<D>,
) -> Result<Items<Front>, ListEnd>
    requires { length outs.old.items < 2 ^ 32 }
    ensures found { IsTrue D.tells → IfOk result (λ fronts. AllZip IsFound (map D.seen outs.old.items) fronts) }
    ensures many { IfOk result (λ fronts. length fronts ≡ length outs.old.items) }
    ensures shaped { IfOk result (λ fronts. AllByRecursion IsFrontOrNone fronts) }
    ensures stopped { IfErr result (λ end. IsStopped D.tells (map D.seen outs.old.items) (map D.faults outs.old.items) (map D.faults outs.new.items) end) }
    ensures alone { IsTrue D.tells → AllZip (IsLeftAlone D.seen D.synced D.pending D.may_leave D.moment D.left_since) outs.old.items outs.new.items }
    ensures later { AllLater D.faults outs.old.items outs.new.items }
{
    let mut fronts = Items::new(alloc);
    for index in 0..outs.len() {
        let front = match look_at(outs, index) {
            Ok(front) => front,
            Err(fault) => {
                return Err(ListEnd::Unopened {
                    out: index as u32 + 1,
                    fault,
                });
            }
        };
        match fronts.push(front) {
            Ok(()) => {}
            Err(Memory) => return Err(ListEnd::Memory),
        }
    }
    Ok(fronts)
}

/// Appends the lines of one out.
fn push_out<D: Disk>(
    outs: &mut Vec<D>,
    index: usize,
    front: &Front,
    text: &mut Buffer,
) -> Result<(), OutStop>
    requires within { index < length outs.old.items }
    requires few { length outs.old.items < 2 ^ 32 }
    requires shaped { IsFrontOrNone front.now }
    ensures told { IsTrue D.tells → OnOk result (text.new ≡ text.old
        ++ concat (lines.out_lines (index + 1) (lines.listed_out front.now (image_of (map D.seen outs.old.items) (index + 1))))) }
    ensures failed { IsErrOf result OutStop.Disk → OutRose (map D.faults outs.old.items) (map D.faults outs.new.items) (index + 1) }
    ensures alone { IsTrue D.tells → AllZip (IsLeftAlone D.seen D.synced D.pending D.may_leave D.moment D.left_since) outs.old.items outs.new.items }
    ensures later { AllLater D.faults outs.old.items outs.new.items }
{
    push_out_lines(&mut outs[index], index as u32 + 1, front, text)
}

/// How a listing ends that stops at an out.
fn end_at(stop: OutStop, out: u32) -> ListEnd
    ensures disk { stop ≡ OutStop.Disk → result ≡ ListEnd.Disk out }
    ensures memory { stop ≡ OutStop.Memory → result ≡ ListEnd.Memory }
{
    match stop {
        OutStop::Disk => ListEnd::Disk { out },
        OutStop::Memory => ListEnd::Memory,
    }
}

/// Appends the lines of all outs.
fn push_each_out<D: Disk>(
    outs: &mut Vec<D>,
    fronts: &[Front],
    text: &mut Buffer,
) -> Result<(), ListEnd>
    requires few { length outs.old.items < 2 ^ 32 }
    requires many { length fronts.now ≡ length outs.old.items }
    requires shaped { AllByRecursion IsFrontOrNone fronts.now }
    requires found { IsTrue D.tells → AllZip IsFound (map D.seen outs.old.items) fronts.now }
    ensures told { IsTrue D.tells → OnOk result (text.new ≡ text.old ++ lines.listing_text (lines.listed_outs fronts.now (map D.seen outs.old.items))) }
    ensures stopped { IfErr result (λ end. IsStopped D.tells (map D.seen outs.old.items) (map D.faults outs.old.items) (map D.faults outs.new.items) end) }
    ensures alone { IsTrue D.tells → AllZip (IsLeftAlone D.seen D.synced D.pending D.may_leave D.moment D.left_since) outs.old.items outs.new.items }
    ensures later { AllLater D.faults outs.old.items outs.new.items }
{
    for index in 0..fronts.len() {
        if let Err(stop) = push_out(outs, index, &fronts[index], text) {
            return Err(end_at(stop, index as u32 + 1));
        }
    }
    Ok(())
}

/// The text of all outs.
fn text_of<D: Disk>(alloc: Global, outs: &mut Vec<D>) -> Result<Buffer, ListEnd>
    requires { length outs.old.items < 2 ^ 32 }
    ensures listed { IsTrue D.tells → IfOk result (λ text. IsListing (map D.seen outs.old.items) text) }
    ensures stopped { IfErr result (λ end. IsStopped D.tells (map D.seen outs.old.items) (map D.faults outs.old.items) (map D.faults outs.new.items) end) }
    ensures alone { IsTrue D.tells → AllZip (IsLeftAlone D.seen D.synced D.pending D.may_leave D.moment D.left_since) outs.old.items outs.new.items }
    ensures later { AllLater D.faults outs.old.items outs.new.items }
{
    let fronts = match look_at_each(alloc, outs) {
        Ok(fronts) => fronts,
        Err(end) => return Err(end),
    };
    let mut text = Buffer::new(alloc);
    match push_each_out(outs, fronts.as_slice(), &mut text) {
        Ok(()) => Ok(text),
        Err(end) => Err(end),
    }
}

/// Writes what each out has published: for each out, counted from 1 and in order, one line `N FILE LENGTH` a published
/// file, then the line `out N FILE LENGTH COUNT` of its Front, with FILE `-` where no file is.
///
/// Nothing is changed on any disk. All outs are looked at before the length of any file is read, and all is read before
/// anything is written; so memory is taken for the text, and on every end but `Done` and `Sink` nothing was written. How
/// it ended is the first of these that holds: an out can't be opened, and it is the least such out; the disk of an out
/// failed; there was no memory; the sink failed, and a front of the text was written; all is done.
pub fn list<D: Disk, K: Sink>(alloc: Global, outs: &mut Vec<D>, out: &mut K) -> ListEnd
    requires { length outs.old.items < 2 ^ 32 }
    // How it ended, why, and what was written.
    ensures ended { IsListEnd D.tells K.tells (list_seen D.seen D.faults K.written K.faults outs.old.items outs.new.items out.old out.new) result }
    // Every disk is as it was.
    ensures alone { IsTrue D.tells → AllZip (IsLeftAlone D.seen D.synced D.pending D.may_leave D.moment D.left_since) outs.old.items outs.new.items }
    ensures later { AllLater D.faults outs.old.items outs.new.items }
    ensures sink_later { K.faults out.old ≤ K.faults out.new }
{
    let text = match text_of(alloc, outs) {
        Ok(text) => text,
        Err(end) => return end,
    };
    match out.write(text.bytes()) {
        Ok(()) => ListEnd::Done,
        Err(Failed) => ListEnd::Sink,
    }
}
