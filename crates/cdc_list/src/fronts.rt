//! The own lines of all outs, without those of their files.

ghost use Rattle.std.specs.Prelude.{◌≡◌, ◌+◌, ◌<◌, ◌≤◌, ◌^◌, ◌++◌, IsTrue, length, map, IfOk, IfErr, OnOk};
ghost use Rattle.std.specs.List.{AllZip};
ghost use Rattle.cdc_cell.specs.Reading.{IsLeftAlone};
ghost use Rattle.cdc_list.specs.Lines as lines;
ghost use Rattle.cdc_list.specs.Listing.{list_seen, AllLater, IsFrontsEnd, IsFrontsText, IsStopped};

use crate::line::out_line;
use crate::list_end::ListEnd;
use crate::listing::look_at_each;
use cdc_base::{Buffer, Memory};
use cdc_outside::{Disk, Failed, Sink};
use cdc_records::Front;
use std::alloc::Global;

/// Appends the own line of each out.
fn push_each_front(fronts: &[Front], text: &mut Buffer) -> Result<(), Memory>
    requires { length fronts.now < 2 ^ 32 }
    ensures { OnOk result (text.new ≡ text.old ++ lines.fronts_text fronts.now) }
{
    for index in 0..fronts.len() {
        let line = out_line(index as u32 + 1, &fronts[index]);
        match text.push(line.as_slice()) {
            Ok(()) => {}
            Err(Memory) => return Err(Memory),
        }
    }
    Ok(())
}

/// The text of all outs' own lines.
fn fronts_of<D: Disk>(alloc: Global, outs: &mut Vec<D>) -> Result<Buffer, ListEnd>
    requires { length outs.old.items < 2 ^ 32 }
    ensures listed { IsTrue D.tells → IfOk result (λ text. IsFrontsText (map D.seen outs.old.items) text) }
    ensures stopped { IfErr result (λ end. IsStopped D.tells (map D.seen outs.old.items) (map D.faults outs.old.items) (map D.faults outs.new.items) end) }
    ensures alone { IsTrue D.tells → AllZip (IsLeftAlone D.seen D.synced D.pending D.may_leave D.moment D.left_since) outs.old.items outs.new.items }
    ensures later { AllLater D.faults outs.old.items outs.new.items }
{
    let fronts = match look_at_each(alloc, outs) {
        Ok(fronts) => fronts,
        Err(end) => return Err(end),
    };
    let mut text = Buffer::new(alloc);
    match push_each_front(fronts.as_slice(), &mut text) {
        Ok(()) => Ok(text),
        Err(Memory) => Err(ListEnd::Memory),
    }
}

/// Writes for each out, counted from 1 and in order, the line `out N FILE LENGTH COUNT` of its Front, with FILE `-` where no
/// file is; all in one write.
///
/// It is what `list` writes, without the lines of files, and it ends as `list` does; but no file is asked for its length when
/// all outs are opened, so `Disk` never comes. Nothing is changed on any disk.
pub fn list_fronts<D: Disk, K: Sink>(alloc: Global, outs: &mut Vec<D>, out: &mut K) -> ListEnd
    requires { length outs.old.items < 2 ^ 32 }
    // How it ended, why, and what was written.
    ensures ended { IsFrontsEnd D.tells K.tells (list_seen D.seen D.faults K.written K.faults outs.old.items outs.new.items out.old out.new) result }
    // Every disk is as it was.
    ensures alone { IsTrue D.tells → AllZip (IsLeftAlone D.seen D.synced D.pending D.may_leave D.moment D.left_since) outs.old.items outs.new.items }
    ensures later { AllLater D.faults outs.old.items outs.new.items }
    ensures sink_later { K.faults out.old ≤ K.faults out.new }
{
    let text = match fronts_of(alloc, outs) {
        Ok(text) => text,
        Err(end) => return end,
    };
    match out.write(text.bytes()) {
        Ok(()) => ListEnd::Done,
        Err(Failed) => ListEnd::Sink,
    }
}
