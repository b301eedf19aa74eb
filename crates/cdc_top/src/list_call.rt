//! `list`: what the outs of a configuration have published.

ghost use Rattle.std.specs.Prelude.{◌≡◌, ◌≤◌, ◌<◌, ◌^◌, IsTrue, length};
ghost use Rattle.std.specs.List.{AllZip};
ghost use Rattle.cdc_cell.specs.Reading.{IsLeftAlone};
ghost use Rattle.cdc_list.specs.Listing.{list_seen, AllLater};
ghost use Rattle.cdc_top.specs.Call.{config_seen};
ghost use Rattle.cdc_top.specs.Listed.{IsListCall};

use crate::config::read_plan;
use crate::findings::{Findings, findings_of_list, findings_of_stop};
use cdc_list::list;
use cdc_outside::{Disk, Sink, Source};
use std::alloc::Global;

/// Lists the outs of a configuration, where it is one, and tells what was met with.
pub fn list_outs<C: Source, D: Disk, K: Sink>(
    alloc: Global,
    config: &mut C,
    outs: &mut Vec<D>,
    out: &mut K,
) -> Findings
    requires one { length (C.sizes config.old) ≡ 1 }
    requires few { length outs.old.items < 2 ^ 32 }
    ensures ended { IsListCall D.tells K.tells (config_seen C.tells C.held C.faults config.old config.new)
        (list_seen D.seen D.faults K.written K.faults outs.old.items outs.new.items out.old out.new) result }
    ensures config_later { C.faults config.old ≤ C.faults config.new }
    ensures config_held { C.held config.new ≡ C.held config.old }
    ensures outs_later { AllLater D.faults outs.old.items outs.new.items }
    ensures outs_alone { IsTrue D.tells → AllZip (IsLeftAlone D.seen D.synced D.pending D.may_leave D.moment D.left_since) outs.old.items outs.new.items }
    ensures sink_later { K.faults out.old ≤ K.faults out.new }
{
    match read_plan(alloc, config) {
        Ok(_plan) => findings_of_list(&list(alloc, outs, out)),
        Err(stop) => findings_of_stop(&stop),
    }
}
