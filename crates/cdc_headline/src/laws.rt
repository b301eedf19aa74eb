//! The laws of the headline. Each function ensures its law, so that the check proves it.

ghost use Rattle.cdc_dump_stage.specs.Disks.{disk_words};
ghost use Rattle.cdc_node_stage.specs.Job.{source_words};
ghost use Rattle.cdc_headline.specs.Laws.{OpeningKeepsHeadline, WindowsKeepHeadline, WindowsNameByCounts};

use cdc_kept::{kept_disks_are_opened, opened_pass_goes_on};
use cdc_outside::{Disk, Source};
use cdc_reads::{
    all_windows_give_all, ends_are_faults, jobs_read_logs, last_windows_point_is_the_last,
    too_large_is_oversized,
};
use cdc_recovery::latest_is_last;

/// A law: a pass that opened, or was refused, and did no more keeps the headline.
pub fn opening_keeps_headline<S: Source, D: Disk>()
    ensures { OpeningKeepsHeadline (source_words S.tells S.held S.sizes S.lowest S.faults) (disk_words D.tells D.seen D.synced D.pending D.may_leave D.moment D.left_since D.faults) }
{
    kept_disks_are_opened();
}

/// A law: a pass that opened and ran its windows keeps the headline.
pub fn windows_keep_headline<S: Source, D: Disk>()
    ensures { WindowsKeepHeadline (source_words S.tells S.held S.sizes S.lowest S.faults) (disk_words D.tells D.seen D.synced D.pending D.may_leave D.moment D.left_since D.faults) }
{
    opened_pass_goes_on();
    jobs_read_logs::<S>();
    last_windows_point_is_the_last::<S>();
    latest_is_last();
    all_windows_give_all::<S>();
    too_large_is_oversized::<S>();
    ends_are_faults::<S>();
}

/// A law: windows name a device only where its count rose, whatever the devices tell.
pub fn windows_name_by_counts<S: Source, D: Disk>()
    ensures { WindowsNameByCounts (source_words S.tells S.held S.sizes S.lowest S.faults) (disk_words D.tells D.seen D.synced D.pending D.may_leave D.moment D.left_since D.faults) }
{}
