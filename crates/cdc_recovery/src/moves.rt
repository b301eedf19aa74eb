//! The laws of what a dumper does: it takes nothing from what is recoverable. Each function ensures its law, so that the
//! check proves it.

ghost use Rattle.cdc_recovery.specs.MoveLaws.{EachStillKeeps, EachAppendKeeps, EachCommitKeeps, EachUnitKeeps, EachTrimKeeps, EachOpeningKeeps};

/// A law: bytes behind a Front and a torn slot take nothing from it.
pub fn each_still_keeps()
    ensures { EachStillKeeps }
{}

/// A law: with the next transaction's unit appended, an image has what one transaction more has.
pub fn each_append_keeps()
    ensures { EachAppendKeeps }
{}

/// A law: a commit makes recoverable what was appended.
pub fn each_commit_keeps()
    ensures { EachCommitKeeps }
{}

/// A law: with the next transaction's unit published, an output is recoverable with one transaction more.
pub fn each_unit_keeps()
    ensures { EachUnitKeeps }
{}

/// A law: the cuts of an opening take nothing from what is recoverable.
pub fn each_trim_keeps()
    ensures { EachTrimKeeps }
{}

/// A law: where what is seen of an output keeps at least so many transactions, so does what the cuts of an opening leave of
/// it.
pub fn each_opening_keeps()
    ensures { EachOpeningKeeps }
{}
