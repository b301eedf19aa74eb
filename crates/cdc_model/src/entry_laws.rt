//! The laws of a log's entries: which branch is open, which is committed, and which fault is the log's. Each function
//! ensures its law, so that the check proves it.

ghost use Rattle.cdc_model.specs.Openings.{OpenIsNewestPrepare, OpenBranchesAscend};
ghost use Rattle.cdc_model.specs.Commits.{EachCommitGivesOneBranch, OneEntryMore, HeldCommitGivesNone};
ghost use Rattle.cdc_model.specs.FirstFault.{SortFaultIsFirst, LogFaultIsFirst};

/// A law: the open branch of an xid is the one that its newest Prepare opened, with that Prepare's number, its rows and
/// the mark before it as floor.
pub fn open_is_newest_prepare()
    ensures { OpenIsNewestPrepare }
{}

/// A law: open branches stay in order of global id, qualifier and format, each once.
pub fn open_branches_ascend()
    ensures { OpenBranchesAscend }
{}

/// A law: a sound Commit gives exactly one branch, with the rows of its Prepare; so do each OnePhase and each Plain, with
/// their own; every other entry gives none.
pub fn each_commit_gives_one_branch()
    ensures { EachCommitGivesOneBranch }
{}

/// A law: one entry more adds to the committed branches what is new of the branch that it commits.
pub fn one_entry_more()
    ensures { OneEntryMore }
{}

/// A law: the commit of a branch that was held open at the starting point gives no branch.
pub fn held_commit_gives_none()
    ensures { HeldCommitGivesNone }
{}

/// A law: entries have no fault exactly where all are sound; else theirs is that of the first unsound one, at its place.
pub fn sort_fault_is_first()
    ensures { SortFaultIsFirst }
{}

/// A law: a log's fault is its first unsound entry's, and only where all are sound the one that ended its entries.
pub fn log_fault_is_first()
    ensures { LogFaultIsFirst }
{}
