//! The laws of the settled order over any branches, and of what the nodes give to a merge. Each function ensures its law, so
//! that the check proves it.

ghost use Rattle.cdc_model.specs.SettledOrder.{SettledOrderIsExact, LesserMarkSettlesAFront, SecondsAreTheFirsts};
ghost use Rattle.cdc_model.specs.Feed.{SameBranchesSameOrder, SettledBranchesGoOn, FeedsMergeToOrder, LaterFeedsGoOn};

/// A law: whatever the branches and the mark, the settled transactions are those of the settled keys, each once, in order,
/// with all its branches.
pub fn settled_order_is_exact()
    ensures { SettledOrderIsExact }
{}

/// A law: a lesser mark settles a front of what a greater one does.
pub fn lesser_mark_settles_a_front()
    ensures { LesserMarkSettlesAFront }
{}

/// A law: each settled transaction has a branch, and its seconds are those of the first one.
pub fn seconds_are_the_firsts()
    ensures { SecondsAreTheFirsts }
{}

/// A law: a mark settles the same transactions of lists that have the same branches under each key that it settles.
pub fn same_branches_same_order()
    ensures { SameBranchesSameOrder }
{}

/// A law: the branches that a lesser mark settles are a front of those that a greater one does.
pub fn settled_branches_go_on()
    ensures { SettledBranchesGoOn }
{}

/// A law: what the nodes have given, merged under the least of their bounds, is a front of the global order, and all of it
/// where each has told its low-water mark.
pub fn feeds_merge_to_order()
    ensures { FeedsMergeToOrder }
{}

/// A law: what is merged of feeds is a front of what is merged where they have gone on.
pub fn later_feeds_go_on()
    ensures { LaterFeedsGoOn }
{}
