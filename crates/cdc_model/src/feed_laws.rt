//! The laws of what a node gives while it reads on. Each function ensures its law, so that the check proves it.

ghost use Rattle.cdc_model.specs.NodeReading.{FeedBegins, FeedReadsOn, FeedGives, FeedTells, NodeSettledInOrder};

/// A law: a node that has read nothing feeds nothing.
pub fn feed_begins()
    ensures { FeedBegins }
{}

/// A law: a sound entry more leaves a feed one, doesn't lower the mark, and leaves the branches that it settled in front.
pub fn feed_reads_on()
    ensures { FeedReadsOn }
{}

/// A law: the next settled branch goes on a feed, and the bound that was told doesn't settle it.
pub fn feed_gives()
    ensures { FeedGives }
{}

/// A law: where all settled branches were given, the node's mark may be told.
pub fn feed_tells()
    ensures { FeedTells }
{}

/// A law: a node's settled branches stand by key and then by entry number, each with a settled key above the last one.
pub fn node_settled_in_order()
    ensures { NodeSettledInOrder }
{}
