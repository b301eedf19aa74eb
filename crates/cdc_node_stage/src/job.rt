//! A stage with its source.

ghost use Rattle.std.specs.Prelude.{◌≡◌, if◌then◌else◌, ℕ, List};
ghost use Rattle.std.specs.Ordering.{is_gt};
ghost use Rattle.cdc_base.specs.Key.{key_order};
ghost use Rattle.cdc_item.specs.declared.node_item.NodeItem.{NodeItem};

use crate::stage::NodeStage;
use cdc_base::Key;
use cdc_item::NodeItem;
use cdc_lane::PlainLane;
use cdc_outside::Source;
use cdc_turns::{NodeTurns, Turn};
use std::marker::Model;

/// A node's stage together with the source of its log.
#[derive(Drop)]
pub struct NodeJob<S: Source> {
    stage: NodeStage,
    source: S,
}

impl<S: Source> Model for NodeJob<S> {
    ghost use Rattle.cdc_node_stage.specs.Sending.{node_state, IsNodeStanding};
    ghost use Rattle.cdc_node_stage.specs.Job.{SourcedStage, sourced};

    ghost Value = { SourcedStage S };

    ghost view = { λ job. sourced job.stage job.source };

    ghost invariant = { λ job. IsNodeStanding S.tells (S.held job.source) (node_state job.stage) };
}

impl<S: Source> NodeJob<S> {
    ghost use Rattle.cdc_node_stage.specs.Sending.{node_state, reading_of, HasSent, IsNodeStanding};
    ghost use Rattle.cdc_node_stage.specs.Job.{sourced};

    /// A stage and the source that it reads.
    pub fn new(stage: NodeStage, source: S) -> NodeJob<S>
        requires { IsNodeStanding S.tells (S.held source) (node_state stage) }
        ensures { result ≡ sourced stage source }
    {
        NodeJob { stage, source }
    }

    /// The stage.
    pub fn stage(&self) -> &NodeStage
        ensures { result.now ≡ self.now.stage }
    {
        &self.stage
    }

    /// Drops what is kept for points to read this log again from, but for those that a key above `last` could want. What is
    /// read and sent stays as it is.
    pub fn forget(&mut self, last: &Key)
        ensures sent { (window : ℕ) (items : List NodeItem) → HasSent S.tells (S.held self.old.source) (node_state self.old.stage) window items → HasSent S.tells (S.held self.new.source) (node_state self.new.stage) window items }
        ensures goes_by { reading_of (node_state self.new.stage) ≡ reading_of (node_state self.old.stage) }
        ensures same { (self.new.stage.ended ≡ self.old.stage.ended) × (self.new.stage.window ≡ self.old.stage.window) × (self.new.stage.room ≡ self.old.stage.room) × (self.new.stage.reader.end ≡ self.old.stage.reader.end) }
        ensures known { self.new.stage.reader.sorter.trail.known ≡ (if is_gt (key_order last.now self.old.stage.reader.sorter.trail.known) then last.now else self.old.stage.reader.sorter.trail.known) }
        ensures source { self.new.source ≡ self.old.source }
    {
        self.stage.forget(last);
    }

    /// The stage and its source.
    pub fn into_parts(self) -> (NodeStage, S)
        ensures parts { sourced result.0 result.1 ≡ self }
        ensures standing { IsNodeStanding S.tells (S.held self.source) (node_state self.stage) }
    {
        let NodeJob { stage, source } = self;
        (stage, source)
    }
}

impl<S: Source> NodeTurns<NodeItem> for NodeJob<S> {
    ghost use Rattle.cdc_node_stage.specs.Job.{source_words, node_account};
    ghost use Rattle.cdc_node_stage.specs.NodeLaws.{turned_nothing, turned_on};

    ghost account = { node_account (source_words S.tells S.held S.sizes S.lowest S.faults) };

    fn turn(&mut self, lane: &mut PlainLane<NodeItem>) -> Turn {
        self.stage.turn(&mut self.source, lane)
    }

    fn again(&mut self) {
        self.stage.again();
    }

    ghost closes = { λ job window items sent. sent.ends };

    ghost starts = { λ job. turned_nothing (source_words S.tells S.held S.sizes S.lowest S.faults) job };

    ghost adds = { λ a b c p q. turned_on (source_words S.tells S.held S.sizes S.lowest S.faults) a b c p q };
}
