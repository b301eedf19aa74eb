//! The jobs of a pass over sources: what is asked of them beside their turns.

ghost use Rattle.std.specs.Prelude.{◌≡◌, IfOk, IfSome};
ghost use Rattle.cdc_item.specs.declared.node_item.NodeItem.{NodeItem};

use crate::parts::{MergePart, NodePart};
use crate::reached::Reached;
use cdc_base::{Key, Memory, key_cmp};
use cdc_item::NodeItem;
use cdc_lane::PlainLane;
use cdc_merge_stage::MergeStage;
use cdc_model::NodeCut;
use cdc_node_stage::{NodeJob, NodeStage};
use cdc_outside::Source;
use cdc_reader::NodeEnd;
use cdc_turns::{NodeTurns, Turn};
use std::marker::Model;
use std::sync::ledger::Ledger;

/// A node's job over its source, and the key up to which it has forgotten points to be read again from.
#[derive(Drop)]
pub struct SourcedNode<S: Source> {
    job: NodeJob<S>,
    known: Key,
}

impl<S: Source> Model for SourcedNode<S> {
    ghost use Rattle.std.specs.Prelude.{◌≡◌};
    ghost use Rattle.cdc_node_stage.specs.Job.{SourcedStage};

    ghost Value = { SourcedStage S };

    ghost view = { λ node. node.job };

    ghost invariant = { λ node. node.job.stage.reader.sorter.trail.known ≡ node.known };
}

impl<S: Source> SourcedNode<S> {
    /// The job of a stage that begins behind this key.
    pub fn new(job: NodeJob<S>, last: Key) -> SourcedNode<S>
        requires { job.stage.reader.sorter.trail.known ≡ last }
        ensures { result ≡ job }
    {
        SourcedNode { job, known: last }
    }

    /// The stage.
    pub fn stage(&self) -> &NodeStage
        ensures { result.now ≡ self.now.stage }
    {
        self.job.stage()
    }

    /// The stage and its source.
    pub fn into_parts(self) -> (NodeStage, S)
        ensures { (result.0 ≡ self.stage) × (result.1 ≡ self.source) }
    {
        let SourcedNode { job, .. } = self;
        job.into_parts()
    }
}

impl<S: Source> NodeTurns<NodeItem> for SourcedNode<S> {
    ghost use Rattle.cdc_node_stage.specs.Job.{source_words, node_account};
    ghost use Rattle.cdc_node_stage.specs.NodeLaws.{turned_nothing, turned_on};

    ghost account = { node_account (source_words S.tells S.held S.sizes S.lowest S.faults) };

    fn turn(&mut self, lane: &mut PlainLane<NodeItem>) -> Turn {
        self.job.turn(lane)
    }

    fn again(&mut self) {
        self.job.again();
    }

    ghost closes = { λ job window items sent. sent.ends };

    ghost starts = { λ job. turned_nothing (source_words S.tells S.held S.sizes S.lowest S.faults) job };

    ghost adds = { λ a b c p q. turned_on (source_words S.tells S.held S.sizes S.lowest S.faults) a b c p q };
}

impl<S: Source> NodePart for SourcedNode<S> {
    ghost use Rattle.cdc_node_stage.specs.Job.{source_words};
    ghost use Rattle.cdc_windows.specs.Sourced.{node_rereading};
    ghost use Rattle.cdc_windows.specs.SourcedLaws.{turns_are_read_on, read_on_twice};

    ghost rereading = { node_rereading (source_words S.tells S.held S.sizes S.lowest S.faults) };

    fn is_over(&self) -> bool {
        !matches!(self.job.stage().end(), NodeEnd::Open)
    }

    fn cut(&self, last: &Key) -> Result<Option<NodeCut>, Memory> {
        if key_cmp(&self.known, last).is_gt() {
            return Ok(None);
        }
        Ok(Some(self.job.stage().cut(last)?))
    }

    fn forget(&mut self, last: &Key) {
        if key_cmp(last, &self.known).is_gt() {
            self.job.forget(last);
            self.known = *last;
        }
    }

    ghost turns_read_on = { λ a b turned. turns_are_read_on (source_words S.tells S.held S.sizes S.lowest S.faults) a b turned };

    ghost turns_keep_known = { λ a b turned. turned.stage.known };

    ghost reads_more = { λ a b c p q. read_on_twice (source_words S.tells S.held S.sizes S.lowest S.faults) a b c p q };
}

impl<'a, L: Ledger> MergePart for MergeStage<'a, L> {
    ghost use Rattle.cdc_windows.specs.Sourced.{reached_by};

    ghost came = { reached_by };

    fn reached(&self) -> Reached {
        Reached {
            count: self.count(),
            last: self.last(),
            layout: self.layout(),
        }
    }
}
