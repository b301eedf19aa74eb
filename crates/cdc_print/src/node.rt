//! One node: its reader, and what is known of it.

ghost use Rattle.std.specs.Prelude.{◌≡◌, ◌<◌, ◌≤◌, ℕ, Bool, List, length, true, IfOk};
ghost use Rattle.cdc_model.specs.Feed.{NodeFeed, FeedGrows};
ghost use Rattle.cdc_model.specs.NodeReading.{no_feed};
ghost use Rattle.cdc_reader.specs.Standing.{feed_by};
ghost use Rattle.cdc_reader.specs.declared.step.Step.TheVariants.{End as LastStep};

use cdc_base::{Key, Memory};
use cdc_outside::Source;
use cdc_reader::{NodeEnd, Reader, Step};
use std::alloc::Global;

/// A key that no other is above: no point to read a log again from is asked for, so nothing is kept for one.
const NO_KEY_ABOVE: Key = Key::Plain {
    timestamp: u64::MAX,
    node: u32::MAX,
    entry: u64::MAX,
};

/// A node's reader, the low-water mark that it told last, and whether its reading is over.
#[derive(Debug, Drop)]
pub(crate) struct NodeReader {
    pub reader: Reader,
    pub mark: u64,
    pub over: bool,
}

impl NodeReader {
    ghost use Rattle.cdc_print.specs.Reading.{NodeReads};

    /// At the start of a node's log.
    pub fn new(alloc: Global, node: u32) -> Result<NodeReader, Memory>
        requires first { 1 ≤ node }
        requires last { node ≤ 256 }
        ensures { IfOk result (λ state. (told : Bool) (files : List (List ℕ)) (before : ℕ) → NodeReads told files before before node state no_feed) }
    {
        let mut reader = Reader::new(alloc, node)?;
        reader.forget(&NO_KEY_ABOVE);
        Ok(NodeReader {
            reader,
            mark: 0,
            over: false,
        })
    }

    // Notes what came of the reader.
    fn note(&mut self, step: &Step)
        ensures reader { self.new.reader ≡ self.old.reader }
        ensures over { self.new.over ≡ true → step.now ≡ LastStep }
    {
        match step {
            Step::Bound(mark) => {
                self.mark = *mark;
                self.over = false;
            }
            Step::Branch(_) | Step::Read(_) => self.over = false,
            Step::End => self.over = true,
        }
    }

    /// What comes next of the node.
    pub fn next<S: Source>(&mut self, source: &mut S, piece: &mut [u8]) -> Step
        requires { 0 < length piece.old }
        ensures reads { (before node : ℕ) (feed : NodeFeed) → NodeReads S.tells (S.held source.old) before (S.faults source.old) node self.old feed → NodeReads S.tells (S.held source.old) before (S.faults source.new) node self.new (feed_by result feed) × FeedGrows feed (feed_by result feed) }
        ensures later { S.faults source.old ≤ S.faults source.new }
        ensures held { S.held source.new ≡ S.held source.old }
    {
        let step = self.reader.next(source, piece);
        self.note(&step);
        step
    }

    /// How the reading ended.
    pub fn end(&self) -> NodeEnd
        ensures { result ≡ self.now.reader.end }
    {
        self.reader.end()
    }
}
