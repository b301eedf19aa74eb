//! A merge stage of two nodes and two outputs, with their lanes.
//!
//! | Word of a node | What goes onto its lane |
//! |---|---|
//! | `10a` | a branch without rows, of 10 and an id that ends with `a` |
//! | `10a!` | one whose transaction's print has 2^28 + 1 bytes |
//! | `=30` | the bound 30 |
//! | `.` | the End |

ghost use Rattle.std.specs.Prelude.{◌≡◌, ◌≤◌, ◌<◌, ◌^◌, length, IfOk, IfSome};
ghost use Rattle.cdc_model.specs.Kept.{IsKeptKey};

use crate::large::large_rows;
use cdc_base::{Key, Steps, first_key};
use cdc_item::{DumpItem, NodeItem};
use cdc_lane::PlainLane;
use cdc_merge_stage::{MergeEnd, MergeStage, MergeStart};
use cdc_model::{Branch, RowList, Unit};
use cdc_outside::{LaneIn, LaneOut};
use cdc_rename::Names;
use cdc_samples::layouts::NO_FILE;
use cdc_samples::transactions::shared;
use cdc_turns::{MergeTurns, Turn};
use std::alloc::{AllocError, Global};
use std::sync::ledger::{Blank, Ledger};
use std::test::Fail;

/// No window of a test has as many turns.
const TURNS: u32 = 10_000;

/// A stage with the lanes of its nodes and of its outputs.
#[derive(Drop)]
pub struct Merging<'a, L: Ledger> {
    stage: MergeStage<'a, L>,
    ins: [PlainLane<NodeItem>; 2],
    outs: [PlainLane<DumpItem>; 2],
    ghost nodes: { length stage.took ≡ 2 },
    ghost lanes: { length stage.slots ≡ 2 },
}

/// The key of a timestamp and an id's last letter.
fn key_of(timestamp: u64, letter: &str) -> Result<Key, Fail>
    ensures { IfOk result (λ key. IsKeptKey key) }
{
    if timestamp >= 1 << 62 {
        return Err("a large timestamp")?;
    }
    let letter = letter.as_bytes().first().copied().ok_or("no letter")?;
    let key = shared(timestamp, &[b'g', letter]).ok_or("no key")?;
    Ok(key)
}

/// The branch of a word.
fn branch_of(alloc: Global, word: &str) -> Result<Branch, Fail> {
    let (word, large) = match word.strip_suffix("!") {
        Some(word) => (word, true),
        None => (word, false),
    };
    let (digits, letter) = word.split_at_checked(2).ok_or("no such word")?;
    let timestamp = digits.parse::<u64>().or(Err("no such word"))?;
    let key = key_of(timestamp, letter)?;
    let rows = if large {
        large_rows(alloc)?
    } else {
        RowList::empty()
    };
    Ok(Branch {
        key,
        entry: 2,
        seconds: 5,
        rows,
    })
}

/// The item of a word.
fn item_of(alloc: Global, word: &str) -> Result<NodeItem, Fail> {
    if word == "." {
        return Ok(NodeItem::End);
    }
    match word.strip_prefix("=") {
        Some(digits) => {
            let bound = digits.parse::<u64>().or(Err("no such word"))?;
            Ok(NodeItem::Bound(bound))
        }
        None => Ok(NodeItem::Branch(branch_of(alloc, word)?)),
    }
}

/// Puts the items of words onto a lane, which must have room for them.
fn load(alloc: Global, lane: &mut PlainLane<NodeItem>, words: &str) -> Result<(), Fail> {
    for word in words.split_whitespace() {
        let item = item_of(alloc, word)?;
        let Ok(()) = lane.push(item) else {
            return Err("the lane is full")?;
        };
    }
    Ok(())
}

/// A unit as its number, its timestamp and its id's last letter, the file in which it ends and that one's length; with `c` where
/// the file is closed; a blank before it.
fn unit_text(alloc: Global, unit: &Unit) -> Result<String, AllocError> {
    let (number, file, length) = (unit.number, unit.after.file, unit.after.length);
    let closed = if unit.after.closed { "c" } else { "" };
    match unit.key {
        Key::Shared { timestamp, gtrid } => {
            let last = char::from(gtrid.bytes().last().copied().unwrap_or(b'-'));
            format!(in alloc; " {number}@{timestamp}{last}:{file}:{length}{closed}")
        }
        Key::Plain { timestamp, .. } => format!(in alloc; " {number}@{timestamp}"),
    }
}

/// Puts the items of words onto the nodes' lanes; the words of each, with `|` between them.
fn load_both(alloc: Global, ins: &mut [PlainLane<NodeItem>; 2], words: &str) -> Result<(), Fail> {
    let (one, two) = words.split_once("|").ok_or("no second node")?;
    load(alloc, &mut ins[0], one)?;
    load(alloc, &mut ins[1], two)
}

/// An item as a text.
fn item_text(alloc: Global, item: &DumpItem) -> Result<String, AllocError> {
    match item {
        DumpItem::Unit(unit) => unit_text(alloc, unit),
        DumpItem::End => format!(in alloc; " ."),
    }
}

/// Takes all that an output's lane holds, and appends it to a text.
fn drain(
    alloc: Global,
    lane: &mut PlainLane<DumpItem>,
    told: &mut String,
) -> Result<(), AllocError> {
    for _ in 0..TURNS {
        let Some(item) = lane.pop() else {
            return Ok(());
        };
        let text = item_text(alloc, &item)?;
        told.push_str(&text)?;
    }
    Ok(())
}

/// Takes all that the outputs' lanes hold, and appends it to a text for each.
fn drain_both(
    alloc: Global,
    outs: &mut [PlainLane<DumpItem>; 2],
    told: &mut [String; 2],
) -> Result<(), AllocError> {
    drain(alloc, &mut outs[0], &mut told[0])?;
    drain(alloc, &mut outs[1], &mut told[1])
}

impl<'a, L: Ledger> Merging<'a, L> {
    /// A stage that begins behind nothing, under a rotation size of 256, whose outputs' lanes have room for so many items.
    pub fn new(
        alloc: Global,
        names: &'a Names,
        room: usize,
        blank: Blank,
    ) -> Result<Merging<'a, L>, Fail>
        requires name { blank.name ≡ L.name }
        requires parts { blank.parts ≡ L.parts }
        requires whole { 0 < L.parts }
        requires room { 1 ≤ room }
    {
        let start = MergeStart {
            count: 0,
            last: first_key(),
            before: NO_FILE,
        };
        let steps = Steps::<L>::new(blank);
        Ok(Merging {
            stage: MergeStage::new(alloc, 2, 2, 256, names, start, steps)?,
            ins: [PlainLane::new(alloc, 16)?, PlainLane::new(alloc, 16)?],
            outs: [PlainLane::new(alloc, room)?, PlainLane::new(alloc, room)?],
        })
    }

    /// How it ended.
    pub fn end(&self) -> MergeEnd {
        self.stage.end()
    }

    /// How many transactions there are up to the last one of which a unit was made.
    pub fn count(&self) -> u64 {
        self.stage.count()
    }

    /// One turn.
    fn turn(&mut self) -> Turn {
        MergeTurns::turn(&mut self.stage, &mut self.ins, &mut self.outs)
    }

    /// Turns the stage until it has given the window's Ends; where a lane of an output is full, both are emptied.
    fn turn_to_end(&mut self, alloc: Global, told: &mut [String; 2]) -> Result<(), Fail> {
        for _ in 0..TURNS {
            match self.turn() {
                Turn::Moved => {}
                Turn::Blocked => drain_both(alloc, &mut self.outs, told)?,
                Turn::Done => {
                    drain_both(alloc, &mut self.outs, told)?;
                    return Ok(());
                }
            }
        }
        Err("no end")?
    }

    /// Merges a window of what two nodes give.
    fn run_window(
        &mut self,
        alloc: Global,
        words: &str,
        told: &mut [String; 2],
    ) -> Result<(), Fail> {
        load_both(alloc, &mut self.ins, words)?;
        self.turn_to_end(alloc, told)
    }

    /// Merges one window, or two, with `>` between them; what each output got.
    pub fn run(&mut self, alloc: Global, words: &str) -> Result<[String; 2], Fail> {
        let mut told = [String::new(alloc), String::new(alloc)];
        let Some((first, second)) = words.split_once(">") else {
            self.run_window(alloc, words, &mut told)?;
            return Ok(told);
        };
        self.run_window(alloc, first, &mut told)?;
        if !self.stage.has_ended() {
            return Err("the window hasn't ended")?;
        }
        self.stage.again();
        self.run_window(alloc, second, &mut told)?;
        Ok(told)
    }
}
