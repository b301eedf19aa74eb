//! Sorters and a merger beside the plain program: small logs that were made from a number, in every order of turns.

ghost use Rattle.std.specs.Prelude.{◌≡◌, ◌≤◌, ◌<◌, ◌^◌, length, IfOk};
ghost use Rattle.cdc_model.specs.Soundness.{IsCounted};

use crate::answers::entry_of;
use cdc_base::{Key, Steps, first_key};
use cdc_merger::Merger;
use cdc_model::{EntryList, NodeLog, StartingPoint, Txn};
use cdc_plain::ordered_transactions;
use cdc_sorter::Sorter;
use std::alloc::{AllocError, Global};
use std::marker::Brand;
use std::sync::ledger::{Blank, Ledger};
use std::test::Fail;

/// How many entries each node's log has.
const ENTRIES: usize = 3;

// What an entry may say.
const WORDS: [&str; 9] = [
    "P:g1", "P:g2", "C:g1@10", "C:g2@20", "R:g1", "O:g3@30", "L:", "B:15", "C:g2@15",
];

// Which words an entry is drawn from, where neither branch is open, the first, the second, and both.
const DRAWS: [[usize; 8]; 4] = [
    [0, 0, 1, 1, 5, 6, 7, 0],
    [2, 2, 2, 1, 4, 6, 7, 5],
    [3, 3, 8, 0, 8, 6, 7, 5],
    [2, 2, 3, 3, 4, 8, 7, 6],
];

// The numbers that the logs are made from.
const SEEDS: [[u64; 3]; 5] = [
    [0, 1_005, 4],
    [1_003, 2_012, 1_006],
    [1_007, 0, 1_006],
    [2, 1_003, 2_012],
    [7, 1_005, 2_012],
];

/// Which branches are open behind a word, as an index of `DRAWS`.
fn open_behind(word: usize, opened: usize) -> usize
    requires { opened < 4 }
    ensures { result < 4 }
{
    match (word, opened) {
        (0, 0 | 1) => 1,
        (0, _) => 3,
        (1, 0 | 2) => 2,
        (1, _) => 3,
        (2 | 4, 0 | 1) => 0,
        (2 | 4, _) => 2,
        (3 | 8, 0 | 2) => 0,
        (3 | 8, _) => 1,
        _ => opened,
    }
}

/// The words of a node's log, as indexes, from a number.
fn log_of(number: u64) -> [usize; ENTRIES] {
    let mut words = [0_usize; ENTRIES];
    let mut drawn = number;
    let mut opened = 0_usize;
    for index in 0..ENTRIES {
        drawn = drawn
            .wrapping_mul(6_364_136_223_846_793_005)
            .wrapping_add(1_442_695_040_888_963_407);
        let word = DRAWS[opened][((drawn >> 33) % 8) as usize];
        words[index] = word;
        opened = open_behind(word, opened);
    }
    words
}

/// A transaction: its number, its timestamp and the entries of its branches.
fn txn_text(alloc: Global, txn: &Txn) -> Result<String, AllocError> {
    let number = txn.number;
    let timestamp = match txn.key {
        Key::Shared { timestamp, .. } => timestamp,
        Key::Plain { timestamp, .. } => timestamp,
    };
    let mut text = format!(in alloc; "{number}@{timestamp}")?;
    for branch in txn.branches.as_slice() {
        let entry = branch.entry;
        text.push_str(&format!(in alloc; " {entry}")?)?;
    }
    text.push_str(";")?;
    Ok(text)
}

/// The word of an entry.
fn word_of(words: &[usize; ENTRIES], number: usize) -> Result<&'static str, Fail> {
    let word = *words.get(number).ok_or("no entry")?;
    if word >= WORDS.len() {
        return Err("no word")?;
    }
    Ok(WORDS[word])
}

/// A node's log of words.
fn node_log(alloc: Global, words: &[usize; ENTRIES]) -> Result<NodeLog, Fail>
    ensures few { IfOk result (λ log. length log.entries ≤ 8) }
    ensures counted { IfOk result IsCounted }
{
    let mut entries = EntryList::new(alloc);
    for number in 0..ENTRIES {
        entries.push(entry_of(number as u32 + 1, word_of(words, number)?)?)?;
    }
    if entries.len() > 8 {
        return Err("a long log")?;
    }
    Ok(NodeLog {
        start: StartingPoint::beginning(alloc),
        entries,
    })
}

/// What the plain program gives of three logs.
fn plain_of(alloc: Global, first: NodeLog, second: NodeLog, third: NodeLog) -> Result<String, Fail>
    requires first { IsCounted first }
    requires second { IsCounted second }
    requires third { IsCounted third }
    requires few { (length first.entries ≤ 8) × (length second.entries ≤ 8) × (length third.entries ≤ 8) }
{
    let logs = [first, second, third];
    let txns = ordered_transactions(alloc, 0, &first_key(), &logs)?;
    let mut text = String::new(alloc);
    for txn in txns.as_slice() {
        text.push_str(&txn_text(alloc, txn)?)?;
    }
    Ok(text)
}

/// The same by words.
fn plain_text(alloc: Global, logs: &[[usize; ENTRIES]; 3]) -> Result<String, Fail> {
    let first = node_log(alloc, &logs[0])?;
    let second = node_log(alloc, &logs[1])?;
    let third = node_log(alloc, &logs[2])?;
    plain_of(alloc, first, second, third)
}

/// A sorter for each node.
fn sorters(alloc: Global) -> Result<Vec<Sorter>, Fail> {
    let mut sorters = Vec::new(alloc);
    for node in 1..4_u32 {
        sorters.push(Sorter::new(alloc, node))?;
    }
    Ok(sorters)
}

// One turn of a node: it takes its next entry, and tells what is settled and its bound.
fn turn(
    sorter: &mut Sorter,
    merger: &mut Merger,
    node: u32,
    number: u32,
    word: &str,
) -> Result<(), Fail>
    requires first { 1 ≤ node }
    requires within { node ≤ length merger.old.nodes }
    ensures { length merger.new.nodes ≡ length merger.old.nodes }
{
    let _ = sorter.take(entry_of(number, word)?);
    for _ in 0..1_000 {
        match sorter.pop() {
            Some(branch) => merger.give(node, branch)?,
            None => {
                merger.bound(node, sorter.bound());
                return Ok(());
            }
        }
    }
    Err("no end")?
}

// Appends all transactions that the merger gives now.
fn tell<L: Ledger>(
    alloc: Global,
    merger: &mut Merger,
    steps: &mut Steps<L>,
    text: &mut String,
) -> Result<(), Fail>
    ensures { length merger.new.nodes ≡ length merger.old.nodes }
{
    for _ in 0..1_000 {
        let Some(txn) = merger.next(steps)? else {
            return Ok(());
        };
        text.push_str(&txn_text(alloc, &txn)?)?;
    }
    Err("no end")?
}

/// Whether each node has all its turns in an order, whose digits to base 3 are the nodes.
fn is_order(order: u32) -> bool {
    let mut turns = [0_usize; 3];
    let mut left = order;
    for _ in 0..9 {
        let node = (left % 3) as usize;
        left /= 3;
        turns[node] = turns[node].saturating_add(1);
    }
    turns[0] == ENTRIES && turns[1] == ENTRIES && turns[2] == ENTRIES
}

// The turn of an order's next node.
fn turn_of(
    logs: &[[usize; ENTRIES]; 3],
    sorters: &mut Vec<Sorter>,
    merger: &mut Merger,
    turns: &mut [usize; 3],
    node: usize,
) -> Result<(), Fail>
    requires within { node < 3 }
    requires nodes { length merger.old.nodes ≡ 3 }
    ensures { length merger.new.nodes ≡ 3 }
{
    let number = turns[node];
    if number >= ENTRIES {
        return Err("no turn")?;
    }
    let word = word_of(&logs[node], number)?;
    turns[node] = number + 1;
    let sorter = sorters.get_mut(node).ok_or("no sorter")?;
    turn(sorter, merger, node as u32 + 1, number as u32 + 1, word)
}

// The turns of one order: what was given, of which each turn's part stands behind those of earlier turns.
fn order<L: Ledger>(
    alloc: Global,
    logs: [[usize; ENTRIES]; 3],
    order: u32,
    blank: Blank,
) -> Result<String, Fail>
    requires name { blank.name ≡ L.name }
    requires parts { blank.parts ≡ L.parts }
    requires whole { 0 < L.parts }
{
    let mut steps = Steps::<L>::new(blank);
    let mut merger = Merger::new(alloc, 3, 0, &first_key())?;
    let mut sorters = sorters(alloc)?;
    let mut text = String::new(alloc);
    let mut turns = [0_usize; 3];
    let mut left = order;
    for _ in 0..9 {
        let node = (left % 3) as usize;
        left /= 3;
        turn_of(&logs, &mut sorters, &mut merger, &mut turns, node)?;
        tell(alloc, &mut merger, &mut steps, &mut text)?;
    }
    Ok(text)
}

#[test]
fn every_order_gives_what_the_plain_program_does(rt: HostRuntime) -> Result<(), Fail> {
    let mut length = 0_usize;
    let mut count = 0_u32;
    for numbers in &SEEDS {
        let logs = [log_of(numbers[0]), log_of(numbers[1]), log_of(numbers[2])];
        let wanted = plain_text(rt.alloc(), &logs)?;
        length = length.saturating_add(wanted.len());
        for code in 0..19_683 {
            if is_order(code) {
                let text = order::<Brand>(rt.alloc(), logs, code, Blank::new(1))?;
                assert_eq!(&rt; text.as_str(), wanted.as_str(), "order {code}");
                count = count.saturating_add(1);
            }
        }
    }
    assert_eq!(&rt; count, 5 * 1_680);
    assert!(&rt; length > 40, "the logs settle little");
    Ok(())
}
