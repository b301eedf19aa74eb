//! What a sorter answers to the entries of a log, as a text.

ghost use Rattle.std.specs.Prelude.{map, IfOk, ◌<◌, ◌≤◌, ◌^◌};
ghost use Rattle.cdc_model.specs.Kept.{IsKeptKey, IsKeptKind};
ghost use Rattle.cdc_model.specs.Openings.{AscendByXid};
ghost use Rattle.cdc_model.specs.Restart.{held_open};

use cdc_base::{Key, Place, Xid};
use cdc_model::{Branch, Entry, EntryKind, HeldList, NodeCut, RowList, SortFault};
use cdc_samples::entries::{beat, branch_of, commit, entry, one_phase, plain, prepare, rollback};
use cdc_sorter::{SortError, Sorter};
use std::alloc::{AllocError, Global};
use std::test::Fail;

/// The xid of a word as `g1`.
pub fn xid_of(word: &str) -> Result<Xid, Fail> {
    let xid = branch_of(word.as_bytes()).ok_or("a long id")?;
    Ok(xid)
}

/// The timestamp of a word as `10`.
fn timestamp_of(word: &str) -> Result<u64, Fail>
    ensures { IfOk result (λ timestamp. timestamp < 2 ^ 63) }
{
    let timestamp = word.parse::<u64>().map_err(|_| "no number")?;
    if timestamp >= 1 << 63 {
        return Err("a great number")?;
    }
    Ok(timestamp)
}

/// What a word as `P:g1`, `C:g1@10`, `O:g1@10`, `R:g1`, `L:` or `B:10` says.
fn kind_of(word: &str) -> Result<EntryKind, Fail>
    ensures { IfOk result IsKeptKind }
{
    let (sign, rest) = word.split_once(":").ok_or("no sign")?;
    if sign == "L" {
        return Ok(plain(RowList::empty()));
    }
    if sign == "B" {
        return Ok(beat(timestamp_of(rest)?));
    }
    if sign == "P" {
        return Ok(prepare(&xid_of(rest)?, RowList::empty()));
    }
    if sign == "R" {
        return Ok(rollback(&xid_of(rest)?));
    }
    let (id, timestamp) = rest.split_once("@").ok_or("no timestamp")?;
    let xid = xid_of(id)?;
    let timestamp = timestamp_of(timestamp)?;
    if sign == "C" {
        return Ok(commit(&xid, timestamp));
    }
    Ok(one_phase(&xid, RowList::empty(), timestamp))
}

/// The end of an entry and the checksum setting there, of a word as `1:265:0`.
fn end_of(word: &str) -> Result<(Place, u8), Fail>
    ensures { IfOk result (λ end. end.1 ≤ 1) }
{
    let (file, rest) = word.split_once(":").ok_or("no place")?;
    let (at, setting) = rest.split_once(":").ok_or("no setting")?;
    let file = file.parse::<u32>().map_err(|_| "no file")?;
    let at = at.parse::<u64>().map_err(|_| "no byte")?;
    if setting == "1" {
        return Ok((Place { file, at }, 1));
    }
    Ok((Place { file, at }, 0))
}

/// The entry of a word as `B:10`, or as `B:10>1:293:0` with its end and the setting there; without these it ends 100 bytes behind
/// 100 times its number.
pub fn entry_of(number: u32, word: &str) -> Result<Entry, Fail> {
    let Some((kind, end)) = word.split_once(">") else {
        return Ok(entry(number, kind_of(word)?));
    };
    let kind = kind_of(kind)?;
    let (end, checksum) = end_of(end)?;
    Ok(Entry {
        kind,
        at: end,
        end,
        checksum,
    })
}

// The last byte of an xid's global id.
fn id_of(xid: &Xid) -> u8 {
    xid.gtrid.bytes().last().copied().unwrap_or(0)
}

/// A key as `10:49` (49 is the last byte of its id) or `10:1:2` (node and entry).
fn key_text(alloc: Global, key: &Key) -> Result<String, AllocError> {
    match key {
        Key::Shared { timestamp, gtrid } => {
            let last = gtrid.bytes().last().copied().unwrap_or(0);
            format!(in alloc; "{timestamp}:{last}")
        }
        Key::Plain {
            timestamp,
            node,
            entry,
        } => format!(in alloc; "{timestamp}:{node}:{entry}"),
    }
}

/// A branch as its key and the number of the entry that committed it.
fn branch_text(alloc: Global, branch: &Branch) -> Result<String, AllocError> {
    let key = key_text(alloc, &branch.key)?;
    let entry = branch.entry;
    format!(in alloc; "{key}#{entry}")
}

// Why an entry is refused.
fn put_fault(alloc: Global, fault: &SortFault, into: &mut String) -> Result<(), AllocError> {
    let text = match fault {
        SortFault::DoublePrepare(xid) => format!(in alloc; "DoublePrepare {}", id_of(xid)),
        SortFault::UnknownBranch(xid) => format!(in alloc; "UnknownBranch {}", id_of(xid)),
        SortFault::Undercut { timestamp, floor } => {
            format!(in alloc; "Undercut {timestamp} {floor}")
        }
    };
    into.push_str(text?.as_str())
}

// What is answered to an entry.
fn put_answer(
    alloc: Global,
    answer: &Result<(), SortError>,
    into: &mut String,
) -> Result<(), AllocError> {
    match answer {
        Ok(()) => into.push_str("-"),
        Err(SortError::Memory) => into.push_str("memory"),
        Err(SortError::Fault(fault)) => put_fault(alloc, fault, into),
    }
}

/// A sorter whose calls promise nothing here: what it answers is compared with tables.
#[derive(Drop)]
pub struct Asked {
    alloc: Global,
    sorter: Sorter,
}

impl Asked {
    /// A sorter of node 1, from the log's start.
    pub fn new(alloc: Global) -> Asked {
        Asked {
            alloc,
            sorter: Sorter::new(alloc, 1),
        }
    }

    /// A sorter of node 1 from the point before the third entry at a byte of file 1 on, above a key.
    pub fn resumed(alloc: Global, at: u64, last: &Key) -> Result<Asked, Fail> {
        let cut = point(alloc, at)?;
        let sorter = Sorter::resumed(alloc, 1, &cut, last)?;
        Ok(Asked { alloc, sorter })
    }

    // Takes an entry, and says what is answered.
    fn take(&mut self, entry: Entry, into: &mut String) -> Result<(), AllocError> {
        let answer = self.sorter.take(entry);
        put_answer(self.alloc, &answer, into)
    }

    // Takes an entry, and says whether it is sound.
    fn takes(&mut self, entry: Entry) -> bool {
        self.sorter.take(entry).is_ok()
    }

    // The next branch that is given, as a text.
    fn next_text(&mut self) -> Result<Option<String>, AllocError> {
        match self.sorter.pop() {
            Some(branch) => Ok(Some(branch_text(self.alloc, &branch)?)),
            None => Ok(None),
        }
    }

    // The bound, and all that is given now, each with a blank before it.
    fn put_given(&mut self, into: &mut String) -> Result<(), AllocError> {
        into.push_str(format!(in self.alloc; " {}", self.sorter.bound())?.as_str())?;
        for _ in 0..1_000 {
            match self.next_text()? {
                Some(branch) => {
                    into.push_str(" ")?;
                    into.push_str(branch.as_str())?;
                }
                None => return Ok(()),
            }
        }
        Ok(())
    }

    /// What is answered to the entries of these words, numbered from `first` on: to each the answer, the bound and what is
    /// given.
    pub fn answers(&mut self, first: u32, words: &str) -> Result<String, Fail> {
        let mut all = String::new(self.alloc);
        let mut number = first;
        for word in words.split(" ") {
            self.take(entry_of(number, word)?, &mut all)?;
            self.put_given(&mut all)?;
            all.push_str(", ")?;
            number = number.wrapping_add(1);
        }
        Ok(all)
    }

    /// Takes the entries of these words, numbered from `first` on, all of which are sound.
    pub fn take_all(&mut self, first: u32, words: &str) -> Result<(), Fail> {
        let mut number = first;
        for word in words.split(" ") {
            if !self.takes(entry_of(number, word)?) {
                return Err("refused")?;
            }
            number = number.wrapping_add(1);
        }
        Ok(())
    }

    /// Says that all below a key was merged.
    pub fn forget(&mut self, last: &Key) {
        self.sorter.forget(last);
    }

    /// The latest point for a key.
    pub fn cut(&self, last: &Key) -> Result<String, Fail> {
        let cut = self.sorter.cut(last)?;
        Ok(cut_text(self.alloc, &cut)?)
    }
}

// The point before the third entry, at a byte of file 1, with the mark 10: the branch of g1 stands open there with the floor 0.
fn point(alloc: Global, at: u64) -> Result<NodeCut, Fail>
    ensures { IfOk result (λ cut. AscendByXid (map held_open cut.held)) }
{
    let mut held = HeldList::new(alloc);
    held.push((xid_of("g1")?, 0))?;
    Ok(NodeCut {
        entry: 3,
        place: Place { file: 1, at },
        mark: 10,
        checksum: 0,
        held,
    })
}

// A cut as its entry, place, mark, setting, and each branch held open as the last byte of its id and its floor.
fn cut_text(alloc: Global, cut: &NodeCut) -> Result<String, AllocError> {
    let (entry, file, at) = (cut.entry, cut.place.file, cut.place.at);
    let (mark, checksum) = (cut.mark, cut.checksum);
    let mut text = format!(in alloc; "{entry} {file}:{at} {mark} {checksum}")?;
    for pair in cut.held.as_slice() {
        let held = format!(in alloc; " {}.{}", id_of(&pair.0), pair.1)?;
        text.push_str(held.as_str())?;
    }
    Ok(text)
}

/// The key of a word as `10:g1`, or as `L10:4` of the local entry 4 of node 1.
pub fn last_of(word: &str) -> Result<Key, Fail> {
    let Some(local) = word.strip_prefix("L") else {
        return key_of(word);
    };
    let (timestamp, entry) = local.split_once(":").ok_or("no key")?;
    let entry = entry.parse::<u64>().map_err(|_| "no entry")?;
    Ok(Key::Plain {
        timestamp: timestamp_of(timestamp)?,
        node: 1,
        entry,
    })
}

/// The shared key of a word as `10:g1`.
pub fn key_of(word: &str) -> Result<Key, Fail>
    ensures { IfOk result IsKeptKey }
{
    let (timestamp, id) = word.split_once(":").ok_or("no key")?;
    let timestamp = timestamp_of(timestamp)?;
    let xid = xid_of(id)?;
    Ok(Key::Shared {
        timestamp,
        gtrid: xid.gtrid,
    })
}
