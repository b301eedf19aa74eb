//! Logs in words.

use crate::log::Log;
use crate::not_made::NotMade;
use cdc_base::{Buffer, Memory};
use hex::FromHexError;
use std::alloc::Global;

/// The checksum behind an event: no reader verifies it.
const CHECKSUM: [u8; 4] = [0xc0, 0xc1, 0xc2, 0xc3];

/// A word of the form `SIGN(TEXT)` or `SIGN(ID,NUMBER)`, with what stands behind its event.
#[derive(Clone, Copy, Debug)]
struct Word<'a> {
    sign: &'a str,
    text: &'a str,
    id: &'a str,
    number: &'a str,
    tail: &'a [u8],
}

/// The parts of a word, empty where it hasn't them.
fn word_of(word: &str) -> Result<Word<'_>, NotMade> {
    let (word, behind, tail): (&str, &str, &[u8]) = match word.split_once("+") {
        Some((word, behind)) => (word, behind, &CHECKSUM),
        None => (word, "", &[]),
    };
    let (sign, text, after) = match word.split_once("(") {
        Some((sign, text)) => {
            let (text, after) = text.split_once(")").ok_or(NotMade::Word)?;
            (sign, text, after)
        }
        None => (word, "", ""),
    };
    if !behind.is_empty() || !after.is_empty() {
        return Err(NotMade::Word);
    }
    let (id, number) = text.split_once(",").unwrap_or((text, ""));
    Ok(Word {
        sign,
        text,
        id,
        number,
        tail,
    })
}

/// A number in figures.
fn number_of(text: &str) -> Result<u64, NotMade> {
    text.parse::<u64>().or(Err(NotMade::Word))
}

/// A text with blanks in the place of `_`.
fn plain_text(alloc: Global, text: &str) -> Result<Buffer, Memory> {
    let mut plain = Buffer::new(alloc);
    for byte in text.bytes() {
        plain.push(&[if byte == b'_' { b' ' } else { byte }])?;
    }
    Ok(plain)
}

impl Log {
    /// A log of these words, one behind another, with blanks between them:
    ///
    /// | Word | What it makes |
    /// |---|---|
    /// | `H` | the head of a file: `M` and `F0` |
    /// | `P(g1)` `Pr(g1)` | a prepared branch, without rows and with a row of value 1 |
    /// | `O(g1,10)` | a branch with a row, prepared and committed at once |
    /// | `C(g1,10)` `A(g1)` | a branch's commit, a branch's rollback |
    /// | `B(10)` | a heartbeat |
    /// | `L` `Lr` | a local transaction, without rows and with a row of value 1 |
    /// | `M` `F0` `F1` | the magic, a format event that names this algorithm |
    /// | `S(g1)` `E(g1)` `R(g1)` `K(g1)` | `XA START`, `XA END`, XA_PREPARE, `XA COMMIT`, alone |
    /// | `T(10)` | a commit timestamp, alone |
    /// | `Q(COMMIT)` `D(DDL::d1::x)` | a query of this text, a text about rows; `_` is a blank |
    /// | `W` `X` | a table map and a row event of value 1, an XID event of number 1 |
    /// | `h(2,18)` | a header of this type and length, alone |
    /// | an even number of digits of base 16 | these bytes |
    ///
    /// A `+` behind `S`, `E`, `R`, `K`, `T` and `Q` puts a checksum of four bytes behind the event. Any other word is
    /// refused.
    pub fn of(alloc: Global, words: &str) -> Result<Log, NotMade> {
        let mut log = Log::new(alloc);
        for word in words.split_whitespace() {
            log.push_word(alloc, &word_of(word)?)?;
        }
        Ok(log)
    }

    // An event that may have a checksum behind it, or what has none.
    fn push_word(&mut self, alloc: Global, word: &Word) -> Result<(), NotMade> {
        let id = word.id.as_bytes();
        match word.sign {
            "S" => self.statement(b"XA START", id, word.tail),
            "E" => self.statement(b"XA END", id, word.tail),
            "R" => self.prepared(0, id, word.tail),
            "K" => self.statement(b"XA COMMIT", id, word.tail),
            "T" => self.timestamp(1, number_of(word.id)?, word.tail),
            "Q" => self.query(plain_text(alloc, word.text)?.bytes(), word.tail),
            _ if word.tail.is_empty() => self.push_group(alloc, word),
            _ => Err(NotMade::Word),
        }
    }

    // What a node writes at once.
    fn push_group(&mut self, alloc: Global, word: &Word) -> Result<(), NotMade> {
        let id = word.id.as_bytes();
        match word.sign {
            "P" => self.prepare(id),
            "Pr" => self.prepare_row(id, 1),
            "O" => self.one_phase(id, number_of(word.number)?, 1),
            "C" => self.commit(id, number_of(word.number)?),
            "A" => self.rollback(id),
            "B" => self.beat(number_of(word.id)?),
            "L" => self.plain(),
            "Lr" => self.plain_row(1),
            _ => self.push_single(alloc, word),
        }
    }

    // A part of a log that is no group.
    fn push_single(&mut self, alloc: Global, word: &Word) -> Result<(), NotMade> {
        match word.sign {
            "H" => self.head(),
            "M" => self.magic(),
            "F0" => self.format(0),
            "F1" => self.format(1),
            "D" => self.marked(plain_text(alloc, word.text)?.bytes()),
            "W" => self.rows(1),
            "X" => self.xid(),
            "h" => self.push_told(word),
            digits => self.push_bytes(alloc, digits),
        }
    }

    // A header alone.
    fn push_told(&mut self, word: &Word) -> Result<(), NotMade> {
        let kind = word.id.parse::<u8>().or(Err(NotMade::Word))?;
        let length = word.number.parse::<u32>().or(Err(NotMade::Word))?;
        self.push_header(kind, length)
    }

    // The bytes of some digits.
    fn push_bytes(&mut self, alloc: Global, digits: &str) -> Result<(), NotMade> {
        match hex::decode(alloc, digits) {
            Ok(bytes) => self.push(bytes.as_slice()),
            Err(FromHexError::OutOfMemory) => Err(NotMade::Memory),
            Err(_) => Err(NotMade::Word),
        }
    }
}
