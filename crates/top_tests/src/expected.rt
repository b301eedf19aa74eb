//! The files that are expected: heads, and the prints of transactions.

use cdc_base::{Buffer, Memory};
use std::alloc::{AllocError, Global};
use std::test::Fail;

/// The first 123 bytes of each file: the magic, and a format event of version 4 that names no checksum.
pub const HEAD: [u8; 123] = *b"\xfebin\
    \x00\x00\x00\x00\x0f\x01\x00\x00\x00\x77\x00\x00\x00\x7b\x00\x00\x00\x00\x00\
    \x04\x005.7.0-cdc\
    \x00\x00\x00\x00\x00\x00\x00\x00\x00\x00\x00\x00\x00\x00\x00\x00\x00\x00\x00\x00\x00\
    \x00\x00\x00\x00\x00\x00\x00\x00\x00\x00\x00\x00\x00\x00\x00\x00\x00\x00\x00\x00\
    \x00\x00\x00\x00\x13\
    \x38\x0d\x00\x08\x00\x12\x00\x04\x04\x04\x04\x12\x00\x00\x5f\x00\x04\x1a\x08\
    \x00\x00\x00\x08\x08\x08\x02\x00\x00\x00\x0a\x0a\x0a\x2a\x2a\x00\x12\x34\x00\
    \x00\x00\x00\x00\x00";

/// The body of a table map of d1.t1 with one column, and what one with a column's sign has behind it.
const TABLE: &[u8] = b"\x01\0\0\0\0\0\x01\0\x02d1\0\x02t1\0\x01\x03\0\x01";

const SIGNED_TABLE: &[u8] = b"\x01\0\0\0\0\0\x01\0\x02d1\0\x02t1\0\x01\x03\0\x01\x01\x01\0";

/// The body of the table map under the name shop.orders.
const NAMED_TABLE: &[u8] = b"\x01\0\0\0\0\0\x01\0\x04shop\0\x06orders\0\x01\x03\0\x01";

/// The ROTATE event that closes file 1 at 359 bytes, and names file 2.
const ROTATE: &[u8] =
    b"\0\0\0\0\x04\x01\0\0\0\x28\0\0\0\x8f\x01\0\0\0\0\x04\0\0\0\0\0\0\0binlog.000002";

/// The body of a row event of the value 1.
const ROW: &[u8] = b"\x01\0\0\0\0\0\x01\0\x02\0\x01\xff\0\x01\0\0\0";

/// The body of a query of the statement's text in the database d1.
const STATEMENT: &[u8] = b"\0\0\0\0\0\0\0\0\x02\0\0\0\0d1\0CREATE TABLE t (a INT)";

// One event more, of seconds 5 and server 1.
fn push_event(file: &mut Buffer, kind: u8, body: &[u8]) -> Result<(), Memory> {
    let length = body.len().saturating_add(19);
    let next = file.len().saturating_add(length);
    file.push(&[5, 0, 0, 0, kind, 1, 0, 0, 0])?;
    file.push(&four_bytes(length))?;
    file.push(&four_bytes(next))?;
    file.push(&[0, 0])?;
    file.push(body)
}

// A length in 4 bytes.
fn four_bytes(length: usize) -> [u8; 4] {
    match u32::try_from(length) {
        Ok(length) => length.to_le_bytes(),
        Err(_) => [255; 4],
    }
}

// The query `BEGIN`.
fn push_begin(file: &mut Buffer) -> Result<(), Memory> {
    push_event(file, 2, b"\0\0\0\0\0\0\0\0\0\0\0\0\0\0BEGIN")
}

// The event of a mark.
fn push_mark(alloc: Global, file: &mut Buffer, mark: &[u8]) -> Result<(), Memory> {
    let mut body = Buffer::new(alloc);
    body.push(&[u8::try_from(mark.len()).unwrap_or(255)])?;
    body.push(mark)?;
    push_event(file, 29, body.bytes())
}

/// One printed transaction without rows more: the query `BEGIN`, its mark as a text, and an XID event with its number.
pub fn push_printed(
    alloc: Global,
    file: &mut Buffer,
    number: u64,
    mark: &[u8],
) -> Result<(), Memory> {
    push_begin(file)?;
    push_mark(alloc, file, mark)?;
    push_event(file, 16, &number.to_le_bytes())
}

// The mark of a key in words.
fn mark_of(alloc: Global, key: &str) -> Result<String, Fail> {
    match key.split_once(":") {
        Some((timestamp, id)) => {
            let timestamp = timestamp.parse::<u64>()?;
            Ok(format!(in alloc; "CTS::{timestamp:019}::0::{id}")?)
        }
        None => local_mark_of(alloc, key),
    }
}

// The mark of a local key in words.
fn local_mark_of(alloc: Global, key: &str) -> Result<String, Fail> {
    let (timestamp, place) = key.split_once("@").ok_or("a key of no kind")?;
    let (node, entry) = place.split_once(".").ok_or("a local key without an entry")?;
    let timestamp = timestamp.parse::<u64>()?;
    let node = node.parse::<u64>()?;
    let entry = entry.parse::<u64>()?;
    Ok(format!(in alloc; "CTS::{timestamp:019}::1::{node:05}{entry:020}")?)
}

// The rows behind a key: a table map and a row event for each `+`, with a column's sign for each `*`, under another name for
// each `%`.
fn push_rows(file: &mut Buffer, signs: &str) -> Result<(), Memory> {
    for sign in signs.bytes() {
        let table = match sign {
            b'*' => SIGNED_TABLE,
            b'%' => NAMED_TABLE,
            _ => TABLE,
        };
        push_event(file, 19, table)?;
        push_event(file, 30, ROW)?;
    }
    Ok(())
}

// `BEGIN`, rows, an XID event with the number.
fn push_bare(file: &mut Buffer, number: u64, signs: &str) -> Result<(), Memory> {
    push_begin(file)?;
    push_rows(file, signs)?;
    push_event(file, 16, &number.to_le_bytes())
}

// A print of a statement: its mark, the statement, and where there are rows besides, these behind it.
fn push_statement(
    alloc: Global,
    file: &mut Buffer,
    number: u64,
    mark: &[u8],
    signs: &str,
) -> Result<(), Memory> {
    push_mark(alloc, file, mark)?;
    push_event(file, 2, STATEMENT)?;
    if signs.is_empty() {
        return Ok(());
    }
    push_bare(file, number, signs)
}

// A print of rows, with the mark behind them.
fn push_whole(
    alloc: Global,
    file: &mut Buffer,
    number: u64,
    mark: &[u8],
    signs: &str,
) -> Result<(), Memory> {
    push_begin(file)?;
    push_rows(file, signs)?;
    push_mark(alloc, file, mark)?;
    push_event(file, 16, &number.to_le_bytes())
}

// Where the signs behind a key begin.
fn key_length(word: &str) -> usize {
    let mut length = 0usize;
    for byte in word.bytes() {
        if matches!(byte, b'+' | b'*' | b'%' | b'!') {
            return length;
        }
        length = length.saturating_add(1);
    }
    length
}

/// One printed transaction more, in a word: `10:6731`, of the timestamp 10 and the id `67 31`, or `10@1.2`, of node 1
/// and its entry 2; behind it a `+` for each table map with its row event, `*` where the table map has 42 bytes, `%` where it is
/// that of shop.orders, and first a `!` where a statement is printed.
fn push_word(alloc: Global, file: &mut Buffer, number: u64, word: &str) -> Result<(), Fail> {
    let length = key_length(word);
    let key = word.get(..length).ok_or("a word is cut")?;
    let signs = word.get(length..).ok_or("a word is cut")?;
    let mark = mark_of(alloc, key)?;
    match signs.strip_prefix("!") {
        Some(rest) => push_statement(alloc, file, number, mark.as_bytes(), rest)?,
        None => push_whole(alloc, file, number, mark.as_bytes(), signs)?,
    }
    Ok(())
}

// The file of transactions in words behind so many, and how many there are then; no byte where there is none.
fn push_file(alloc: Global, file: &mut Buffer, before: u64, words: &str) -> Result<u64, Fail> {
    let mut number = before;
    for word in words.split_whitespace() {
        if number == before {
            file.push(&HEAD)?;
        }
        number = number.saturating_add(1);
        push_word(alloc, file, number, word)?;
    }
    Ok(number)
}

/// The printed file of transactions in words, numbered from 1; no byte where there is none.
pub fn printed(alloc: Global, words: &str) -> Result<Buffer, Fail> {
    let mut file = Buffer::new(alloc);
    push_file(alloc, &mut file, 0, words)?;
    Ok(file)
}

/// The two files of an out.
#[derive(Drop)]
pub struct Files {
    pub first: Buffer,
    pub second: Buffer,
}

/// The two files of transactions in words, the second without a byte where there is none: behind a `>` the first one is closed, at
/// 359 bytes.
pub fn two_files(alloc: Global, words: &str) -> Result<Files, Fail> {
    let mut first = Buffer::new(alloc);
    let mut second = Buffer::new(alloc);
    match words.split_once(">") {
        Some((words, rest)) => push_files(alloc, &mut first, &mut second, words, rest)?,
        None => {
            push_file(alloc, &mut first, 0, words)?;
        }
    }
    Ok(Files { first, second })
}

// A file that is closed, and the one behind it.
fn push_files(
    alloc: Global,
    first: &mut Buffer,
    second: &mut Buffer,
    words: &str,
    rest: &str,
) -> Result<(), Fail> {
    let number = push_file(alloc, first, 0, words)?;
    first.push(ROTATE)?;
    push_file(alloc, second, number, rest)?;
    Ok(())
}

/// The line of an answer, none where there is no text.
pub fn line_of(alloc: Global, text: &str) -> Result<String, AllocError> {
    if text.is_empty() {
        return Ok(String::new(alloc));
    }
    format!(in alloc; "cdc: {text}\n")
}
