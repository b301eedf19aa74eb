//! XA statements in their canonical form.

ghost use Rattle.std.specs.Prelude.{◌≡◌, ◌+◌, ◌*◌, ◌≤◌, ◌++◌, length, take, decimal, OnOk, OnErr};
ghost use Rattle.hex.specs.Hex.{encode_lower};
ghost use Rattle.cdc_query.specs.Text.{IsXa, ReadsBack, canonical_text, xid_text};

use crate::verb::Verb;
use cdc_base::{Buffer, Gtrid, Memory, Xid};

// The bytes of the longest text: `XA ROLLBACK X'..',X'..',4294967295` with two ids of 64 bytes.
const LONGEST: usize = 286;

// Writes a piece behind the first `at` bytes, and answers where it ends.
fn put(text: &mut [u8], at: usize, piece: &[u8]) -> usize
    requires { at + length piece.now ≤ length text.old }
    ensures end { result ≡ at + length piece.now }
    ensures written { take result text.new ≡ take at text.old ++ piece.now }
{
    let end = at + piece.len();
    text[at..end].copy_from_slice(piece);
    end
}

// The same for the digits of an id.
fn put_id(text: &mut [u8], at: usize, id: &Gtrid) -> usize
    requires { at + 128 ≤ length text.old }
    ensures end { result ≤ at + 128 }
    ensures written { take result text.new ≡ take at text.old ++ encode_lower id.now }
{
    let bytes = id.bytes();
    let mut digits = [0; 128];
    let digits = &mut digits[..2 * bytes.len()];
    let encoded = hex::encode_to_slice(bytes, digits).is_ok();
    prove!(encoded);
    put(text, at, digits)
}

// The same for a number.
fn put_number(text: &mut [u8], at: usize, number: u32) -> usize
    requires { at + 10 ≤ length text.old }
    ensures end { result ≤ at + 10 }
    ensures written { take result text.new ≡ take at text.old ++ decimal number }
{
    put(text, at, itoa::Buffer::new().format(number).as_bytes())
}

// Writes the words and the name of a branch, and answers where they end.
fn put_statement(text: &mut [u8], words: &[u8], xid: &Xid) -> usize
    requires room { length text.old ≡ LONGEST }
    requires short { length words.now ≤ 12 }
    ensures within { result ≤ LONGEST }
    ensures written { take result text.new ≡ words.now ++ xid_text xid.now }
{
    let at = put(text, 0, words);
    let at = put(text, at, b"X'");
    let at = put_id(text, at, &xid.gtrid);
    let at = put(text, at, b"',X'");
    let at = put_id(text, at, &xid.bqual);
    let at = put(text, at, b"',");
    put_number(text, at, xid.format)
}

/// Appends the canonical text of an XA statement: upper-case words with single spaces between them, then
/// the branch as `X'gtrid',X'bqual',format`, with lower-case hexadecimal digits and a decimal number
/// that has no leading zeros. On `Memory` the buffer is unchanged.
pub fn write_xa(verb: &Verb, into: &mut Buffer) -> Result<(), Memory>
    requires { IsXa verb.now }
    ensures ok { OnOk result (into.new ≡ into.old ++ canonical_text verb.now) }
    ensures err { OnErr result (into.new ≡ into.old) }
{
    let mut text = [0; LONGEST];
    let end = match verb {
        Verb::XaStart(xid) => put_statement(&mut text, b"XA START ", xid),
        Verb::XaEnd(xid) => put_statement(&mut text, b"XA END ", xid),
        Verb::XaCommit(xid) => put_statement(&mut text, b"XA COMMIT ", xid),
        Verb::XaRollback(xid) => put_statement(&mut text, b"XA ROLLBACK ", xid),
        _ => unreachable!(),
    };
    into.push(&text[..end])
}

/// The canonical text of each XA statement is read as that statement.
pub fn canonical_text_is_read()
    ensures { ReadsBack }
{}
