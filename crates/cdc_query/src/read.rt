//! The verb of a statement text.

ghost use Rattle.std.specs.Prelude.{◌≡◌, ◌↔◌};
ghost use Rattle.cdc_query.specs.declared.verb.Verb.{Verb};
ghost use Rattle.cdc_query.specs.Grammar.{IsTextOf};
ghost use Rattle.cdc_query.specs.Words.{verb_alone, verb_of, verb_with, xa_named};

use crate::branch::xid_from;
use crate::verb::Verb;
use crate::words::{cut_word, is_word, skip_spaces};
use cdc_base::Xid;

// The XA verb with this second word.
fn xa_verb(word: &[u8], xid: Option<Xid>) -> Verb
    ensures { result ≡ xa_named word.now xid }
{
    let Some(xid) = xid else {
        return Verb::XaOther;
    };
    if is_word(word, b"START") {
        Verb::XaStart(xid)
    } else if is_word(word, b"END") {
        Verb::XaEnd(xid)
    } else if is_word(word, b"COMMIT") {
        Verb::XaCommit(xid)
    } else if is_word(word, b"ROLLBACK") {
        Verb::XaRollback(xid)
    } else {
        Verb::XaOther
    }
}

// The verb of a word that stands alone.
fn read_alone(word: &[u8]) -> Verb
    ensures { result ≡ verb_alone word.now }
{
    if is_word(word, b"BEGIN") {
        Verb::Begin
    } else if is_word(word, b"COMMIT") {
        Verb::Commit
    } else if is_word(word, b"ROLLBACK") {
        Verb::Rollback
    } else if is_word(word, b"XA") {
        Verb::XaOther
    } else {
        Verb::Other
    }
}

// The verb of a first word that more follows.
fn read_with(word: &[u8], rest: &[u8]) -> Verb
    ensures { result ≡ verb_with word.now rest.now }
{
    if is_word(word, b"SAVEPOINT") {
        Verb::Savepoint
    } else if is_word(word, b"XA") {
        let (second, name) = cut_word(rest);
        xa_verb(second, xid_from(name))
    } else {
        Verb::Other
    }
}

// The verb of a text, word by word.
fn read_words(text: &[u8]) -> Verb
    ensures { result ≡ verb_of text.now }
{
    let (word, rest) = cut_word(skip_spaces(text));
    if rest.is_empty() {
        read_alone(word)
    } else {
        read_with(word, rest)
    }
}

/// The verb of a statement text. Spaces (0x20) at both ends don't count, letters of the fixed words count
/// in either case, and one or more spaces stand between words:
///
/// - `BEGIN`, `COMMIT`, `ROLLBACK` alone, and `SAVEPOINT` with a name behind it.
/// - `XA START`, `XA END`, `XA COMMIT`, `XA ROLLBACK` and then the branch as `X'gtrid',X'bqual',format`:
///   each id as two hexadecimal digits a byte, the format as 1 to 10 decimal digits of a number below
///   2^32. Spaces may stand behind a comma and nowhere else in it.
/// - Another text whose first word is `XA` is `XaOther`, and all else is `Other`.
///
/// Each text has exactly one verb. Takes no memory.
pub fn read_text(text: &[u8]) -> Verb
    ensures verb { result ≡ verb_of text.now }
    ensures grammar { (verb : Verb) → (result ≡ verb) ↔ IsTextOf verb text.now }
{
    read_words(text)
}
