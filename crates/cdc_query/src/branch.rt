//! The name of a branch: two ids in hexadecimal digits, and a number.

ghost use Rattle.std.specs.Prelude.{◌≡◌, IsTrue};
ghost use Rattle.std.specs.Char.{is_ascii_digit};
ghost use Rattle.std.specs.List.{list_all};
ghost use Rattle.std.specs.Str.Parse.{digits_value};
ghost use Rattle.cdc_query.specs.Words.{xid_format_of, quoted_id_of, is_number, decimal_of, xid_of};

use crate::words::{cut_quoted, cut_word};
use cdc_base::{GTRID_MAX, Gtrid, Xid, gtrid_of};

// The id of these hexadecimal digits; none where they are no pairs of digits, or more than 128.
fn id_from(digits: &[u8]) -> Option<Gtrid>
    ensures { result ≡ quoted_id_of digits.now }
{
    if digits.len() > 2 * GTRID_MAX {
        return None;
    }
    let mut bytes = [0; GTRID_MAX];
    let id = &mut bytes[..digits.len() / 2];
    hex::decode_to_slice(digits, id).ok()?;
    gtrid_of(id)
}

// Whether each byte is a decimal digit.
fn all_digits(digits: &[u8]) -> bool
    ensures { result ≡ list_all is_ascii_digit digits.now }
{
    digits.iter().all(|digit| digit.is_ascii_digit())
}

// Whether these are 1 to 10 decimal digits.
fn is_decimal(digits: &[u8]) -> bool
    ensures { result ≡ is_number digits.now }
{
    !digits.is_empty() && digits.len() <= 10 && all_digits(digits)
}

// The number that these digits spell.
fn value_of(digits: &[u8]) -> u64
    requires { IsTrue (is_number digits.now) }
    ensures { result ≡ digits_value 10 digits.now }
{
    let mut number = 0;
    for digit in digits {
        number = number * 10 + u64::from(*digit - b'0');
    }
    number
}

// The number below 2^32 that 1 to 10 decimal digits spell.
fn number_from(digits: &[u8]) -> Option<u32>
    ensures { result ≡ decimal_of digits.now }
{
    if is_decimal(digits) {
        u32::try_from(value_of(digits)).ok()
    } else {
        None
    }
}

// The format of a branch, which ends the text.
fn format_from(text: &[u8]) -> Option<u32>
    ensures { result ≡ xid_format_of text.now }
{
    let (digits, rest) = cut_word(text);
    if rest.is_empty() {
        number_from(digits)
    } else {
        None
    }
}

// The branch that the rest of an XA statement names.
pub fn xid_from(text: &[u8]) -> Option<Xid>
    ensures { result ≡ xid_of text.now }
{
    let (gtrid, rest) = cut_quoted(text)?;
    let (bqual, rest) = cut_quoted(rest)?;
    Some(Xid {
        gtrid: id_from(gtrid)?,
        bqual: id_from(bqual)?,
        format: format_from(rest)?,
    })
}
