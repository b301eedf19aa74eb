//! Numbers on the command line.

ghost use Rattle.std.specs.Prelude.{◌≡◌};
ghost use Rattle.std.specs.Char.{is_ascii_digit};
ghost use Rattle.std.specs.List.{list_all};
ghost use Rattle.cdc_config.specs.Number.{is_numeral, number_from};

use cdc_base::Text;

/// The most digits of a number.
const DIGITS_MAX: usize = 20;

// Whether each byte is a decimal digit.
fn all_digits(word: &[u8]) -> bool
    ensures { result ≡ list_all is_ascii_digit word.now }
{
    word.iter().all(|digit| digit.is_ascii_digit())
}

// Whether a word is 1 to 20 decimal digits.
fn is_decimal(word: &[u8]) -> bool
    ensures { result ≡ is_numeral word.now }
{
    !word.is_empty() && word.len() <= DIGITS_MAX && all_digits(word)
}

/// The number that a word names: 1 to 20 decimal digits of a value below 2^64.
pub fn number_of(word: &Text) -> Option<u64>
    ensures { result ≡ number_from word.now }
{
    if is_decimal(word.bytes()) {
        word.as_str().parse::<u64>().ok()
    } else {
        None
    }
}
