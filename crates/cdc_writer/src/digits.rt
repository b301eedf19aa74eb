//! Numbers in decimal digits, as many as are asked for.

ghost use Rattle.std.specs.Prelude.{◌≡◌, ◌≤◌, ◌++◌, length, OnOk, OnErr};
ghost use Rattle.cdc_model.specs.Print.{digits};

use cdc_base::{Buffer, Memory};

/// The most digits that a number is written in.
const DIGITS_MAX: usize = 20;

// The lowest decimal digits of a number, as many as there is room for.
fn write_digits(out: &mut [u8], number: u64)
    ensures { out.new ≡ digits (length out.old) number }
{
    let mut rest = number;
    let mut places = out.len();
    while places > 0 {
        places -= 1;
        out[places] = b'0' + (rest % 10) as u8;
        rest /= 10;
    }
}

/// Appends the lowest digits of a number, so many of them. On `Memory` nothing changes.
pub(crate) fn push_digits(places: usize, number: u64, into: &mut Buffer) -> Result<(), Memory>
    requires { places ≤ DIGITS_MAX }
    ensures ok { OnOk result (into.new ≡ into.old ++ digits places number) }
    ensures err { OnErr result (into.new ≡ into.old) }
{
    let mut text = [0; DIGITS_MAX];
    let text = &mut text[..places];
    write_digits(text, number);
    into.push(text)
}
