//! Units made by hand, two to a file.
//!
//! The first of a file has 163 bytes, and the second has 40 and closes the file. Each byte of a unit is the unit's number. The
//! key of unit 3 is that of 30 and `g3`.

ghost use Rattle.std.specs.Prelude.{IfSome};
ghost use Rattle.cdc_model.specs.Kept.{IsKeptKey};

use cdc_base::{Blob, Key};
use cdc_model::{Layout, Unit};
use cdc_samples::blobs::filled;
use cdc_samples::transactions::shared;
use std::alloc::Global;
use std::test::Fail;

/// The key of a number and a letter.
fn key_of(number: u64, letter: u8) -> Option<Key>
    ensures { IfSome result IsKeptKey }
{
    let step = number.min(100);
    shared(10 * step, &[letter, b'0'.saturating_add(step as u8)])
}

/// Where the output stands behind so many units.
fn layout_behind(count: u64) -> Layout {
    Layout {
        file: count.div_ceil(2),
        length: match (count, count % 2) {
            (0, _) => 0,
            (_, 0) => 203,
            _ => 163,
        },
        closed: count > 0 && count % 2 == 0,
    }
}

/// The unit of a number and a key behind a layout: its bytes go into the open file, or into the next where none is open. None
/// where they can't.
fn unit_behind(
    number: u64,
    letter: u8,
    before: &Layout,
    bytes: Blob,
    closed: bool,
) -> Option<Unit> {
    let key = key_of(number, letter)?;
    let begins = before.begins_file();
    if begins && bytes.len() < 123 {
        return None;
    }
    let file = if begins {
        before.file.checked_add(1)?
    } else {
        before.file
    };
    let at = if begins { 0 } else { before.length };
    let length = at.checked_add(bytes.len() as u64)?;
    Some(Unit {
        number,
        key,
        before: *before,
        after: Layout {
            file,
            length,
            closed,
        },
        bytes,
    })
}

/// The unit of a number from 1 to 100, with the key of a letter.
pub fn unit_of(alloc: Global, number: u64, letter: u8) -> Result<Unit, Fail> {
    if number == 0 || number > 100 {
        return Err("no such unit")?;
    }
    let closes = number % 2 == 0;
    let before = layout_behind(number - 1);
    let bytes = filled(alloc, number as u8, if closes { 40 } else { 163 })?;
    let unit = unit_behind(number, letter, &before, bytes, closes).ok_or("no such unit")?;
    Ok(unit)
}

// Whether all of these bytes are one value.
fn are_all(bytes: &[u8], value: u64) -> bool {
    bytes.iter().all(|byte| u64::from(*byte) == value)
}

/// Whether a unit is the one of this number.
pub fn is_unit_of(unit: &Unit, number: u64) -> bool {
    let size = if number % 2 == 1 { 163 } else { 40 };
    unit.number == number
        && key_of(number, b'g') == Some(unit.key)
        && unit.before == layout_behind(number.saturating_sub(1))
        && unit.after == layout_behind(number)
        && unit.bytes.len() == size
        && are_all(unit.bytes.bytes(), number)
}
