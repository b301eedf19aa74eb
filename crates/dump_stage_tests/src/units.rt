//! Units made by hand, four to a file, and what the files have by and by.
//!
//! The first unit of a file has 163 bytes, the next two have 40 each, and the fourth has 80 and closes the file. Each byte of
//! a unit is the unit's number. The key of unit 3 is that of 30 and `g3`.

ghost use Rattle.std.specs.Prelude.{IfSome};
ghost use Rattle.cdc_model.specs.Kept.{IsKeptKey};

use cdc_base::{Blob, Key};
use cdc_model::{Layout, Unit};
use cdc_outside::{Disk, DiskFile, Failed};
use cdc_samples::blobs::filled;
use cdc_samples::transactions::shared;
use std::alloc::Global;
use std::test::Fail;

/// How many bytes a file has with so many units.
const ENDS: [u64; 5] = [0, 163, 203, 243, 323];

/// The key of a number and a letter.
pub fn key_of(number: u64, letter: u8) -> Option<Key>
    ensures { IfSome result IsKeptKey }
{
    let step = number.min(100);
    shared(10 * step, &[letter, b'0'.saturating_add(step as u8)])
}

/// The unit of a number and a key behind a layout: its bytes go into the open file, or into the next where none is open. None
/// where they can't.
pub fn unit_behind(
    number: u64,
    letter: u8,
    before: &Layout,
    bytes: Blob,
    closed: bool,
) -> Option<Unit> {
    let key = key_of(number, letter)?;
    let begins = before.begins_file();
    if begins && bytes.len() < 123 {
        return None;
    }
    let file = if begins {
        before.file.checked_add(1)?
    } else {
        before.file
    };
    let at = if begins { 0 } else { before.length };
    let length = at.checked_add(bytes.len() as u64)?;
    Some(Unit {
        number,
        key,
        before: *before,
        after: Layout {
            file,
            length,
            closed,
        },
        bytes,
    })
}

/// Where the output stands behind so many units.
pub fn layout_behind(count: u64) -> Layout {
    let own = if count == 0 { 0 } else { (count - 1) % 4 + 1 };
    Layout {
        file: count.saturating_add(3) / 4,
        length: ENDS[own as usize],
        closed: own == 4,
    }
}

// How many bytes the unit of a number has.
fn size_of(number: u64) -> usize {
    match number % 4 {
        1 => 163,
        0 => 80,
        _ => 40,
    }
}

/// The unit of a number up to 100, with the key of a letter, that is said to begin so many bytes further than it does.
pub fn unit_of(alloc: Global, number: u64, letter: u8, further: u64) -> Result<Unit, Fail> {
    if number > 100 {
        return Err("no such unit")?;
    }
    let mut before = layout_behind(number.saturating_sub(1));
    before.length = before.length.saturating_add(further);
    let bytes = filled(alloc, number as u8, size_of(number))?;
    let unit = unit_behind(number, letter, &before, bytes, number % 4 == 0).ok_or("no such unit")?;
    Ok(unit)
}

// How many bytes a file has when so many units stand in the files.
fn length_with(count: u64, file: u64) -> u64 {
    let before = file.saturating_sub(1).saturating_mul(4);
    let units = count.saturating_sub(before).min(4);
    ENDS[units as usize]
}

// The number of the unit to which a byte of a file belongs.
fn unit_at(file: u64, place: u64) -> u64 {
    let before = file.saturating_sub(1).saturating_mul(4);
    let own = match place {
        0..163 => 1,
        163..203 => 2,
        203..243 => 3,
        _ => 4,
    };
    before.saturating_add(own)
}

// Whether each of these bytes of a file is the number of its unit.
fn are_of_units(file: u64, bytes: &[u8]) -> bool {
    for place in 0..bytes.len() {
        if u64::from(bytes[place]) != unit_at(file, place as u64) {
            return false;
        }
    }
    true
}

// Whether a file has its bytes of so many units, and no more.
fn is_whole<D: Disk>(disk: &mut D, file: u64, count: u64) -> Result<bool, Failed> {
    let want = length_with(count, file);
    if disk.length(DiskFile::Log(file))? != want {
        return Ok(false);
    }
    let mut bytes = [0u8; 400];
    let read = disk.read_at(DiskFile::Log(file), 0, &mut bytes)?;
    Ok(read as u64 == want && are_of_units(file, &bytes[..read]))
}

/// Whether the three files have the first units, so many of them, and no more.
pub fn has_front<D: Disk>(disk: &mut D, count: u64) -> Result<bool, Failed> {
    for file in 1..4 {
        if !is_whole(disk, file, count)? {
            return Ok(false);
        }
    }
    Ok(true)
}
