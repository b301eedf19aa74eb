//! Ten units over three files, and what the files have by and by.
//!
//! With a rotation size of 256 the first unit of a file has 163 bytes, the next two have 40 each, and the fourth has 80
//! and closes the file. Each byte of a unit is the unit's number.

ghost use Rattle.std.specs.Prelude.{◌≡◌, ◌+◌, ◌≤◌, ◌^◌, IfOk, IfSome};
ghost use Rattle.cdc_records.specs.Front.{front_layout};

use crate::samples::unit_behind;
use cdc_base::Memory;
use cdc_dumper::Dumper;
use cdc_model::Unit;
use cdc_outside::{Disk, DiskFile, Failed};
use cdc_samples::blobs::filled;
use std::alloc::Global;

/// How many bytes a file has with so many units.
const ENDS: [u64; 5] = [0, 163, 203, 243, 323];

/// The unit behind what was appended; none behind the tenth.
pub fn next_of_ten(alloc: Global, dumper: &Dumper) -> Result<Option<Unit>, Memory>
    ensures number { IfOk result (λ made. IfSome made (λ unit. unit.number ≡ dumper.now.appended.count + 1)) }
    ensures most { IfOk result (λ made. IfSome made (λ unit. unit.number ≤ 2 ^ 62)) }
    ensures before { IfOk result (λ made. IfSome made (λ unit. unit.before ≡ front_layout dumper.now.appended)) }
{
    let ahead = dumper.appended();
    if ahead.count >= 10 {
        return Ok(None);
    }
    let number = ahead.count + 1;
    let bytes = filled(alloc, number as u8, size_of(number))?;
    Ok(unit_behind(number, &ahead.layout(), bytes, number % 4 == 0))
}

// How many bytes the unit of a number has.
fn size_of(number: u64) -> usize {
    match number % 4 {
        1 => 163,
        0 => 80,
        _ => 40,
    }
}

// How many bytes a file has when so many units stand in the files.
fn length_with(count: u64, file: u64) -> u64 {
    let before = file.saturating_sub(1).saturating_mul(4);
    let units = count.saturating_sub(before).min(4);
    ENDS[units as usize]
}

// The number of the unit to which a byte of a file belongs.
fn unit_at(file: u64, place: u64) -> u64 {
    let before = file.saturating_sub(1).saturating_mul(4);
    let own = match place {
        0..163 => 1,
        163..203 => 2,
        203..243 => 3,
        _ => 4,
    };
    before.saturating_add(own)
}

// Whether each of these bytes of a file is the number of its unit.
fn are_of_units(file: u64, bytes: &[u8]) -> bool {
    for place in 0..bytes.len() {
        if u64::from(bytes[place]) != unit_at(file, place as u64) {
            return false;
        }
    }
    true
}

// Whether a file has its bytes of so many units, and no more.
fn is_whole<D: Disk>(disk: &mut D, file: u64, count: u64) -> Result<bool, Failed> {
    let want = length_with(count, file);
    if disk.length(DiskFile::Log(file))? != want {
        return Ok(false);
    }
    let mut bytes = [0u8; 400];
    let read = disk.read_at(DiskFile::Log(file), 0, &mut bytes)?;
    Ok(read as u64 == want && are_of_units(file, &bytes[..read]))
}

/// Whether the three files have the first units, so many of them, and no more.
pub fn has_front<D: Disk>(disk: &mut D, count: u64) -> Result<bool, Failed> {
    for file in 1..4 {
        if !is_whole(disk, file, count)? {
            return Ok(false);
        }
    }
    Ok(true)
}
