//! Where a print goes.

ghost use Rattle.std.specs.Prelude.{◌≡◌, ◌≤◌, ◌^◌};
ghost use Rattle.cdc_model.specs.Layout.{IsRotation, HasRoom};
ghost use Rattle.cdc_writer.specs.Spot.{spot_of};

use crate::head::HEAD_LENGTH;
use cdc_model::Layout;

/// Where a print goes: the file's number, the place where the print begins there, whether the file's head stands
/// before it, and whether the file is closed behind it.
#[derive(Clone, Copy, Debug, PartialEq, Eq)]
pub struct Spot {
    pub file: u64,
    pub at: u64,
    pub head: bool,
    pub closes: bool,
}

/// Where a print of `length` bytes goes, behind a layout. It begins a file where the last one is closed or there is
/// none, and stands behind the file's head there. The file is closed behind it where it then has the rotation size.
/// Takes no memory.
pub fn place(layout: &Layout, rotation: u64, length: u64) -> Spot
    requires rotation { IsRotation rotation }
    requires layout { HasRoom layout.now }
    requires length { length ≤ 2 ^ 28 }
    ensures { result ≡ spot_of layout.now rotation length }
{
    if layout.begins_file() {
        Spot {
            file: layout.file + 1,
            at: HEAD_LENGTH as u64,
            head: true,
            closes: HEAD_LENGTH as u64 + length >= rotation,
        }
    } else {
        Spot {
            file: layout.file,
            at: layout.length,
            head: false,
            closes: layout.length + length >= rotation,
        }
    }
}
