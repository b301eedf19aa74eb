//! Where outputs stand.

ghost use Rattle.std.specs.Prelude.{IsTrue};
ghost use Rattle.cdc_model.specs.Layout.{IsRotation, HasRoom};

use cdc_model::Layout;

/// No file yet.
pub const NO_FILE: Layout = Layout {
    file: 0,
    length: 0,
    closed: false,
};

/// Whether a transaction may go behind a layout, with this rotation size.
pub fn has_room(layout: &Layout, rotation: u64) -> bool
    ensures layout { IsTrue result → HasRoom layout.now }
    ensures rotation { IsTrue result → IsRotation rotation }
{
    layout.file < 1 << 63
        && (layout.closed || layout.length < 1 << 30)
        && rotation >= 256
        && rotation <= 1 << 30
}
