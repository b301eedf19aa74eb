//! What goes through lanes.

ghost use Rattle.std.specs.Prelude.{Bool};

/// An item of a lane. One kind of item is the End that closes a window.
pub trait LaneItem: Drop {
    /// Whether it is the End of a window.
    ghost is_end: { Self → Bool };
}
