//! Commit timestamps.

ghost use Rattle.std.specs.Prelude.{◌^◌, ◌<◌};

/// A commit timestamp.
#[derive(Clone, Copy, Debug)]
pub(crate) struct Time {
    pub(crate) value: u64,
    pub(crate) ghost below: { value < 2 ^ 63 },
}
