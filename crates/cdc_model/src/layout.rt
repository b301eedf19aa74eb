//! Where the output stands.

ghost use Rattle.std.specs.Prelude.{◌≡◌};
ghost use Rattle.cdc_model.specs.Layout as layout;

/// The last output file's number (from 1), its length in bytes, and whether it is closed. Where there is no
/// file yet, file 0 of length 0, not closed.
#[derive(Clone, Copy, Debug, PartialEq, Eq)]
pub struct Layout {
    pub file: u64,
    pub length: u64,
    pub closed: bool,
}

impl Layout {
    /// Whether the next transaction begins a file: none is open.
    pub fn begins_file(&self) -> bool
        ensures { result ≡ layout.begins_file self.now }
    {
        self.closed || self.file == 0
    }
}
