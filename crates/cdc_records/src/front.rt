//! How far an output is published.

ghost use Rattle.std.specs.Prelude.{◌≡◌};
ghost use Rattle.cdc_records.specs.Front.{front_layout, no_front};

use cdc_base::Key;
use cdc_model::Layout;

/// The publication frontier of an output: how many transactions are published, where the last published file ends,
/// and which files are still kept.
#[derive(Clone, Copy, Debug, PartialEq, Eq)]
pub struct Front {
    /// Transactions that are published.
    pub count: u64,
    /// The last file, from 1; 0 where nothing is published.
    pub file: u64,
    /// Published bytes of the last file.
    pub length: u64,
    /// The last file is closed, so the next transaction begins another.
    pub closed: bool,
    /// The first file that is kept.
    pub first: u64,
    /// Transactions in files before that one.
    pub passed: u64,
    /// The last transaction's key. None where nothing is published, or the record is of the first version.
    pub last: Option<Key>,
}

impl Front {
    /// The front of an output that has nothing.
    pub fn none() -> Front
        ensures { result ≡ no_front }
    {
        Front {
            count: 0,
            file: 0,
            length: 0,
            closed: false,
            first: 1,
            passed: 0,
            last: None,
        }
    }

    /// Where the output stands.
    pub fn layout(&self) -> Layout
        ensures { result ≡ front_layout self.now }
    {
        Layout {
            file: self.file,
            length: self.length,
            closed: self.closed,
        }
    }
}
