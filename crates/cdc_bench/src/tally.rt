//! What was done.

/// How many events were read, or units made or published, and how many bytes they had.
#[derive(Clone, Copy, Debug)]
pub struct Tally {
    pub count: u64,
    pub bytes: u64,
}
