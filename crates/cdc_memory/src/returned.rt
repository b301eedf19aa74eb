//! A link that was handed back.

/// A link that has ended, and the number of its end.
#[derive(Debug, Drop)]
pub struct Returned<L> {
    pub link: L,
    pub ending: u8,
}
