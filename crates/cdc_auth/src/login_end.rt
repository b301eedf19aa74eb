//! How a login ended.

/// How a login ended.
#[derive(Clone, Copy, Debug, PartialEq, Eq)]
pub enum LoginEnd {
    /// The client is let in; what it sends next are commands.
    In,
    /// There is no such user, or the answer isn't right.
    Denied,
    /// A packet ends too early, is too long, or asks for what this server doesn't offer.
    BadPacket,
    /// The client's bytes end before a packet that is due.
    Closed,
    /// The link failed. Its count of faults says so too.
    LinkFault,
    /// The salt failed, and nothing was said. Its count of faults says so too.
    SaltFault,
    /// There was no memory.
    Memory,
}
