//! What a door's serving comes to.

ghost use Rattle.std.specs.Prelude.{◌≡◌, ◌≤◌, ◌<◌, ◌⊎◌, nat_le};
ghost use Rattle.cdc_server.specs.Ends.{cause_rank, link_cause, login_cause, session_cause};

use crate::link_end::LinkEnd;
use cdc_auth::LoginEnd;
use cdc_dumper::OpenFault;
use cdc_session::SessionEnd;

/// What a door's serving comes to: the first cause, in this order, that came; or none, and the door is shut.
#[derive(Clone, Copy, Debug, PartialEq, Eq)]
pub enum DoorEnd {
    /// The disk failed. Its count of faults says so too.
    Disk,
    /// The output is refused.
    Kept(OpenFault),
    /// What is published of a file isn't the magic and whole events to its end.
    Torn,
    /// There was no memory.
    Memory,
    /// The door failed. Its count of faults says so too.
    Door,
    /// The salt failed. Its count of faults says so too.
    Salt,
    Done,
}

/// By how a session ended.
fn cause_of_session(end: SessionEnd) -> DoorEnd
    ensures { result ≡ session_cause end }
{
    match end {
        SessionEnd::Quit | SessionEnd::Closed => DoorEnd::Done,
        SessionEnd::BadPacket | SessionEnd::LinkFault => DoorEnd::Done,
        SessionEnd::DiskFault => DoorEnd::Disk,
        SessionEnd::Kept(fault) => DoorEnd::Kept(fault),
        SessionEnd::Torn => DoorEnd::Torn,
        SessionEnd::Memory => DoorEnd::Memory,
    }
}

/// By how a login ended.
fn cause_of_login(end: LoginEnd) -> DoorEnd
    ensures { result ≡ login_cause end }
{
    match end {
        LoginEnd::In | LoginEnd::Denied => DoorEnd::Done,
        LoginEnd::BadPacket | LoginEnd::Closed | LoginEnd::LinkFault => DoorEnd::Done,
        LoginEnd::SaltFault => DoorEnd::Salt,
        LoginEnd::Memory => DoorEnd::Memory,
    }
}

/// What a link brings, by how it ended.
pub(crate) fn cause_of(end: LinkEnd) -> DoorEnd
    ensures { result ≡ link_cause end }
{
    match end {
        LinkEnd::OfSession(end) => cause_of_session(end),
        LinkEnd::OfLogin(end) => cause_of_login(end),
    }
}

/// The place of a cause in their order.
fn rank_of(end: DoorEnd) -> u8
    ensures { result ≡ cause_rank end }
{
    match end {
        DoorEnd::Disk => 0,
        DoorEnd::Kept(_) => 1,
        DoorEnd::Torn => 2,
        DoorEnd::Memory => 3,
        DoorEnd::Door => 4,
        DoorEnd::Salt => 5,
        DoorEnd::Done => 6,
    }
}

/// Whether a cause stands before another one, or beside it.
pub(crate) fn comes_first(before: DoorEnd, now: DoorEnd) -> bool
    ensures { result ≡ nat_le (cause_rank before) (cause_rank now) }
{
    rank_of(before) <= rank_of(now)
}

/// The first of two causes.
pub(crate) fn first_of(before: DoorEnd, now: DoorEnd) -> DoorEnd
    ensures { ((result ≡ before) × (cause_rank before ≤ cause_rank now)) ⊎ ((result ≡ now) × (cause_rank now < cause_rank before)) }
{
    if comes_first(before, now) {
        before
    } else {
        now
    }
}
