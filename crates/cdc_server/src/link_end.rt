//! How a link ended.

ghost use Rattle.std.specs.Prelude.{◌≡◌};
ghost use Rattle.cdc_server.specs.Numbers.{link_number, login_number, session_number};

use cdc_auth::LoginEnd;
use cdc_session::SessionEnd;

/// How a link ended: its session, or a login that let nobody in.
#[derive(Clone, Copy, Debug, PartialEq, Eq)]
pub enum LinkEnd {
    OfSession(SessionEnd),
    OfLogin(LoginEnd),
}

/// The number of a session's end.
fn number_of_session(end: SessionEnd) -> u8
    ensures { result ≡ session_number end }
{
    match end {
        SessionEnd::Quit => 1,
        SessionEnd::Closed => 2,
        SessionEnd::BadPacket => 3,
        SessionEnd::LinkFault => 4,
        SessionEnd::DiskFault => 5,
        SessionEnd::Kept(_) => 6,
        SessionEnd::Torn => 7,
        SessionEnd::Memory => 8,
    }
}

/// The number of a login's end.
fn number_of_login(end: LoginEnd) -> u8
    ensures { result ≡ login_number end }
{
    match end {
        LoginEnd::In => 0,
        LoginEnd::Closed => 2,
        LoginEnd::BadPacket => 3,
        LoginEnd::LinkFault => 4,
        LoginEnd::Memory => 8,
        LoginEnd::Denied => 9,
        LoginEnd::SaltFault => 10,
    }
}

/// The number that a link is handed back with.
pub fn number_of(end: LinkEnd) -> u8
    ensures { result ≡ link_number end }
{
    match end {
        LinkEnd::OfSession(end) => number_of_session(end),
        LinkEnd::OfLogin(end) => number_of_login(end),
    }
}
