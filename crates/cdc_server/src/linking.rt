//! One link: its login, and its session.

ghost use Rattle.std.specs.Prelude.{◌≡◌, ℕ, ◌≤◌, List, IsTrue};
ghost use Rattle.cdc_cell.specs.Reading.{IsLeftAlone};
ghost use Rattle.cdc_outside.specs.Count.{Rose};
ghost use Rattle.cdc_session.specs.Shelf.{Shelf, IsShelf, IsRefusedShelf, HasTornFile};
ghost use Rattle.cdc_server.specs.Links.{DrawList, Drew, FollowsLink, FollowsOpen, FollowsUser};

use crate::link_end::LinkEnd;
use cdc_auth::{LoginEnd, login};
use cdc_base::UserList;
use cdc_dumper::OpenFault;
use cdc_outside::{Disk, Link, Salt};
use cdc_session::{SessionEnd, session};
use std::alloc::Global;

/// The session of a link.
fn serve_open<D: Disk, L: Link>(alloc: Global, shelf: &mut D, link: &mut L) -> LinkEnd
    ensures told { IsTrue D.tells → IsTrue L.tells → (found : Shelf) → IsShelf (D.seen shelf.old) found
        → FollowsOpen found (L.left link.old) (L.written link.old) (L.written link.new) result }
    ensures login_failed { result ≡ LinkEnd.OfLogin LoginEnd.LinkFault → ⊥ }
    ensures salt { result ≡ LinkEnd.OfLogin LoginEnd.SaltFault → ⊥ }
    ensures disk_failed { result ≡ LinkEnd.OfSession SessionEnd.DiskFault → Rose (D.faults shelf.old) (D.faults shelf.new) }
    ensures disk_later { D.faults shelf.old ≤ D.faults shelf.new }
    ensures kept { IsTrue D.tells → (fault : OpenFault) → result ≡ LinkEnd.OfSession (SessionEnd.Kept fault) → IsRefusedShelf (D.seen shelf.old) fault }
    ensures torn { IsTrue D.tells → result ≡ LinkEnd.OfSession SessionEnd.Torn → HasTornFile (D.seen shelf.old) }
    ensures session_failed { result ≡ LinkEnd.OfSession SessionEnd.LinkFault → Rose (L.faults link.old) (L.faults link.new) }
    ensures link_later { L.faults link.old ≤ L.faults link.new }
    ensures alone { IsTrue D.tells → IsLeftAlone D.seen D.synced D.pending D.may_leave D.moment D.left_since shelf.old shelf.new }
    ensures input { L.input link.new ≡ L.input link.old }
{
    LinkEnd::OfSession(session(alloc, shelf, link))
}

/// The login of a link, and its session where the client is let in.
fn serve_user<D: Disk, L: Link, Z: Salt>(
    alloc: Global,
    users: &UserList,
    number: u32,
    shelf: &mut D,
    salt: &mut Z,
    link: &mut L,
) -> LinkEnd
    ensures told { (draws : DrawList) × (IsTrue Z.tells → Drew Z.drawn salt.old draws salt.new)
        × (IsTrue D.tells → IsTrue L.tells → (found : Shelf) → IsShelf (D.seen shelf.old) found
        → FollowsUser users.now number found draws (L.left link.old) (L.written link.old) (L.written link.new) result) }
    ensures login_failed { result ≡ LinkEnd.OfLogin LoginEnd.LinkFault → Rose (L.faults link.old) (L.faults link.new) }
    ensures salt_failed { result ≡ LinkEnd.OfLogin LoginEnd.SaltFault → Rose (Z.faults salt.old) (Z.faults salt.new) }
    ensures salt_later { Z.faults salt.old ≤ Z.faults salt.new }
    ensures disk_failed { result ≡ LinkEnd.OfSession SessionEnd.DiskFault → Rose (D.faults shelf.old) (D.faults shelf.new) }
    ensures disk_later { D.faults shelf.old ≤ D.faults shelf.new }
    ensures kept { IsTrue D.tells → (fault : OpenFault) → result ≡ LinkEnd.OfSession (SessionEnd.Kept fault) → IsRefusedShelf (D.seen shelf.old) fault }
    ensures torn { IsTrue D.tells → result ≡ LinkEnd.OfSession SessionEnd.Torn → HasTornFile (D.seen shelf.old) }
    ensures session_failed { result ≡ LinkEnd.OfSession SessionEnd.LinkFault → Rose (L.faults link.old) (L.faults link.new) }
    ensures link_later { L.faults link.old ≤ L.faults link.new }
    ensures alone { IsTrue D.tells → IsLeftAlone D.seen D.synced D.pending D.may_leave D.moment D.left_since shelf.old shelf.new }
    ensures input { L.input link.new ≡ L.input link.old }
{
    match login(alloc, users, number, salt, link) {
        LoginEnd::In => serve_open(alloc, shelf, link),
        LoginEnd::Denied => LinkEnd::OfLogin(LoginEnd::Denied),
        LoginEnd::BadPacket => LinkEnd::OfLogin(LoginEnd::BadPacket),
        LoginEnd::Closed => LinkEnd::OfLogin(LoginEnd::Closed),
        LoginEnd::LinkFault => LinkEnd::OfLogin(LoginEnd::LinkFault),
        LoginEnd::SaltFault => LinkEnd::OfLogin(LoginEnd::SaltFault),
        LoginEnd::Memory => LinkEnd::OfLogin(LoginEnd::Memory),
    }
}

/// Serves a link: a login where there are users, and a session.
pub(crate) fn serve_link<D: Disk, L: Link, Z: Salt>(
    alloc: Global,
    users: &UserList,
    number: u32,
    shelf: &mut D,
    salt: &mut Z,
    link: &mut L,
) -> LinkEnd
    ensures told { (draws : DrawList) × (IsTrue Z.tells → Drew Z.drawn salt.old draws salt.new)
        × (IsTrue D.tells → IsTrue L.tells → (found : Shelf) → IsShelf (D.seen shelf.old) found
        → FollowsLink users.now number found draws (L.left link.old) (L.written link.old) (L.written link.new) result) }
    ensures login_failed { result ≡ LinkEnd.OfLogin LoginEnd.LinkFault → Rose (L.faults link.old) (L.faults link.new) }
    ensures salt_failed { result ≡ LinkEnd.OfLogin LoginEnd.SaltFault → Rose (Z.faults salt.old) (Z.faults salt.new) }
    ensures salt_later { Z.faults salt.old ≤ Z.faults salt.new }
    ensures disk_failed { result ≡ LinkEnd.OfSession SessionEnd.DiskFault → Rose (D.faults shelf.old) (D.faults shelf.new) }
    ensures disk_later { D.faults shelf.old ≤ D.faults shelf.new }
    ensures kept { IsTrue D.tells → (fault : OpenFault) → result ≡ LinkEnd.OfSession (SessionEnd.Kept fault) → IsRefusedShelf (D.seen shelf.old) fault }
    ensures torn { IsTrue D.tells → result ≡ LinkEnd.OfSession SessionEnd.Torn → HasTornFile (D.seen shelf.old) }
    ensures session_failed { result ≡ LinkEnd.OfSession SessionEnd.LinkFault → Rose (L.faults link.old) (L.faults link.new) }
    ensures link_later { L.faults link.old ≤ L.faults link.new }
    ensures alone { IsTrue D.tells → IsLeftAlone D.seen D.synced D.pending D.may_leave D.moment D.left_since shelf.old shelf.new }
    ensures input { L.input link.new ≡ L.input link.old }
{
    if users.is_empty() {
        return serve_open(alloc, shelf, link);
    }
    serve_user(alloc, users, number, shelf, salt, link)
}
