//! One door: its links, one after another.

ghost use Rattle.std.specs.Prelude.{◌≡◌, IsTrue};
ghost use Rattle.cdc_outside.specs.Count.{Rose};
ghost use Rattle.cdc_session.specs.Shelf.{IsRefusedShelf, HasTornFile};
ghost use Rattle.cdc_server.specs.Doors.{IsDoorServed};

use crate::door_end::{DoorEnd, cause_of, first_of};
use crate::link_end::number_of;
use crate::linking::serve_link;
use cdc_base::UserList;
use cdc_dumper::OpenFault;
use cdc_outside::{Disk, Door, Salt};
use std::alloc::Global;
use std::sync::Wait;

/// Serves a door until it is shut or fails: each link by a login where there are users, and a session. Links are served
/// one after another, so a link that is silent holds up those behind it.
pub fn serve_door<R: Wait, D: Disk, G: Door, Z: Salt>(
    rt: &R,
    alloc: Global,
    users: &UserList,
    number: u32,
    shelf: &mut D,
    door: &mut G,
    salt: &mut Z,
) -> DoorEnd
    ensures served { IsDoorServed D.tells D.seen D.synced D.pending D.may_leave D.moment D.left_since D.faults G.tells G.shut G.handed G.served G.faults Z.tells Z.drawn Z.faults users.now number
        shelf.old shelf.new door.old door.new salt.old salt.new result }

    // It ends where the door is shut, or its count rose.
    ensures done { result ≡ DoorEnd.Done → IsTrue (G.shut door.new) }

    // No cause comes by itself.
    ensures disk_failed { result ≡ DoorEnd.Disk → Rose (D.faults shelf.old) (D.faults shelf.new) }
    ensures kept { IsTrue D.tells → (fault : OpenFault) → result ≡ DoorEnd.Kept fault → IsRefusedShelf (D.seen shelf.old) fault }
    ensures torn { IsTrue D.tells → result ≡ DoorEnd.Torn → HasTornFile (D.seen shelf.old) }
    ensures door_failed { result ≡ DoorEnd.Door → Rose (G.faults door.old) (G.faults door.new) }
    ensures salt_failed { result ≡ DoorEnd.Salt → Rose (Z.faults salt.old) (Z.faults salt.new) }
{
    let mut end = DoorEnd::Done;
    for _link in rt.forever() {
        match door.next() {
            Ok(Some(mut link)) => {
                let link_end = serve_link(alloc, users, number, shelf, salt, &mut link);
                door.back(link, number_of(link_end));
                end = first_of(end, cause_of(link_end));
            }
            Ok(None) => return end,
            Err(_) => return first_of(end, DoorEnd::Door),
        }
    }
    unreachable!()
}
