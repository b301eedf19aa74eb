//! All doors, beside each other.

ghost use Rattle.std.specs.Prelude.{◌≡◌, ℕ, ◌+◌, ◌^◌, ◌<◌, ◌≤◌, IsTrue, length, map};
ghost use Rattle.std.specs.List.{AllByRecursion};
ghost use Rattle.std.specs.Thread.{IsSync};
ghost use Rattle.cdc_outside.specs.Disk.{Image};
ghost use Rattle.cdc_session.specs.Shelf.{IsRefusedShelf, HasTornFile};
ghost use Rattle.cdc_server.specs.Doors.{IsDoorServed};
ghost use Rattle.cdc_server.specs.Server.{IsFirstOfTwo, IsSoAt, RoseAt, ServesDoors, serve_end};

use crate::door_end::{DoorEnd, comes_first};
use crate::doors::serve_door;
use crate::serve_end::{FirstEnd, ServeEnd, serve_end_of};
use cdc_base::UserList;
use cdc_dumper::OpenFault;
use cdc_outside::{Disk, Door, Salt};
use std::alloc::Global;
use std::sync::Wait;
use std::thread::{Threads, join_mut};

/// The first of two ends, of which the one before is that of the lesser door.
fn first_end(before: FirstEnd, behind: FirstEnd) -> FirstEnd
    ensures { IsFirstOfTwo before behind result }
{
    if comes_first(before.ending, behind.ending) {
        before
    } else {
        behind
    }
}

/// Serves one door by this thread, and those behind it by another one.
#[cycle(doors)]
fn serve_beside<R: Threads + Wait + Sync, D: Disk + Send, G: Door + Send, Z: Salt + Send>(
    rt: &R,
    alloc: Global,
    users: &UserList,
    number: u32,
    shelf: &mut D,
    door: &mut G,
    salt: &mut Z,
    next: u32,
    more_shelves: &mut [D],
    more_doors: &mut [G],
    more_salts: &mut [Z],
) -> (FirstEnd, DoorEnd)
    requires some { 0 < length more_doors.old }
    requires shelves { length more_shelves.old ≡ length more_doors.old }
    requires salts { length more_salts.old ≡ length more_doors.old }
    requires few { next + length more_doors.old < 2 ^ 32 }
    ensures own { IsDoorServed D.tells D.seen D.synced D.pending D.may_leave D.moment D.left_since D.faults G.tells G.shut G.handed G.served G.faults Z.tells Z.drawn Z.faults users.now
        number shelf.old shelf.new door.old door.new salt.old salt.new result.1 }
    ensures more { ServesDoors (IsDoorServed D.tells D.seen D.synced D.pending D.may_leave D.moment D.left_since D.faults G.tells G.shut G.handed G.served G.faults Z.tells Z.drawn Z.faults users.now)
        next more_shelves.old more_shelves.new more_doors.old more_doors.new more_salts.old more_salts.new result.0 }
{
    let own_alloc = alloc;
    join_mut(
        rt,
        &mut ||
            requires sync { IsSync R.row }
            requires some { 0 < length more_doors.now }
            requires shelves { length more_shelves.now ≡ length more_doors.now }
            requires salts { length more_salts.now ≡ length more_doors.now }
            requires few { next + length more_doors.now < 2 ^ 32 }
            ensures served { ServesDoors (IsDoorServed D.tells D.seen D.synced D.pending D.may_leave D.moment D.left_since D.faults G.tells G.shut G.handed G.served G.faults Z.tells Z.drawn Z.faults users.entry.now)
                next more_shelves.entry.now more_shelves.exit.now more_doors.entry.now more_doors.exit.now more_salts.entry.now more_salts.exit.now result }
        { serve_from(rt, alloc, users, next, more_shelves, more_doors, more_salts) },
        &mut || serve_door(rt, own_alloc, users, number, shelf, door, salt),
    )
}

/// Serves doors from a number on, each by a thread of its own.
#[cycle(doors)]
fn serve_from<R: Threads + Wait + Sync, D: Disk + Send, G: Door + Send, Z: Salt + Send>(
    rt: &R,
    alloc: Global,
    users: &UserList,
    number: u32,
    shelves: &mut [D],
    doors: &mut [G],
    salts: &mut [Z],
) -> FirstEnd
    requires some { 0 < length doors.old }
    requires shelves { length shelves.old ≡ length doors.old }
    requires salts { length salts.old ≡ length doors.old }
    requires few { number + length doors.old < 2 ^ 32 }
    ensures served { ServesDoors (IsDoorServed D.tells D.seen D.synced D.pending D.may_leave D.moment D.left_since D.faults G.tells G.shut G.handed G.served G.faults Z.tells Z.drawn Z.faults users.now)
        number shelves.old shelves.new doors.old doors.new salts.old salts.new result }
{
    if doors.len() < 2 {
        let ending = serve_door(
            rt,
            alloc,
            users,
            number,
            &mut shelves[0],
            &mut doors[0],
            &mut salts[0],
        );
        return FirstEnd {
            door: number,
            ending,
        };
    }
    let (shelf, more_shelves) = shelves.split_at_mut(1);
    let (door, more_doors) = doors.split_at_mut(1);
    let (salt, more_salts) = salts.split_at_mut(1);
    let (behind, ending) = serve_beside(
        rt,
        alloc,
        users,
        number,
        &mut shelf[0],
        &mut door[0],
        &mut salt[0],
        number + 1,
        more_shelves,
        more_doors,
        more_salts,
    );
    first_end(
        FirstEnd {
            door: number,
            ending,
        },
        behind,
    )
}

/// Serves all doors beside each other, each from the shelf and under the salt that stand at its place, until each is
/// shut or has failed: each by a thread of its own, or by the caller, one door after another, where none can be made.
/// Where there are no users there is no login, and no salt is drawn. Doors are numbered from 1. It takes no memory but
/// what logins and sessions take.
pub fn serve_all<R: Threads + Wait + Sync, D: Disk + Send, G: Door + Send, Z: Salt + Send>(
    rt: &R,
    alloc: Global,
    users: &UserList,
    shelves: &mut [D],
    doors: &mut [G],
    salts: &mut [Z],
) -> ServeEnd
    requires shelves { length shelves.old ≡ length doors.old }
    requires salts { length salts.old ≡ length doors.old }
    requires few { 1 + length doors.old < 2 ^ 32 }
    ensures served { 0 < length doors.old → (first : FirstEnd) × (result ≡ serve_end first.door first.ending)
        × ServesDoors (IsDoorServed D.tells D.seen D.synced D.pending D.may_leave D.moment D.left_since D.faults G.tells G.shut G.handed G.served G.faults Z.tells Z.drawn Z.faults users.now)
        1 shelves.old shelves.new doors.old doors.new salts.old salts.new first }
    ensures none { length doors.old ≡ 0 → result ≡ ServeEnd.Done }

    // It is done where each door is shut, and no cause comes by itself.
    ensures done { result ≡ ServeEnd.Done → AllByRecursion (λ (door : G). IsTrue (G.shut door)) doors.new }
    ensures disk_failed { (out : ℕ) → result ≡ ServeEnd.Disk out → RoseAt (map D.faults shelves.old) (map D.faults shelves.new) out }
    ensures kept { (out : ℕ) (fault : OpenFault) → result ≡ ServeEnd.Kept out fault
        → IsSoAt (λ (image : Image). IsTrue D.tells → IsRefusedShelf image fault) (map D.seen shelves.old) out }
    ensures torn { (out : ℕ) → result ≡ ServeEnd.Torn out → IsSoAt (λ (image : Image). IsTrue D.tells → HasTornFile image) (map D.seen shelves.old) out }
    ensures door_failed { (door : ℕ) → result ≡ ServeEnd.Door door → RoseAt (map G.faults doors.old) (map G.faults doors.new) door }
    ensures salt_failed { (door : ℕ) → result ≡ ServeEnd.Salt door → RoseAt (map Z.faults salts.old) (map Z.faults salts.new) door }
{
    if doors.is_empty() {
        return ServeEnd::Done;
    }
    serve_end_of(serve_from(rt, alloc, users, 1, shelves, doors, salts))
}
