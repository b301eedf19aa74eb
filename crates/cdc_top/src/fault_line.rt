//! The text of a node's fault, in a line.

ghost use Rattle.std.specs.Prelude.{◌≡◌, ◌+◌, ◌≤◌, ◌++◌, length, decimal};
ghost use Rattle.cdc_top.specs.FaultText.{shown_event_fault, shown_file_fault, shown_group_fault, shown_sort_fault, shown_fault, shown_xid};

use crate::line::{LINE_MAX, Line, put, put_number, put_xid};
use cdc_base::Xid;
use cdc_event::{EventFault, FileFault};
use cdc_model::{GroupFault, NodeFault, SortFault};

/// Puts a fault's name and its value.
fn put_valued(line: &mut Line, name: &[u8], value: u64)
    requires room { length line.old.items + 40 ≤ LINE_MAX }
    requires short { length name.now ≤ 20 }
    ensures items { line.new.items ≡ line.old.items ++ (name.now ++ decimal value) }
    ensures len { length line.new.items ≤ length line.old.items + 40 }
{
    put(line, name);
    put_number(line, value);
}

/// Puts a fault's name and its branch.
fn put_branch(line: &mut Line, name: &[u8], xid: &Xid)
    requires room { length line.old.items + 298 ≤ LINE_MAX }
    requires short { length name.now ≤ 20 }
    ensures items { line.new.items ≡ line.old.items ++ (name.now ++ shown_xid xid.now) }
    ensures len { length line.new.items ≤ length line.old.items + 298 }
{
    put(line, name);
    put_xid(line, xid);
}

/// Puts what is wrong with an event's bytes.
fn put_event_fault(line: &mut Line, fault: &EventFault)
    requires { length line.old.items + 40 ≤ LINE_MAX }
    ensures items { line.new.items ≡ line.old.items ++ shown_event_fault fault.now }
    ensures len { length line.new.items ≤ length line.old.items + 40 }
{
    match fault {
        EventFault::ShortLength(length) => put_valued(line, b"ShortLength ", u64::from(*length)),
        EventFault::TooLong(length) => put_valued(line, b"TooLong ", u64::from(*length)),
        EventFault::BadBody(kind) => put_valued(line, b"BadBody ", u64::from(*kind)),
        EventFault::Compressed => put(line, b"Compressed"),
        EventFault::BadFormat => put(line, b"BadFormat"),
        EventFault::Partial => put(line, b"Partial"),
    }
}

/// Puts what is wrong with a file's bytes.
fn put_file_fault(line: &mut Line, fault: &FileFault)
    requires { length line.old.items + 40 ≤ LINE_MAX }
    ensures items { line.new.items ≡ line.old.items ++ shown_file_fault fault.now }
    ensures len { length line.new.items ≤ length line.old.items + 40 }
{
    match fault {
        FileFault::BadMagic => put(line, b"BadMagic"),
        FileFault::Event(fault) => put_event_fault(line, fault),
    }
}

/// Puts why an event doesn't fit.
fn put_group_fault(line: &mut Line, fault: &GroupFault)
    requires { length line.old.items + 40 ≤ LINE_MAX }
    ensures items { line.new.items ≡ line.old.items ++ shown_group_fault fault.now }
    ensures len { length line.new.items ≤ length line.old.items + 40 }
{
    match fault {
        GroupFault::NoTimestamp => put(line, b"NoTimestamp"),
        GroupFault::BadTimestamp => put(line, b"BadTimestamp"),
        GroupFault::Statement => put(line, b"Statement"),
        GroupFault::XidDiffers => put(line, b"XidDiffers"),
        GroupFault::RowsOutside => put(line, b"RowsOutside"),
        GroupFault::OutOfPlace => put(line, b"OutOfPlace"),
        GroupFault::BadDdl => put(line, b"BadDdl"),
    }
}

/// Puts why an entry isn't sound.
fn put_sort_fault(line: &mut Line, fault: &SortFault)
    requires { length line.old.items + 300 ≤ LINE_MAX }
    ensures items { line.new.items ≡ line.old.items ++ shown_sort_fault fault.now }
    ensures len { length line.new.items ≤ length line.old.items + 300 }
{
    match fault {
        SortFault::DoublePrepare(xid) => put_branch(line, b"DoublePrepare ", xid),
        SortFault::UnknownBranch(xid) => put_branch(line, b"UnknownBranch ", xid),
        SortFault::Undercut { timestamp, floor } => {
            put_valued(line, b"Undercut ", *timestamp);
            put_valued(line, b" ", *floor);
        }
    }
}

/// Puts a node's fault.
pub fn put_fault(line: &mut Line, fault: &NodeFault)
    requires { length line.old.items + 300 ≤ LINE_MAX }
    ensures items { line.new.items ≡ line.old.items ++ shown_fault fault.now }
    ensures len { length line.new.items ≤ length line.old.items + 300 }
{
    match fault {
        NodeFault::File(fault) => put_file_fault(line, fault),
        NodeFault::Group(fault) => put_group_fault(line, fault),
        NodeFault::Sort(fault) => put_sort_fault(line, fault),
    }
}
