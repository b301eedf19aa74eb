//! Units: what transactions append to the output files.

use crate::printed::made;
use crate::samples::{
    BARE, CREATE, NEW_MAP, OLD_MAP, begins_with_head, local, rules, stands_at, transaction_of,
};
use cdc_model::{Layout, Unit};
use cdc_rename::Names;
use cdc_samples::layouts::NO_FILE;
use cdc_writer::PrintError;
use std::alloc::Global;
use std::process::Abort;
use std::test::Fail;

/// The print of the second of three transactions without rows, at place 241, and the event that closes its file.
const SECOND: &[u8] = b"\x05\0\0\0\x02\x01\0\0\0\x26\0\0\0\x17\x01\0\0\0\0\
\0\0\0\0\0\0\0\0\0\0\0\0\0\0BEGIN\
\x05\0\0\0\x1d\x01\0\0\0\x35\0\0\0\x4c\x01\0\0\0\0\
\x21CTS::0000000000000000020::0::6732\
\x05\0\0\0\x10\x01\0\0\0\x1b\0\0\0\x67\x01\0\0\0\0\
\x02\0\0\0\0\0\0\0";

const ROTATE: &[u8] = b"\0\0\0\0\x04\x01\0\0\0\x28\0\0\0\x8f\x01\0\0\0\0\
\x04\0\0\0\0\0\0\0binlog.000002";

/// The print of the third, at place 123 of file 2.
const THIRD: &[u8] = b"\x05\0\0\0\x02\x01\0\0\0\x26\0\0\0\xa1\0\0\0\0\0\
\0\0\0\0\0\0\0\0\0\0\0\0\0\0BEGIN\
\x05\0\0\0\x1d\x01\0\0\0\x35\0\0\0\xd6\0\0\0\0\0\
\x21CTS::0000000000000000030::0::6733\
\x05\0\0\0\x10\x01\0\0\0\x1b\0\0\0\xf1\0\0\0\0\0\
\x03\0\0\0\0\0\0\0";

/// Where an output stands: its last file, that file's length, and whether it is closed.
type Stand = (u64, u64, bool);

// The layout of an output that stands so.
fn layout(stand: Stand) -> Layout {
    let (file, length, closed) = stand;
    Layout {
        file,
        length,
        closed,
    }
}

// Whether a unit has so many bytes and goes from one layout to another.
fn leads(unit: &Unit, length: usize, before: &Layout, after: &Layout) -> bool {
    unit.bytes.len() == length && unit.before == *before && unit.after == *after
}

/// A shared transaction without rows: its number, timestamp and id, the layout before it, whether its unit begins with
/// a head, its print, what stands behind that, and the layout behind it, with rotation 256.
struct Appended {
    number: u64,
    timestamp: u64,
    id: &'static [u8],
    before: Stand,
    head: bool,
    print: &'static [u8],
    behind: &'static [u8],
    length: usize,
    after: Stand,
}

/// Three transactions, one behind another.
const APPENDED: [Appended; 3] = [
    Appended {
        number: 1,
        timestamp: 10,
        id: b"g1",
        before: (0, 0, false),
        head: true,
        print: BARE,
        behind: b"",
        length: 241,
        after: (1, 241, false),
    },
    Appended {
        number: 2,
        timestamp: 20,
        id: b"g2",
        before: (1, 241, false),
        head: false,
        print: SECOND,
        behind: ROTATE,
        length: 158,
        after: (1, 399, true),
    },
    Appended {
        number: 3,
        timestamp: 30,
        id: b"g3",
        before: (1, 399, true),
        head: true,
        print: THIRD,
        behind: b"",
        length: 241,
        after: (2, 241, false),
    },
];

// Whether these bytes are the head, where it is asked for, a print and what stands behind it.
fn are(bytes: &[u8], want: &Appended) -> bool {
    let from = if want.head { 123 } else { 0 };
    let to = from + want.print.len().min(1000);
    (!want.head || begins_with_head(bytes))
        && stands_at(bytes, from, want.print)
        && stands_at(bytes, to, want.behind)
}

// Whether a transaction's unit is what is wanted.
fn is_appended(alloc: Global, want: &Appended) -> Result<bool, PrintError> {
    let before = layout(want.before);
    let txn = transaction_of(alloc, want.number, want.timestamp, want.id, &[], false)?;
    let unit = made(alloc, &txn, &Names::new(alloc), &before, 256)?;
    Ok(
        unit.number == want.number
            && are(unit.bytes.bytes(), want)
            && leads(&unit, want.length, &before, &layout(want.after)),
    )
}

#[test]
fn three_units_make_two_files(rt: HostRuntime) -> Result<(), Fail> {
    for want in &APPENDED {
        let good = is_appended(rt.alloc(), want)?;
        assert!(rt; good, "unit {}", want.number);
    }
    Ok(())
}

/// The number of a closed file of 399 bytes, and the name that the file behind it ends with where it closes too.
const NEXT: [(u64, &[u8]); 8] = [
    (0, b"binlog.000002"),
    (8, b"binlog.000010"),
    (99997, b"binlog.099999"),
    (999997, b"binlog.999999"),
    (999998, b"binlog.1000000"),
    (999999, b"binlog.1000001"),
    (1000000, b"binlog.1000002"),
    ((1 << 63) - 1, b"binlog.9223372036854775809"),
];

// Whether the unit behind a closed file closes the next one, and its ROTATE ends with this name.
fn names_next(alloc: Global, file: u64, name: &[u8]) -> Result<bool, PrintError> {
    let before = layout((file, 399, true));
    let unit = made(alloc, &local(alloc, 7), &Names::new(alloc), &before, 256)?;
    let end = 123 + 139 + 27 + name.len().min(100);
    let after = layout((file.saturating_add(1), end as u64, true));
    Ok(stands_at(unit.bytes.bytes(), 289, name) && leads(&unit, end, &before, &after))
}

#[test]
fn the_next_file_is_named_in_six_digits_or_more(rt: HostRuntime) -> Result<(), Fail> {
    for (file, name) in NEXT {
        let good = names_next(rt.alloc(), file, name)?;
        assert!(rt; good, "behind file {file}");
    }
    Ok(())
}

/// A layout, a rotation size, and the bytes and the layout behind it of the local transaction's unit.
const CLOSES: [(Stand, u64, usize, Stand); 5] = [
    ((0, 0, false), 261, 302, (1, 302, true)),
    ((0, 0, false), 262, 302, (1, 302, true)),
    ((0, 0, false), 263, 262, (1, 262, false)),
    ((1, 262, false), 401, 179, (1, 441, true)),
    ((1, 262, false), 402, 139, (1, 401, false)),
];

// Whether the local transaction's unit, behind a layout, has so many bytes and leads to another one.
fn stands(
    alloc: Global,
    before: &Layout,
    rotation: u64,
    length: usize,
    after: &Layout,
) -> Result<bool, PrintError> {
    let unit = made(
        alloc,
        &local(alloc, 7),
        &Names::new(alloc),
        before,
        rotation,
    )?;
    Ok(leads(&unit, length, before, after))
}

#[test]
fn a_file_closes_at_the_rotation_size(rt: HostRuntime) -> Result<(), Fail> {
    for (before, rotation, length, after) in CLOSES {
        let good = stands(
            rt.alloc(),
            &layout(before),
            rotation,
            length,
            &layout(after),
        )?;
        assert!(rt; good, "rotation {rotation}");
    }
    Ok(())
}

/// Whether tables are renamed, the texts of branches, whether one with rows comes behind, the table map's body, and
/// the bytes of the first file.
const FILES: [(bool, &[&[u8]], bool, &[u8], usize); 4] = [
    (false, &[CREATE], false, b"", 233),
    (false, &[CREATE], true, b"", 373),
    (false, &[], true, OLD_MAP, 316),
    (true, &[], true, NEW_MAP, 322),
];

// Whether the first file of a transaction has so many bytes, and in it a table map, where there is one, with this body.
fn file_has(
    alloc: Global,
    names: &Names,
    texts: &[&[u8]],
    rows: bool,
    map: &[u8],
    length: usize,
) -> Result<bool, PrintError> {
    let txn = transaction_of(alloc, 1, 10, b"g1", texts, rows)?;
    let unit = made(alloc, &txn, names, &NO_FILE, 1 << 29)?;
    Ok(unit.bytes.len() == length && stands_at(unit.bytes.bytes(), 180, map))
}

#[test]
fn files_of_statements_and_rows_have_their_lengths(rt: HostRuntime) -> Result<(), Fail> {
    for (renaming, texts, rows, map, length) in FILES {
        let names = rules(rt.alloc(), renaming)?;
        let good = file_has(rt.alloc(), &names, texts, rows, map, length)?;
        assert!(rt; good, "{length} bytes");
    }
    Ok(())
}
