//! Outs that are refused, and devices that fail.

use crate::shelves::{FIRST_DROPPED, ONE_FILE, SHORT_SLOT, TWO_FILES, list_all, shelf};
use cdc_dumper::OpenFault;
use cdc_list::ListEnd;
use cdc_memory::MemDisk;
use cdc_outside::DiskFile;
use std::alloc::Global;
use std::test::Fail;

/// The text of the out before one that is refused.
const FIRST_TEXT: &[u8] = b"1 binlog.000001 241\nout 1 binlog.000001 241 1\n";

// How a listing ends whose second out has this slot and these files; nothing is written.
fn second_ends(alloc: Global, slot: &[u8], lengths: &[usize]) -> Result<ListEnd, Fail> {
    let mut outs = Vec::new(alloc);
    outs.push(shelf(alloc, &ONE_FILE, &[241])?)?;
    outs.push(shelf(alloc, slot, lengths)?)?;
    let seen = list_all(alloc, &mut outs, &[])?;
    if seen.out.written().is_empty() {
        Ok(seen.end)
    } else {
        Err("something was written")?
    }
}

#[test]
fn an_out_that_is_refused_is_named(rt: HostRuntime) -> Result<(), Fail> {
    let mut unknown = ONE_FILE;
    unknown[17] = 3;
    let cell = OpenFault::BadCell(DiskFile::SlotA);
    let rows: [(&[u8], &[usize], OpenFault); 5] = [
        (&SHORT_SLOT, &[241], cell),
        (&unknown, &[241], cell),
        (
            &ONE_FILE,
            &[240],
            OpenFault::BadFront {
                kept: 241,
                found: 240,
            },
        ),
        (
            &ONE_FILE,
            &[],
            OpenFault::BadFront {
                kept: 241,
                found: 0,
            },
        ),
        (
            &TWO_FILES,
            &[399],
            OpenFault::BadFront {
                kept: 241,
                found: 0,
            },
        ),
    ];
    for (slot, lengths, fault) in rows {
        let end = second_ends(rt.alloc(), slot, lengths)?;
        assert!(rt; end == ListEnd::Unopened { out: 2, fault }, "{lengths:?}");
    }
    Ok(())
}

// Two outs of one file and of two, of which one has its calls fail from a call on.
fn outs_that_stop(alloc: Global, out: u32, call: u64) -> Result<Vec<MemDisk>, Fail> {
    let mut first = shelf(alloc, &ONE_FILE, &[241])?;
    let mut second = shelf(alloc, &TWO_FILES, &[399, 241])?;
    if out == 1 {
        first.stop_at(call);
    } else {
        second.stop_at(call);
    }
    let mut outs = Vec::new(alloc);
    outs.push(first)?;
    outs.push(second)?;
    Ok(outs)
}

// How a listing ends whose disks stop so; nothing is written where it isn't done.
fn stopped(alloc: Global, out: u32, call: u64) -> Result<ListEnd, Fail> {
    let mut outs = outs_that_stop(alloc, out, call)?;
    let seen = list_all(alloc, &mut outs, &[])?;
    if seen.out.written().is_empty() == (seen.end == ListEnd::Done) {
        return Err("not what was to be written")?;
    }
    Ok(seen.end)
}

// A look asks for the length of slot A and reads its head, asks for the length of slot B, asks for that of slot A again
// and reads the payload, and asks for the length of the last file: six calls. The listing asks for that of each file.
const LOOK: u64 = 6;

#[test]
fn a_disk_that_fails_is_named(rt: HostRuntime) -> Result<(), Fail> {
    let fault = OpenFault::DiskFault;
    for out in 1..3u32 {
        let files = u64::from(out);
        for call in 1..LOOK + files + 1 {
            let end = stopped(rt.alloc(), out, call)?;
            let wanted = if call > LOOK {
                ListEnd::Disk { out }
            } else {
                ListEnd::Unopened { out, fault }
            };
            assert!(rt; end == wanted, "out {out} call {call}: {end:?}");
        }
        let end = stopped(rt.alloc(), out, LOOK + files + 1)?;
        assert!(rt; end == ListEnd::Done, "out {out}: {end:?}");
    }
    Ok(())
}

// The first out fails when its file is asked for, the second can't be opened: all are opened before.
#[test]
fn all_outs_are_opened_first(rt: HostRuntime) -> Result<(), Fail> {
    let alloc = rt.alloc();
    let mut first = shelf(alloc, &ONE_FILE, &[241])?;
    first.stop_at(LOOK + 1);
    let mut outs = Vec::new(alloc);
    outs.push(first)?;
    outs.push(shelf(alloc, &SHORT_SLOT, &[241])?)?;
    let seen = list_all(alloc, &mut outs, &[])?;
    let fault = OpenFault::BadCell(DiskFile::SlotA);
    assert!(rt; seen.is(ListEnd::Unopened { out: 2, fault }, b""));
    Ok(())
}

// The least out that is refused is named.
#[test]
fn the_least_out_is_named(rt: HostRuntime) -> Result<(), Fail> {
    let alloc = rt.alloc();
    let mut outs = Vec::new(alloc);
    outs.push(shelf(alloc, &FIRST_DROPPED, &[0, 241])?)?;
    outs.push(shelf(alloc, &ONE_FILE, &[240])?)?;
    outs.push(shelf(alloc, &SHORT_SLOT, &[241])?)?;
    let seen = list_all(alloc, &mut outs, &[])?;
    let fault = OpenFault::BadFront {
        kept: 241,
        found: 240,
    };
    assert!(rt; seen.is(ListEnd::Unopened { out: 2, fault }, b""));
    Ok(())
}

#[test]
fn a_sink_that_fails_is_told(rt: HostRuntime) -> Result<(), Fail> {
    let alloc = rt.alloc();
    let mut outs = Vec::new(alloc);
    outs.push(shelf(alloc, &ONE_FILE, &[241])?)?;
    let seen = list_all(alloc, &mut outs, &[1])?;
    let front = FIRST_TEXT.starts_with(seen.out.written());
    assert!(rt; seen.end == ListEnd::Sink && front);
    Ok(())
}
