//! The lines of outs that were worked out by hand.

use crate::shelves::{CLOSED_FILE, FIRST_DROPPED, ONE_FILE, TWO_FILES, list_all, list_own, shelf};
use cdc_dumper::OpenFault;
use cdc_list::{ListEnd, out_line};
use cdc_records::Front;
use std::alloc::Global;
use std::test::Fail;

// The text of one out.
fn is_listed(alloc: Global, slot: &[u8], lengths: &[usize], text: &[u8]) -> Result<bool, Fail> {
    let mut outs = Vec::new(alloc);
    outs.push(shelf(alloc, slot, lengths)?)?;
    let seen = list_all(alloc, &mut outs, &[])?;
    Ok(seen.is(ListEnd::Done, text))
}

#[test]
fn an_out_is_listed_by_its_files(rt: HostRuntime) -> Result<(), Fail> {
    let rows: [(&[u8], &[usize], &[u8]); 7] = [
        (&[], &[], b"out 1 - 0 0\n"),
        (
            &ONE_FILE,
            &[241],
            b"1 binlog.000001 241\nout 1 binlog.000001 241 1\n",
        ),
        (
            &ONE_FILE,
            &[300, 200],
            b"1 binlog.000001 241\nout 1 binlog.000001 241 1\n",
        ),
        (
            &CLOSED_FILE,
            &[399],
            b"1 binlog.000001 399\nout 1 binlog.000001 399 2\n",
        ),
        (
            &TWO_FILES,
            &[399, 241],
            b"1 binlog.000001 399\n1 binlog.000002 241\nout 1 binlog.000002 241 3\n",
        ),
        (
            &TWO_FILES,
            &[399, 250, 9],
            b"1 binlog.000001 399\n1 binlog.000002 241\nout 1 binlog.000002 241 3\n",
        ),
        (
            &FIRST_DROPPED,
            &[0, 241],
            b"1 binlog.000002 241\nout 1 binlog.000002 241 3\n",
        ),
    ];
    for (slot, lengths, text) in rows {
        assert!(rt; is_listed(rt.alloc(), slot, lengths, text)?, "{lengths:?}");
    }
    Ok(())
}

#[test]
fn outs_are_listed_in_order(rt: HostRuntime) -> Result<(), Fail> {
    let alloc = rt.alloc();
    let mut outs = Vec::new(alloc);
    outs.push(shelf(alloc, &TWO_FILES, &[399, 241])?)?;
    outs.push(shelf(alloc, &[], &[])?)?;
    outs.push(shelf(alloc, &FIRST_DROPPED, &[0, 241])?)?;
    let seen = list_all(alloc, &mut outs, &[])?;
    assert!(rt;
        seen.is(
            ListEnd::Done,
            b"1 binlog.000001 399\n1 binlog.000002 241\nout 1 binlog.000002 241 3\n\
        out 2 - 0 0\n3 binlog.000002 241\nout 3 binlog.000002 241 3\n",
        )
    );
    Ok(())
}

#[test]
fn own_lines_stand_alone(rt: HostRuntime) -> Result<(), Fail> {
    let alloc = rt.alloc();
    let mut outs = Vec::new(alloc);
    outs.push(shelf(alloc, &TWO_FILES, &[399, 241])?)?;
    outs.push(shelf(alloc, &[], &[])?)?;
    outs.push(shelf(alloc, &ONE_FILE, &[241])?)?;
    let seen = list_own(alloc, &mut outs, &[])?;
    let text = b"out 1 binlog.000002 241 3\nout 2 - 0 0\nout 3 binlog.000001 241 1\n".as_slice();
    assert!(rt; seen.is(ListEnd::Done, text));
    Ok(())
}

#[test]
fn own_lines_name_a_refused_out_and_a_failed_sink(rt: HostRuntime) -> Result<(), Fail> {
    let alloc = rt.alloc();
    let mut outs = Vec::new(alloc);
    outs.push(shelf(alloc, &ONE_FILE, &[241])?)?;
    let seen = list_own(alloc, &mut outs, &[1])?;
    assert!(rt; seen.end == ListEnd::Sink);
    outs.push(shelf(alloc, &ONE_FILE, &[240])?)?;
    let seen = list_own(alloc, &mut outs, &[])?;
    let fault = OpenFault::BadFront {
        kept: 241,
        found: 240,
    };
    assert!(rt; seen.is(ListEnd::Unopened { out: 2, fault }, b""));
    Ok(())
}

#[test]
fn no_outs_have_no_lines(rt: HostRuntime) -> Result<(), Fail> {
    let mut outs = Vec::new(rt.alloc());
    let seen = list_all(rt.alloc(), &mut outs, &[])?;
    assert!(rt; seen.is(ListEnd::Done, b""));
    Ok(())
}

#[test]
fn the_line_of_an_out_has_its_numbers(rt: HostRuntime) -> Result<(), Fail> {
    let mut front = Front::none();
    assert!(rt; out_line(4, &front).as_slice() == b"out 4 - 0 0\n".as_slice());
    front.count = 18_446_744_073_709_551_615;
    front.file = 999_999;
    front.length = 724_167;
    let text = b"out 1 binlog.999999 724167 18446744073709551615\n".as_slice();
    assert!(rt; out_line(1, &front).as_slice() == text);
    front.file = 18_446_744_073_709_551_615;
    front.length = 18_446_744_073_709_551_615;
    let text = b"out 4294967295 binlog.18446744073709551615 18446744073709551615 \
        18446744073709551615\n"
        .as_slice();
    assert!(rt; out_line(4_294_967_295, &front).as_slice() == text);
    Ok(())
}
