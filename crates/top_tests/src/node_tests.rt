//! The files of one node, and many nodes.

use crate::call::print_all;
use crate::expected::{HEAD, push_printed};
use crate::nodes::{node_of, node_of_no_file, source_of};
use crate::table::is_right;
use cdc_base::{Blob, Buffer, Memory};
use cdc_memory::MemSource;
use cdc_samples::{Log, NotMade};
use std::alloc::Global;
use std::test::Fail;

// A source of one pair at 7, whose id is one byte.
fn one_pair(alloc: Global, id: u8) -> Result<MemSource, NotMade> {
    let mut log = Log::new(alloc);
    log.head()?;
    log.prepare(&[id])?;
    log.commit(&[id], 7)?;
    Ok(source_of(alloc, log.bytes(), &[])?)
}

// 256 nodes of one pair at 7: node 1 has the greatest id, node 256 the least.
fn pairs(alloc: Global) -> Result<Vec<MemSource>, Fail> {
    let mut nodes = Vec::new(alloc);
    for node in 0..=255u8 {
        nodes.push(one_pair(alloc, 255 - node)?)?;
    }
    Ok(nodes)
}

// The mark of an id of one byte at 7.
fn mark_of(alloc: Global, id: u8) -> Result<Buffer, Memory> {
    let mut mark = Buffer::new(alloc);
    mark.push(b"CTS::0000000000000000007::0::")?;
    mark.push(&[hex_digit(id / 16), hex_digit(id % 16)])?;
    Ok(mark)
}

// The printed file of the ids 0 to 255 at 7, behind a head.
fn printed_ids(alloc: Global) -> Result<Buffer, Memory> {
    let mut file = Buffer::new(alloc);
    file.push(&HEAD)?;
    for id in 0..=255u8 {
        let mark = mark_of(alloc, id)?;
        push_printed(alloc, &mut file, u64::from(id) + 1, mark.bytes())?;
    }
    Ok(file)
}

// A digit of base 16.
fn hex_digit(value: u8) -> u8 {
    *b"0123456789abcdef".get(value as usize).unwrap_or(&b'?')
}

#[test]
fn ids_order_256_nodes_of_one_timestamp(rt: HostRuntime) -> Result<(), Fail> {
    let want = printed_ids(rt.alloc())?;
    let seen = print_all(rt.alloc(), &mut pairs(rt.alloc())?)?;
    assert!(rt; seen.is(0, want.bytes(), b""));
    Ok(())
}

// A node of two files without bytes.
fn node_of_empty_files(alloc: Global) -> Result<Vec<MemSource>, Memory> {
    let source = MemSource::new(alloc, &[Blob::empty(), Blob::empty()], &[])?;
    node_of(alloc, source)
}

#[test]
fn a_node_without_bytes_has_no_entries(rt: HostRuntime) -> Result<(), Fail> {
    let seen = print_all(rt.alloc(), &mut node_of_no_file(rt.alloc())?)?;
    assert!(rt; seen.is(0, b"", b""));
    let seen = print_all(rt.alloc(), &mut node_of_empty_files(rt.alloc())?)?;
    assert!(rt; seen.is(0, b"", b""));
    Ok(())
}

// A branch goes over two files. A group that is unfinished at a file's end is dropped; a fault stands in the file that has it.
const TWO_FILES: &str = "H P(g1)/H C(g1,10)=0=241=10:6731=
H P(g1)/M F1 T(10)+ K(g1)+=0=241=10:6731=
H S(g1) W/H E(g1)=3=0==node 1 2:123 OutOfPlace
H P(g1) C(g1,10) S(g2)/H h(2,18)=3=241=10:6731=node 1 2:123 ShortLength 18";

#[test]
fn a_branch_goes_over_two_files_and_a_group_does_not(rt: HostRuntime) -> Result<(), Fail> {
    for row in TWO_FILES.lines() {
        assert!(rt; is_right(rt.alloc(), row)?, "{row}");
    }
    Ok(())
}
