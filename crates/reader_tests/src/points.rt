//! Readings from a point on.

ghost use Rattle.std.specs.Prelude.{◌≡◌, ◌≤◌, ◌<◌, ◌^◌, map, IfOk};
ghost use Rattle.cdc_model.specs.Openings.{AscendByXid};
ghost use Rattle.cdc_model.specs.Restart.{held_open};

use crate::given::{given, source_of};
use cdc_base::{Key, Place};
use cdc_memory::MemSource;
use cdc_model::{HeldList, NodeCut};
use cdc_reader::Reader;
use cdc_samples::entries::branch_of;
use std::alloc::{AllocError, Global};
use std::test::Fail;

/// The point before the third entry, at a place under a checksum setting of 0 or 1, with the mark 10: the branch of g1 stands
/// open there with the floor 0, where it is so told.
fn point(alloc: Global, place: Place, checked: bool, opened: bool) -> Result<NodeCut, Fail>
    ensures ascend { IfOk result (λ cut. AscendByXid (map held_open cut.held)) }
    ensures place { IfOk result (λ cut. cut.place ≡ place) }
{
    let mut held = HeldList::new(alloc);
    if opened {
        held.push((branch_of(b"g1").ok_or("a long id")?, 0))?;
    }
    Ok(NodeCut {
        entry: 3,
        place,
        mark: 10,
        checksum: if checked { 1 } else { 0 },
        held,
    })
}

/// The key of 10 and g1.
fn last() -> Result<Key, Fail> {
    let xid = branch_of(b"g1").ok_or("a long id")?;
    Ok(Key::Shared {
        timestamp: 10,
        gtrid: xid.gtrid,
    })
}

/// A text with the least place behind it that a source was asked for.
fn with_lowest(alloc: Global, text: String, source: &MemSource) -> Result<String, AllocError> {
    let mut text = text;
    if let Some(Place { file, at }) = source.lowest() {
        text.push_str(&format!(in alloc; " from {file}:{at}")?)?;
    }
    Ok(text)
}

/// What is given of a log behind a point, in pieces of so many bytes, and from where on bytes were asked for.
fn given_behind(alloc: Global, words: &str, cut: &NodeCut, length: usize) -> Result<String, Fail>
    requires file { 1 ≤ cut.now.place.file }
    requires byte { cut.now.place.at < 2 ^ 63 }
    requires ascend { AscendByXid (map held_open cut.now.held) }
{
    let mut source = source_of(alloc, words, &[])?;
    let mut reader = Reader::resumed(alloc, 1, cut, &last()?)?;
    let told = given(alloc, &mut reader, &mut source, length, length)?;
    Ok(with_lowest(alloc, told, &source)?)
}

/// Behind `P(g1) B(10)`, where g1 is held open: its branch isn't given again, and no byte below is asked for.
#[test]
fn behind_a_held_branch(rt: HostRuntime) -> Result<(), Fail> {
    let words = "H P(g1) B(10) P(g2) C(g1,10) C(g2,20)";
    let wanted = "=10 20:50#5/0 =20 .whole from 1:293";
    let cut = point(rt.alloc(), Place { file: 1, at: 293 }, false, true)?;
    for length in [1, 7, 100, 65_536] {
        let told = given_behind(rt.alloc(), words, &cut, length)?;
        assert_eq!(&rt; told.as_str(), wanted, "pieces of {length}");
    }
    Ok(())
}

/// Behind `P(g1)` and `C1(g1,10)`, where a checksum stands behind each event: nothing of it is given again.
#[test]
fn behind_all_under_a_checksum(rt: HostRuntime) -> Result<(), Fail> {
    let words = "H P(g1) |M F1 T(10)+ K(g1)+ S(g2)+ E(g2)+ R(g2)+ T(20)+ K(g2)+";
    let cut = point(rt.alloc(), Place { file: 2, at: 215 }, true, false)?;
    let told = given_behind(rt.alloc(), words, &cut, 50)?;
    assert_eq!(&rt; told.as_str(), "=10 20:50#4/0 =20 .whole from 2:215");
    Ok(())
}

/// The same log from its start.
#[test]
fn a_log_whose_setting_turns(rt: HostRuntime) -> Result<(), Fail> {
    let words = "H P(g1) |M F1 T(10)+ K(g1)+ S(g2)+ E(g2)+ R(g2)+ T(20)+ K(g2)+";
    let mut source = source_of(rt.alloc(), words, &[])?;
    let mut reader = Reader::new(rt.alloc(), 1)?;
    let told = given(rt.alloc(), &mut reader, &mut source, 50, 50)?;
    assert_eq!(&rt; told.as_str(), "10:49#2/0 =10 20:50#4/0 =20 .whole");
    Ok(())
}

/// A point at the first file's end: the reading goes over to the next one, and no byte of the first is asked for.
#[test]
fn over_files(rt: HostRuntime) -> Result<(), Fail> {
    let words = "H P(g1) B(10) |H C(g1,10) O(g3,11)";
    let cut = point(rt.alloc(), Place { file: 1, at: 293 }, false, true)?;
    let told = given_behind(rt.alloc(), words, &cut, 10)?;
    assert_eq!(&rt; told.as_str(), "=10 11:51#4/2 =11 .whole from 2:0");
    Ok(())
}
