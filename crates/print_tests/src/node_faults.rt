//! Logs with faults: which is named, and how much is printed before it.

use crate::seen::print_words;
use cdc_base::Place;
use cdc_event::{EventFault, FileFault};
use cdc_model::{GroupFault, NodeFault, SortFault};
use std::test::Fail;

/// Logs of nodes; the node whose fault is named, its place in its first file, and the bytes that are printed.
const FAULTY: [(&[&str], u32, u64, usize); 10] = [
    (&["H P(g1) C(g1,10) P(g2) C(g2,10)"], 1, 519, 241),
    (&["H C(g1,10)"], 1, 151, 0),
    (&["H P(g1) P(g1)"], 1, 373, 0),
    (&["H h(2,18)"], 1, 123, 0),
    (&["H P(g1) C(g1,10) K(g1)"], 1, 349, 241),
    (&["6162636465"], 1, 0, 0),
    (&["H P(g1) C(g1,10)", "H P(g1) C(g1,10) W"], 2, 349, 241),
    (
        &[
            "H P(g1) C(g1,10)",
            "H P(g1) C(g1,10) W",
            "H P(g1) C(g1,10) K(g1)",
        ],
        2,
        349,
        241,
    ),
    (
        &["H P(g1) C(g1,10) A(g1)", "H P(g1) C(g1,10) W"],
        1,
        349,
        241,
    ),
    (
        &["H S(g1) W D(DDL::d1::CREATE_TABLE_tt_a_INTX) E(g1) R(g1)"],
        1,
        253,
        0,
    ),
];

#[test]
fn the_least_fault_is_named(rt: HostRuntime) -> Result<(), Fail> {
    for (logs, wanted, at, bytes) in FAULTY {
        let seen = print_words(rt.alloc(), logs)?;
        let first = logs.first().copied().unwrap_or("");
        let Some((node, place, _)) = seen.fault() else {
            return Err("no fault")?;
        };
        assert_eq!(&rt; node, wanted, "{first}");
        assert_eq!(&rt; place, Place { file: 1, at }, "{first}");
        assert_eq!(&rt; seen.out.written().len(), bytes, "{first}");
    }
    Ok(())
}

/// Logs of one node, and the kind of their fault.
const KINDS: [(&str, NodeFault); 9] = [
    (
        "H P(g1) C(g1,10) P(g2) C(g2,10)",
        NodeFault::Sort(SortFault::Undercut {
            timestamp: 10,
            floor: 10,
        }),
    ),
    ("6162636465", NodeFault::File(FileFault::BadMagic)),
    (
        "H h(2,18)",
        NodeFault::File(FileFault::Event(EventFault::ShortLength(18))),
    ),
    ("H P(g1) K(g1)", NodeFault::Group(GroupFault::NoTimestamp)),
    ("H T(10) B(11)", NodeFault::Group(GroupFault::BadTimestamp)),
    (
        "H Q(BEGIN) Q(DROP_TABLE_t)",
        NodeFault::Group(GroupFault::Statement),
    ),
    ("H S(g1) E(g2)", NodeFault::Group(GroupFault::XidDiffers)),
    ("H W", NodeFault::Group(GroupFault::RowsOutside)),
    ("H E(g1)", NodeFault::Group(GroupFault::OutOfPlace)),
];

#[test]
fn each_kind_of_fault_is_told(rt: HostRuntime) -> Result<(), Fail> {
    for (log, wanted) in KINDS {
        let seen = print_words(rt.alloc(), &[log])?;
        let Some((_, _, fault)) = seen.fault() else {
            return Err("no fault")?;
        };
        assert_eq!(&rt; fault, wanted, "{log}");
    }
    Ok(())
}
