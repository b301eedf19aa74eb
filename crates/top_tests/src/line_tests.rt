//! Each fault of a node's log once, with its line.

use crate::table::is_right;
use std::test::Fail;

const LINES: &str = "61626364=3=0==node 1 1:0 BadMagic
H h(2,18)=3=0==node 1 1:123 ShortLength 18
H h(2,134217729)=3=0==node 1 1:123 TooLong 134217729
H h(16,20) 00=3=0==node 1 1:123 BadBody 16
H h(40,19)=3=0==node 1 1:123 Compressed
M Q(BEGIN)=3=0==node 1 1:4 BadFormat
H h(39,19)=3=0==node 1 1:123 Partial
H K(g1)=3=0==node 1 1:123 NoTimestamp
H T(0)=3=0==node 1 1:123 BadTimestamp
H Q(BEGIN) Q(a)=3=0==node 1 1:161 Statement
H S(g1) E(g2)=3=0==node 1 1:178 XidDiffers
H W=3=0==node 1 1:123 RowsOutside
H X=3=0==node 1 1:123 OutOfPlace
H S(g1) D(DDL::d1)=3=0==node 1 1:178 BadDdl
H P(g1) P(g1)=3=0==node 1 1:373 DoublePrepare 6731,,1
H C(g1,10)=3=0==node 1 1:151 UnknownBranch 6731,,1
H B(10) P(g1) C(g1,7)=3=0==node 1 1:321 Undercut 7 10
H Q(XA_ROLLBACK_X'00FF',X'6731',4294967295)=3=0==node 1 1:123 UnknownBranch 00ff,6731,4294967295
H B(9223372036854775807) P(g1) C(g1,9223372036854775807)=3=0==node 1 1:321 Undercut 9223372036854775807 9223372036854775807";

#[test]
fn each_fault_has_its_line(rt: HostRuntime) -> Result<(), Fail> {
    for row in LINES.lines() {
        assert!(rt; is_right(rt.alloc(), row)?, "{row}");
    }
    Ok(())
}
