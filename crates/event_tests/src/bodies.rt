//! Each type's body: the shortest, one byte short, a zero byte that isn't zero, lengths at their limits.
//!
//! A row of a table is a type, the bytes in hexadecimal, and what they are read as, as `Debug` writes it.

ghost use Rattle.std.specs.Prelude.{◌≤◌};

use crate::shown::answer;
use std::alloc::{AllocError, Global};
use std::process::Abort;
use std::test::Fail;

const BODIES: &str =
    "2:0100000002000000000300000000:Query { thread: 1, seconds: 2, error: 3, status: Blob { bytes: b\"\" }, db: Blob { bytes: b\"\" }, text: Blob { bytes: b\"\" } }
2:01000000020000000003000000:Fault(BadBody(2))
2:010000000200000000030000:Fault(BadBody(2))
2:0100000002000000000300000001:Fault(BadBody(2))
2:000000000000000002000101000764620074:Query { thread: 0, seconds: 0, error: 256, status: Blob { bytes: b\"\\x07\" }, db: Blob { bytes: b\"db\" }, text: Blob { bytes: b\"t\" } }
2:000000000000000002000001000764620174:Fault(BadBody(2))
2:00000000000000000200000100076462:Fault(BadBody(2))
4:0400000000000000:Rotate { position: 4, name: Blob { bytes: b\"\" } }
4:04000000000000:Fault(BadBody(4))
4:ffffffffffffffff6162:Rotate { position: 18446744073709551615, name: Blob { bytes: b\"ab\" } }
16:0102000000000080:Xid { number: 9223372036854776321 }
16:01000000000000:Fault(BadBody(16))
16:010000000000000000:Fault(BadBody(16))
29::Fault(BadBody(29))
29:ff:RowsQuery { size: 255, text: Blob { bytes: b\"\" } }
29:016162:RowsQuery { size: 1, text: Blob { bytes: b\"ab\" } }
19:010000000002018000000000:TableMap { table: 2199023255553, flags: 32769, db: Blob { bytes: b\"\" }, name: Blob { bytes: b\"\" }, rest: Blob { bytes: b\"\" } }
19:0100000000020180000000:Fault(BadBody(19))
19:0100000000020180:Fault(BadBody(19))
19:01000000000001000164000274310009:TableMap { table: 1, flags: 1, db: Blob { bytes: b\"d\" }, name: Blob { bytes: b\"t1\" }, rest: Blob { bytes: b\"\\t\" } }
19:01000000000001000164010274310009:Fault(BadBody(19))
19:01000000000001000164000274310109:Fault(BadBody(19))
19:0100000000000100016400027431:Fault(BadBody(19))
38:01020000000000000000000000:XaPrepare { one_phase: 1, xid: Xid { gtrid: Gtrid { bytes: [0, 0, 0, 0, 0, 0, 0, 0, 0, 0, 0, 0, 0, 0, 0, 0, 0, 0, 0, 0, 0, 0, 0, 0, 0, 0, 0, 0, 0, 0, 0, 0, 0, 0, 0, 0, 0, 0, 0, 0, 0, 0, 0, 0, 0, 0, 0, 0, 0, 0, 0, 0, 0, 0, 0, 0, 0, 0, 0, 0, 0, 0, 0, 0], len: 0 }, bqual: Gtrid { bytes: [0, 0, 0, 0, 0, 0, 0, 0, 0, 0, 0, 0, 0, 0, 0, 0, 0, 0, 0, 0, 0, 0, 0, 0, 0, 0, 0, 0, 0, 0, 0, 0, 0, 0, 0, 0, 0, 0, 0, 0, 0, 0, 0, 0, 0, 0, 0, 0, 0, 0, 0, 0, 0, 0, 0, 0, 0, 0, 0, 0, 0, 0, 0, 0], len: 0 }, format: 2 } }
38:010200000000000000000000:Fault(BadBody(38))
38:00010000000200000001000000673162:XaPrepare { one_phase: 0, xid: Xid { gtrid: Gtrid { bytes: [103, 49, 0, 0, 0, 0, 0, 0, 0, 0, 0, 0, 0, 0, 0, 0, 0, 0, 0, 0, 0, 0, 0, 0, 0, 0, 0, 0, 0, 0, 0, 0, 0, 0, 0, 0, 0, 0, 0, 0, 0, 0, 0, 0, 0, 0, 0, 0, 0, 0, 0, 0, 0, 0, 0, 0, 0, 0, 0, 0, 0, 0, 0, 0], len: 2 }, bqual: Gtrid { bytes: [98, 0, 0, 0, 0, 0, 0, 0, 0, 0, 0, 0, 0, 0, 0, 0, 0, 0, 0, 0, 0, 0, 0, 0, 0, 0, 0, 0, 0, 0, 0, 0, 0, 0, 0, 0, 0, 0, 0, 0, 0, 0, 0, 0, 0, 0, 0, 0, 0, 0, 0, 0, 0, 0, 0, 0, 0, 0, 0, 0, 0, 0, 0, 0], len: 1 }, format: 1 } }
38:0001000000020000000100000067316262:Fault(BadBody(38))
38:000100000002000000010000006731:Fault(BadBody(38))
38:0001000000ffffffffffffffff:Fault(BadBody(38))
200:010a00000000000000:Timestamp { class: 1, value: 10 }
200:010a000000000000:Fault(BadBody(200))
200:010a0000000000000000:Fault(BadBody(200))
39::Fault(Partial)
40:6162:Fault(Compressed)
22:61:Skipped { bytes: Blob { bytes: b\"a\" } }
23:61:Rows { bytes: Blob { bytes: b\"a\" } }
25::Rows { bytes: Blob { bytes: b\"\" } }
26::Skipped { bytes: Blob { bytes: b\"\" } }
30:61:Rows { bytes: Blob { bytes: b\"a\" } }
32:61:Rows { bytes: Blob { bytes: b\"a\" } }
33:61:Skipped { bytes: Blob { bytes: b\"a\" } }
0:61:Skipped { bytes: Blob { bytes: b\"a\" } }
255:61:Skipped { bytes: Blob { bytes: b\"a\" } }
15:0400000000000000000000000000000000000000000000000000000000000000000000000000000000000000000000000000000000000000130002030405:Format { text: Blob { bytes: b\"\\0\\0\\0\\0\\0\\0\\0\\0\\0\\0\\0\\0\\0\\0\\0\\0\\0\\0\\0\\0\\0\\0\\0\\0\\0\\0\\0\\0\\0\\0\\0\\0\\0\\0\\0\\0\\0\\0\\0\\0\\0\\0\\0\\0\\0\\0\\0\\0\\0\\0\" }, created: 0, lengths: Blob { bytes: b\"\" }, checksum: 0, tail: 84148994 }
15:040000000000000000000000000000000000000000000000000000000000000000000000000000000000000000000000000000000000000013070002030405:Format { text: Blob { bytes: b\"\\0\\0\\0\\0\\0\\0\\0\\0\\0\\0\\0\\0\\0\\0\\0\\0\\0\\0\\0\\0\\0\\0\\0\\0\\0\\0\\0\\0\\0\\0\\0\\0\\0\\0\\0\\0\\0\\0\\0\\0\\0\\0\\0\\0\\0\\0\\0\\0\\0\\0\" }, created: 0, lengths: Blob { bytes: b\"\\x07\" }, checksum: 0, tail: 84148994 }
15:0400000000000000000000000000000000000000000000000000000000000000000000000000000000000000000000000000000000000000130102030405:Format { text: Blob { bytes: b\"\\0\\0\\0\\0\\0\\0\\0\\0\\0\\0\\0\\0\\0\\0\\0\\0\\0\\0\\0\\0\\0\\0\\0\\0\\0\\0\\0\\0\\0\\0\\0\\0\\0\\0\\0\\0\\0\\0\\0\\0\\0\\0\\0\\0\\0\\0\\0\\0\\0\\0\" }, created: 0, lengths: Blob { bytes: b\"\" }, checksum: 1, tail: 84148994 }
15:0400000000000000000000000000000000000000000000000000000000000000000000000000000000000000000000000000000000000000130202030405:Fault(BadFormat)
15:040000000000000000000000000000000000000000000000000000000000000000000000000000000000000000000000000000000000000013ff02030405:Fault(BadFormat)
15:0400000000000000000000000000000000000000000000000000000000000000000000000000000000000000000000000000000000000000120002030405:Fault(BadFormat)
15:0400000000000000000000000000000000000000000000000000000000000000000000000000000000000000000000000000000000000000140002030405:Fault(BadFormat)
15:0300000000000000000000000000000000000000000000000000000000000000000000000000000000000000000000000000000000000000130002030405:Fault(BadFormat)
15:04000000000000000000000000000000000000000000000000000000000000000000000000000000000000000000000000000000000000001300020304:Fault(BadFormat)
15::Fault(BadFormat)
38:0001000000400000000000000007070707070707070707070707070707070707070707070707070707070707070707070707070707070707070707070707070707070707070707070707070707:XaPrepare { one_phase: 0, xid: Xid { gtrid: Gtrid { bytes: [7, 7, 7, 7, 7, 7, 7, 7, 7, 7, 7, 7, 7, 7, 7, 7, 7, 7, 7, 7, 7, 7, 7, 7, 7, 7, 7, 7, 7, 7, 7, 7, 7, 7, 7, 7, 7, 7, 7, 7, 7, 7, 7, 7, 7, 7, 7, 7, 7, 7, 7, 7, 7, 7, 7, 7, 7, 7, 7, 7, 7, 7, 7, 7], len: 64 }, bqual: Gtrid { bytes: [0, 0, 0, 0, 0, 0, 0, 0, 0, 0, 0, 0, 0, 0, 0, 0, 0, 0, 0, 0, 0, 0, 0, 0, 0, 0, 0, 0, 0, 0, 0, 0, 0, 0, 0, 0, 0, 0, 0, 0, 0, 0, 0, 0, 0, 0, 0, 0, 0, 0, 0, 0, 0, 0, 0, 0, 0, 0, 0, 0, 0, 0, 0, 0], len: 0 }, format: 1 } }
38:000100000041000000000000000707070707070707070707070707070707070707070707070707070707070707070707070707070707070707070707070707070707070707070707070707070707:Fault(BadBody(38))
38:0001000000000000004000000007070707070707070707070707070707070707070707070707070707070707070707070707070707070707070707070707070707070707070707070707070707:XaPrepare { one_phase: 0, xid: Xid { gtrid: Gtrid { bytes: [0, 0, 0, 0, 0, 0, 0, 0, 0, 0, 0, 0, 0, 0, 0, 0, 0, 0, 0, 0, 0, 0, 0, 0, 0, 0, 0, 0, 0, 0, 0, 0, 0, 0, 0, 0, 0, 0, 0, 0, 0, 0, 0, 0, 0, 0, 0, 0, 0, 0, 0, 0, 0, 0, 0, 0, 0, 0, 0, 0, 0, 0, 0, 0], len: 0 }, bqual: Gtrid { bytes: [7, 7, 7, 7, 7, 7, 7, 7, 7, 7, 7, 7, 7, 7, 7, 7, 7, 7, 7, 7, 7, 7, 7, 7, 7, 7, 7, 7, 7, 7, 7, 7, 7, 7, 7, 7, 7, 7, 7, 7, 7, 7, 7, 7, 7, 7, 7, 7, 7, 7, 7, 7, 7, 7, 7, 7, 7, 7, 7, 7, 7, 7, 7, 7], len: 64 }, format: 1 } }
38:000100000000000000410000000707070707070707070707070707070707070707070707070707070707070707070707070707070707070707070707070707070707070707070707070707070707:Fault(BadBody(38))";

/// Bodies that end with a checksum.
const SUMMED: &str = "16:010000000000000061626364:Xid { number: 1 }
16:0100000000000000:Fault(BadBody(16))
22:61626364:Skipped { bytes: Blob { bytes: b\"\" } }
30:7861626364:Rows { bytes: Blob { bytes: b\"x\" } }
2:616263:Fault(ShortLength(22))
2:61626364:Fault(BadBody(2))
29:017461626364:RowsQuery { size: 1, text: Blob { bytes: b\"t\" } }
40:61626364:Fault(Compressed)
39:616263:Fault(ShortLength(22))
15:616263:Fault(BadFormat)
15:0400000000000000000000000000000000000000000000000000000000000000000000000000000000000000000000000000000000000000130102030405:Format { text: Blob { bytes: b\"\\0\\0\\0\\0\\0\\0\\0\\0\\0\\0\\0\\0\\0\\0\\0\\0\\0\\0\\0\\0\\0\\0\\0\\0\\0\\0\\0\\0\\0\\0\\0\\0\\0\\0\\0\\0\\0\\0\\0\\0\\0\\0\\0\\0\\0\\0\\0\\0\\0\\0\" }, created: 0, lengths: Blob { bytes: b\"\" }, checksum: 1, tail: 84148994 }";

fn check_rows(rt: &impl Abort, alloc: Global, table: &str, checksum: u8) -> Result<(), Fail>
    requires { checksum ≤ 1 }
{
    for row in table.lines() {
        let Some((kind, rest)) = row.split_once(':') else {
            return Err("no type")?;
        };
        let Some((bytes, wanted)) = rest.split_once(':') else {
            return Err("no bytes")?;
        };
        let shown = answer(
            alloc,
            kind.parse::<u8>()?,
            hex::decode(alloc, bytes)?.as_slice(),
            checksum,
        )?;
        assert_eq!(rt; shown.as_str(), wanted, "{row}");
    }
    Ok(())
}

#[test]
fn each_body_is_read_or_refused(rt: HostRuntime) -> Result<(), Fail> {
    check_rows(&rt, rt.alloc(), BODIES, 0)
}

#[test]
fn a_checksum_is_cut_off_unread(rt: HostRuntime) -> Result<(), Fail> {
    check_rows(&rt, rt.alloc(), SUMMED, 1)
}

// A query's fixed part with these lengths, and so many bytes behind it, all zero.
fn long_query(alloc: Global, db: u8, status: u16, behind: u32) -> Result<Vec<u8>, AllocError> {
    let [low, high] = status.to_le_bytes();
    let mut bytes = Vec::from_slice(alloc, &[1, 0, 0, 0, 2, 0, 0, 0, db, 3, 0, low, high])?;
    for _ in 0..behind {
        bytes.push(0)?;
    }
    Ok(bytes)
}

#[test]
fn a_query_has_lengths_up_to_their_limits(rt: HostRuntime) -> Result<(), Fail> {
    for (db, status, behind, is_read) in [
        (255, 0, 256, true),
        (255, 0, 255, false),
        (0, 65535, 65536, true),
        (0, 65535, 65535, false),
    ] {
        let bytes = long_query(rt.alloc(), db, status, behind)?;
        let shown = answer(rt.alloc(), 2, bytes.as_slice(), 0)?;
        assert_eq!(rt;
            shown.as_str() != "Fault(BadBody(2))",
            is_read,
            "{db} {status} {behind}"
        );
    }
    Ok(())
}
