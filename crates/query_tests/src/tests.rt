//! Tables of texts with their verbs, and of verbs with their texts.

ghost use Rattle.std.specs.Prelude.{◌≤◌, length};
ghost use Rattle.cdc_query.specs.Text.{IsXa};

use cdc_base::{Buffer, GTRID_MAX, Xid, gtrid_of};
use cdc_query::{Verb, read_text, write_xa};
use std::process::Abort;
use std::test::Fail;

// The name of a branch.
fn xid(gtrid: &[u8], bqual: &[u8], format: u32) -> Xid
    requires gtrid { length gtrid.now ≤ GTRID_MAX }
    requires bqual { length bqual.now ≤ GTRID_MAX }
{
    Xid {
        gtrid: gtrid_of(gtrid).unwrap(),
        bqual: gtrid_of(bqual).unwrap(),
        format,
    }
}

// The branch of most texts here.
fn g1() -> Xid {
    xid(b"g1", b"", 1)
}

// Each text has this verb.
fn read(rt: &impl Abort, want: Verb, texts: &[&str]) {
    for text in texts {
        assert_eq!(rt; read_text(text.as_bytes()), want, "at {text}");
    }
}

// The verb has this text.
fn write(rt: &impl Abort, into: &mut Buffer, verb: Verb, want: &str) -> Result<(), Fail>
    requires { IsXa verb }
{
    let start = into.len();
    write_xa(&verb, into)?;
    assert_eq!(rt; into.bytes().get(start..), Some(want.as_bytes()));
    assert_eq!(rt; read_text(want.as_bytes()), verb);
    Ok(())
}

#[test]
fn verbs_of_words(rt: HostRuntime) {
    read(
        &rt,
        Verb::Begin,
        &["BEGIN", "begin", "BeGiN", " BEGIN", "   begin   "],
    );
    read(&rt, Verb::Commit, &["COMMIT", "commit ", "  cOMMIT"]);
    read(&rt, Verb::Rollback, &["ROLLBACK", "Rollback  "]);
    read(
        &rt,
        Verb::Savepoint,
        &[
            "SAVEPOINT a",
            "savepoint  `s1`",
            "SavePoint x y ",
            "  SAVEPOINT   1",
            "SAVEPOINT ;",
            "SAVEPOINT \t",
        ],
    );
    read(
        &rt,
        Verb::Other,
        &[
            "",
            "   ",
            "\t",
            "BEGIN;",
            "BEGIN WORK",
            "BEGIN\t",
            "\tBEGIN",
            "BEGI",
            "BEGINS",
            "B EGIN",
            "COMMIT AND CHAIN",
            "COMMIT;",
            "ROLLBACK TO a",
            "ROLLBACKS",
            "SAVEPOINT",
            "SAVEPOINT    ",
            "savepoint\ta",
            "SAVEPOINTa",
            "SAVEPOINT; x",
            "RELEASE SAVEPOINT a",
            "INSERT INTO t VALUES (1)",
            "X",
            "X A",
            "XAA",
            "XA;",
            "XA\tSTART X'6731',X'',1",
            "\tXA START X'6731',X'',1",
            "XASTART X'6731',X'',1",
            "START X'6731',X'',1",
            "A XA",
        ],
    );
}

#[test]
fn verbs_of_xa_texts(rt: HostRuntime) {
    let long = [0xab; GTRID_MAX];
    read(
        &rt,
        Verb::XaStart(g1()),
        &[
            "XA START X'6731',X'',1",
            "xa start x'6731',x'',1",
            "Xa StArT X'6731',X'',1",
            "  XA   START    X'6731',X'',1  ",
            "XA START X'6731', X'',1",
            "XA START X'6731',X'', 1",
            "XA START X'6731',   X'',   1",
            "XA START X'6731',X'',01",
            "XA START X'6731',X'',0000000001",
        ],
    );
    read(
        &rt,
        Verb::XaEnd(g1()),
        &["XA END X'6731',X'',1", "xa  end x'6731', x'', 1"],
    );
    read(
        &rt,
        Verb::XaRollback(xid(b"", b"", 0)),
        &["XA ROLLBACK X'',X'',0", "xa rollback X'',x'',0000000000"],
    );
    read(
        &rt,
        Verb::XaCommit(xid(b"\xab\xcd", b"\xef\x01", 10)),
        &[
            "XA COMMIT X'AbCd',X'eF01',10",
            "XA  COMMIT X'ABCD',X'EF01',10",
            "xa commit X'abcd',X'ef01',0010",
        ],
    );
    read(
        &rt,
        Verb::XaCommit(xid(b"", b"g1", 4294967295)),
        &["XA COMMIT X'',X'6731',4294967295"],
    );
    read(
        &rt,
        Verb::XaStart(xid(&long, b"'", 7)),
        &[
            "XA START X'abababababababababababababababababababababababababababababababababababababababababababababababababababababababababababababababab',X'27',7",
        ],
    );
    read(
        &rt,
        Verb::XaStart(xid(b"g1", &long, 7)),
        &[
            "XA START X'6731',X'aBaBaBaBaBaBaBaBaBaBaBaBaBaBaBaBaBaBaBaBaBaBaBaBaBaBaBaBaBaBaBaBaBaBaBaBaBaBaBaBaBaBaBaBaBaBaBaBaBaBaBaBaBaBaBaBaBaBaBaBaBaBaBaB',7",
        ],
    );
    read(
        &rt,
        Verb::XaOther,
        &[
            "XA",
            "xa",
            "  XA  ",
            "XA START",
            "XA END ",
            "XA COMMIT",
            "XA RECOVER",
            "XA PREPARE X'6731',X'',1",
            "XA BEGIN X'6731',X'',1",
            "XA START\tX'6731',X'',1",
            "XA START X'6731',X'',1;",
            "XA START X'6731',X'',1 ;",
            "XA COMMIT X'6731',X'',1 ONE PHASE",
            "XA START X'6731',X'',1 JOIN",
            "XA STARTX'6731',X'',1",
            "XA START 'g1','',1",
            "XA START X'6731',X''",
            "XA START X'6731',1",
            "XA START X'6731'",
            "XA START X'6731,X'',1",
            "XA START X6731',X'',1",
            "XA START X'6731',X',1",
            "XA START X'6731',X'',",
            "XA START X'6731',X'',x",
            "XA START X'6731',X'',+1",
            "XA START X'6731',X'',-1",
            "XA START X'6731',X'',1.",
            "XA START X'6731',X'',1 1",
            "XA START X'6731' ,X'',1",
            "XA START X'6731',X'' ,1",
            "XA START X '6731',X'',1",
            "XA START X' 6731',X'',1",
            "XA START X'67 31',X'',1",
            "XA START X'6731 ',X'',1",
            "XA START X'6731',\tX'',1",
            "XA START X'673',X'',1",
            "XA START X'673g',X'',1",
            "XA START X'6731',X'0',1",
            "XA START Y'6731',X'',1",
            "XA START 0x6731,X'',1",
            "XA START X\"6731\",X\"\",1",
            "XA START X'6731';X'',1",
            "XA START X'6731',,X'',1",
            "XA START X'',X'',4294967296",
            "XA START X'',X'',9999999999",
            "XA START X'',X'',00000000001",
            "XA START X'',X'',10000000000",
            "XA START XA START X'6731',X'',1",
            "XA START X'ababababababababababababababababababababababababababababababababababababababababababababababababababababababababababababababababab',X'',1",
            "XA START X'',X'ababababababababababababababababababababababababababababababababababababababababababababababababababababababababababababababababab',1",
        ],
    );
}

#[test]
fn texts_of_xa_verbs(rt: HostRuntime) -> Result<(), Fail> {
    let mut into = Buffer::new(rt.alloc());
    write(
        &rt,
        &mut into,
        Verb::XaStart(g1()),
        "XA START X'6731',X'',1",
    )?;
    write(&rt, &mut into, Verb::XaEnd(g1()), "XA END X'6731',X'',1")?;
    write(
        &rt,
        &mut into,
        Verb::XaCommit(g1()),
        "XA COMMIT X'6731',X'',1",
    )?;
    write(
        &rt,
        &mut into,
        Verb::XaRollback(g1()),
        "XA ROLLBACK X'6731',X'',1",
    )?;
    assert_eq!(rt; into.len(), 22 + 20 + 23 + 25);
    write(
        &rt,
        &mut into,
        Verb::XaEnd(xid(b"\x00\xff", b"\xa0\x0b", 0)),
        "XA END X'00ff',X'a00b',0",
    )?;
    let long = xid(&[0x5c; GTRID_MAX], &[0xe7; GTRID_MAX], 4294967295);
    write(
        &rt,
        &mut into,
        Verb::XaRollback(long),
        "XA ROLLBACK X'5c5c5c5c5c5c5c5c5c5c5c5c5c5c5c5c5c5c5c5c5c5c5c5c5c5c5c5c5c5c5c5c5c5c5c5c5c5c5c5c5c5c5c5c5c5c5c5c5c5c5c5c5c5c5c5c5c5c5c5c5c5c5c5c',X'e7e7e7e7e7e7e7e7e7e7e7e7e7e7e7e7e7e7e7e7e7e7e7e7e7e7e7e7e7e7e7e7e7e7e7e7e7e7e7e7e7e7e7e7e7e7e7e7e7e7e7e7e7e7e7e7e7e7e7e7e7e7e7e7',4294967295",
    )?;
    assert_eq!(rt; into.len(), 22 + 20 + 23 + 25 + 24 + 286);
    Ok(())
}
