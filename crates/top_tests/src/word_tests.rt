//! The words of the command line.

use crate::call::{ROOMY, Room, call_alone, call_plain, print_words};
use crate::nodes::{ROOM, nodes_of};
use std::test::Fail;

/// Words that are no command, a line each; the first line has none.
const REFUSED: &str = "
print
print -x
print ''
print n1 -x
prints n1
PRINT n1
'' n1
--help print
--version --help
-h
--HELP
run
run c d
run -c
run c --order
run c --threads
list
list c d
serve c
follow c
split c
purge c 1 1
seek c 1 1
drill 1 1 1 --threads";

#[test]
fn words_that_are_no_command_are_refused(rt: HostRuntime) -> Result<(), Fail> {
    for words in REFUSED.lines() {
        let seen = call_alone(rt.alloc(), words, &ROOMY)?;
        assert!(rt; seen.is(2, b"", b"cdc: usage\n"), "{words}");
    }
    Ok(())
}

/// What `--help` writes.
const HELP: &str =
    "cdc print FILE ..: print the settled transactions of 1 to 256 nodes, one file a node\n\
    cdc run CONFIG [--order N]: publish what is settled to each output\n\
    cdc list CONFIG: print what each output has published\n\
    cdc drill SEED NODES COUNT [--order N]: print what one pass over made logs publishes\n\
    cdc serve CONFIG [--connections N]: serve each output's published files at its address\n\
    cdc --help: print the commands\n\
    cdc --version: print the name and the version\n";

/// Words, and the texts that they print.
const TEXTS: [(&str, &str); 2] = [("--help", HELP), ("--version", "cdc 0.1.0\n")];

/// A sink whose first write fails.
const FAILING: Room<'static> = Room {
    out: ROOM,
    fails: &[1],
    err: 100,
};

#[test]
fn texts_are_printed(rt: HostRuntime) -> Result<(), Fail> {
    for (word, text) in TEXTS {
        let seen = call_alone(rt.alloc(), word, &ROOMY)?;
        assert!(rt; seen.is(0, text.as_bytes(), b""), "{word}");
        let seen = call_alone(rt.alloc(), word, &FAILING)?;
        assert!(rt; seen.is_front(9, text.as_bytes(), b"cdc: sink\n"), "{word}");
    }
    Ok(())
}

#[test]
fn no_more_than_256_files_are_taken(rt: HostRuntime) -> Result<(), Fail> {
    let words = print_words(rt.alloc(), 257)?;
    let seen = call_alone(rt.alloc(), words.as_str(), &ROOMY)?;
    assert!(rt; seen.is(2, b"", b"cdc: usage\n"));
    Ok(())
}

/// Less room than a line has.
const SHORT: Room<'static> = Room {
    out: ROOM,
    fails: &[],
    err: 10,
};

/// No room for a line.
const NONE: Room<'static> = Room {
    out: ROOM,
    fails: &[],
    err: 0,
};

// The answer doesn't change where its line can't be written.
#[test]
fn a_line_that_cannot_be_written_is_let_be(rt: HostRuntime) -> Result<(), Fail> {
    let seen = call_alone(rt.alloc(), "", &SHORT)?;
    assert!(rt; seen.is(2, b"", b"") && seen.err_faults == 1);
    let mut nodes = nodes_of(rt.alloc(), "H X")?;
    let seen = call_plain(rt.alloc(), "print n", &mut nodes, &NONE)?;
    assert!(rt; seen.is(3, b"", b"") && seen.err_faults == 1);
    Ok(())
}
