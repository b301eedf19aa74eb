//! Lines of words, and the commands that they are.

use crate::shown::command_shown;
use cdc_config::{Refusal, command_of};
use std::test::Fail;

// Each line's words, and what is answered.
const COMMANDS: &str = "\
print a = print 1
print a b c = print 3
run c = run c None false
run c --order 1 = run c Some(1) false
run c --threads = run c None true
run --help = Usage
list c = list c
serve c = serve c None
serve c --connections 0 = serve c Some(0)
follow c = follow c None
follow c --connections 7 = follow c Some(7)
split c = split c
purge c 1 2 = purge c 1 2
seek c 4 30 = seek c 4 30
drill 7 4 10000 = drill 7 4 10000 None false
drill 7 4 10000 --order 3 = drill 7 4 10000 Some(3) false
drill 7 4 10000 --threads = drill 7 4 10000 None true
drill 0 1 0 = drill 0 1 0 None false
drill 1 256 100000 = drill 1 256 100000 None false
--help = help
--version = version";

// Words that are no command: each with one word changed, missing, doubled or more.
const REFUSED: &str = "\
''
print
print -x
print ''
print a -x
prints a
PRINT a
'' a
run
run ''
run -c
run c d
run c --order
run c --order 1 2
run c --order x
run c --order 1 --order 1
run c --threads --threads
run c --threads 1
run c --order 1 --threads
run c --threads --order 1
run c --connections 1
run --order 1 c
run c --Threads
list
list c d
list -c
list c --threads
serve
serve c --connections
serve c --connections 1 --connections 1
serve c --order 1
serve c --threads
follow c --order 1
follow
split
split c 1
purge c
purge c 1
purge c 1 2 3
purge 1 2
purge c x 2
purge c 1 x
seek c 1
seek -c 1 2
seek c 1 -2
drill
drill 7 4
drill 7 4 1 1
drill 7 0 1
drill 7 257 1
drill 7 4 100001
drill x 4 1
drill 7 4 1 --order
drill 7 4 1 --order 1 --threads
drill 7 4 1 --connections 1
--help --version
--help --help
--version 1
--help run
help
-h";

// Numbers, each as the value of `--order`.
const NUMBERS: &str = "\
0 = run c Some(0) false
007 = run c Some(7) false
18446744073709551615 = run c Some(18446744073709551615) false
18446744073709551616 = Usage
00000000000000000001 = run c Some(1) false
000000000000000000001 = Usage
99999999999999999999 = Usage
+1 = Usage
-1 = Usage
1.0 = Usage
0x1 = Usage
1a = Usage
'' = Usage";

#[test]
fn each_command_is_read(rt: HostRuntime) -> Result<(), Fail> {
    for line in COMMANDS.lines() {
        let (words, wanted) = line.split_once(" = ").ok_or("a line")?;
        assert_eq!(rt;
            command_shown(rt.alloc(), words)?.as_str(),
            wanted,
            "at {words}"
        );
    }
    Ok(())
}

#[test]
fn other_words_are_no_command(rt: HostRuntime) -> Result<(), Fail> {
    for words in REFUSED.lines() {
        assert_eq!(rt;
            command_shown(rt.alloc(), words)?.as_str(),
            "Usage",
            "at {words}"
        );
    }
    assert!(rt; matches!(command_of(rt.alloc(), &[]), Err(Refusal::Usage)));
    Ok(())
}

#[test]
fn numbers_have_1_to_20_digits(rt: HostRuntime) -> Result<(), Fail> {
    for line in NUMBERS.lines() {
        let (number, wanted) = line.split_once(" = ").ok_or("a line")?;
        let words = format!(in rt.alloc(); "run c --order {number}")?;
        assert_eq!(rt;
            command_shown(rt.alloc(), words.as_str())?.as_str(),
            wanted,
            "at {number}"
        );
    }
    Ok(())
}
