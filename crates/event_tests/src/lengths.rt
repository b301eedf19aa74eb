//! Lengths, under both checksum settings.

ghost use Rattle.std.specs.Prelude.{◌≤◌};

use cdc_event::{EventFault, check_length};
use cdc_samples::events::header;
use std::test::Fail;

/// Type, length, and the answers under settings 0 and 1.
const LENGTHS: &str = "2 0 short short
2 18 short short
2 19 ok short
2 22 ok short
2 23 ok ok
40 22 ok short
15 18 short short
15 19 ok ok
15 22 ok ok
2 134217728 ok ok
2 134217729 long long
15 4294967295 long long";

fn said(kind: u8, length: u32, checksum: u8) -> &'static str
    requires { checksum ≤ 1 }
{
    match check_length(&header(kind, length), checksum) {
        Ok(()) => "ok",
        Err(EventFault::ShortLength(told)) if told == length => "short",
        Err(EventFault::TooLong(told)) if told == length => "long",
        Err(_) => "another",
    }
}

#[test]
fn a_length_is_checked_under_both_settings(rt: HostRuntime) -> Result<(), Fail> {
    for row in LENGTHS.lines() {
        let mut words = row.split_whitespace();
        let kind = words.next().ok_or("no type")?.parse::<u8>()?;
        let length = words.next().ok_or("no length")?.parse::<u32>()?;
        assert_eq!(rt;
            said(kind, length, 0),
            words.next().ok_or("no answer")?,
            "{row}"
        );
        assert_eq!(rt;
            said(kind, length, 1),
            words.next().ok_or("no answer")?,
            "{row}"
        );
    }
    Ok(())
}
