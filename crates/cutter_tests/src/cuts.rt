//! Logs in pieces.

use crate::shown::{answers, drain, feed, next_file};
use cdc_base::Place;
use cdc_cutter::Cutter;
use cdc_samples::Log;
use std::alloc::Global;
use std::test::Fail;

/// Each log with its answers: the events, each with its place, end, type and the setting behind it, and what stands behind
/// them.
const LOGS: &str = " = need
fe6269 = need
fe62696e = need
fe62696f = 1:0 BadMagic
00000000 M F0 = 1:0 BadMagic
M F0 = 1:4-123 15 0, need
M F0 S(g1) E(g1) R(g1) = 1:4-123 15 0, 1:123-178 2 0, 1:178-231 2 0, 1:231-265 38 0, need
H Pr(g1) O(g2,20) C(g1,10) A(g3) B(30) Lr Q(COMMIT) D(DDL::d1::x) X = 1:4-123 15 0, 1:123-178 2 0, 1:178-217 19 0, 1:217-253 30 0, 1:253-306 2 0, 1:306-340 38 0, 1:340-368 200 0, 1:368-423 2 0, 1:423-462 19 0, 1:462-498 30 0, 1:498-551 2 0, 1:551-585 38 0, 1:585-613 200 0, 1:613-669 2 0, 1:669-727 2 0, 1:727-755 200 0, 1:755-793 2 0, 1:793-832 19 0, 1:832-868 30 0, 1:868-895 16 0, 1:895-934 2 0, 1:934-964 29 0, 1:964-991 16 0, need
M F1 S(g1)+ E(g1)+ R(g1)+ = 1:4-123 15 1, 1:123-182 2 1, 1:182-239 2 1, 1:239-277 38 1, need
M F0 S(g1) F1 S(g1)+ F0 T(10) = 1:4-123 15 0, 1:123-178 2 0, 1:178-297 15 1, 1:297-356 2 1, 1:356-475 15 0, 1:475-503 200 0, need
M F0 h(2,18) = 1:4-123 15 0, 1:123 Event(ShortLength(18))
M F0 05000000020900000012000000000000000000 S(g1) = 1:4-123 15 0, 1:123 Event(ShortLength(18))
M F0 050000000209000000120000000000000000 = 1:4-123 15 0, need
M F0 h(2,0) S(g1) = 1:4-123 15 0, 1:123 Event(ShortLength(0))
M F0 h(2,4294967295) = 1:4-123 15 0, 1:123 Event(TooLong(4294967295))
M F0 h(2,134217729) = 1:4-123 15 0, 1:123 Event(TooLong(134217729))
M F0 h(2,134217728) = 1:4-123 15 0, need
M F1 h(2,22) = 1:4-123 15 1, 1:123 Event(ShortLength(22))
M F1 h(2,23) = 1:4-123 15 1, need
M F0 h(2,22) = 1:4-123 15 0, need
M F0 h(2,22) 000000 = 1:4-123 15 0, 1:123 Event(BadBody(2))
M F0 h(40,19) = 1:4-123 15 0, 1:123 Event(Compressed)
M F0 h(39,21) 0000 = 1:4-123 15 0, 1:123 Event(Partial)
M F1 h(15,19) = 1:4-123 15 1, 1:123 Event(BadFormat)
M F1 h(15,22) 0000 = 1:4-123 15 1, need
M F1 h(15,22) 000000 = 1:4-123 15 1, 1:123 Event(BadFormat)
M F1 h(15,18) = 1:4-123 15 1, 1:123 Event(ShortLength(18))
M S(g1) = 1:4 Event(BadFormat)
M h(2,18) = 1:4 Event(ShortLength(18))
M h(2,22) = need
M h(2,22) 000000 = 1:4 Event(BadFormat)
M h(3,19) = 1:4 Event(BadFormat)
M h(40,19) = 1:4 Event(BadFormat)
M M F0 = 1:4 Event(ShortLength(9))
M F0 h(3,19) h(3,20) 00 h(3,19) = 1:4-123 15 0, 1:123-142 3 0, 1:142-162 3 0, 1:162-181 3 0, need";

/// Some 600 bytes of a log, which turn the setting twice.
const LONG: &str = "M F0 S(g1) E(g1) R(g1) F1 S(g1)+ E(g1)+ R(g1)+ T(10)+ K(g1)+";

/// What it is cut into.
const LONG_EVENTS: &str =
    "1:4-123 15 0, 1:123-178 2 0, 1:178-231 2 0, 1:231-265 38 0, 1:265-384 15 1, 1:384-443 2 1, 1:443-500 2 1, 1:500-538 38 1, 1:538-570 200 1, 1:570-630 2 1, need";

#[test]
fn logs_are_cut_whatever_the_pieces(rt: HostRuntime) -> Result<(), Fail> {
    let alloc = rt.alloc();
    for row in LOGS.lines() {
        let (words, wanted) = row.split_once("= ").ok_or("no answers")?;
        let log = Log::of(alloc, words)?;
        for size in [1, 2, 3, 4, 5, 18, 19, 20, 64, 1_000] {
            let mut cutter = Cutter::new(alloc)?;
            let told = answers(alloc, &mut cutter, log.bytes(), size)?;
            assert_eq!(&rt; told.as_str(), wanted, "{words} in pieces of {size}");
        }
    }
    Ok(())
}

// The answers to a log in two pieces.
fn in_two(alloc: Global, log: &[u8], at: usize) -> Result<String, Fail> {
    let (front, rest) = log.split_at_checked(at).ok_or("no such place")?;
    let mut cutter = Cutter::new(alloc)?;
    let mut told = String::new(alloc);
    feed(&mut cutter, front)?;
    drain(alloc, &mut cutter, &mut told)?;
    feed(&mut cutter, rest)?;
    let last = drain(alloc, &mut cutter, &mut told)?;
    told.push_str(&last)?;
    Ok(told)
}

#[test]
fn each_cut_into_two_gives_the_same_events(rt: HostRuntime) -> Result<(), Fail> {
    let log = Log::of(rt.alloc(), LONG)?;
    assert_eq!(&rt; log.bytes().len(), 630);
    for at in 0..log.bytes().len() {
        let told = in_two(rt.alloc(), log.bytes(), at)?;
        assert_eq!(&rt; told.as_str(), LONG_EVENTS, "cut at {at}");
    }
    Ok(())
}

// The end and the setting that the text of an event tells.
fn end_of(event: &str) -> Result<(usize, u8), Fail> {
    let mut fields = event.split_whitespace();
    let places = fields.next().ok_or("no places")?;
    let (_, end) = places.split_once("-").ok_or("no end")?;
    let setting = fields.nth(1).ok_or("no setting")?;
    Ok((end.parse::<usize>()?, setting.parse::<u8>()?))
}

// The events that end behind one byte and up to another.
fn events_between(alloc: Global, from: usize, to: usize) -> Result<String, Fail> {
    let mut told = String::new(alloc);
    for event in LONG_EVENTS.split(", ") {
        if event == "need" {
            break;
        }
        let end = end_of(event)?.0;
        if from < end && end <= to {
            told.push_str(event)?;
            told.push_str(", ")?;
        }
    }
    told.push_str("need")?;
    Ok(told)
}

#[test]
fn a_front_has_the_events_that_end_in_it(rt: HostRuntime) -> Result<(), Fail> {
    let log = Log::of(rt.alloc(), LONG)?;
    for bytes in 0..log.bytes().len() {
        let front = log.bytes().get(..bytes).ok_or("no such front")?;
        let mut cutter = Cutter::new(rt.alloc())?;
        let told = answers(rt.alloc(), &mut cutter, front, 1_000)?;
        assert_eq!(&rt;
            told,
            events_between(rt.alloc(), 0, bytes)?,
            "{bytes} bytes"
        );
    }
    Ok(())
}

#[test]
fn from_an_events_end_on_the_events_behind_it_are_read(rt: HostRuntime) -> Result<(), Fail> {
    let log = Log::of(rt.alloc(), LONG)?;
    for event in LONG_EVENTS.split(", ") {
        if event == "need" {
            return Ok(());
        }
        let (at, checksum) = end_of(event)?;
        if checksum > 1 || at > 1_000 {
            return Err("no such setting")?;
        }
        let rest = log.bytes().get(at..).ok_or("no such end")?;
        let place = Place {
            file: 1,
            at: at as u64,
        };
        let mut cutter = Cutter::resumed(rt.alloc(), place, checksum)?;
        let told = answers(rt.alloc(), &mut cutter, rest, 7)?;
        assert_eq!(&rt;
            told,
            events_between(rt.alloc(), at, log.bytes().len())?,
            "from {at}"
        );
    }
    Ok(())
}

/// Where a reading is resumed, the setting, what is fed, and the answers.
const RESUMED: &str = "0 1 M F0 S(g1) = 1:4-123 15 0, 1:123-178 2 0, need
0 1 M h(2,22) = need
0 1 fe62696f = 1:0 BadMagic
123 1 h(3,19) = 1:123 Event(ShortLength(19))
123 0 h(3,19) = 1:123-142 3 0, need
4 0 S(g1) = 1:4-59 2 0, need
4 1 S(g1)+ F0 S(g1) = 1:4-63 2 1, 1:63-182 15 0, 1:182-237 2 0, need";

#[test]
fn a_reading_goes_on_under_the_setting_that_it_is_given(rt: HostRuntime) -> Result<(), Fail> {
    for row in RESUMED.lines() {
        let (given, wanted) = row.split_once(" = ").ok_or("no answers")?;
        let mut words = given.splitn(3, " ");
        let at = words.next().ok_or("no place")?.parse::<u32>()?;
        let checksum = words.next().ok_or("no setting")?.parse::<u8>()?;
        if checksum > 1 {
            return Err("no such setting")?;
        }
        let log = Log::of(rt.alloc(), words.next().ok_or("no log")?)?;
        let place = Place {
            file: 1,
            at: u64::from(at),
        };
        let mut cutter = Cutter::resumed(rt.alloc(), place, checksum)?;
        assert_eq!(&rt;
            answers(rt.alloc(), &mut cutter, log.bytes(), 5)?.as_str(),
            wanted,
            "{row}"
        );
    }
    Ok(())
}

/// Files one behind another, and the answers of each.
const FILES: &str =
    "M F1 S(g1)+ / M F0 S(g1) = 1:4-123 15 1, 1:123-182 2 1, need; 2:4-123 15 0, 2:123-178 2 0, need;
M F0 S(g1) / M F1 S(g1)+ = 1:4-123 15 0, 1:123-178 2 0, need; 2:4-123 15 1, 2:123-182 2 1, need;
M F1 S(g1)+ / M h(2,22) = 1:4-123 15 1, 1:123-182 2 1, need; need;
M F1 S(g1)+ / M S(g1)+ = 1:4-123 15 1, 1:123-182 2 1, need; 2:4 Event(BadFormat);
M F0 0500000002 / M F1 = 1:4-123 15 0, need; 2:4-123 15 1, need;
M F0 / fe62 / M F0 = 1:4-123 15 0, need; need; 3:4-123 15 0, need;
M F0 / S(g1) / M F0 = 1:4-123 15 0, need; 2:0 BadMagic; 2:0 BadMagic;
M F0 h(2,18) / M F0 = 1:4-123 15 0, 1:123 Event(ShortLength(18)); 1:123 Event(ShortLength(18));";

#[test]
fn each_file_begins_anew_but_after_a_fault(rt: HostRuntime) -> Result<(), Fail> {
    for row in FILES.lines() {
        let (files, wanted) = row.split_once(" = ").ok_or("no answers")?;
        let mut cutter = Cutter::new(rt.alloc())?;
        let mut told = String::new(rt.alloc());
        for (number, file) in files.split(" / ").enumerate() {
            if number > 0 {
                next_file(&mut cutter)?;
                told.push_str(" ")?;
            }
            let log = Log::of(rt.alloc(), file)?;
            told.push_str(&answers(rt.alloc(), &mut cutter, log.bytes(), 11)?)?;
            told.push_str(";")?;
        }
        assert_eq!(&rt; told.as_str(), wanted, "{files}");
    }
    Ok(())
}
