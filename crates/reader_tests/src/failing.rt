//! Sources that fail.

use crate::given::{given, source_of};
use cdc_reader::Reader;
use std::alloc::Global;
use std::test::Fail;

/// A log of two files.
const LOG: &str = "H P(g1) P(g2) C(g2,20) |H C(g1,10) B(30)";

/// What it gives where no call fails.
const WHOLE: &str = "10:49#4/0 20:50#3/0 =20 =30 .whole";

/// What is given where a call fails, and what is given then where the reader is asked again, with a blank between them.
fn given_failing(alloc: Global, call: u64) -> Result<String, Fail> {
    let mut source = source_of(alloc, LOG, &[call])?;
    let mut reader = Reader::new(alloc, 1)?;
    let mut told = given(alloc, &mut reader, &mut source, 100, 100)?;
    told.push_str(" ")?;
    let again = given(alloc, &mut reader, &mut source, 100, 100)?;
    told.push_str(&again)?;
    Ok(told)
}

/// A reading that ends with the failure has given a front of what the whole one does, and gives no more.
#[test]
fn the_source_fails_at_each_call(rt: HostRuntime) -> Result<(), Fail> {
    let mut failed = 0_u32;
    let mut call = 1_u64;
    for _ in 0..60 {
        let told = given_failing(rt.alloc(), call)?;
        match told.as_str().strip_suffix(".read .read") {
            Some(front) => {
                assert!(&rt; WHOLE.starts_with(front), "call {call}: {told}");
                failed = failed.saturating_add(1);
            }
            None => {
                let whole = told.as_str().strip_suffix(" .whole").ok_or("another end")?;
                assert_eq!(&rt; whole, WHOLE, "call {call}");
            }
        }
        call = call.wrapping_add(1);
    }
    assert!(&rt; failed > 12, "few calls failed");
    Ok(())
}
