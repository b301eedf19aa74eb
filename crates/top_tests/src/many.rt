//! Logs of many pairs.

use cdc_samples::{Log, NotMade};
use std::alloc::Global;

/// A log of so many pairs, whose ids are the numbers from 0 in 4 bytes, and whose timestamps are those from 1.
pub fn many_pairs(alloc: Global, count: u32) -> Result<Log, NotMade> {
    let mut log = Log::new(alloc);
    log.head()?;
    for number in 0..count {
        let id = number.to_be_bytes();
        log.prepare(&id)?;
        log.commit(&id, u64::from(number) + 1)?;
    }
    Ok(log)
}
