//! What a transaction appends to the output files.

use crate::layout::Layout;
use cdc_base::{Blob, Key};
use std::marker::Model;

/// A unit: the bytes that one transaction appends to one output file, as one run, with the transaction's number
/// and key, and where the output stands before and behind it.
#[derive(Debug, Drop)]
pub struct Unit {
    pub number: u64,
    pub key: Key,
    pub before: Layout,
    pub after: Layout,
    pub bytes: Blob,
}

impl Model for Unit {
    ghost use Rattle.cdc_model.specs.Records.{OutputUnit};

    ghost Value = { OutputUnit };

    ghost use Rattle.cdc_model.specs.Kept.{unit_seen, IsKeptUnit};

    ghost view = { unit_seen };

    ghost invariant = { IsKeptUnit };
}
