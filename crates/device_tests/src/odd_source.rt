//! A source that tells another length than it has, and reads in small pieces.

ghost use Rattle.std.specs.Prelude.{◌≡◌, ◌≤◌, ◌^◌, false, [], ◌∷◌, sum};

use cdc_base::{Blob, Place};
use cdc_outside::{Failed, Source, highest_place, lowest_place};

/// One file, which has grown or shrunk since its length was told.
#[derive(Drop)]
pub struct OddSource {
    bytes: Blob,
    told: u64,
    /// The most bytes that one read gives.
    step: usize,
    lowest: Option<Place>,
    highest: Option<Place>,
    ghost within: { sum (told ∷ []) ≤ 2 ^ 54 },
}

impl OddSource {
    pub fn new(bytes: Blob, told: u32, step: usize) -> OddSource {
        OddSource {
            bytes,
            told: told as u64,
            step,
            lowest: None,
            highest: None,
        }
    }

    /// The byte of the greatest place that was asked for, 0 where there is none.
    pub fn asked(&self) -> u64 {
        match self.highest {
            Some(place) => place.at,
            None => 0,
        }
    }
}

impl Source for OddSource {
    ghost tells = { false };

    ghost held = { λ _. [] };

    ghost sizes = { λ source. source.told ∷ [] };

    ghost lowest = { λ source. source.lowest };

    ghost highest = { λ source. source.highest };

    ghost faults = { λ _. 0 };

    ghost limit = { λ source. source.within };

    ghost sizes_are_lengths = { λ source told. Prim.cc };

    fn files(&mut self) -> Result<u32, Failed> {
        Ok(1)
    }

    fn length(&mut self, _file: u32) -> Result<u64, Failed> {
        Ok(self.told)
    }

    fn read_at(&mut self, file: u32, at: u64, into: &mut [u8]) -> Result<usize, Failed> {
        self.lowest = lowest_place(self.lowest, file, at);
        self.highest = highest_place(self.highest, file, at, into.len());
        let bytes = self.bytes.bytes();
        let start = at.min(bytes.len() as u64) as usize;
        let read = into.len().min(bytes.len() - start).min(self.step);
        into[..read].copy_from_slice(&bytes[start..start + read]);
        Ok(read)
    }
}
