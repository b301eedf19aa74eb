//! Sources that share a clock.

ghost use Rattle.std.specs.Prelude.{false, []};

use cdc_outside::{Failed, Source};
use std::alloc::Global;
use std::sync::Arc;
use std::sync::atomic::{AtomicU64, Ordering};

/// A source whose reads each draw the next number of a counter that it shares with others.
#[derive(Drop)]
pub struct ClockedSource<S> {
    source: S,
    reads: Arc<AtomicU64, Global>,
    first: Option<u64>,
}

impl<S: Source> ClockedSource<S> {
    pub fn new(source: S, reads: Arc<AtomicU64, Global>) -> ClockedSource<S> {
        ClockedSource {
            source,
            reads,
            first: None,
        }
    }

    /// The number of its first read, from 0 on.
    pub fn first(&self) -> Option<u64> {
        self.first
    }
}

impl<S: Source> Source for ClockedSource<S> {
    ghost tells = { false };

    ghost held = { λ _. [] };

    ghost sizes = { λ source. S.sizes source.source };

    ghost lowest = { λ source. S.lowest source.source };

    ghost highest = { λ source. S.highest source.source };

    ghost faults = { λ source. S.faults source.source };

    ghost limit = { λ source. S.limit source.source };

    ghost sizes_are_lengths = { λ source told. Prim.cc };

    fn files(&mut self) -> Result<u32, Failed> {
        self.source.files()
    }

    fn length(&mut self, file: u32) -> Result<u64, Failed> {
        self.source.length(file)
    }

    fn read_at(&mut self, file: u32, at: u64, into: &mut [u8]) -> Result<usize, Failed> {
        let number = self.reads.fetch_add(1, Ordering::SeqCst);
        self.first = self.first.or(Some(number));
        self.source.read_at(file, at, into)
    }
}
