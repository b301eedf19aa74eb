//! A sink in memory.

ghost use Rattle.std.specs.Prelude.{◌≡◌, ◌≤◌, [], ◌++◌, true, vec_len, IfOk, OnOk, OnErr};
ghost use Rattle.std.specs.Vec.{vec_capacity};
ghost use Rattle.cdc_outside.specs.Count.{RisesOnErr};
ghost use Rattle.cdc_memory.specs.Calls.{at_first, Counts};

use crate::calls::CallPlan;
use cdc_base::Memory;
use cdc_outside::{Failed, Sink};
use std::alloc::Global;

/// Bytes in memory up to a room, whose listed calls fail.
#[derive(Debug, Drop)]
pub struct MemSink {
    bytes: Vec<u8>,
    room: usize,
    calls: CallPlan,
    ghost reserved: { room ≤ vec_capacity bytes },
    ghost within: { vec_len bytes ≤ room },
}

impl MemSink {
    ghost use Rattle.cdc_memory.specs.Sink.{written_of, sink_room, sink_calls_of};

    /// Nothing was written, and there is room for `room` bytes. The k-th write (from 1) fails for each k of
    /// `fails`, a write past the room fails, and no other does.
    pub fn new(alloc: Global, room: usize, fails: &[u64]) -> Result<MemSink, Memory>
        ensures written { IfOk result (λ sink. written_of sink ≡ []) }
        ensures room { IfOk result (λ sink. sink_room sink ≡ room) }
        ensures calls { IfOk result (λ sink. sink_calls_of sink ≡ at_first fails.now) }
    {
        Ok(MemSink {
            bytes: Vec::with_capacity(alloc, room)?,
            room,
            calls: CallPlan::new(alloc, fails)?,
        })
    }

    /// All that was written.
    pub fn written(&self) -> &[u8]
        ensures { result.now ≡ written_of self.now }
    {
        &self.bytes
    }

    /// How many writes failed.
    pub fn faults(&self) -> u64
        ensures { result ≡ (sink_calls_of self.now).faults }
    {
        self.calls.faults()
    }
}

impl Sink for MemSink {
    ghost use Rattle.cdc_memory.specs.Sink.{written_of, sink_room, sink_calls_of, is_past_room};

    ghost tells = { true };

    ghost written = { written_of };

    ghost faults = { λ sink. (sink_calls_of sink).faults };

    /// A write that fails writes nothing.
    fn write(&mut self, bytes: &[u8]) -> Result<(), Failed>
        ensures ok { OnOk result (written_of self.new ≡ written_of self.old ++ bytes.now) }
        ensures err { OnErr result (written_of self.new ≡ written_of self.old) }
        ensures room { sink_room self.new ≡ sink_room self.old }
        ensures faults { RisesOnErr (sink_calls_of self.old).faults (sink_calls_of self.new).faults result }
        ensures call { Counts (is_past_room self.old bytes.now) (sink_calls_of self.old) (sink_calls_of self.new) result }
    {
        let past_room = bytes.len() > self.room - self.bytes.len();
        self.calls.count(past_room)?;
        self.bytes.extend_from_slice(bytes).unwrap();
        Ok(())
    }
}
