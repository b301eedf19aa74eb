//! Links in memory.

ghost use Rattle.std.specs.Prelude.{◌≡◌, ◌≤◌, ◌+◌, ◌-◌, ◌^◌, ◌++◌, ◌↔◌, true, false, IsTrue, [], length, min, IfOk, OnOk, OnErr, IsOk, IsErr};
ghost use Rattle.cdc_outside.specs.Count.{RisesOnErr};
ghost use Rattle.cdc_outside.specs.Link.{Receives};
ghost use Rattle.cdc_memory.specs.Calls.{at_first, counted, Counts};
ghost use Rattle.cdc_memory.specs.Wire.{wire_input, wire_left, wire_written, wire_room, is_past_wire};

use crate::calls::CallPlan;
use crate::wire::Wire;
use cdc_base::{Blob, Memory};
use cdc_outside::{Failed, Link};
use std::alloc::Global;

/// A link in memory, whose listed calls fail, and which has room for so many bytes that go out.
#[derive(Debug, Drop)]
pub struct MemLink {
    wire: Wire,
    calls: CallPlan,
}

impl MemLink {
    ghost use Rattle.cdc_memory.specs.Link.{wire_of, link_calls_of, IsNewLink};

    /// These bytes are to come in. The k-th call (from 1, of either kind) fails for each k of `fails`, a write past
    /// the room fails, and no other does.
    pub fn new(alloc: Global, input: &[u8], room: usize, fails: &[u64]) -> Result<MemLink, Memory>
        ensures fresh { IfOk result (λ link. IsNewLink link) }
        ensures input { IfOk result (λ link. wire_input (wire_of link) ≡ input.now) }
        ensures room { IfOk result (λ link. wire_room (wire_of link) ≡ room) }
        ensures calls { IfOk result (λ link. link_calls_of link ≡ at_first fails.now) }
    {
        Ok(MemLink {
            wire: Wire::new(alloc, input, room)?,
            calls: CallPlan::new(alloc, fails)?,
        })
    }

    /// All that went out.
    pub fn written(&self) -> &[u8]
        ensures { result.now ≡ wire_written (wire_of self.now) }
    {
        self.wire.written()
    }

    /// How many calls failed.
    pub fn faults(&self) -> u64
        ensures { result ≡ (link_calls_of self.now).faults }
    {
        self.calls.faults()
    }

    /// All bytes that come in, shared.
    pub fn input(&self) -> Result<Blob, Memory>
        ensures { IfOk result (λ input. input ≡ wire_input (wire_of self.now)) }
    {
        self.wire.input()
    }
}

impl Link for MemLink {
    ghost use Rattle.cdc_memory.specs.Link.{wire_of, link_calls_of};
    ghost use Rattle.cdc_memory.specs.Wire.{left_ends};

    ghost tells = { true };

    ghost input = { λ link. wire_input (wire_of link) };

    ghost left = { λ link. wire_left (wire_of link) };

    ghost written = { λ link. wire_written (wire_of link) };

    ghost faults = { λ link. (link_calls_of link).faults };

    ghost left_ends_input = { λ link _. left_ends (wire_of link) };

    fn read(&mut self, into: &mut [u8]) -> Result<usize, Failed>
        ensures ok { IfOk result (λ read. Receives (wire_left (wire_of self.old)) into.new read (wire_left (wire_of self.new))) }
        ensures full { IfOk result (λ read. read ≡ min (length into.old) (length (wire_left (wire_of self.old)))) }
        ensures err { OnErr result (wire_left (wire_of self.new) ≡ wire_left (wire_of self.old)) }
        ensures input { wire_input (wire_of self.new) ≡ wire_input (wire_of self.old) }
        ensures written { wire_written (wire_of self.new) ≡ wire_written (wire_of self.old) }
        ensures room { wire_room (wire_of self.new) ≡ wire_room (wire_of self.old) }
        ensures faults { RisesOnErr (link_calls_of self.old).faults (link_calls_of self.new).faults result }
        ensures call { Counts false (link_calls_of self.old) (link_calls_of self.new) result }
    {
        self.calls.count(false)?;
        Ok(self.wire.read(into))
    }

    /// A write that fails writes nothing.
    fn write(&mut self, bytes: &[u8]) -> Result<(), Failed>
        ensures ok { OnOk result (wire_written (wire_of self.new) ≡ wire_written (wire_of self.old) ++ bytes.now) }
        ensures err { OnErr result (wire_written (wire_of self.new) ≡ wire_written (wire_of self.old)) }
        ensures input { wire_input (wire_of self.new) ≡ wire_input (wire_of self.old) }
        ensures left { wire_left (wire_of self.new) ≡ wire_left (wire_of self.old) }
        ensures room { wire_room (wire_of self.new) ≡ wire_room (wire_of self.old) }
        ensures faults { RisesOnErr (link_calls_of self.old).faults (link_calls_of self.new).faults result }
        ensures call { Counts (is_past_wire (wire_of self.old) bytes.now) (link_calls_of self.old) (link_calls_of self.new) result }
    {
        let past_room = self.wire.is_past_room(bytes);
        self.calls.count(past_room)?;
        self.wire.write(bytes);
        Ok(())
    }
}

/// A link in memory of which no call fails but a write past its room.
#[derive(Debug, Drop)]
pub struct PureLink {
    wire: Wire,
    faults: u64,
}

impl PureLink {
    ghost use Rattle.cdc_memory.specs.Link.{pure_wire_of, IsNewPureLink};

    /// These bytes are to come in.
    pub fn new(alloc: Global, input: &[u8], room: usize) -> Result<PureLink, Memory>
        ensures fresh { IfOk result (λ link. IsNewPureLink link) }
        ensures input { IfOk result (λ link. wire_input (pure_wire_of link) ≡ input.now) }
        ensures room { IfOk result (λ link. wire_room (pure_wire_of link) ≡ room) }
    {
        Ok(PureLink {
            wire: Wire::new(alloc, input, room)?,
            faults: 0,
        })
    }

    /// All that went out.
    pub fn written(&self) -> &[u8]
        ensures { result.now ≡ wire_written (pure_wire_of self.now) }
    {
        self.wire.written()
    }

    /// All bytes that come in, shared.
    pub fn input(&self) -> Result<Blob, Memory>
        ensures { IfOk result (λ input. input ≡ wire_input (pure_wire_of self.now)) }
    {
        self.wire.input()
    }
}

impl Link for PureLink {
    ghost use Rattle.cdc_memory.specs.Link.{pure_wire_of, pure_faults_of};
    ghost use Rattle.cdc_memory.specs.Wire.{left_ends};

    ghost tells = { true };

    ghost input = { λ link. wire_input (pure_wire_of link) };

    ghost left = { λ link. wire_left (pure_wire_of link) };

    ghost written = { λ link. wire_written (pure_wire_of link) };

    ghost faults = { pure_faults_of };

    ghost left_ends_input = { λ link _. left_ends (pure_wire_of link) };

    fn read(&mut self, into: &mut [u8]) -> Result<usize, Failed>
        ensures never { IsOk result }
        ensures ok { IfOk result (λ read. Receives (wire_left (pure_wire_of self.old)) into.new read (wire_left (pure_wire_of self.new))) }
        ensures full { IfOk result (λ read. read ≡ min (length into.old) (length (wire_left (pure_wire_of self.old)))) }
        ensures input { wire_input (pure_wire_of self.new) ≡ wire_input (pure_wire_of self.old) }
        ensures written { wire_written (pure_wire_of self.new) ≡ wire_written (pure_wire_of self.old) }
        ensures room { wire_room (pure_wire_of self.new) ≡ wire_room (pure_wire_of self.old) }
        ensures faults { pure_faults_of self.new ≡ pure_faults_of self.old }
    {
        Ok(self.wire.read(into))
    }

    /// A write that fails writes nothing.
    fn write(&mut self, bytes: &[u8]) -> Result<(), Failed>
        ensures fails { IsErr result ↔ IsTrue (is_past_wire (pure_wire_of self.old) bytes.now) }
        ensures ok { OnOk result (wire_written (pure_wire_of self.new) ≡ wire_written (pure_wire_of self.old) ++ bytes.now) }
        ensures err { OnErr result (wire_written (pure_wire_of self.new) ≡ wire_written (pure_wire_of self.old)) }
        ensures input { wire_input (pure_wire_of self.new) ≡ wire_input (pure_wire_of self.old) }
        ensures left { wire_left (pure_wire_of self.new) ≡ wire_left (pure_wire_of self.old) }
        ensures room { wire_room (pure_wire_of self.new) ≡ wire_room (pure_wire_of self.old) }
        ensures faults { RisesOnErr (pure_faults_of self.old) (pure_faults_of self.new) result }
        ensures same { OnOk result (pure_faults_of self.new ≡ pure_faults_of self.old) }
        ensures rose { OnErr result (pure_faults_of self.new ≡ counted (pure_faults_of self.old)) }
    {
        if self.wire.is_past_room(bytes) {
            self.faults = self.faults.saturating_add(1);
            return Err(Failed);
        }
        self.wire.write(bytes);
        Ok(())
    }
}
