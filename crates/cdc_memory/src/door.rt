//! A door in memory whose calls fail where they are told to.

ghost use Rattle.std.specs.Prelude.{◌≡◌, ◌≤◌, ◌<◌, ◌∷◌, ◌++◌, true, false, IsTrue, [], All, length, drop, map, vec_len, IfOk, IfSome, IfNone, OnErr};
ghost use Rattle.std.specs.Vec.{vec_capacity};
ghost use Rattle.cdc_outside.specs.Count.{RisesOnErr};
ghost use Rattle.cdc_outside.specs.Door.{Shuts};
ghost use Rattle.cdc_memory.specs.Calls.{at_first, Counts};
ghost use Rattle.cdc_memory.specs.Link.{IsNewLink};
ghost use Rattle.cdc_memory.specs.Returned.{inputs_of, served_entry};

use crate::calls::CallPlan;
use crate::link::MemLink;
use crate::returned::Returned;
use cdc_base::{Blob, Memory};
use cdc_outside::{Door, Failed};
use std::alloc::Global;
use std::collections::VecDeque;

/// A door in memory, which gives its links in order, and whose listed calls of `next` fail.
#[derive(Debug, Drop)]
pub struct MemDoor {
    waiting: VecDeque<MemLink>,
    inputs: Vec<Blob>,
    given: usize,
    returned: Vec<Returned<MemLink>>,
    calls: CallPlan,
    shut: bool,
    ghost fresh: { All IsNewLink waiting.items },
    ghost in_order: { inputs_of waiting.items ≡ drop given inputs.items },
    ghost given_within: { given ≤ vec_len inputs },
    ghost returned_within: { vec_len returned ≤ given },
    ghost reserved: { vec_len inputs ≤ vec_capacity returned },
    ghost at_end: { IsTrue shut → waiting.items ≡ [] },
}

impl MemDoor {
    ghost use Rattle.cdc_memory.specs.Door.{waiting_of, handed_of, served_of, door_calls_of, shut_of};

    /// These links are to be given out, from the first on; there is room for each to come back. The k-th call of
    /// `next` (from 1) fails for each k of `fails`, and no other does.
    pub fn new(alloc: Global, links: Vec<MemLink>, fails: &[u64]) -> Result<MemDoor, Memory>
        requires { All IsNewLink links.items }
        ensures waiting { IfOk result (λ door. waiting_of door ≡ links.items) }
        ensures handed { IfOk result (λ door. handed_of door ≡ []) }
        ensures served { IfOk result (λ door. served_of door ≡ []) }
        ensures calls { IfOk result (λ door. door_calls_of door ≡ at_first fails.now) }
        ensures shut { IfOk result (λ door. shut_of door ≡ false) }
    {
        let inputs = shared_inputs(alloc, &links)?;
        let returned = Vec::with_capacity(alloc, inputs.len())?;
        let calls = CallPlan::new(alloc, fails)?;
        Ok(MemDoor {
            waiting: VecDeque::from(links),
            inputs,
            given: 0,
            returned,
            calls,
            shut: false,
        })
    }

    /// The links that were handed back, in order.
    pub fn returned(&self) -> &[Returned<MemLink>]
        ensures { map served_entry result.now ≡ served_of self.now }
    {
        &self.returned
    }
}

/// The inputs of links, in order, shared with them.
fn shared_inputs(alloc: Global, links: &[MemLink]) -> Result<Vec<Blob>, Memory>
    ensures { IfOk result (λ inputs. inputs.items ≡ inputs_of links.now) }
{
    let mut inputs = Vec::with_capacity(alloc, links.len())?;
    for link in links {
        inputs.push(link.input()?)?;
    }
    Ok(inputs)
}

impl Door for MemDoor {
    ghost use Rattle.cdc_memory.specs.Door.{waiting_of, handed_of, served_of, door_calls_of, shut_of, served_few};

    type L = MemLink;

    ghost tells = { true };

    ghost shut = { shut_of };

    ghost handed = { handed_of };

    ghost served = { served_of };

    ghost faults = { λ door. (door_calls_of door).faults };

    ghost served_within = { λ door _. served_few door };

    ghost links_tell = { λ told. told };

    fn next(&mut self) -> Result<Option<MemLink>, Failed>
        ensures shut { Shuts (shut_of self.old) (shut_of self.new) result }
        ensures some { IfOk result (λ given. IfSome given (λ link.
            IsNewLink link × (waiting_of self.old ≡ link ∷ waiting_of self.new)
            × (handed_of self.new ≡ handed_of self.old ++ inputs_of (link ∷ [])))) }
        ensures none { IfOk result (λ given. IfNone given ((waiting_of self.old ≡ []) × (handed_of self.new ≡ handed_of self.old))) }
        ensures err { OnErr result ((waiting_of self.new ≡ waiting_of self.old) × (handed_of self.new ≡ handed_of self.old)) }
        ensures served { served_of self.new ≡ served_of self.old }
        ensures faults { RisesOnErr (door_calls_of self.old).faults (door_calls_of self.new).faults result }
        ensures call { Counts false (door_calls_of self.old) (door_calls_of self.new) result }
    {
        self.calls.count(false)?;
        match self.waiting.pop_front() {
            Some(link) => {
                self.given += 1;
                Ok(Some(link))
            }
            None => {
                self.shut = true;
                Ok(None)
            }
        }
    }

    fn back(&mut self, link: MemLink, end: u8)
        requires { length (served_of self.old) < length (handed_of self.old) }
        ensures served { served_of self.new ≡ served_of self.old ++ served_entry (record { link = link; ending = end }) ∷ [] }
        ensures handed { handed_of self.new ≡ handed_of self.old }
        ensures waiting { waiting_of self.new ≡ waiting_of self.old }
        ensures shut { shut_of self.new ≡ shut_of self.old }
        ensures calls { door_calls_of self.new ≡ door_calls_of self.old }
    {
        self.returned.push(Returned { link, ending: end }).unwrap();
    }
}
