//! A door in memory whose calls never fail.

ghost use Rattle.std.specs.Prelude.{◌≡◌, ◌≤◌, ◌<◌, ◌∷◌, ◌++◌, true, false, IsTrue, [], All, length, drop, map, vec_len, IfOk, IfSome, IfNone, OnErr, IsOk};
ghost use Rattle.std.specs.Vec.{vec_capacity};
ghost use Rattle.cdc_outside.specs.Door.{Shuts};
ghost use Rattle.cdc_memory.specs.Link.{IsNewPureLink};
ghost use Rattle.cdc_memory.specs.Returned.{pure_inputs_of, pure_served_entry};

use crate::link::PureLink;
use crate::returned::Returned;
use cdc_base::{Blob, Memory};
use cdc_outside::{Door, Failed};
use std::alloc::Global;
use std::collections::VecDeque;

/// A door in memory, which gives its links in order, and whose calls never fail.
#[derive(Debug, Drop)]
pub struct PureDoor {
    waiting: VecDeque<PureLink>,
    inputs: Vec<Blob>,
    given: usize,
    returned: Vec<Returned<PureLink>>,
    shut: bool,
    ghost fresh: { All IsNewPureLink waiting.items },
    ghost in_order: { pure_inputs_of waiting.items ≡ drop given inputs.items },
    ghost given_within: { given ≤ vec_len inputs },
    ghost returned_within: { vec_len returned ≤ given },
    ghost reserved: { vec_len inputs ≤ vec_capacity returned },
    ghost at_end: { IsTrue shut → waiting.items ≡ [] },
}

impl PureDoor {
    ghost use Rattle.cdc_memory.specs.Door.{pure_waiting_of, pure_handed_of, pure_served_of, pure_shut_of};

    /// These links are to be given out, from the first on; there is room for each to come back.
    pub fn new(alloc: Global, links: Vec<PureLink>) -> Result<PureDoor, Memory>
        requires { All IsNewPureLink links.items }
        ensures waiting { IfOk result (λ door. pure_waiting_of door ≡ links.items) }
        ensures handed { IfOk result (λ door. pure_handed_of door ≡ []) }
        ensures served { IfOk result (λ door. pure_served_of door ≡ []) }
        ensures shut { IfOk result (λ door. pure_shut_of door ≡ false) }
    {
        let inputs = pure_shared_inputs(alloc, &links)?;
        let returned = Vec::with_capacity(alloc, inputs.len())?;
        Ok(PureDoor {
            waiting: VecDeque::from(links),
            inputs,
            given: 0,
            returned,
            shut: false,
        })
    }

    /// The links that were handed back, in order.
    pub fn returned(&self) -> &[Returned<PureLink>]
        ensures { map pure_served_entry result.now ≡ pure_served_of self.now }
    {
        &self.returned
    }
}

/// The inputs of links, in order, shared with them.
fn pure_shared_inputs(alloc: Global, links: &[PureLink]) -> Result<Vec<Blob>, Memory>
    ensures { IfOk result (λ inputs. inputs.items ≡ pure_inputs_of links.now) }
{
    let mut inputs = Vec::with_capacity(alloc, links.len())?;
    for link in links {
        inputs.push(link.input()?)?;
    }
    Ok(inputs)
}

impl Door for PureDoor {
    ghost use Rattle.cdc_memory.specs.Door.{pure_waiting_of, pure_handed_of, pure_served_of, pure_shut_of, pure_served_few};

    type L = PureLink;

    ghost tells = { true };

    ghost shut = { pure_shut_of };

    ghost handed = { pure_handed_of };

    ghost served = { pure_served_of };

    ghost faults = { λ _. 0 };

    ghost served_within = { λ door _. pure_served_few door };

    ghost links_tell = { λ told. told };

    fn next(&mut self) -> Result<Option<PureLink>, Failed>
        ensures never { IsOk result }
        ensures shut { Shuts (pure_shut_of self.old) (pure_shut_of self.new) result }
        ensures some { IfOk result (λ given. IfSome given (λ link.
            IsNewPureLink link × (pure_waiting_of self.old ≡ link ∷ pure_waiting_of self.new)
            × (pure_handed_of self.new ≡ pure_handed_of self.old ++ pure_inputs_of (link ∷ [])))) }
        ensures none { IfOk result (λ given. IfNone given ((pure_waiting_of self.old ≡ []) × (pure_handed_of self.new ≡ pure_handed_of self.old))) }
        ensures served { pure_served_of self.new ≡ pure_served_of self.old }
    {
        match self.waiting.pop_front() {
            Some(link) => {
                self.given += 1;
                Ok(Some(link))
            }
            None => {
                self.shut = true;
                Ok(None)
            }
        }
    }

    fn back(&mut self, link: PureLink, end: u8)
        requires { length (pure_served_of self.old) < length (pure_handed_of self.old) }
        ensures served { pure_served_of self.new ≡ pure_served_of self.old ++ pure_served_entry (record { link = link; ending = end }) ∷ [] }
        ensures handed { pure_handed_of self.new ≡ pure_handed_of self.old }
        ensures waiting { pure_waiting_of self.new ≡ pure_waiting_of self.old }
        ensures shut { pure_shut_of self.new ≡ pure_shut_of self.old }
    {
        self.returned.push(Returned { link, ending: end }).unwrap();
    }
}
