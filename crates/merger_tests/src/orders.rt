//! Every order of turns of three nodes.

ghost use Rattle.std.specs.Prelude.{◌≡◌, ◌≤◌, ◌<◌, length};

use crate::told::{give, shared, tell};
use cdc_base::{Key, Steps, first_key};
use cdc_merger::Merger;
use std::alloc::Global;
use std::marker::Brand;
use std::sync::ledger::{Blank, Ledger};
use std::test::Fail;

/// How many turns the nodes have.
const TURNS: [usize; 3] = [4, 2, 3];

/// What all orders give. The local transaction of node 3 at 20 isn't settled at the bound 20.
const WANTED: &str = "1@5/12 11 21;2@7/32 31;3@20/13 12;";

// One turn of a node.
fn turn(merger: &mut Merger, node: u32, turn: usize) -> Result<(), Fail>
    requires { length merger.old.nodes ≡ 3 }
    ensures { length merger.new.nodes ≡ 3 }
{
    match (node, turn) {
        (1, 0) => give(merger, 1, &shared(5, b'a').ok_or("id")?, 11)?,
        (1, 1) => merger.bound(1, 6),
        (1, 2) => give(merger, 1, &shared(20, b'd').ok_or("id")?, 12)?,
        (1, _) => merger.bound(1, 20),
        (2, 0) => give(merger, 2, &shared(5, b'a').ok_or("id")?, 21)?,
        (2, _) => merger.bound(2, 20),
        (_, 0) => give(merger, 3, &shared(7, b'b').ok_or("id")?, 31)?,
        (_, 1) => {
            let key = Key::Plain {
                timestamp: 20,
                node: 3,
                entry: 32,
            };
            give(merger, 3, &key, 32)?;
        }
        _ => merger.bound(3, 20),
    }
    Ok(())
}

// The turns of one order, whose digits to base 3 are the nodes; whether each node had all its turns.
fn order<L: Ledger>(alloc: Global, order: u32, blank: Blank) -> Result<Option<String>, Fail>
    requires name { blank.name ≡ L.name }
    requires parts { blank.parts ≡ L.parts }
    requires whole { 0 < L.parts }
{
    let mut steps = Steps::<L>::new(blank);
    let mut merger = Merger::new(alloc, 3, 0, &first_key())?;
    let mut text = String::new(alloc);
    let mut turns = [0_usize; 3];
    let mut left = order;
    for _ in 0..9 {
        let node = (left % 3) as usize;
        left /= 3;
        if turns[node] >= TURNS[node] {
            return Ok(None);
        }
        turn(&mut merger, node as u32 + 1, turns[node])?;
        turns[node] = turns[node].saturating_add(1);
        tell(alloc, &mut merger, &mut steps, &mut text)?;
        if !WANTED.starts_with(text.as_str()) {
            return Err("given early, or in another order")?;
        }
    }
    Ok(Some(text))
}

#[test]
fn every_order_gives_the_same(rt: HostRuntime) -> Result<(), Fail> {
    let mut count = 0_u32;
    for code in 0..19_683 {
        if let Some(text) = order::<Brand>(rt.alloc(), code, Blank::new(1))? {
            assert_eq!(&rt; text.as_str(), WANTED, "order {code}");
            count = count.saturating_add(1);
        }
    }
    assert_eq!(&rt; count, 1_260);
    Ok(())
}
