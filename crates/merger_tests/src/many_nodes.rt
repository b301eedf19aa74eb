//! As many nodes as there may be.

ghost use Rattle.std.specs.Prelude.{◌≡◌, ◌≤◌, ◌<◌, length};

use crate::told::{give, shared, tell};
use cdc_base::{Steps, first_key};
use cdc_merger::Merger;
use std::alloc::Global;
use std::marker::Brand;
use std::sync::ledger::{Blank, Ledger};
use std::test::Fail;

// 256 nodes with one branch each, of one transaction or of one each, and one bound.
fn merged<L: Ledger>(alloc: Global, one: bool, blank: Blank) -> Result<String, Fail>
    requires name { blank.name ≡ L.name }
    requires parts { blank.parts ≡ L.parts }
    requires whole { 0 < L.parts }
{
    let mut steps = Steps::<L>::new(blank);
    let mut merger = Merger::new(alloc, 256, 7, &first_key())?;
    let mut text = String::new(alloc);
    for node in 1..257_u32 {
        let timestamp = if one {
            10
        } else {
            10 + u64::from((node * 37) % 256)
        };
        give(
            &mut merger,
            node,
            &shared(timestamp, b'a').ok_or("id")?,
            node,
        )?;
        merger.bound(node, 1_000);
        tell(alloc, &mut merger, &mut steps, &mut text)?;
        if node < 256 && text.len() > 0 {
            return Err("given early")?;
        }
    }
    Ok(text)
}

// The number whose product with 37 is one more than a multiple of 256.
const INVERSE: u32 = 173;

#[test]
fn each_node_has_one(rt: HostRuntime) -> Result<(), Fail> {
    let mut wanted = String::new(rt.alloc());
    for place in 0..256_u32 {
        let (number, timestamp) = (place + 8, place + 10);
        let node = (place * INVERSE) % 256;
        let entry = if node == 0 { 256 } else { node };
        let seconds = entry + 1;
        wanted.push_str(&format!(in rt.alloc(); "{number}@{timestamp}/{seconds} {entry};")?)?;
    }
    let text = merged::<Brand>(rt.alloc(), false, Blank::new(1))?;
    assert_eq!(&rt; text.as_str(), wanted.as_str());
    Ok(())
}

#[test]
fn all_nodes_share_one(rt: HostRuntime) -> Result<(), Fail> {
    let mut wanted = format!(in rt.alloc(); "8@10/2")?;
    for entry in 1..257_u32 {
        wanted.push_str(&format!(in rt.alloc(); " {entry}")?)?;
    }
    wanted.push_str(";")?;
    let text = merged::<Brand>(rt.alloc(), true, Blank::new(1))?;
    assert_eq!(&rt; text.as_str(), wanted.as_str());
    Ok(())
}
