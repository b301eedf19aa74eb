//! What waits of all nodes.

ghost use Rattle.std.specs.Prelude.{◌≡◌};
ghost use Rattle.cdc_model.specs.Feed as feed;
ghost use Rattle.cdc_model.specs.Branch as branch;
ghost use Rattle.cdc_model.specs.Transaction as transaction;

use crate::node::Node;
use cdc_base::Key;
use cdc_model::Branch;

/// Whether a key is settled under a bound.
pub fn is_settled(mark: u64, key: &Key) -> bool
    ensures { result ≡ branch.is_settled mark key.now }
{
    match key {
        Key::Shared { timestamp, .. } => *timestamp <= mark,
        Key::Plain { timestamp, .. } => *timestamp < mark,
    }
}

/// The least of the bounds that the nodes told last.
pub fn least_bound(nodes: &[Node]) -> u64
    ensures { result ≡ feed.least_bound nodes.now }
{
    let Some((first, rest)) = nodes.split_first() else {
        return 0;
    };
    let mut bound = first.bound();
    for node in rest {
        bound = bound.min(node.bound());
    }
    bound
}

/// The seconds of the first branch.
pub fn first_seconds(branches: &[Branch]) -> u32
    ensures { result ≡ transaction.first_seconds branches.now }
{
    match branches.first() {
        Some(branch) => branch.seconds,
        None => 0,
    }
}
