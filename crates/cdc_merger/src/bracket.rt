//! The matches of a tournament: each knows which node leads its seats.

ghost use Rattle.std.specs.Prelude.{◌≡◌, ◌≤◌, ◌<◌, ◌+◌, ◌^◌, ℕ, length, IfOk};
ghost use Rattle.cdc_merger.specs.Bracket.{Spans, IsLow, IsIdle, AreSeats, leader_of, better, met, played, play_count, replayed};

use cdc_base::{Memory, Ranked, Steps};
use std::alloc::Global;
use std::cmp::Ordering;
use std::sync::ledger::Ledger;

/// A node's seat, or a match of two sides: the nodes below `middle` and those from it on, and the node that leads.
#[derive(Drop)]
pub enum Bracket {
    Seat(u32),
    Match(Box<Bracket>, Box<Bracket>, u32, u32),
}

/// The matches of the nodes from one to below another, in which the last nodes lead.
pub fn bracket_of(alloc: Global, from: u32, to: u32) -> Result<Bracket, Memory>
    requires { from < to }
    ensures spans { IfOk result (λ bracket. Spans from to bracket) }
    ensures idle { IfOk result (λ bracket. IsIdle bracket) }
    ensures low { IfOk result (λ bracket. (depth : ℕ) → to ≤ from + 2 ^ depth → IsLow depth bracket) }
{
    if to - from == 1 {
        return Ok(Bracket::Seat(from));
    }
    let middle = from + (to - from) / 2;
    let left = bracket_of(alloc, from, middle)?;
    let right = bracket_of(alloc, middle, to)?;
    let leads = leader(&right);
    let left = Box::new(alloc, left)?;
    Ok(Bracket::Match(left, Box::new(alloc, right)?, middle, leads))
}

/// The node that leads.
pub fn leader(bracket: &Bracket) -> u32
    ensures leads { result ≡ leader_of bracket.now }
    ensures within { (from to : ℕ) → Spans from to bracket.now → (from ≤ result) × (result < to) }
    ensures below { (count : ℕ) → AreSeats count bracket.now → result < count }
{
    match bracket {
        Bracket::Seat(node) => *node,
        Bracket::Match(_, _, _, leader) => *leader,
    }
}

// The node of the lesser head, the left one in a tie; a node without a head loses.
fn better_of<K: Ranked, L: Ledger>(
    heads: &[Option<K>],
    left: u32,
    right: u32,
    steps: &mut Steps<L>,
) -> u32
    requires left { left < length heads.now }
    requires right { right < length heads.now }
    ensures leads { result ≡ better K.order heads.now left right }
    ensures below { result < length heads.now }
    ensures counted { steps.new ≡ steps.old + met heads.now left right }
    ensures one { steps.new ≤ steps.old + 1 }
{
    match (&heads[left as usize], &heads[right as usize]) {
        (None, _) => right,
        (_, None) => left,
        (Some(first), Some(second)) => match first.compare(second, steps) {
            Ordering::Greater => right,
            _ => left,
        },
    }
}

// The node that leads of two sides.
fn play_match<K: Ranked, L: Ledger>(
    left: &Bracket,
    right: &Bracket,
    heads: &[Option<K>],
    steps: &mut Steps<L>,
) -> u32
    requires left { AreSeats (length heads.now) left.now }
    requires right { AreSeats (length heads.now) right.now }
    ensures leads { result ≡ better K.order heads.now (leader_of left.now) (leader_of right.now) }
    ensures below { result < length heads.now }
    ensures counted { steps.new ≡ steps.old + met heads.now (leader_of left.now) (leader_of right.now) }
    ensures one { steps.new ≤ steps.old + 1 }
{
    better_of(heads, leader(left), leader(right), steps)
}

/// Plays all matches.
pub fn play<K: Ranked, L: Ledger>(bracket: &mut Bracket, heads: &[Option<K>], steps: &mut Steps<L>)
    requires { AreSeats (length heads.now) bracket.old }
    ensures seats { AreSeats (length heads.now) bracket.new }
    ensures played { bracket.new ≡ played K.order heads.now bracket.old }
    ensures counted { steps.new ≡ steps.old + play_count K.order heads.now bracket.old }
{
    match bracket {
        Bracket::Seat(_) => {}
        Bracket::Match(left, right, _, leads) => {
            play(left, heads, steps);
            play(right, heads, steps);
            *leads = play_match(left, right, heads, steps);
        }
    }
}

/// Plays the matches of one node again.
pub fn replay<K: Ranked, L: Ledger>(
    bracket: &mut Bracket,
    heads: &[Option<K>],
    node: u32,
    steps: &mut Steps<L>,
)
    requires { AreSeats (length heads.now) bracket.old }
    ensures seats { AreSeats (length heads.now) bracket.new }
    ensures played { bracket.new ≡ replayed K.order heads.now node bracket.old }
    ensures counted { (depth : ℕ) → IsLow depth bracket.old → steps.new ≤ steps.old + depth }
{
    match bracket {
        Bracket::Seat(_) => {}
        Bracket::Match(left, right, middle, leads) => {
            if node < *middle {
                replay(left, heads, node, steps);
            } else {
                replay(right, heads, node, steps);
            }
            *leads = play_match(left, right, heads, steps);
        }
    }
}
