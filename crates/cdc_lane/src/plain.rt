//! The lane of one thread.

ghost use Rattle.std.specs.Prelude.{◌≡◌, ◌≤◌, length};
ghost use Rattle.std.specs.VecDeque.{deque_len, deque_capacity};

use cdc_base::Memory;
use cdc_outside::{LaneIn, LaneOut};
use std::alloc::Global;
use std::collections::VecDeque;

/// A queue of at most `room` items, both of its ends in one object.
///
/// It counts the pushes that it refused and the pops that it answered with none.
#[derive(Drop)]
pub struct PlainLane<T> {
    items: VecDeque<T>,
    room: usize,
    refused: u64,
    missed: u64,
    pub ghost counted: { deque_len items ≡ length items.items },
    pub ghost within: { deque_len items ≤ room },
    pub ghost reserved: { room ≤ deque_capacity items },
    pub ghost some_room: { 1 ≤ room },
}

impl<T> PlainLane<T> {
    ghost use Rattle.std.specs.Prelude.{[], IfOk};
    ghost use Rattle.cdc_lane.specs.Held.{held, room_of};

    /// An empty lane that keeps at most `room` items. All memory that it will ever need is taken here.
    pub fn new(alloc: Global, room: usize) -> Result<PlainLane<T>, Memory>
        requires { 1 ≤ room }
        ensures empty { IfOk result (λ lane. held lane ≡ []) }
        ensures room { IfOk result (λ lane. room_of lane ≡ room) }
    {
        Ok(PlainLane {
            items: VecDeque::with_capacity(alloc, room)?,
            room,
            refused: 0,
            missed: 0,
        })
    }
}

impl<T: Drop> LaneIn<T> for PlainLane<T> {
    ghost use Rattle.std.specs.Prelude.{◌<◌, ◌∷◌, [], ◌++◌, OnOk, OnErr, MatchResult, refl};
    ghost use Rattle.std.proofs.Common.{append-nil, append_assoc, ap, sym, ◌∙◌};
    ghost use Rattle.cdc_outside.specs.Count.{one_more};
    ghost use Rattle.cdc_lane.specs.Held.{held, room_of, WentIn};

    ghost moved = { λ before items now. WentIn before items now };

    ghost full = { λ lane. length (held lane) ≡ room_of lane };

    ghost blocks = { λ lane. lane.refused };

    /// Puts an item in behind all others. It is handed back exactly where the lane holds as many as it has room for.
    fn push(&mut self, item: T) -> Result<(), T>
        ensures moved { MatchResult result (λ _. WentIn self.old (item ∷ []) self.new) (λ back. (back ≡ item) × WentIn self.old [] self.new) }
        ensures full { OnErr result (length (held self.new) ≡ room_of self.new) }
        ensures room { OnOk result (length (held self.old) < room_of self.old) }
        ensures blocks { MatchResult result (λ _. self.new.refused ≡ self.old.refused) (λ _. self.new.refused ≡ one_more self.old.refused) }
    {
        if self.items.len() == self.room {
            self.refused = self.refused.saturating_add(1);
            return Err(item);
        }
        self.items.push_back_reserved(item);
        Ok(())
    }

    ghost starts = { λ lane. record { behind = sym (append-nil (held lane)); room = refl } };

    ghost adds = { λ a b c xs ys p q. record { behind = q.behind ∙ ap (λ l. l ++ ys) p.behind ∙ append_assoc (held a) xs ys; room = q.room ∙ p.room } };
}

impl<T: Drop> LaneOut<T> for PlainLane<T> {
    ghost use Rattle.std.specs.Prelude.{◌<◌, ◌∷◌, [], ◌++◌, OnSome, IfNone, MatchOption, refl};
    ghost use Rattle.std.proofs.Common.{append_assoc, ap, sym, ◌∙◌};
    ghost use Rattle.cdc_outside.specs.Count.{one_more};
    ghost use Rattle.cdc_lane.specs.Held.{held, room_of, CameOut};

    ghost moved = { λ before items now. CameOut before items now };

    ghost empty = { λ lane. held lane ≡ [] };

    ghost blocks = { λ lane. lane.missed };

    /// Takes the first of the items out. None is answered exactly where the lane holds none.
    fn pop(&mut self) -> Option<T>
        ensures moved { MatchOption result (CameOut self.old [] self.new) (λ item. CameOut self.old (item ∷ []) self.new) }
        ensures empty { IfNone result (held self.new ≡ []) }
        ensures blocks { MatchOption result (self.new.missed ≡ one_more self.old.missed) (λ _. self.new.missed ≡ self.old.missed) }
    {
        let item = self.items.pop_front();
        if item.is_none() {
            self.missed = self.missed.saturating_add(1);
        }
        item
    }

    ghost starts = { λ lane. record { first = refl; room = refl } };

    ghost adds = { λ a b c xs ys p q. record { first = p.first ∙ ap (λ l. xs ++ l) q.first ∙ sym (append_assoc xs ys (held c)); room = q.room ∙ p.room } };
}
