//! The two ends of a lane between stages.

ghost use Rattle.std.specs.Prelude.{◌≡◌, ℕ, ◌∷◌, [], ◌++◌, List, IfNone, OnErr, MatchOption, MatchResult};
ghost use Rattle.cdc_outside.specs.Count.{one_more};

/// Where items go in.
///
/// A push takes no memory. It hands its item back only where the lane is full, and has then moved nothing.
pub trait LaneIn<T>: Drop {
    /// The items that went in between two moments of this lane, in order.
    ghost moved: { Self → List T → Self → Type 0 };

    /// What a refused push tells: the lane was full.
    ghost full: { Self → Type 0 };

    /// How many pushes were refused, a count that stands still at `u64`'s end.
    ghost blocks: { Self → ℕ };

    /// Puts an item in behind all others, or hands that same item back where the lane is full.
    fn push(&mut self, item: T) -> Result<(), T>
        ensures moved { MatchResult result (λ _. moved self.old (item ∷ []) self.new) (λ back. (back ≡ item) × moved self.old [] self.new) }
        ensures full { OnErr result (full self.new) }
        ensures blocks { MatchResult result (λ _. blocks self.new ≡ blocks self.old) (λ _. blocks self.new ≡ one_more (blocks self.old)) };

    ghost starts: { (lane : Self) → moved lane [] lane };

    ghost adds: { (a b c : Self) (xs ys : List T) → moved a xs b → moved b ys c → moved a (xs ++ ys) c };
}

/// Where items come out.
///
/// A pop takes no memory. It answers none only where the lane is empty, and has then moved nothing.
pub trait LaneOut<T>: Drop {
    /// The items that came out between two moments of this lane, in order.
    ghost moved: { Self → List T → Self → Type 0 };

    /// What a pop that answers none tells: the lane was empty.
    ghost empty: { Self → Type 0 };

    /// How many pops answered none, a count that stands still at `u64`'s end.
    ghost blocks: { Self → ℕ };

    /// Takes the first of the items out, or none where the lane is empty.
    fn pop(&mut self) -> Option<T>
        ensures moved { MatchOption result (moved self.old [] self.new) (λ item. moved self.old (item ∷ []) self.new) }
        ensures empty { IfNone result (empty self.new) }
        ensures blocks { MatchOption result (blocks self.new ≡ one_more (blocks self.old)) (λ _. blocks self.new ≡ blocks self.old) };

    ghost starts: { (lane : Self) → moved lane [] lane };

    ghost adds: { (a b c : Self) (xs ys : List T) → moved a xs b → moved b ys c → moved a (xs ++ ys) c };
}
