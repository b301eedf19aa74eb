//! What a turn answers.

ghost use Rattle.std.specs.Prelude.{◌≡◌};

/// The answer of a stage's turn.
#[derive(Clone, Copy, Debug, PartialEq, Eq)]
pub enum Turn {
    /// It pushed or popped, did a part of its work, or recorded its end.
    Moved,
    /// The lane that it needed was full or empty. It did nothing.
    Blocked,
    /// It had sent or taken the End of this window before. It did nothing.
    Done,
}

impl Turn {
    ghost use Rattle.cdc_turns.specs.Turns.{is_move};

    /// Whether the turn moved.
    pub fn is_move(self) -> bool
        ensures { result ≡ is_move self }
    {
        match self {
            Turn::Moved => true,
            Turn::Blocked => false,
            Turn::Done => false,
        }
    }
}
