//! Rows as they are read: each is lent, and none is copied.

ghost use Rattle.std.specs.Prelude.{◌≡◌, ◌≤◌, [], ◌∷◌, drop, length, IfSome, IfNone};
ghost use Rattle.cdc_event.specs.Event.{body_bytes};
ghost use Rattle.cdc_model.specs.Row.{IsRow};
ghost use Rattle.cdc_model.specs.Run.{run_rows, IsRun, first_kind, first_length, first_own, first_behind};

use cdc_event::number_4;
use std::marker::Model;

/// How many bytes of a row stand before its body.
const HEAD: usize = 5;

/// A row: an event's type, and the bytes of its body.
#[derive(Debug, Drop)]
pub struct RowView<'a> {
    kind: u8,
    bytes: &'a [u8],
}

impl<'a> Model for RowView<'a> {
    ghost use Rattle.cdc_model.specs.Row.{Row};

    ghost Value = { Row };

    ghost use Rattle.cdc_model.specs.Run.{run_body, seen_row, SpellsRow};

    ghost view = { λ row. seen_row row.kind row.bytes.now };

    ghost invariant = { λ row. SpellsRow row.kind row.bytes.now (run_body row.kind row.bytes.now) };
}

impl<'a> RowView<'a> {
    /// The event's type.
    pub fn kind(&self) -> u8
        ensures { result ≡ self.now.0 }
    {
        self.kind
    }

    /// The bytes of the event's body.
    pub fn bytes(&self) -> &'a [u8]
        ensures body { result.now ≡ body_bytes self.now.1 }
        ensures row { IsRow self.now }
    {
        self.bytes
    }
}

/// The rows that are left of a list, seen as the list of them.
#[derive(Debug, Drop)]
pub struct Rows<'a> {
    count: usize,
    bytes: &'a [u8],
}

impl<'a> Model for Rows<'a> {
    ghost use Rattle.std.specs.Prelude.{List};
    ghost use Rattle.cdc_model.specs.Row.{Row};

    ghost Value = { List Row };

    ghost use Rattle.cdc_model.specs.Run.{run_rows, IsRun};

    ghost view = { λ run. run_rows run.count run.bytes.now };

    ghost invariant = { λ run. IsRun run.count run.bytes.now (run_rows run.count run.bytes.now) };
}

// A run's first row, and the rest.
#[derive(Drop)]
struct Cut<'a> {
    kind: u8,
    own: &'a [u8],
    behind: &'a [u8],
}

fn cut_first(bytes: &[u8]) -> Cut<'_>
    requires long { HEAD ≤ length bytes.now }
    requires whole { first_length bytes.now ≤ length (drop 5 bytes.now) }
    ensures kind { result.kind ≡ first_kind bytes.now }
    ensures own { result.own.now ≡ first_own bytes.now }
    ensures behind { result.behind.now ≡ first_behind bytes.now }
{
    let length = number_4(&bytes[1..HEAD]);
    let (_, bodies) = bytes.split_at(HEAD);
    let (own, behind) = bodies.split_at(length as usize);
    Cut {
        kind: bytes[0],
        own,
        behind,
    }
}

impl<'a> Rows<'a> {
    /// The rows of a run.
    pub(crate) fn of_run(count: usize, bytes: &'a [u8]) -> Rows<'a>
        requires { IsRun count bytes.now (run_rows count bytes.now) }
        ensures { result ≡ run_rows count bytes.now }
    {
        Rows { count, bytes }
    }

    /// The next row; none exactly where there is none left.
    pub fn next(&mut self) -> Option<RowView<'a>>
        ensures some { IfSome result (λ row. self.old ≡ row ∷ self.new) }
        ensures none { IfNone result ((self.old ≡ []) × (self.new ≡ [])) }
    {
        if self.count == 0 {
            return None;
        }
        let cut = cut_first(self.bytes);
        self.count -= 1;
        self.bytes = cut.behind;
        Some(RowView {
            kind: cut.kind,
            bytes: cut.own,
        })
    }
}
