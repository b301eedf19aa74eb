//! A global transaction id, also used for a branch qualifier: 0 to 64 bytes, kept in place.

ghost use Rattle.std.specs.Prelude.{◌≡◌, [], ◌<◌, ◌≤◌, ◌++◌, ◌↔◌, IsNone, IfSome, length, nat_eq, drop};
ghost use Rattle.std.specs.Cmp.{partial_equiv_from_equiv};
ghost use Rattle.std.specs.Cmp.Lexicographic.{pointwise};
ghost use Rattle.std.proofs.lemmas.Cmp.{nat_list_eq_equiv};

use std::marker::Model;

/// The most bytes that an id has.
pub const GTRID_MAX: usize = 64;

/// An id of 0 to 64 bytes, seen as the list of its bytes.
#[derive(Clone, Copy, Debug)]
pub struct Gtrid {
    bytes: [u8; GTRID_MAX],
    len: usize,
}

impl Model for Gtrid {
    ghost use Rattle.std.specs.Prelude.{List, ℕ};

    ghost Value = { List ℕ };

    ghost use Rattle.cdc_base.specs.Gtrid.{id_bytes, IsPadded, padded, padded_again};

    ghost view = { id_bytes };

    ghost invariant = { IsPadded };

    ghost inverse = { padded };

    ghost inverse_ok = { padded_again };
}

impl Gtrid {
    /// The id of no byte.
    pub fn empty() -> Gtrid
        ensures { result ≡ [] }
    {
        Gtrid {
            bytes: [0; GTRID_MAX],
            len: 0,
        }
    }

    /// The id's bytes.
    pub fn bytes(&self) -> &[u8]
        ensures value { result.now ≡ self.now }
        ensures short { length self.now ≤ GTRID_MAX }
    {
        &self.bytes[..self.len]
    }
}

impl PartialEq for Gtrid {
    ghost eq = { pointwise nat_eq };

    ghost laws = { partial_equiv_from_equiv nat_list_eq_equiv };

    fn eq(&self, other: &Gtrid) -> bool {
        self.bytes() == other.bytes()
    }
}

impl Eq for Gtrid {
    ghost laws = { nat_list_eq_equiv };
}

// Writes `from` over the front.
fn write_front(bytes: &mut [u8], from: &[u8])
    requires { length from.now ≤ length bytes.old }
    ensures { bytes.new ≡ from.now ++ drop (length from.now) bytes.old }
{
    bytes[..from.len()].copy_from_slice(from);
}

/// The id of these bytes; none exactly where there are more than 64.
pub fn gtrid_of(bytes: &[u8]) -> Option<Gtrid>
    ensures none { IsNone result ↔ (GTRID_MAX < length bytes.now) }
    ensures some { IfSome result (λ id. id ≡ bytes.now) }
{
    if bytes.len() > GTRID_MAX {
        return None;
    }
    let mut padded = [0; GTRID_MAX];
    write_front(&mut padded, bytes);
    Some(Gtrid {
        bytes: padded,
        len: bytes.len(),
    })
}
