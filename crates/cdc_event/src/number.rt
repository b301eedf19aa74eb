//! Numbers as bytes, the lowest byte first.

ghost use Rattle.std.specs.Prelude.{◌≡◌, length};
ghost use Rattle.cdc_event.specs.Number.{low_first, number_of};

// The two bytes of a number.
#[tactic(auto, using(crate::proofs::Numbers::low_first_2))]
pub(crate) fn bytes_2(number: u16) -> [u8; 2]
    ensures { result ≡ low_first 2 number }
{
    number.to_le_bytes()
}

// The four bytes of a number.
#[tactic(auto, using(crate::proofs::Numbers::low_first_4))]
pub fn bytes_4(number: u32) -> [u8; 4]
    ensures { result ≡ low_first 4 number }
{
    number.to_le_bytes()
}

// The lowest six bytes of a number.
#[tactic(auto, using(crate::proofs::Numbers::low_first_8), unfolding(crate::specs::Number::low_first))]
pub(crate) fn bytes_6(number: u64) -> [u8; 6]
    ensures { result ≡ low_first 6 number }
{
    let bytes = bytes_8(number);
    [bytes[0], bytes[1], bytes[2], bytes[3], bytes[4], bytes[5]]
}

// The eight bytes of a number.
#[tactic(auto, using(crate::proofs::Numbers::low_first_8))]
pub(crate) fn bytes_8(number: u64) -> [u8; 8]
    ensures { result ≡ low_first 8 number }
{
    number.to_le_bytes()
}

// The number that two bytes spell.
#[tactic(auto, using(crate::proofs::Numbers::number_of_2))]
pub fn number_2(bytes: &[u8]) -> u16
    requires { length bytes.now ≡ 2 }
    ensures { result ≡ number_of bytes.now }
{
    u16::from_le_bytes([bytes[0], bytes[1]])
}

// The number that four bytes spell.
#[tactic(auto, using(crate::proofs::Numbers::number_of_4))]
pub fn number_4(bytes: &[u8]) -> u32
    requires { length bytes.now ≡ 4 }
    ensures { result ≡ number_of bytes.now }
{
    u32::from_le_bytes([bytes[0], bytes[1], bytes[2], bytes[3]])
}

// The number that six bytes spell.
#[tactic(auto, using(crate::proofs::Numbers::number_of_6))]
pub(crate) fn number_6(bytes: &[u8]) -> u64
    requires { length bytes.now ≡ 6 }
    ensures { result ≡ number_of bytes.now }
{
    u64::from_le_bytes([
        bytes[0], bytes[1], bytes[2], bytes[3], bytes[4], bytes[5], 0, 0,
    ])
}

// The number that eight bytes spell.
#[tactic(auto, using(crate::proofs::Numbers::number_of_8))]
pub(crate) fn number_8(bytes: &[u8]) -> u64
    requires { length bytes.now ≡ 8 }
    ensures { result ≡ number_of bytes.now }
{
    u64::from_le_bytes([
        bytes[0], bytes[1], bytes[2], bytes[3], bytes[4], bytes[5], bytes[6], bytes[7],
    ])
}
