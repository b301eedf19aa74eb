//! How many bytes a body has.

ghost use Rattle.std.specs.Prelude.{◌≡◌, ◌+◌, ◌-◌, ◌^◌, min, length};
ghost use Rattle.cdc_event.specs.Event.{body_bytes, body_length};

use crate::body::Body;
use cdc_base::Blob;

impl Body {
    /// How many bytes the body has as an event's body, which the event's length field counts beside its
    /// header; 2^64 - 1 where there are more than that.
    #[tactic(auto, using(crate::proofs::Sizes::body_size))]
    pub fn encoded_length(&self) -> u64
        ensures { result ≡ min (length (body_bytes self.now)) (2 ^ 64 - 1) }
    {
        self.summed_length()
    }

    fn summed_length(&self) -> u64
        ensures { result ≡ min (body_length self.now) (2 ^ 64 - 1) }
    {
        match self {
            Body::Format { text, lengths, .. } => plus(plus(12, text), lengths),
            Body::Query {
                status,
                db,
                text,
                ..
            } => plus(plus(plus(14, status), db), text),
            Body::Rotate { name, .. } => plus(8, name),
            Body::Xid { .. } => 8,
            Body::RowsQuery { text, .. } => plus(1, text),
            Body::TableMap { db, name, rest, .. } => plus(plus(plus(12, db), name), rest),
            Body::Rows { bytes } | Body::Skipped { bytes } => plus(0, bytes),
            Body::XaPrepare { xid, .. } => {
                13 + (xid.gtrid.bytes().len() + xid.bqual.bytes().len()) as u64
            }
            Body::Timestamp { .. } => 9,
        }
    }
}

// More bytes, up to the greatest number.
fn plus(before: u64, bytes: &Blob) -> u64
    ensures { result ≡ min (before + length bytes.now) (2 ^ 64 - 1) }
{
    before.saturating_add(bytes.len() as u64)
}
