//! A body over the same bytes.

ghost use Rattle.std.specs.Prelude.{◌≡◌, IfOk};

use crate::body::Body;
use cdc_base::Memory;

impl Body {
    /// An equal body over the same bytes, none of which is copied.
    pub fn share(&self) -> Result<Body, Memory>
        ensures { IfOk result (λ body. body ≡ self.now) }
    {
        Ok(match self {
            Body::Format {
                text,
                created,
                lengths,
                checksum,
                tail,
            } => Body::Format {
                text: text.share()?,
                created: *created,
                lengths: lengths.share()?,
                checksum: *checksum,
                tail: *tail,
            },
            Body::Query {
                thread,
                seconds,
                error,
                status,
                db,
                text,
            } => Body::Query {
                thread: *thread,
                seconds: *seconds,
                error: *error,
                status: status.share()?,
                db: db.share()?,
                text: text.share()?,
            },
            Body::Rotate { position, name } => Body::Rotate {
                position: *position,
                name: name.share()?,
            },
            Body::Xid { number } => Body::Xid { number: *number },
            Body::RowsQuery { size, text } => Body::RowsQuery {
                size: *size,
                text: text.share()?,
            },
            Body::TableMap {
                table,
                flags,
                db,
                name,
                rest,
            } => Body::TableMap {
                table: *table,
                flags: *flags,
                db: db.share()?,
                name: name.share()?,
                rest: rest.share()?,
            },
            Body::Rows { bytes } => Body::Rows {
                bytes: bytes.share()?,
            },
            Body::XaPrepare { one_phase, xid } => Body::XaPrepare {
                one_phase: *one_phase,
                xid: *xid,
            },
            Body::Timestamp { class, value } => Body::Timestamp {
                class: *class,
                value: *value,
            },
            Body::Skipped { bytes } => Body::Skipped {
                bytes: bytes.share()?,
            },
        })
    }
}
