//! An event whose byte strings are lent.

ghost use Rattle.std.specs.Prelude.{◌≡◌};
ghost use Rattle.cdc_event.specs.View.{body_viewed, event_viewed};

use crate::body::Body;
use crate::event::Event;
use crate::header::Header;

/// A body as it is read in place: the same variants and fields as `Body`, each byte string lent, also the two ids
/// of a prepare.
#[derive(Clone, Copy, Debug)]
pub enum BodyView<'a> {
    Format {
        text: &'a [u8],
        created: u32,
        lengths: &'a [u8],
        checksum: u8,
        tail: u32,
    },
    Query {
        thread: u32,
        seconds: u32,
        error: u16,
        status: &'a [u8],
        db: &'a [u8],
        text: &'a [u8],
    },
    Rotate {
        position: u64,
        name: &'a [u8],
    },
    Xid {
        number: u64,
    },
    RowsQuery {
        size: u8,
        text: &'a [u8],
    },
    TableMap {
        table: u64,
        flags: u16,
        db: &'a [u8],
        name: &'a [u8],
        rest: &'a [u8],
    },
    Rows {
        bytes: &'a [u8],
    },
    XaPrepare {
        one_phase: u8,
        format: u32,
        gtrid: &'a [u8],
        bqual: &'a [u8],
    },
    Timestamp {
        class: u8,
        value: u64,
    },
    Skipped {
        bytes: &'a [u8],
    },
}

/// An event as it is read in place.
#[derive(Clone, Copy, Debug)]
pub struct EventView<'a> {
    pub header: Header,
    pub body: BodyView<'a>,
}

impl Body {
    /// The same body, its byte strings lent.
    pub fn view(&self) -> BodyView<'_>
        ensures { body_viewed result ≡ self.now }
    {
        match self {
            Body::Format {
                text,
                created,
                lengths,
                checksum,
                tail,
            } => BodyView::Format {
                text: text.bytes(),
                created: *created,
                lengths: lengths.bytes(),
                checksum: *checksum,
                tail: *tail,
            },
            Body::Query {
                thread,
                seconds,
                error,
                status,
                db,
                text,
            } => BodyView::Query {
                thread: *thread,
                seconds: *seconds,
                error: *error,
                status: status.bytes(),
                db: db.bytes(),
                text: text.bytes(),
            },
            Body::Rotate { position, name } => BodyView::Rotate {
                position: *position,
                name: name.bytes(),
            },
            Body::Xid { number } => BodyView::Xid { number: *number },
            Body::RowsQuery { size, text } => BodyView::RowsQuery {
                size: *size,
                text: text.bytes(),
            },
            Body::TableMap {
                table,
                flags,
                db,
                name,
                rest,
            } => BodyView::TableMap {
                table: *table,
                flags: *flags,
                db: db.bytes(),
                name: name.bytes(),
                rest: rest.bytes(),
            },
            Body::Rows { bytes } => BodyView::Rows {
                bytes: bytes.bytes(),
            },
            Body::XaPrepare { one_phase, xid } => BodyView::XaPrepare {
                one_phase: *one_phase,
                format: xid.format,
                gtrid: xid.gtrid.bytes(),
                bqual: xid.bqual.bytes(),
            },
            Body::Timestamp { class, value } => BodyView::Timestamp {
                class: *class,
                value: *value,
            },
            Body::Skipped { bytes } => BodyView::Skipped {
                bytes: bytes.bytes(),
            },
        }
    }
}

impl Event {
    /// The same event, its byte strings lent.
    pub fn view(&self) -> EventView<'_>
        ensures { event_viewed result ≡ self.now }
    {
        EventView {
            header: self.header,
            body: self.body.view(),
        }
    }
}
