//! What an event says in a node's log.

ghost use Rattle.std.specs.Prelude.{◌≡◌, ◌≤◌, ℕ, length};
ghost use Rattle.cdc_event.specs.View.{body_viewed};
ghost use Rattle.cdc_model.specs.Sign.{sign_of_verb, sign_of_time, sign_of_skipped, sign_of_rows_query, sign_of_body, is_other};
ghost use Rattle.cdc_model.specs.Records.{Row};
ghost use Rattle.cdc_event.specs.declared.body.Body.TheVariants.{RowsQuery as RowsQueryBody};
ghost use Rattle.cdc_event.specs.Event.{FitsBody};
ghost use Rattle.cdc_query.specs.Words.{verb_of};
ghost use Rattle.cdc_group.specs.Known.{IsKnown};
ghost use Rattle.cdc_group.specs.Seen.{sign_seen};

use crate::known::Known;
use crate::time::Time;
use cdc_base::{Gtrid, Xid, gtrid_of};
use cdc_event::BodyView;
use cdc_model::statement_in;
use cdc_query::{Verb, read_text};

/// The type of an event that loads a file as a statement.
const EXECUTE_LOAD_QUERY: u8 = 18;

/// The types of a transaction's id, and of one that has no name.
const GTID: u8 = 33;

const ANONYMOUS_GTID: u8 = 34;

/// What a marked text begins with.
const MARK: &[u8] = b"DDL::";

/// The greatest timestamp.
const TIME_MAX: u64 = (1 << 63) - 1;

/// The class of a timestamp before a group, and of one alone.
const COMMIT_TIME: u8 = 1;

const BEAT_TIME: u8 = 2;

/// The sign of an event: what it says, without the row that it may be.
#[derive(Clone, Copy, Debug)]
pub(crate) enum EventSign {
    /// A transaction's id in its own event, named or not.
    Gtid,
    /// Nothing.
    Quiet,
    /// A marked text that is a statement of the whole database.
    Statement,
    /// A marked text that is none.
    Marked,
    /// The commit timestamp of the group behind it.
    CommitTime(Time),
    /// A timestamp that no later commit has or falls below.
    BeatTime(Time),
    /// A timestamp of no good class or value.
    NoTime,
    /// A table map or row event.
    Row,
    /// The end of a local transaction, by its number.
    Number,
    /// An XA prepare; in one phase where `one_phase` isn't 0.
    Prepare { one_phase: u8, xid: Xid },
    /// Texts, by their verbs.
    Begin,
    Commit,
    Rollback,
    Savepoint,
    XaStart(Xid),
    XaEnd(Xid),
    XaCommit(Xid),
    XaRollback(Xid),
    Other,
    /// What may change data and leaves no row events.
    Foreign,
}

// The sign of a text by its verb.
fn sign_of_verb(verb: &Verb) -> EventSign
    ensures { (row : Row) → sign_seen row result ≡ sign_of_verb verb.now }
{
    match verb {
        Verb::Begin => EventSign::Begin,
        Verb::Commit => EventSign::Commit,
        Verb::Rollback => EventSign::Rollback,
        Verb::Savepoint => EventSign::Savepoint,
        Verb::XaStart(xid) => EventSign::XaStart(*xid),
        Verb::XaEnd(xid) => EventSign::XaEnd(*xid),
        Verb::XaCommit(xid) => EventSign::XaCommit(*xid),
        Verb::XaRollback(xid) => EventSign::XaRollback(*xid),
        Verb::XaOther => EventSign::Foreign,
        Verb::Other => EventSign::Other,
    }
}

// The sign of a statement's text. The text that ends the known branch isn't read again.
fn sign_of_text(text: &[u8], known: &mut Known) -> EventSign
    requires { IsKnown known.old }
    ensures sign { (row : Row) → sign_seen row result ≡ sign_of_verb (verb_of text.now) }
    ensures known { IsKnown known.new }
{
    if let Some(xid) = known.ended(text) {
        return EventSign::XaEnd(xid);
    }
    let verb = read_text(text);
    if let Verb::XaStart(xid) = &verb {
        known.start(text, xid);
    }
    sign_of_verb(&verb)
}

// Whether a verb is no transaction's.
fn is_other(verb: &Verb) -> bool
    ensures { result ≡ is_other verb.now }
{
    matches!(verb, Verb::Other)
}

// The sign of a text in a ROWS_QUERY event.
fn sign_of_marked(text: &[u8]) -> EventSign
    ensures { (kind size : ℕ) → sign_seen (kind, RowsQueryBody size text.now) result ≡ sign_of_rows_query kind size text.now }
{
    if !text.starts_with(MARK) {
        return EventSign::Quiet;
    }
    match statement_in(text) {
        Some(statement) => {
            if is_other(&read_text(statement.text)) {
                EventSign::Statement
            } else {
                EventSign::Marked
            }
        }
        None => EventSign::Marked,
    }
}

// The sign of a timestamp of this class.
fn sign_of_time(class: u8, value: u64) -> EventSign
    ensures { (row : Row) → sign_seen row result ≡ sign_of_time class value }
{
    if value < 1 || value > TIME_MAX {
        return EventSign::NoTime;
    }
    let time = Time { value };
    if class == COMMIT_TIME {
        EventSign::CommitTime(time)
    } else if class == BEAT_TIME {
        EventSign::BeatTime(time)
    } else {
        EventSign::NoTime
    }
}

// The sign of a type without a layout of its own.
fn sign_of_skipped(kind: u8) -> EventSign
    ensures { (row : Row) → sign_seen row result ≡ sign_of_skipped kind }
{
    if kind == EXECUTE_LOAD_QUERY {
        EventSign::Foreign
    } else if kind == GTID || kind == ANONYMOUS_GTID {
        EventSign::Gtid
    } else {
        EventSign::Quiet
    }
}

// The id of these bytes, of which there are few enough.
fn id_of(bytes: &[u8]) -> Gtrid
    requires { length bytes.now ≤ 64 }
    ensures { result ≡ bytes.now }
{
    gtrid_of(bytes).unwrap_or(Gtrid::empty())
}

/// The sign of a body under its type.
#[tactic(auto, unfolding(cdc_event::specs::Event::FitsBody))]
pub(crate) fn sign_of(kind: u8, body: &BodyView<'_>, known: &mut Known) -> EventSign
    requires fits { FitsBody (body_viewed body.now) }
    requires known { IsKnown known.old }
    ensures known { IsKnown known.new }
    ensures sign { sign_seen (kind, body_viewed body.now) result ≡ sign_of_body kind (body_viewed body.now) }
{
    match body {
        BodyView::Query { text, .. } => sign_of_text(text, known),
        BodyView::Xid { .. } => EventSign::Number,
        BodyView::RowsQuery { text, .. } => sign_of_marked(text),
        BodyView::TableMap { .. } => EventSign::Row,
        BodyView::Rows { .. } => EventSign::Row,
        BodyView::XaPrepare {
            one_phase,
            format,
            gtrid,
            bqual,
        } => EventSign::Prepare {
            one_phase: *one_phase,
            xid: Xid {
                gtrid: id_of(gtrid),
                bqual: id_of(bqual),
                format: *format,
            },
        },
        BodyView::Timestamp { class, value } => sign_of_time(*class, *value),
        BodyView::Skipped { .. } => sign_of_skipped(kind),
        BodyView::Format { .. } | BodyView::Rotate { .. } => EventSign::Quiet,
    }
}
