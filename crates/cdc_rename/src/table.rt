//! Table maps under other names.

ghost use Rattle.std.specs.Prelude.{◌≡◌, ◌+◌, ◌-◌, ◌^◌, min, length, IfOk, IfSome, IfNone};
ghost use Rattle.cdc_event.specs.Event.{body_bytes};
ghost use Rattle.cdc_event.specs.Table.{renamed};
ghost use Rattle.cdc_event.specs.View.{body_viewed};
ghost use Rattle.cdc_rename.specs.Names.{IsTableMap, KeepsRow};

use crate::names::Names;
use cdc_base::{Blob, Memory, Text};
use cdc_event::{Body, BodyView};
use std::alloc::Global;

// A text's bytes, to be shared.
fn blob_of(alloc: Global, text: &Text) -> Result<Blob, Memory>
    ensures { IfOk result (λ blob. blob ≡ text.now) }
{
    Blob::copy_of(alloc, text.bytes())
}

/// The body of a table map that a rule names, under its new names; none where the body stays as it is.
pub fn renamed_view(body: &BodyView<'_>, names: &Names) -> Result<Option<Body>, Memory>
    ensures some { IfOk result (λ found. IfSome found (λ other. other ≡ renamed names.now (body_viewed body.now))) }
    ensures kept { IfOk result (λ found. IfSome found (λ other. KeepsRow (body_viewed body.now) other)) }
    ensures none { IfOk result (λ found. IfNone found (renamed names.now (body_viewed body.now) ≡ body_viewed body.now)) }
{
    match *body {
        BodyView::TableMap {
            table,
            flags,
            db,
            name,
            rest,
        } => match names.find(db, name) {
            Some(rule) => Ok(Some(Body::TableMap {
                table,
                flags,
                db: blob_of(names.alloc(), &rule.to_db)?,
                name: blob_of(names.alloc(), &rule.to_table)?,
                rest: Blob::copy_of(names.alloc(), rest)?,
            })),
            None => Ok(None),
        },
        _ => Ok(None),
    }
}

/// A table map under the names that its rule gives it, or the same table map where there is no rule for it.
pub fn rename(map: &Body, names: &Names) -> Result<Body, Memory>
    requires { IsTableMap map.now }
    ensures renamed { IfOk result (λ body. body ≡ renamed names.now map.now) }
    ensures kept { IfOk result (λ body. KeepsRow map.now body) }
{
    match renamed_view(&map.view(), names)? {
        Some(body) => Ok(body),
        None => map.share(),
    }
}

/// How many bytes a table map that a rule names has under its new names, 2^64 - 1 where there are more than that;
/// none where the body stays as it is. Takes no memory.
pub fn renamed_view_length(body: &BodyView<'_>, names: &Names) -> Option<u64>
    ensures some { IfSome result (λ bytes. bytes ≡ min (length (body_bytes (renamed names.now (body_viewed body.now)))) (2 ^ 64 - 1)) }
    ensures none { IfNone result (renamed names.now (body_viewed body.now) ≡ body_viewed body.now) }
{
    match *body {
        BodyView::TableMap { db, name, rest, .. } => match names.find(db, name) {
            Some(rule) => Some(map_length(&rule.to_db, &rule.to_table, rest)),
            None => None,
        },
        _ => None,
    }
}

// The length of a table map's body.
fn map_length(db: &Text, name: &Text, rest: &[u8]) -> u64
    ensures { result ≡ min (12 + length db.now + length name.now + length rest.now) (2 ^ 64 - 1) }
{
    12u64
        .saturating_add(db.bytes().len() as u64)
        .saturating_add(name.bytes().len() as u64)
        .saturating_add(rest.len() as u64)
}
