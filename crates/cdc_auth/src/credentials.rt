//! What a client says in its first packet.

ghost use Rattle.std.specs.Prelude.{◌≡◌};
ghost use Rattle.std.specs.Option.{option_map};
ghost use Rattle.cdc_auth.specs.Credentials.{Credentials, field_viewed, credentials_viewed, credentials_in, credentials_from, credentials_behind, answer_field, behind_database, plugin_field, has_capability};

use crate::field::{FieldView, sized, zero_ended};
use cdc_event::number_4;

/// The user's name, the answer to the salt, and the plugin, where one was named.
#[derive(Clone, Copy)]
pub struct CredentialsView<'a> {
    pub name: &'a [u8],
    pub answer: &'a [u8],
    pub plugin: Option<&'a [u8]>,
}

/// A database is named.
const CONNECT_WITH_DATABASE: u32 = 0x8;

/// The protocol is that of version 4.1.
const PROTOCOL_41: u32 = 0x200;

/// What follows goes over TLS.
const TLS: u32 = 0x800;

/// The answer stands behind its length.
const SIZED_ANSWER: u32 = 0x8000;

/// A plugin is named.
const PLUGIN: u32 = 0x0008_0000;

/// The answer stands behind a length-encoded length.
const LENGTH_ENCODED_ANSWER: u32 = 0x0020_0000;

/// The most that the first byte of a length-encoded length is where it is the length.
const LENGTH_OF_ONE_BYTE: u8 = 250;

/// The bytes before the user's name.
const FIXED_FIELDS: usize = 32;

/// Whether the capabilities have a bit.
fn has(capabilities: u32, bit: u32) -> bool
    ensures { result ≡ has_capability capabilities bit }
{
    capabilities & bit != 0
}

/// The answer, in the form that the capabilities tell.
fn answer_in(capabilities: u32, bytes: &[u8]) -> Option<FieldView<'_>>
    ensures { option_map field_viewed result ≡ answer_field capabilities bytes.now }
{
    if has(capabilities, LENGTH_ENCODED_ANSWER) {
        sized(LENGTH_OF_ONE_BYTE, bytes)
    } else if has(capabilities, SIZED_ANSWER) {
        sized(u8::MAX, bytes)
    } else {
        zero_ended(bytes)
    }
}

/// What stands behind the database, where one is named.
fn skip_database(capabilities: u32, bytes: &[u8]) -> Option<&[u8]>
    ensures { option_map (λ behind. behind.now) result ≡ behind_database capabilities bytes.now }
{
    if has(capabilities, CONNECT_WITH_DATABASE) {
        let database = zero_ended(bytes)?;
        Some(database.behind)
    } else {
        Some(bytes)
    }
}

/// The plugin, where one is named.
fn plugin_in(capabilities: u32, bytes: &[u8]) -> Option<Option<&[u8]>>
    ensures { option_map (option_map (λ plugin. plugin.now)) result ≡ plugin_field capabilities bytes.now }
{
    if has(capabilities, PLUGIN) {
        let plugin = zero_ended(bytes)?;
        Some(Some(plugin.bytes))
    } else {
        Some(None)
    }
}

/// The credentials behind a name and an answer.
fn credentials_with<'a>(
    capabilities: u32,
    name: &'a [u8],
    answer: FieldView<'a>,
) -> Option<CredentialsView<'a>>
    ensures { option_map credentials_viewed result ≡ credentials_behind capabilities name.now (field_viewed answer.entry) }
{
    let behind = skip_database(capabilities, answer.behind)?;
    let plugin = plugin_in(capabilities, behind)?;
    Some(CredentialsView {
        name,
        answer: answer.bytes,
        plugin,
    })
}

/// The credentials from the name on.
fn read_from(capabilities: u32, bytes: &[u8]) -> Option<CredentialsView<'_>>
    ensures { option_map credentials_viewed result ≡ credentials_from capabilities bytes.now }
{
    let name = zero_ended(bytes)?;
    let answer = answer_in(capabilities, name.behind)?;
    credentials_with(capabilities, name.bytes, answer)
}

/// The credentials of a payload; none where it ends too early, or the client asks for TLS or speaks another protocol.
pub(crate) fn read_credentials(payload: &[u8]) -> Option<CredentialsView<'_>>
    ensures { option_map credentials_viewed result ≡ credentials_in payload.now }
{
    if payload.len() < FIXED_FIELDS {
        return None;
    }
    let capabilities = number_4(&payload[..4]);
    if has(capabilities, TLS) {
        return None;
    }
    if has(capabilities, PROTOCOL_41) {
        let (_, named) = payload.split_at(FIXED_FIELDS);
        read_from(capabilities, named)
    } else {
        None
    }
}
