//! What the server says in a login.

ghost use Rattle.std.specs.Prelude.{◌≡◌, ◌++◌, ◌∷◌, [], OnOk};
ghost use Rattle.cdc_auth.specs.Greeting.{our_plugin, version_field, capability_fields, greeting, switch_request};

use cdc_base::{Buffer, Memory};
use cdc_event::bytes_4;
use cdc_outside::SALT_LENGTH;

/// The version of the protocol, and the server's.
const VERSION: [u8; 11] = *b"\x0a5.7.0-cdc\0";

/// Capabilities, character set, status, the length of the salt, and ten zeros.
const CAPABILITIES: [u8; 19] = [
    0, 0x01, 0x82, 0x21, 0x02, 0, 0x08, 0, 0x15, 0, 0, 0, 0, 0, 0, 0, 0, 0, 0,
];

/// A zero, and the plugin by which this server tells a password.
const PLUGIN_BEHIND_ZERO: [u8; 22] = *b"\0mysql_native_password";

/// The request to answer once more by this server's plugin.
const SWITCH: [u8; 22] = *b"\xfemysql_native_password";

/// The bytes of the salt that stand before the capabilities.
const SALT_FRONT: usize = 8;

/// The version of the protocol, and the server's.
fn version() -> [u8; 11]
    ensures { result ≡ version_field }
{
    VERSION
}

/// What stands between the two parts of the salt.
fn capabilities() -> [u8; 19]
    ensures { result ≡ capability_fields }
{
    CAPABILITIES
}

/// A zero, and the plugin by which this server tells a password.
fn plugin_behind_zero() -> [u8; 22]
    ensures { result ≡ 0 ∷ our_plugin }
{
    PLUGIN_BEHIND_ZERO
}

/// The request to answer once more by this server's plugin.
fn switch() -> [u8; 22]
    ensures { result ≡ 254 ∷ our_plugin }
{
    SWITCH
}

/// Appends what the greeting has behind the salt's first part.
fn push_back_part(into: &mut Buffer, salt: &[u8]) -> Result<(), Memory>
    ensures { OnOk result (into.new ≡ into.old ++ (capability_fields ++ (salt.now ++ (0 ∷ our_plugin ++ (0 ∷ []))))) }
{
    into.push(&capabilities())?;
    into.push(salt)?;
    into.push(&plugin_behind_zero())?;
    into.push(&[0])
}

/// Appends the greeting of a door.
pub(crate) fn push_greeting(
    into: &mut Buffer,
    door: u32,
    salt: &[u8; SALT_LENGTH],
) -> Result<(), Memory>
    ensures { OnOk result (into.new ≡ into.old ++ greeting door salt.now) }
{
    let (front, back) = salt.as_slice().split_at(SALT_FRONT);
    into.push(&version())?;
    into.push(&bytes_4(door))?;
    into.push(front)?;
    push_back_part(into, back)
}

/// Appends the request to answer once more.
pub(crate) fn push_switch(into: &mut Buffer, salt: &[u8; SALT_LENGTH]) -> Result<(), Memory>
    ensures { OnOk result (into.new ≡ into.old ++ switch_request salt.now) }
{
    into.push(&switch())?;
    into.push(&[0])?;
    into.push(salt)?;
    into.push(&[0])
}
