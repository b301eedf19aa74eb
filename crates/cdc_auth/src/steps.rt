//! The four steps of a login.

ghost use Rattle.std.specs.Prelude.{◌≡◌, ℕ, ◌≤◌, ◌++◌, List, Option, IsTrue, OnOk, OnErr, IfErr, IsErrOf};
ghost use Rattle.std.specs.Option.{option_map};
ghost use Rattle.cdc_outside.specs.Count.{Rose};
ghost use Rattle.cdc_outside.specs.Sink.{WritesTo};
ghost use Rattle.cdc_packet.specs.Packet.{packet_bytes};
ghost use Rattle.cdc_packet.specs.Request.{next_request};
ghost use Rattle.cdc_auth.specs.Credentials.{credentials_viewed};
ghost use Rattle.cdc_auth.specs.Following.{FollowsLogin, FollowsDraw, Draws, IsStop, login_end_of};
ghost use Rattle.cdc_auth.specs.Greeting.{greeting, switch_request};
ghost use Rattle.cdc_auth.specs.Login.{answer_packets, fourth_step, decision_on, due_packet, names_other_plugin, third_step, second_step};

use crate::answer::admits;
use crate::credentials::{CredentialsView, read_credentials};
use crate::greeting::{push_greeting, push_switch};
use crate::login_end::LoginEnd;
use cdc_base::{Buffer, UserList};
use cdc_outside::{Link, SALT_LENGTH, Salt};
use cdc_packet::{PacketEnd, read_packet, write_packet};
use std::alloc::Global;

/// The one plugin by which this server tells a password.
const OUR_PLUGIN: &[u8] = b"mysql_native_password";

/// The client is let in.
const WELCOME: &[u8] = b"\0\0\0\x02\0\0\0";

/// The client is refused.
const REFUSAL: &[u8] = b"\xff\x15\x04#28000access denied";

/// Sends the verdict behind a packet with this number.
fn send_verdict<L: Link>(link: &mut L, sequence: u8, admitted: bool) -> LoginEnd
    ensures told { IsTrue L.tells → FollowsLogin (fourth_step admitted sequence (L.left link.old)) (L.written link.old) (L.written link.new) (L.left link.new) result }
    ensures failed { result ≡ LoginEnd.LinkFault → Rose (L.faults link.old) (L.faults link.new) }
    ensures later { L.faults link.old ≤ L.faults link.new }
    ensures input { L.input link.new ≡ L.input link.old }
    ensures salt { result ≡ LoginEnd.SaltFault → ⊥ }
{
    let number = sequence.wrapping_add(1);
    let (payload, end) = if admitted {
        (WELCOME, LoginEnd::In)
    } else {
        (REFUSAL, LoginEnd::Denied)
    };
    match write_packet(link, number, payload, &[]) {
        Ok(_) => end,
        Err(_) => LoginEnd::LinkFault,
    }
}

/// How a login ends where no packet came.
fn ended_by(end: PacketEnd) -> LoginEnd
    ensures { result ≡ login_end_of end }
{
    match end {
        PacketEnd::Closed => LoginEnd::Closed,
        PacketEnd::Torn | PacketEnd::TooLong => LoginEnd::BadPacket,
        PacketEnd::LinkFault => LoginEnd::LinkFault,
        PacketEnd::Memory => LoginEnd::Memory,
    }
}

/// Sends one payload.
fn send<L: Link>(link: &mut L, number: u8, payload: &[u8]) -> Result<(), LoginEnd>
    ensures ok { IsTrue L.tells → OnOk result (L.written link.new ≡ L.written link.old ++ packet_bytes number payload.now) }
    ensures err { IsTrue L.tells → OnErr result (WritesTo (L.written link.old) (packet_bytes number payload.now) (L.written link.new)) }
    ensures stopped { IfErr result (λ ending. (ending ≡ LoginEnd.LinkFault) × Rose (L.faults link.old) (L.faults link.new)) }
    ensures later { L.faults link.old ≤ L.faults link.new }
    ensures left { L.left link.new ≡ L.left link.old }
    ensures input { L.input link.new ≡ L.input link.old }
{
    match write_packet(link, number, payload, &[]) {
        Ok(_) => Ok(()),
        Err(_) => Err(LoginEnd::LinkFault),
    }
}

/// The first step: sends the greeting.
fn greet<L: Link>(
    alloc: Global,
    link: &mut L,
    door: u32,
    salt: &[u8; SALT_LENGTH],
) -> Result<(), LoginEnd>
    ensures ok { IsTrue L.tells → OnOk result (L.written link.new ≡ L.written link.old ++ packet_bytes 0 (greeting door salt.now)) }
    ensures err { IsTrue L.tells → OnErr result (WritesTo (L.written link.old) (packet_bytes 0 (greeting door salt.now)) (L.written link.new)) }
    ensures stopped { IfErr result IsStop }
    ensures failed { IsErrOf result LoginEnd.LinkFault → Rose (L.faults link.old) (L.faults link.new) }
    ensures later { L.faults link.old ≤ L.faults link.new }
    ensures left { L.left link.new ≡ L.left link.old }
    ensures input { L.input link.new ≡ L.input link.old }
{
    let mut payload = Buffer::new(alloc);
    match push_greeting(&mut payload, door, salt) {
        Ok(()) => send(link, 0, payload.bytes()),
        Err(_) => Err(LoginEnd::Memory),
    }
}

/// Asks for the answer once more, behind a packet with this number.
fn ask_again<L: Link>(
    alloc: Global,
    link: &mut L,
    sequence: u8,
    salt: &[u8; SALT_LENGTH],
) -> Result<(), LoginEnd>
    ensures ok { IsTrue L.tells → OnOk result (L.written link.new ≡ L.written link.old ++ answer_packets sequence (switch_request salt.now)) }
    ensures err { IsTrue L.tells → OnErr result (WritesTo (L.written link.old) (answer_packets sequence (switch_request salt.now)) (L.written link.new)) }
    ensures stopped { IfErr result IsStop }
    ensures failed { IsErrOf result LoginEnd.LinkFault → Rose (L.faults link.old) (L.faults link.new) }
    ensures later { L.faults link.old ≤ L.faults link.new }
    ensures left { L.left link.new ≡ L.left link.old }
    ensures input { L.input link.new ≡ L.input link.old }
{
    let mut payload = Buffer::new(alloc);
    match push_switch(&mut payload, salt) {
        Ok(()) => send(link, sequence.wrapping_add(1), payload.bytes()),
        Err(_) => Err(LoginEnd::Memory),
    }
}

/// Reads the answer that was asked for once more, and sends the verdict.
fn take_answer<L: Link>(
    alloc: Global,
    users: &UserList,
    salt: &[u8; SALT_LENGTH],
    name: &[u8],
    link: &mut L,
) -> LoginEnd
    ensures told { IsTrue L.tells → FollowsLogin (due_packet (decision_on users.now salt.now name.now) (next_request (L.left link.old)))
        (L.written link.old) (L.written link.new) (L.left link.new) result }
    ensures failed { result ≡ LoginEnd.LinkFault → Rose (L.faults link.old) (L.faults link.new) }
    ensures later { L.faults link.old ≤ L.faults link.new }
    ensures input { L.input link.new ≡ L.input link.old }
    ensures salt { result ≡ LoginEnd.SaltFault → ⊥ }
{
    let mut answer = Buffer::new(alloc);
    match read_packet(link, &mut answer) {
        Ok(sequence) => send_verdict(link, sequence, admits(users, salt, name, answer.bytes())),
        Err(end) => ended_by(end),
    }
}

/// Whether another plugin than this server's was named.
fn names_other(plugin: Option<&[u8]>) -> bool
    ensures { result ≡ names_other_plugin (option_map (λ plugin. plugin.now) plugin.entry) }
{
    match plugin {
        None => false,
        Some(plugin) => plugin != OUR_PLUGIN,
    }
}

/// The third step: where another plugin was named, the answer is asked for once more; and the fourth.
fn judge<L: Link>(
    alloc: Global,
    users: &UserList,
    salt: &[u8; SALT_LENGTH],
    sequence: u8,
    credentials: CredentialsView<'_>,
    link: &mut L,
) -> LoginEnd
    ensures told { IsTrue L.tells → FollowsLogin
        (third_step users.now salt.now sequence (L.left link.old) (credentials_viewed credentials.entry) (names_other_plugin (credentials_viewed credentials.entry).plugin))
        (L.written link.old) (L.written link.new) (L.left link.new) result }
    ensures failed { result ≡ LoginEnd.LinkFault → Rose (L.faults link.old) (L.faults link.new) }
    ensures later { L.faults link.old ≤ L.faults link.new }
    ensures input { L.input link.new ≡ L.input link.old }
    ensures salt { result ≡ LoginEnd.SaltFault → ⊥ }
{
    if names_other(credentials.plugin) {
        match ask_again(alloc, link, sequence, salt) {
            Ok(()) => take_answer(alloc, users, salt, credentials.name, link),
            Err(end) => end,
        }
    } else {
        let admitted = admits(users, salt, credentials.name, credentials.answer);
        send_verdict(link, sequence, admitted)
    }
}

/// The second step: reads the client's packet; and those behind it.
fn take_credentials<L: Link>(
    alloc: Global,
    users: &UserList,
    salt: &[u8; SALT_LENGTH],
    link: &mut L,
) -> LoginEnd
    ensures told { IsTrue L.tells → FollowsLogin (due_packet (second_step users.now salt.now) (next_request (L.left link.old)))
        (L.written link.old) (L.written link.new) (L.left link.new) result }
    ensures failed { result ≡ LoginEnd.LinkFault → Rose (L.faults link.old) (L.faults link.new) }
    ensures later { L.faults link.old ≤ L.faults link.new }
    ensures input { L.input link.new ≡ L.input link.old }
    ensures salt { result ≡ LoginEnd.SaltFault → ⊥ }
{
    let mut payload = Buffer::new(alloc);
    match read_packet(link, &mut payload) {
        Ok(sequence) => match read_credentials(payload.bytes()) {
            Some(credentials) => judge(alloc, users, salt, sequence, credentials, link),
            None => LoginEnd::BadPacket,
        },
        Err(end) => ended_by(end),
    }
}

/// The login of a client behind a link: draws a salt, greets, reads what the client answers, and sends the verdict.
///
/// Whatever the answer, what was written is a front of the definition's reply, and all of it for `In`, `Denied`,
/// `BadPacket` and `Closed`. After `In` the link has the definition's bytes left, which are commands; after the others
/// nothing more is to be read. After `SaltFault` nothing was written or read.
pub fn login<L: Link, R: Salt>(
    alloc: Global,
    users: &UserList,
    door: u32,
    salt: &mut R,
    link: &mut L,
) -> LoginEnd
    // One draw is taken, and the login follows the definition over it.
    ensures told { (draw : Option (List ℕ)) × (IsTrue R.tells → Draws R.drawn salt.old draw salt.new)
        × (IsTrue L.tells → FollowsDraw users.now door draw (L.left link.old) (L.written link.old) (L.written link.new) (L.left link.new) result) }

    // Neither fault comes by itself.
    ensures salt_fault { result ≡ LoginEnd.SaltFault → Rose (R.faults salt.old) (R.faults salt.new) }
    ensures link_fault { result ≡ LoginEnd.LinkFault → Rose (L.faults link.old) (L.faults link.new) }
    ensures salt_later { R.faults salt.old ≤ R.faults salt.new }
    ensures link_later { L.faults link.old ≤ L.faults link.new }

    ensures input { L.input link.new ≡ L.input link.old }
{
    let Ok(bytes) = salt.draw() else {
        return LoginEnd::SaltFault;
    };
    match greet(alloc, link, door, &bytes) {
        Ok(()) => take_credentials(alloc, users, &bytes, link),
        Err(end) => end,
    }
}
