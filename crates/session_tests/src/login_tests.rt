//! Logins over memory: right and wrong ones, each cut of a client's bytes, and each call that fails once.

use cdc_auth::{LoginEnd, login};
use cdc_base::{Text, User, UserList};
use cdc_memory::{MemLink, MemSalt};
use std::alloc::Global;
use std::test::Fail;

/// The salt: 1 to 20.
const SALT: [u8; 20] = [
    1, 2, 3, 4, 5, 6, 7, 8, 9, 10, 11, 12, 13, 14, 15, 16, 17, 18, 19, 20,
];

/// The digest of the digest of `secret`.
const SECRET: &str = "14e65567abdb5135d0cfd9a70b3032c179a49ee7";

/// The greeting of door 1 with this salt.
const GREETING: &str =
    "4d0000000a352e372e302d6364630001000000010203040506070800018221020008001500000000000000000000090a0b0c0d0e0f1011121314006d7973716c5f6e61746976655f70617373776f726400";

/// What a client sends, how its login ends, and what is sent behind the greeting. In order: the empty password with a
/// ping behind it; no such user; no name; an answer where the password is empty; another plugin, with no second answer,
/// an empty one, a right one; the right password, a wrong one, 19 bytes, 21 bytes, none; the answer behind a
/// length-encoded length; before a zero with no plugin; a database, and its capability without one; another protocol,
/// TLS, an end too early, a packet that is too long.
const ROWS: &str =
    "3c00000100820800000000012100000000000000000000000000000000000000000000007265706c00006d7973716c5f6e61746976655f70617373776f726400010000000e = In 0700000200000002000000
3c0000010082080000000001210000000000000000000000000000000000000000000000726f6f7400006d7973716c5f6e61746976655f70617373776f726400 = Denied 16000002ff15042332383030306163636573732064656e696564
38000001008208000000000121000000000000000000000000000000000000000000000000006d7973716c5f6e61746976655f70617373776f726400 = Denied 16000002ff15042332383030306163636573732064656e696564
3d00000100820800000000012100000000000000000000000000000000000000000000007265706c0001786d7973716c5f6e61746976655f70617373776f726400 = Denied 16000002ff15042332383030306163636573732064656e696564
3c00000100820800000000012100000000000000000000000000000000000000000000007265706c000063616368696e675f736861325f70617373776f726400 = Closed 2c000002fe6d7973716c5f6e61746976655f70617373776f7264000102030405060708090a0b0c0d0e0f101112131400
3e00000100820800000000012100000000000000000000000000000000000000000000007265706c00027a7a63616368696e675f736861325f70617373776f72640000000003 = In 2c000002fe6d7973716c5f6e61746976655f70617373776f7264000102030405060708090a0b0c0d0e0f1011121314000700000400000002000000
3b0000010082080000000001210000000000000000000000000000000000000000000000646261000063616368696e675f736861325f70617373776f72640014000003b32bb3a583e1340c0a1108d58b1be49781ad8c2faa = In 2c000002fe6d7973716c5f6e61746976655f70617373776f7264000102030405060708090a0b0c0d0e0f1011121314000700000400000002000000
4f00000100820800000000012100000000000000000000000000000000000000000000006462610014b32bb3a583e1340c0a1108d58b1be49781ad8c2f6d7973716c5f6e61746976655f70617373776f726400 = In 0700000200000002000000
4f00000100820800000000012100000000000000000000000000000000000000000000006462610014bf22e77452471303a2973154b20b7d0a2858334e6d7973716c5f6e61746976655f70617373776f726400 = Denied 16000002ff15042332383030306163636573732064656e696564
4e00000100820800000000012100000000000000000000000000000000000000000000006462610013b32bb3a583e1340c0a1108d58b1be49781ad8c6d7973716c5f6e61746976655f70617373776f726400 = Denied 16000002ff15042332383030306163636573732064656e696564
5000000100820800000000012100000000000000000000000000000000000000000000006462610015b32bb3a583e1340c0a1108d58b1be49781ad8c2f006d7973716c5f6e61746976655f70617373776f726400 = Denied 16000002ff15042332383030306163636573732064656e696564
3b000001008208000000000121000000000000000000000000000000000000000000000064626100006d7973716c5f6e61746976655f70617373776f726400 = Denied 16000002ff15042332383030306163636573732064656e696564
4f00000100822800000000012100000000000000000000000000000000000000000000006462610014b32bb3a583e1340c0a1108d58b1be49781ad8c2f6d7973716c5f6e61746976655f70617373776f726400 = In 0700000200000002000000
2600000100020000000000012100000000000000000000000000000000000000000000007265706c0000 = In 0700000200000002000000
3f00000108820800000000012100000000000000000000000000000000000000000000007265706c00006431006d7973716c5f6e61746976655f70617373776f726400 = In 0700000200000002000000
3c00000108820800000000012100000000000000000000000000000000000000000000007265706c00006d7973716c5f6e61746976655f70617373776f726400 = BadPacket 
3c00000100800800000000012100000000000000000000000000000000000000000000007265706c00006d7973716c5f6e61746976655f70617373776f726400 = BadPacket 
3c000001008a0800000000012100000000000000000000000000000000000000000000007265706c00006d7973716c5f6e61746976655f70617373776f726400 = BadPacket 
1f00000100820800000000012100000000000000000000000000000000000000000000 = BadPacket 
0000010100820800000000012100000000000000000000000000000000000000000000007265706c00 = BadPacket ";

/// The first row's client, and the one that gives a second answer, which is right.
const FIRST: &str =
    "3c00000100820800000000012100000000000000000000000000000000000000000000007265706c00006d7973716c5f6e61746976655f70617373776f726400";

const SECOND: &str =
    "3b0000010082080000000001210000000000000000000000000000000000000000000000646261000063616368696e675f736861325f70617373776f72640014000003b32bb3a583e1340c0a1108d58b1be49781ad8c2f";

// The users `repl`, with an empty password, and `dba`.
fn users(alloc: Global) -> Result<UserList, Fail> {
    let mut hash = [0u8; 20];
    hex::decode_to_slice(SECRET.as_bytes(), &mut hash)?;
    let mut users = UserList::new(alloc);
    users.push(User {
        name: Text::of(alloc, "repl")?,
        hash: None,
    })?;
    users.push(User {
        name: Text::of(alloc, "dba")?,
        hash: Some(hash),
    })?;
    Ok(users)
}

// How the login of a client that sends these bytes ends, and what it is sent, in hexadecimal digits.
fn held(
    alloc: Global,
    input: &[u8],
    link_fails: &[u64],
    salt_fails: &[u64],
) -> Result<(LoginEnd, String), Fail> {
    let mut link = MemLink::new(alloc, input, 1_000, link_fails)?;
    let mut salt = MemSalt::new(alloc, &[SALT], salt_fails)?;
    let end = login(alloc, &users(alloc)?, 1, &mut salt, &mut link);
    Ok((end, hex::encode(alloc, link.written())?))
}

// How a login ends, and what is sent behind the greeting.
fn shown(alloc: Global, input: &str) -> Result<String, Fail> {
    let bytes = hex::decode(alloc, input)?;
    let (end, sent) = held(alloc, bytes.as_slice(), &[], &[])?;
    let reply = sent.as_str().strip_prefix(GREETING).ok_or("no greeting")?;
    Ok(format!(in alloc; "{end:?} {reply}")?)
}

#[test]
fn logins_end_as_the_table_says(rt: HostRuntime) -> Result<(), Fail> {
    for line in ROWS.lines() {
        let (input, wanted) = line.split_once(" = ").ok_or("a line")?;
        let found = shown(rt.alloc(), input)?;
        assert!(rt; found.as_str() == wanted, "{found} for {wanted}");
    }
    Ok(())
}

// How the login of a client ends whose bytes end after so many.
fn cut_end(alloc: Global, input: &str, cut: usize) -> Result<LoginEnd, Fail> {
    let bytes = hex::decode(alloc, input)?;
    let front = bytes.as_slice().get(..cut).unwrap_or(&[]);
    let (end, _sent) = held(alloc, front, &[], &[])?;
    Ok(end)
}

// How it must end: the first packet has so many bytes, and with all of them the client is let in.
fn wanted_at(cut: usize, first: usize, all: usize) -> LoginEnd {
    if cut == all {
        LoginEnd::In
    } else if cut == 0 || cut == first {
        LoginEnd::Closed
    } else {
        LoginEnd::BadPacket
    }
}

#[test]
fn each_cut_of_one_packet_ends_as_it_must(rt: HostRuntime) -> Result<(), Fail> {
    for cut in 0..65usize {
        let end = cut_end(rt.alloc(), FIRST, cut)?;
        assert!(rt; end == wanted_at(cut, 64, 64), "{end:?} at {cut}");
    }
    Ok(())
}

#[test]
fn each_cut_of_two_packets_ends_as_it_must(rt: HostRuntime) -> Result<(), Fail> {
    for cut in 0..88usize {
        let end = cut_end(rt.alloc(), SECOND, cut)?;
        assert!(rt; end == wanted_at(cut, 63, 87), "{end:?} at {cut}");
    }
    Ok(())
}

#[test]
fn a_call_that_fails_ends_the_login(rt: HostRuntime) -> Result<(), Fail> {
    let bytes = hex::decode(rt.alloc(), FIRST)?;
    // The greeting, the packet's head and its payload, the verdict.
    for call in 1..5u64 {
        let (end, sent) = held(rt.alloc(), bytes.as_slice(), &[call], &[])?;
        let want = if call == 1 { "" } else { GREETING };
        assert!(rt; end == LoginEnd::LinkFault, "{end:?} at call {call}");
        assert!(rt; sent.as_str() == want, "{sent} at call {call}");
    }
    let (end, sent) = held(rt.alloc(), bytes.as_slice(), &[], &[1])?;
    assert!(rt; end == LoginEnd::SaltFault, "{end:?}");
    assert!(rt; sent.as_str() == "", "{sent}");
    Ok(())
}
