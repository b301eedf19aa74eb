//! Doors with users: each link logs in under a draw of its own.

use crate::made::{PING, WELL, door, one_user, output, shown};
use cdc_memory::MemSalt;
use cdc_server::{DoorEnd, serve_door};
use std::test::Fail;

/// Two draws: 1 to 20, and 21 to 40.
const SALTS: [[u8; 20]; 2] = [
    [
        1, 2, 3, 4, 5, 6, 7, 8, 9, 10, 11, 12, 13, 14, 15, 16, 17, 18, 19, 20,
    ],
    [
        21, 22, 23, 24, 25, 26, 27, 28, 29, 30, 31, 32, 33, 34, 35, 36, 37, 38, 39, 40,
    ],
];

/// The greetings of door 3 under them.
const FIRST: &str =
    "4d0000000a352e372e302d6364630003000000010203040506070800018221020008001500000000000000000000090a0b0c0d0e0f1011121314006d7973716c5f6e61746976655f70617373776f726400";

const SECOND: &str =
    "4d0000000a352e372e302d636463000300000015161718191a1b1c000182210200080015000000000000000000001d1e1f202122232425262728006d7973716c5f6e61746976655f70617373776f726400";

/// What a client sends that logs in as `repl` with the empty password, and one with a name that nobody has.
const LOGIN: &str =
    "3c00000100820800000000012100000000000000000000000000000000000000000000007265706c00006d7973716c5f6e61746976655f70617373776f726400";

const STRANGER: &str =
    "3c0000010082080000000001210000000000000000000000000000000000000000000000726f6f7400006d7973716c5f6e61746976655f70617373776f726400";

/// The verdicts.
const IN: &str = "0700000200000002000000";

const DENIED: &str = "16000002ff15042332383030306163636573732064656e696564";

#[test]
fn each_link_logs_in_under_its_own_draw(rt: HostRuntime) -> Result<(), Fail> {
    let alloc = rt.alloc();
    let user = format!(in alloc; "{LOGIN}{PING}")?;
    let mut door = door(alloc, &[user.as_str(), STRANGER, "", user.as_str()], &[])?;
    let mut salt = MemSalt::new(alloc, &[SALTS[0], SALTS[1], SALTS[0]], &[])?;
    let mut disk = output(alloc, &[])?;
    let users = one_user(alloc)?;
    let end = serve_door(&rt, alloc, &users, 3, &mut disk, &mut door, &mut salt);
    let found = shown(alloc, &door)?;
    let first = format!(in alloc; "2 {FIRST}{IN}{WELL}\n9 {SECOND}{DENIED}\n2 {FIRST}\n10 \n")?;
    assert!(&rt; end == DoorEnd::Salt, "{end:?}");
    assert!(&rt; found.as_str() == first.as_str(), "{found}");
    Ok(())
}

#[test]
fn a_draw_that_fails_ends_its_link_alone(rt: HostRuntime) -> Result<(), Fail> {
    let alloc = rt.alloc();
    let user = format!(in alloc; "{LOGIN}{PING}")?;
    let mut door = door(alloc, &[user.as_str(), user.as_str()], &[3])?;
    let mut salt = MemSalt::new(alloc, &SALTS, &[1])?;
    let mut disk = output(alloc, &[])?;
    let users = one_user(alloc)?;
    let end = serve_door(&rt, alloc, &users, 3, &mut disk, &mut door, &mut salt);
    let found = shown(alloc, &door)?;
    let wanted = format!(in alloc; "10 \n2 {SECOND}{IN}{WELL}\n")?;
    // The door failed too, and that stands first.
    assert!(&rt; end == DoorEnd::Door, "{end:?}");
    assert!(&rt; found.as_str() == wanted.as_str(), "{found}");
    Ok(())
}
