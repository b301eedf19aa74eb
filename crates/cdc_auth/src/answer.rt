//! Whether an answer is right.

ghost use Rattle.std.specs.Prelude.{◌≡◌, length};
ghost use Rattle.std.specs.List.{find};
ghost use Rattle.std.specs.Option.{option_copied};
ghost use Rattle.std.specs.Str.{bytes_eq};
ghost use Rattle.cdc_base.specs.declared.user.User.{User};
ghost use Rattle.cdc_auth.specs.Answer.{xor_bytes, answered_hash, is_right_answer};
ghost use Rattle.cdc_auth.specs.Login.{is_admitted};

use cdc_base::{User, UserList};
use cdc_outside::SALT_LENGTH;
use sha1::{DIGEST_LEN, Sha1};

/// Two digests, joined by exclusive or.
fn xor(bytes: &[u8], others: &[u8; DIGEST_LEN]) -> [u8; DIGEST_LEN]
    requires { length bytes.now ≡ DIGEST_LEN }
    ensures { result ≡ xor_bytes bytes.now others.now }
{
    let mut joined = [0u8; DIGEST_LEN];
    for i in 0..DIGEST_LEN {
        joined[i] = bytes[i] ^ others[i];
    }
    joined
}

/// Whether two digests are equal. Every byte is compared, so the time doesn't tell where they differ first.
#[tactic(auto, using(crate::proofs::Digests::equal_next, crate::proofs::Digests::unequal_next))]
fn same_digest(digest: &[u8; DIGEST_LEN], other: &[u8; DIGEST_LEN]) -> bool
    ensures { result ≡ bytes_eq digest.now other.now }
{
    let mut differing = 0usize;
    for i in 0..DIGEST_LEN {
        if digest[i] != other[i] {
            differing += 1;
        }
    }
    differing == 0
}

/// The digest of what an answer hides behind the digest of salt and hash.
fn answered(hash: &[u8; DIGEST_LEN], salt: &[u8; SALT_LENGTH], answer: &[u8]) -> [u8; DIGEST_LEN]
    requires { length answer.now ≡ DIGEST_LEN }
    ensures { result ≡ answered_hash hash.now salt.now answer.now }
{
    let mut hasher = Sha1::new();
    hasher.update(salt);
    hasher.update(hash);
    let mask = hasher.finalize();
    Sha1::digest(&xor(answer, &mask))
}

/// Whether an answer to a salt is right for a user's hash.
fn is_right(hash: &Option<[u8; DIGEST_LEN]>, salt: &[u8; SALT_LENGTH], answer: &[u8]) -> bool
    ensures { result ≡ is_right_answer hash.now salt.now answer.now }
{
    match hash {
        None => answer.is_empty(),
        Some(hash) => answer.len() == DIGEST_LEN
            && same_digest(&answered(hash, salt, answer), hash),
    }
}

/// The first user of a name.
fn find_user<'a>(users: &'a [User], name: &[u8]) -> Option<&'a User>
    ensures { option_copied result ≡ find (λ (user : User). bytes_eq user.name name.now) users.now }
{
    for user in users {
        if user.name.bytes() == name {
            return Some(user);
        }
    }
    None
}

/// Whether there is a user of this name, and the answer is right for its hash.
pub(crate) fn admits(users: &UserList, salt: &[u8; SALT_LENGTH], name: &[u8], answer: &[u8]) -> bool
    ensures { result ≡ is_admitted users.now salt.now name.now answer.now }
{
    match find_user(users.as_slice(), name) {
        None => false,
        Some(user) => is_right(&user.hash, salt, answer),
    }
}
