//! Who may log in.

use crate::items::Items;
use crate::text::Text;

/// A user: a name, and the digest of the digest of a password, or none where the password is empty.
#[derive(Debug, Drop)]
pub struct User {
    pub name: Text,
    pub hash: Option<[u8; 20]>,
}

/// A list of users.
pub type UserList = Items<User>;
