//! The login of a client by `mysql_native_password`: greeting, credentials, verdict.
//!
//! `login` draws a salt, greets, reads what the client answers, and says whether it is one of the users. What it
//! sends, how it ends and which bytes it leaves is a definition over the users, the door's number, the salt and the
//! client's bytes. Called before a session, where users are named. Definitions: `Answer`, `Credentials`, `Greeting`,
//! `Login`, `Following`.
#![tactic(auto)]

mod answer;
mod credentials;
mod field;
mod greeting;
mod login_end;
mod steps;

pub use login_end::LoginEnd;
pub use steps::login;
