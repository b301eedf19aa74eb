//! Statement texts: the verb of a text that a QUERY event carries, and the texts of XA statements.
//!
//! A node's log tells its XA branches by texts such as `XA START X'6731',X'',1`. `read_text` answers
//! the verb of any text, and `write_xa` writes an XA verb in its canonical form. `specs/Text.antt` has
//! the canonical texts, `specs/Grammar.antt` the grammar of a text by words, and `specs/Words.antt` the
//! verb of a text as a function. Called by the reader of groups and by the generator of test logs.
#![tactic(auto)]

mod branch;
mod read;
mod verb;
mod words;
mod write;

pub use read::read_text;
pub use verb::Verb;
pub use write::{canonical_text_is_read, write_xa};
