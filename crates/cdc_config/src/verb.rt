//! The first word of a command.

ghost use Rattle.std.specs.Prelude.{◌≡◌};
ghost use Rattle.cdc_config.specs.Verb.{verb_spelled};

/// What a command does, by its first word.
#[derive(Clone, Copy, Debug, PartialEq, Eq)]
pub enum Verb {
    Print,
    Run,
    List,
    Serve,
    Follow,
    Split,
    Purge,
    Seek,
    Drill,
    Help,
    Version,
}

/// The verb that a word spells; none where it spells none.
pub fn verb_of(word: &[u8]) -> Option<Verb>
    ensures { result ≡ verb_spelled word.now }
{
    if word == b"print".as_slice() {
        Some(Verb::Print)
    } else if word == b"run".as_slice() {
        Some(Verb::Run)
    } else if word == b"list".as_slice() {
        Some(Verb::List)
    } else if word == b"serve".as_slice() {
        Some(Verb::Serve)
    } else if word == b"follow".as_slice() {
        Some(Verb::Follow)
    } else if word == b"split".as_slice() {
        Some(Verb::Split)
    } else if word == b"purge".as_slice() {
        Some(Verb::Purge)
    } else if word == b"seek".as_slice() {
        Some(Verb::Seek)
    } else if word == b"drill".as_slice() {
        Some(Verb::Drill)
    } else if word == b"--help".as_slice() {
        Some(Verb::Help)
    } else if word == b"--version".as_slice() {
        Some(Verb::Version)
    } else {
        None
    }
}
