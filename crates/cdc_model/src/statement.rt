//! Statements of the whole database, as marked texts spell them.

ghost use Rattle.std.specs.Prelude.{◌≡◌, ◌+◌, ◌≤◌, length, take, drop, IfSome};
ghost use Rattle.std.specs.Option.{option_map};
ghost use Rattle.cdc_model.specs.Print.{split_at_colons, statement_in, well_formed};

/// What a marked text begins with.
const MARK: &[u8] = b"DDL::";

/// What stands between the database and the text.
const COLONS: &[u8] = b"::";

/// The most bytes of a database's name.
const DATABASE_MAX: usize = 64;

/// A statement: the database that it speaks of, and its text.
#[derive(Clone, Copy, Debug, PartialEq)]
pub struct Statement<'a> {
    pub database: &'a [u8],
    pub text: &'a [u8],
}

// Where the first two colons stand.
fn colons_at(text: &[u8]) -> Option<usize>
    ensures split { option_map (λ at. (take at text.now, drop 2 (drop at text.now))) result ≡ split_at_colons text.now }
    ensures within { IfSome result (λ at. at + 2 ≤ length text.now) }
{
    for at in 0..text.len() {
        if text[at..].starts_with(COLONS) {
            return Some(at);
        }
    }
    None
}

// What stands before and behind the first two colons.
fn split(text: &[u8]) -> Option<Statement<'_>>
    ensures { option_map (λ s. (s.database.now, s.text.now)) result ≡ split_at_colons text.now }
{
    let at = colons_at(text)?;
    let (database, rest) = text.split_at(at);
    let (_, text) = rest.split_at(COLONS.len());
    Some(Statement { database, text })
}

// A database of at most 64 bytes, and a text of at least one.
fn checked(statement: Statement<'_>) -> Option<Statement<'_>>
    ensures { option_map (λ s. (s.database.now, s.text.now)) result ≡ well_formed (statement.entry.database.now, statement.entry.text.now) }
{
    if statement.database.len() <= DATABASE_MAX && !statement.text.is_empty() {
        Some(statement)
    } else {
        None
    }
}

/// The statement that a marked text spells: `DDL::`, the database of at most 64 bytes, `::`, and the text,
/// which isn't empty.
#[tactic(auto, unfolding(crate::specs::Print::statement_in))]
pub fn statement_in(text: &[u8]) -> Option<Statement<'_>>
    ensures { option_map (λ s. (s.database.now, s.text.now)) result ≡ statement_in text.now }
{
    if !text.starts_with(MARK) {
        return None;
    }
    let (_, rest) = text.split_at(MARK.len());
    match split(rest) {
        Some(statement) => checked(statement),
        None => None,
    }
}
