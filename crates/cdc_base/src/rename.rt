//! A rule that renames a table.

use crate::items::Items;
use crate::text::Text;

/// Tables named `db`.`table` are published as `to_db`.`to_table`; names match byte for byte.
#[derive(Debug, Drop)]
pub struct Rename {
    pub db: Text,
    pub table: Text,
    pub to_db: Text,
    pub to_table: Text,
}

/// A list of renaming rules.
pub type RenameList = Items<Rename>;
