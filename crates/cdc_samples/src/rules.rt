//! Renaming rules.

ghost use Rattle.std.specs.Prelude.{IfOk};
ghost use Rattle.cdc_rename.specs.Names.{IsName, IsRule};

use cdc_base::{Memory, Rename, Text};
use std::alloc::Global;

/// A rule.
pub fn rule(
    alloc: Global,
    db: &str,
    table: &str,
    to_db: &str,
    to_table: &str,
) -> Result<Rename, Memory>
    requires db { IsName db.now }
    requires table { IsName table.now }
    requires to_db { IsName to_db.now }
    requires to_table { IsName to_table.now }
    ensures { IfOk result IsRule }
{
    Ok(Rename {
        db: Text::of(alloc, db)?,
        table: Text::of(alloc, table)?,
        to_db: Text::of(alloc, to_db)?,
        to_table: Text::of(alloc, to_table)?,
    })
}
