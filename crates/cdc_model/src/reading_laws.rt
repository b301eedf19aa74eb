//! The laws of reading on: what one event more comes to, what the rows of entries are, and what is read from a place of a
//! log on. Each function ensures its law, so that the check proves it.

ghost use Rattle.cdc_model.specs.Advance.{ReadingBegins, OneEventMore, MisplacedEventEnds};
ghost use Rattle.cdc_model.specs.GrammarRows.{RowsAreOfTablesOrOneStatement, ReadsStatements};
ghost use Rattle.cdc_model.specs.ReadFrom.{StartReadsAll, RestOfLogIsRead, OneRest};

use cdc_event::{file_is_read_in_one_way, rest_is_read};

/// A law: before the first event nothing is read, and no item has begun.
pub fn reading_begins()
    ensures { ReadingBegins }
{}

/// A law: an event that fits goes on with the unfinished item or ends it, and then its entry stands behind those before it.
pub fn one_event_more()
    ensures { OneEventMore }
{}

/// A law: an event that doesn't fit ends the entries of its file with the table's fault at its place.
pub fn misplaced_event_ends()
    ensures { MisplacedEventEnds }
{}

/// A law: the rows of a log's entries are table maps and row events, or one statement of the whole database.
pub fn rows_are_of_tables_or_one_statement()
    ensures { RowsAreOfTablesOrOneStatement }
{}

/// A law: rows of tables have no statement, and one statement alone is read as it is.
pub fn statements_are_read()
    ensures { ReadsStatements }
{}

/// A law: from the start of a log, under whatever setting, all of its entries are read.
pub fn start_reads_all()
    ensures { StartReadsAll }
{}

/// A law: from the end of an entry on, under the setting there, the entries behind it are read, and the same fault.
pub fn rest_of_log_is_read()
    ensures { RestOfLogIsRead }
{
    rest_is_read();
}

/// A law: from a place on, under a setting, a log is read in one way.
pub fn one_rest()
    ensures { OneRest }
{
    file_is_read_in_one_way();
}
