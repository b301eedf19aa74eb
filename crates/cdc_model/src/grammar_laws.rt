//! The laws of the grammar of a node's log: its events are read in one way, where they cease to fit is told by a table,
//! and a log that goes on keeps its entries. Each function ensures its law, so that the check proves it.

ghost use Rattle.cdc_model.specs.Entries.{EventsHaveOneReading, OneProgress, FittingIsRead, FrontsFit, MisfitsAreTold, EventsHaveEntries, EachLogHasEntries, OneEntryList, ContinuedLogKeepsEntries};

use cdc_event::{each_file_is_read, file_is_read_in_one_way, grown_file_continues};

/// A law: events that are whole items have one list of entries.
pub fn entries_are_read_in_one_way()
    ensures { EventsHaveOneReading }
{}

/// A law: how far an unfinished item at the end has come is told by the events.
pub fn unfinished_item_is_one()
    ensures { OneProgress }
{}

/// A law: events fit exactly where they are whole items and an unfinished one, or none, behind them.
pub fn fitting_events_are_read()
    ensures { FittingIsRead }
{}

/// A law: each front of events that fit fits, and nothing behind events that don't fit makes them fit.
pub fn fronts_fit()
    ensures { FrontsFit }
{}

/// A law: one event more fits exactly where the table names no fault for it.
pub fn misfits_are_told()
    ensures { MisfitsAreTold }
{}

/// A law: events have entries, whatever they are.
pub fn events_have_entries()
    ensures { EventsHaveEntries }
{}

/// A law: each log has entries, whatever its bytes are.
pub fn each_log_has_entries()
    ensures { EachLogHasEntries }
{
    each_file_is_read();
}

/// A law: a log has one list of entries, and one fault or none.
pub fn log_has_one_entry_list()
    ensures { OneEntryList }
{
    file_is_read_in_one_way();
}

/// A law: a log that continues another begins with its entries, and stays at its fault where it had one.
pub fn continued_log_keeps_entries()
    ensures { ContinuedLogKeepsEntries }
{
    file_is_read_in_one_way();
    grown_file_continues();
}
