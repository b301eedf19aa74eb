//! The laws of what a print comes to. Each function ensures its law, so that the check proves it.

ghost use Rattle.cdc_print.specs.Outcome.{PrintIsComplete, FileHasAll, NodesHaveLogs, OneListOfLogs};

use cdc_model::{each_log_has_entries, log_has_one_entry_list, one_file_ends};
use cdc_writer::head_has_its_length;

/// A law: where sources tell, no log has a fault, the one file has room for all, and no device failed, all is done, or
/// memory was wanting.
pub fn print_is_complete()
    ensures { PrintIsComplete }
{}

/// A law: where the one file has room for all, it has the print of each settled transaction of all logs, whole and in
/// order.
pub fn file_has_all()
    ensures { FileHasAll }
{
    one_file_ends();
    head_has_its_length();
}

/// A law: nodes have logs, whatever the bytes of their files are.
pub fn nodes_have_logs()
    ensures { NodesHaveLogs }
{
    each_log_has_entries();
}

/// A law: nodes have one list of logs.
pub fn one_list_of_logs()
    ensures { OneListOfLogs }
{
    log_has_one_entry_list();
}
