//! The definitions of the whole service, the laws above them, and the types that all layers share.
//!
//! The definitions stand in `specs/` (docs/DEFINITIONS.md reads them aloud). The types of the layers stand
//! here: a log's entries, branches and transactions, each seen as a plain record. Each law is a public function
//! with an empty body that ensures it. Called by `cdc_plain`, `cdc_writer` and `cdc_top`.
#![tactic(auto)]

mod branch;
mod entry;
mod entry_laws;
mod fault;
mod feed_laws;
mod grammar_laws;
mod growth_laws;
mod laws;
mod layout;
mod node_cut;
mod node_log;
mod opened;
mod order_laws;
mod reading_laws;
mod restart_laws;
mod row_view;
mod rows;
mod run;
mod start;
mod statement;
mod transaction;
mod unit;

pub use branch::{Branch, BranchList};
pub use entry::{Entry, EntryKind, EntryList};
pub use entry_laws::{
    each_commit_gives_one_branch, held_commit_gives_none, log_fault_is_first, one_entry_more,
    open_branches_ascend, open_is_newest_prepare, sort_fault_is_first,
};
pub use fault::{GroupFault, NodeFault, SortFault};
pub use feed_laws::{feed_begins, feed_gives, feed_reads_on, feed_tells, node_settled_in_order};
pub use grammar_laws::{
    continued_log_keeps_entries, each_log_has_entries, entries_are_read_in_one_way,
    events_have_entries, fitting_events_are_read, fronts_fit, log_has_one_entry_list,
    misfits_are_told, unfinished_item_is_one,
};
pub use growth_laws::{
    continued_logs_grow, least_mark_rises, low_water_mark_rises, one_file_ends, output_grows,
    output_of_more_goes_on, settled_order_grows, sound_entries_grow, sound_prefix_grows,
};
pub use laws::{
    files_are_whole, grown_log_continues, log_prefix_is_an_order, mark_is_greatest, mark_is_least,
    node_mark_is_least, numbers_count, one_more_is_one_step, open_as_newest_says, order_is_exact,
    settled_fit, settled_is_exact, sound_is_longest, units_are_steps, units_make_files,
};
pub use layout::Layout;
pub use node_cut::{HeldList, NodeCut};
pub use node_log::NodeLog;
pub use opened::{OpenList, Opened};
pub use order_laws::{
    feeds_merge_to_order, later_feeds_go_on, lesser_mark_settles_a_front, same_branches_same_order,
    seconds_are_the_firsts, settled_branches_go_on, settled_order_is_exact,
};
pub use reading_laws::{
    misplaced_event_ends, one_event_more, one_rest, reading_begins, rest_of_log_is_read,
    rows_are_of_tables_or_one_statement, start_reads_all, statements_are_read,
};
pub use restart_laws::{
    latest_never_falls, one_latest_point, restart_gives_the_rest, restart_place_reads_the_rest,
    restart_point_is_start, restart_point_stays, restart_points_stay, restart_reads_the_rest,
    restarted_points_are_the_wholes, resumed_latest_is_the_wholes, sound_numbers_end,
    start_is_restart_point,
};
pub use row_view::{RowView, Rows};
pub use rows::RowList;
pub use run::RowRun;
pub use start::StartingPoint;
pub use statement::{Statement, statement_in};
pub use transaction::{Txn, TxnList};
pub use unit::Unit;
