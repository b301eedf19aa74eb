//! What outputs have published, as lines: one a published file, and one an out.
//!
//! `list` looks at each out, reads how long its published files are, and writes the lines; it changes nothing on any
//! disk. `list_fronts` writes the own lines of the outs alone. `out_line` is the line of one out by its Front, and takes no memory. Called by the top call. Definitions:
//! `Lines` (the text), `Listing` (how a listing ends, and why).
#![tactic(auto)]

mod fronts;
mod laws;
mod line;
mod list_end;
mod listing;
mod out_lines;

pub use fronts::list_fronts;
pub use laws::{list_is_complete, listing_is_one, worked_outs_are_listed};
pub use line::{LINE_MAX, Line, out_line};
pub use list_end::ListEnd;
pub use listing::list;
