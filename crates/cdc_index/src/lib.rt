//! Places in published files: where a dump may begin, and which file comes next.
//!
//! `is_boundary` walks a file's events by their lengths, in large reads, and says whether a place is the end of one;
//! a file that isn't whole events to its end is `Torn`. Called by a session before a dump. Definitions: `Chain`,
//! `Shelf`, `Laws`.
#![tactic(auto)]

mod laws;
mod scan;
mod shelf;
mod shelf_fault;
mod window;

pub use laws::chain_is_exact;
pub use shelf::{is_boundary, next_file, published_length};
pub use shelf_fault::ShelfFault;
