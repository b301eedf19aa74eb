//! The headline of the service, as definitions over the bytes of the nodes and the contents of the disks, and its laws.
//!
//! `Headline` says what a pass leaves of its outputs and its task at every moment and at its end. The laws say that a pass
//! keeps it, from what its opening (`cdc_opening`) and its windows (`cdc_windows`) promise. Each function ensures its law, so that
//! the check proves it. Called by the pass. Definitions: `Ending`, `Running`, `Headline`, `Laws`.
#![tactic(auto)]

mod laws;

pub use laws::{opening_keeps_headline, windows_keep_headline, windows_name_by_counts};
