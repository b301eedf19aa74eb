//! An event.

use crate::body::Body;
use crate::header::Header;

/// An event of a log.
#[derive(Debug, Drop)]
pub struct Event {
    pub header: Header,
    pub body: Body,
}
