//! The answers of the call, and their statuses.

ghost use Rattle.std.specs.Prelude.{◌≡◌};
ghost use Rattle.cdc_serve.specs.Answers.{end_status, serve_status};

use cdc_config::ConfigKey;
use cdc_dumper::OpenFault;
use cdc_server::ServeEnd;

/// The answer of a call that serves, in the order in which they are tested.
#[derive(Clone, Copy, Debug, PartialEq, Eq)]
pub enum ServeAnswer {
    /// The words are no command of the call: status 2.
    Usage,
    /// The configuration couldn't be read: status 4.
    ReadConfig,
    /// The configuration is refused for this key: status 2.
    Config(ConfigKey),
    /// There was no memory, and no door was asked: status 8.
    Memory,
    /// The doors were served, and came to this.
    Served(ServeEnd),
}

/// The status of what doors came to.
fn status_of_end(end: ServeEnd) -> u8
    ensures { result ≡ end_status end }
{
    match end {
        ServeEnd::Done => 0,
        ServeEnd::Disk { .. } => 5,
        ServeEnd::Kept {
            fault: OpenFault::DiskFault,
            ..
        } => 5,
        ServeEnd::Kept { .. } => 7,
        ServeEnd::Torn { .. } => 7,
        ServeEnd::Memory => 8,
        ServeEnd::Door { .. } => 9,
        ServeEnd::Salt { .. } => 9,
    }
}

/// The exit status of an answer.
pub(crate) fn status(answer: ServeAnswer) -> u8
    ensures { result ≡ serve_status answer }
{
    match answer {
        ServeAnswer::Usage => 2,
        ServeAnswer::ReadConfig => 4,
        ServeAnswer::Config(_) => 2,
        ServeAnswer::Memory => 8,
        ServeAnswer::Served(end) => status_of_end(end),
    }
}
