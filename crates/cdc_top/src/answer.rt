//! The answers of the top calls, and their statuses.

ghost use Rattle.std.specs.Prelude.{◌≡◌};
ghost use Rattle.cdc_top.specs.Answers as answers;

use cdc_base::{Key, Place};
use cdc_config::ConfigKey;
use cdc_dumper::OpenFault;
use cdc_model::{Layout, NodeFault};

/// The answer of a call. Nodes, outs and transactions are counted from 1.
#[derive(Clone, Copy, Debug, PartialEq, Eq)]
pub enum Answer {
    /// All is done: status 0, no line.
    Done,
    /// The words are no command: status 2.
    Usage,
    /// The configuration is refused for this key: status 2.
    Config {
        key: ConfigKey,
    },
    /// The log of this node has this fault, at its place: status 3.
    Node {
        node: u32,
        place: Place,
        fault: NodeFault,
    },
    /// The source of the configuration failed: status 4.
    ReadConfig,
    /// The source of this node failed: status 4.
    Read {
        node: u32,
    },
    /// The disk of this out failed when all were opened: status 5.
    Disk {
        out: u32,
    },
    /// The output has no room for the transaction of this number, whose print has so many bytes: status 6.
    TooLarge {
        number: u64,
        bytes: u64,
    },
    /// This out can't be opened: status 5 where its disk failed, else 7.
    Unopened {
        out: u32,
        fault: OpenFault,
    },
    /// The disk of the task failed: status 5.
    TaskDisk,
    /// The task's record is refused: status 7.
    TaskCell,
    /// The task was kept for another number of nodes: status 7.
    TaskNodes {
        kept: u32,
        given: u32,
    },
    /// The task was kept for another rotation size: status 7.
    TaskRotation {
        kept: u64,
        given: u64,
    },
    /// The log of this node ends before the place from which it is to be read on: status 7.
    Behind {
        node: u32,
        kept: Place,
        given: Place,
    },
    /// This out stands elsewhere than where the next transaction begins: status 7.
    Differs {
        out: u32,
        kept: Layout,
        given: Layout,
    },
    /// The last transaction of this out has another key than the one of its number: status 7.
    OtherKey {
        out: u32,
        kept: Key,
        given: Key,
    },
    /// There was no memory: status 8.
    Memory,
    /// The sink failed: status 9.
    Sink,
}

/// The status of an out that can't be opened.
fn unopened_status(fault: &OpenFault) -> u8
    ensures { result ≡ answers.unopened_status fault.now }
{
    match fault {
        OpenFault::DiskFault => 5,
        OpenFault::BadCell(_) => 7,
        OpenFault::BadFront { .. } => 7,
    }
}

/// The program's exit status.
pub fn status(answer: &Answer) -> u8
    ensures { result ≡ answers.status_of answer.now }
{
    match answer {
        Answer::Done => 0,
        Answer::Usage => 2,
        Answer::Config { .. } => 2,
        Answer::Node { .. } => 3,
        Answer::ReadConfig => 4,
        Answer::Read { .. } => 4,
        Answer::Disk { .. } => 5,
        Answer::TooLarge { .. } => 6,
        Answer::Unopened { out: _, fault } => unopened_status(fault),
        Answer::TaskDisk => 5,
        Answer::TaskCell => 7,
        Answer::TaskNodes { .. } => 7,
        Answer::TaskRotation { .. } => 7,
        Answer::Behind { .. } => 7,
        Answer::Differs { .. } => 7,
        Answer::OtherKey { .. } => 7,
        Answer::Memory => 8,
        Answer::Sink => 9,
    }
}
