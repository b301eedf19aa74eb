//! What a call met with, and the order of the answers to it.

ghost use Rattle.std.specs.Prelude.{◌≡◌};
ghost use Rattle.cdc_top.specs.Order.{answer_of, nothing_met, usage_met, wanting_met, sink_met, findings_of_print, findings_of_listing, findings_of_drill, findings_of_config, findings_of_lines, pass_answer, task_answer};
ghost use Rattle.cdc_top.specs.Order as order;

use crate::answer::Answer;
use crate::config::ConfigStop;
use cdc_base::Place;
use cdc_config::ConfigKey;
use cdc_drill::DrillEnd;
use cdc_dumper::OpenFault;
use cdc_list::ListEnd;
use cdc_model::NodeFault;
use cdc_opening::Outcome;
use cdc_print::PrintEnd;
use cdc_task::TaskFault;

/// A transaction that an output has no room for: its number, and the bytes of its print.
#[derive(Clone, Copy, Debug, PartialEq, Eq)]
pub struct Oversized {
    pub number: u64,
    pub bytes: u64,
}

/// The fault of a node's log, at its place. Nodes are counted from 1.
#[derive(Clone, Copy, Debug, PartialEq, Eq)]
pub struct Faulty {
    pub node: u32,
    pub place: Place,
    pub fault: NodeFault,
}

/// An out that can't be opened, and why. Outs are counted from 1.
#[derive(Clone, Copy, Debug, PartialEq, Eq)]
pub struct UnopenedOut {
    pub out: u32,
    pub fault: OpenFault,
}

/// What a call met with, of all that may decide its answer. The fields stand in the order in which they are answered.
#[derive(Clone, Copy, Debug, PartialEq, Eq)]
pub struct Findings {
    /// The words are no command of the call.
    pub usage: bool,
    /// The source of the configuration failed.
    pub config_unread: bool,
    /// The first key for which the configuration is refused.
    pub config_refused: Option<ConfigKey>,
    /// How a pass ended before all was published.
    pub passed: Option<Outcome>,
    /// The least out that can't be opened.
    pub unopened: Option<UnopenedOut>,
    /// The out whose disk failed when all were opened.
    pub failed: Option<u32>,
    /// The least node whose source failed.
    pub unread: Option<u32>,
    /// There was no memory.
    pub wanting: bool,
    /// The transaction that the output has no room for.
    pub oversized: Option<Oversized>,
    /// The fault of the least node whose log has one.
    pub faulty: Option<Faulty>,
    /// The sink failed.
    pub sink: bool,
}

impl Findings {
    /// Nothing that hinders.
    pub fn none() -> Findings
        ensures { result ≡ nothing_met }
    {
        Findings {
            usage: false,
            config_unread: false,
            config_refused: None,
            passed: None,
            unopened: None,
            failed: None,
            unread: None,
            wanting: false,
            oversized: None,
            faulty: None,
            sink: false,
        }
    }

    /// Words that are no command.
    pub fn of_usage() -> Findings
        ensures { result ≡ usage_met }
    {
        let mut found = Findings::none();
        found.usage = true;
        found
    }

    /// Want of memory.
    pub fn of_want() -> Findings
        ensures { result ≡ wanting_met }
    {
        let mut found = Findings::none();
        found.wanting = true;
        found
    }

    /// A sink that failed.
    pub fn of_sink() -> Findings
        ensures { result ≡ sink_met }
    {
        let mut found = Findings::none();
        found.sink = true;
        found
    }
}

/// What a print's end tells.
pub fn findings_of(end: &PrintEnd) -> Findings
    ensures { result ≡ findings_of_print end.now }
{
    let mut found = Findings::none();
    match end {
        PrintEnd::Done => {}
        PrintEnd::Read { node } => found.unread = Some(*node),
        PrintEnd::Memory => found.wanting = true,
        PrintEnd::TooLarge { number, bytes } => {
            found.oversized = Some(Oversized {
                number: *number,
                bytes: *bytes,
            });
        }
        PrintEnd::Fault { node, place, fault } => {
            found.faulty = Some(Faulty {
                node: *node,
                place: *place,
                fault: *fault,
            });
        }
        PrintEnd::Sink => found.sink = true,
    }
    found
}

/// What a listing's end tells.
pub fn findings_of_list(end: &ListEnd) -> Findings
    ensures { result ≡ findings_of_listing end.now }
{
    let mut found = Findings::none();
    match end {
        ListEnd::Done => {}
        ListEnd::Unopened { out, fault } => {
            found.unopened = Some(UnopenedOut {
                out: *out,
                fault: *fault,
            });
        }
        ListEnd::Disk { out } => found.failed = Some(*out),
        ListEnd::Memory => found.wanting = true,
        ListEnd::Sink => found.sink = true,
    }
    found
}

/// What a drill's end tells.
pub fn findings_of_drilled(end: &DrillEnd) -> Findings
    ensures { result ≡ findings_of_drill end.now }
{
    let mut found = Findings::none();
    match end {
        DrillEnd::Done => {}
        DrillEnd::TooLarge { number, bytes } => {
            found.oversized = Some(Oversized {
                number: *number,
                bytes: *bytes,
            });
        }
        DrillEnd::Node { node, place, fault } => {
            found.faulty = Some(Faulty {
                node: *node,
                place: *place,
                fault: *fault,
            });
        }
        DrillEnd::Memory => found.wanting = true,
        DrillEnd::Sink => found.sink = true,
    }
    found
}

/// What it tells that there is no plan.
pub fn findings_of_stop(stop: &ConfigStop) -> Findings
    ensures { result ≡ findings_of_config stop.now }
{
    let mut found = Findings::none();
    match stop {
        ConfigStop::Unread => found.config_unread = true,
        ConfigStop::Refused(key) => found.config_refused = Some(*key),
        ConfigStop::Memory => found.wanting = true,
    }
    found
}

/// What a pass's end tells; of one that published all no more than a transaction that is too large, or a node's fault.
pub fn findings_of_pass(outcome: &Outcome) -> Findings
    ensures { result ≡ order.findings_of_pass outcome.now }
{
    let mut found = Findings::none();
    match outcome {
        Outcome::Done => {}
        Outcome::TooLarge { number, bytes } => {
            found.oversized = Some(Oversized {
                number: *number,
                bytes: *bytes,
            });
        }
        Outcome::Node { node, place, fault } => {
            found.faulty = Some(Faulty {
                node: *node,
                place: *place,
                fault: *fault,
            });
        }
        Outcome::Disk { .. }
        | Outcome::TaskDisk
        | Outcome::Read { .. }
        | Outcome::Memory
        | Outcome::Open { .. }
        | Outcome::Task(_)
        | Outcome::Behind { .. }
        | Outcome::Differs { .. }
        | Outcome::Key { .. } => found.passed = Some(*outcome),
    }
    found
}

/// What a pass that published all tells, and the end of the lines behind it.
pub fn findings_of_run(outcome: &Outcome, end: &ListEnd) -> Findings
    ensures { result ≡ findings_of_lines outcome.now end.now }
{
    let passed = findings_of_pass(outcome);
    let mut found = findings_of_list(end);
    found.oversized = passed.oversized;
    found.faulty = passed.faulty;
    found
}

/// The answer to a task that can't be opened.
fn answer_of_task(fault: TaskFault) -> Answer
    ensures { result ≡ task_answer fault }
{
    match fault {
        TaskFault::DiskFault => Answer::TaskDisk,
        TaskFault::BadCell(_) => Answer::TaskCell,
        TaskFault::NodeCount { kept, given } => Answer::TaskNodes { kept, given },
        TaskFault::Rotation { kept, given } => Answer::TaskRotation { kept, given },
        TaskFault::Memory => Answer::Memory,
    }
}

/// The answer to how a pass ended.
fn answer_of_pass(outcome: &Outcome) -> Answer
    ensures { result ≡ pass_answer outcome.now }
{
    match outcome {
        Outcome::Done => Answer::Done,
        Outcome::Disk { out } => Answer::Disk { out: *out },
        Outcome::TaskDisk => Answer::TaskDisk,
        Outcome::Read { node } => Answer::Read { node: *node },
        Outcome::Memory => Answer::Memory,
        Outcome::TooLarge { number, bytes } => Answer::TooLarge {
            number: *number,
            bytes: *bytes,
        },
        Outcome::Node { node, place, fault } => Answer::Node {
            node: *node,
            place: *place,
            fault: *fault,
        },
        Outcome::Open { out, fault } => Answer::Unopened {
            out: *out,
            fault: *fault,
        },
        Outcome::Task(fault) => answer_of_task(*fault),
        Outcome::Behind { node, kept, given } => Answer::Behind {
            node: *node,
            kept: *kept,
            given: *given,
        },
        Outcome::Differs { out, kept, given } => Answer::Differs {
            out: *out,
            kept: *kept,
            given: *given,
        },
        Outcome::Key { out, kept, given } => Answer::OtherKey {
            out: *out,
            kept: *kept,
            given: *given,
        },
    }
}

/// The answer: that of the first thing met with, in the order of the fields; `Done` where there is none.
pub fn answer_of(found: &Findings) -> Answer
    ensures { result ≡ answer_of found.now }
{
    if found.usage {
        return Answer::Usage;
    }
    if found.config_unread {
        return Answer::ReadConfig;
    }
    if let Some(key) = found.config_refused {
        return Answer::Config { key };
    }
    if let Some(outcome) = &found.passed {
        return answer_of_pass(outcome);
    }
    if let Some(UnopenedOut { out, fault }) = found.unopened {
        return Answer::Unopened { out, fault };
    }
    if let Some(out) = found.failed {
        return Answer::Disk { out };
    }
    if let Some(node) = found.unread {
        return Answer::Read { node };
    }
    if found.wanting {
        return Answer::Memory;
    }
    if let Some(Oversized { number, bytes }) = found.oversized {
        return Answer::TooLarge { number, bytes };
    }
    if let Some(Faulty { node, place, fault }) = found.faulty {
        return Answer::Node { node, place, fault };
    }
    if found.sink {
        return Answer::Sink;
    }
    Answer::Done
}
