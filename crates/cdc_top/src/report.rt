//! Lines on the error stream.

ghost use Rattle.std.specs.Prelude.{◌≡◌, ◌++◌, ◌≤◌, IsTrue, length, decimal};
ghost use Rattle.cdc_top.specs.Answers as answers;
ghost use Rattle.cdc_top.specs.FaultText.{shown_place, shown_fault};
ghost use Rattle.cdc_top.specs.declared.answer.Answer.TheVariants.{Memory as NoMemory};

use crate::answer::{Answer, status};
use crate::fault_line::put_fault;
use crate::kept_lines::{
    behind_line, differs_line, other_key_line, task_nodes_line, task_rotation_line,
};
use crate::line::{LINE_MAX, Line, put, put_number, put_place};
use cdc_base::Place;
use cdc_config::ConfigKey;
use cdc_dumper::OpenFault;
use cdc_model::NodeFault;
use cdc_outside::Sink;

/// Writes a line, or a front of it.
fn say<K: Sink>(err: &mut K, line: &[u8])
    ensures line { IsTrue K.tells → answers.IsSaid (K.written err.old) line.now (K.written err.new) (K.faults err.old) (K.faults err.new) }
    ensures later { K.faults err.old ≤ K.faults err.new }
{
    match err.write(line) {
        Ok(()) => {}
        Err(_) => {}
    }
}

/// The line of a node whose source failed.
fn read_line(node: u32) -> Line
    ensures { result.items ≡ answers.line_of (Answer.Read node) }
{
    let mut line = Line::new();
    put(&mut line, b"cdc: read node ");
    put_number(&mut line, u64::from(node));
    put(&mut line, b"\n");
    line
}

/// The line of a key for which the configuration is refused.
#[tactic(auto, using(crate::proofs::KeyWords::key_word_is_short))]
fn config_line(key: ConfigKey) -> Line
    ensures { result.items ≡ answers.line_of (Answer.Config key) }
{
    let mut line = Line::new();
    put(&mut line, b"cdc: config ");
    put(&mut line, key.word());
    put(&mut line, b"\n");
    line
}

/// The line of an out whose disk failed.
fn disk_line(out: u32) -> Line
    ensures { result.items ≡ answers.disk_line out }
{
    let mut line = Line::new();
    put(&mut line, b"cdc: disk out ");
    put_number(&mut line, u64::from(out));
    put(&mut line, b"\n");
    line
}

/// The line of an out whose record is refused.
fn bad_cell_line(out: u32) -> Line
    ensures { result.items ≡ answers.bad_cell_line out }
{
    let mut line = Line::new();
    put(&mut line, b"cdc: kept out ");
    put_number(&mut line, u64::from(out));
    put(&mut line, b" bad cell\n");
    line
}

/// The line of an out whose last file is shorter than its record says.
fn bad_front_line(out: u32, kept: u64, found: u64) -> Line
    ensures { result.items ≡ answers.bad_front_line out kept found }
{
    let mut line = Line::new();
    put(&mut line, b"cdc: kept out ");
    put_number(&mut line, u64::from(out));
    put(&mut line, b" bad front ");
    put_number(&mut line, kept);
    put(&mut line, b" ");
    put_number(&mut line, found);
    put(&mut line, b"\n");
    line
}

/// The line of an out that can't be opened.
fn unopened_line(out: u32, fault: &OpenFault) -> Line
    ensures { result.items ≡ answers.line_of (Answer.Unopened out fault.now) }
{
    match fault {
        OpenFault::DiskFault => disk_line(out),
        OpenFault::BadCell(_) => bad_cell_line(out),
        OpenFault::BadFront { kept, found } => bad_front_line(out, *kept, *found),
    }
}

/// The line of a transaction that is too large.
fn large_line(number: u64, bytes: u64) -> Line
    ensures { result.items ≡ answers.line_of (Answer.TooLarge number bytes) }
{
    let mut line = Line::new();
    put(&mut line, b"cdc: too large ");
    put_number(&mut line, number);
    put(&mut line, b" ");
    put_number(&mut line, bytes);
    put(&mut line, b"\n");
    line
}

/// The line of a node's fault.
fn node_line(node: u32, place: Place, fault: &NodeFault) -> Line
    ensures { result.items ≡ answers.line_of (Answer.Node node place fault.now) }
{
    let mut line = Line::new();
    put(&mut line, b"cdc: node ");
    put_number(&mut line, u64::from(node));
    put(&mut line, b" ");
    put_place(&mut line, place);
    put(&mut line, b" ");
    put_fault(&mut line, fault);
    put(&mut line, b"\n");
    line
}

/// A line that names nothing.
fn plain_line(text: &[u8]) -> Line
    requires { length text.now ≤ LINE_MAX }
    ensures { result.items ≡ text.now }
{
    let mut line = Line::new();
    put(&mut line, text);
    line
}

/// The line of an answer; empty for `Done`.
fn line_of(answer: &Answer) -> Line
    ensures { result.items ≡ answers.line_of answer.now }
{
    match answer {
        Answer::Done => Line::new(),
        Answer::Usage => plain_line(b"cdc: usage\n"),
        Answer::Config { key } => config_line(*key),
        Answer::Node { node, place, fault } => node_line(*node, *place, fault),
        Answer::ReadConfig => plain_line(b"cdc: read config\n"),
        Answer::Read { node } => read_line(*node),
        Answer::Disk { out } => disk_line(*out),
        Answer::TooLarge { number, bytes } => large_line(*number, *bytes),
        Answer::Unopened { out, fault } => unopened_line(*out, fault),
        Answer::TaskDisk => plain_line(b"cdc: disk task\n"),
        Answer::TaskCell => plain_line(b"cdc: kept task bad cell\n"),
        Answer::TaskNodes { kept, given } => task_nodes_line(*kept, *given),
        Answer::TaskRotation { kept, given } => task_rotation_line(*kept, *given),
        Answer::Behind { node, kept, given } => behind_line(*node, *kept, *given),
        Answer::Differs { out, kept, given } => differs_line(*out, kept, given),
        Answer::OtherKey { out, kept, given } => other_key_line(*out, kept, given),
        Answer::Memory => plain_line(b"cdc: memory\n"),
        Answer::Sink => plain_line(b"cdc: sink\n"),
    }
}

/// Writes the line of an answer, which takes no memory; nothing for `Done`. A line that can't be written is let
/// be: the count of `err` tells.
pub fn report<K: Sink>(answer: &Answer, err: &mut K)
    ensures line { IsTrue K.tells → answers.IsSaid (K.written err.old) (answers.line_of answer.now) (K.written err.new) (K.faults err.old) (K.faults err.new) }
    ensures later { K.faults err.old ≤ K.faults err.new }
{
    match answer {
        Answer::Done => {}
        _ => say(err, line_of(answer).as_slice()),
    }
}

/// The answer where there was no memory even for the words or the sources: its line, and its status.
pub fn answer_without_memory<K: Sink>(err: &mut K) -> u8
    ensures status { result ≡ answers.status_of NoMemory }
    ensures line { IsTrue K.tells → answers.IsSaid (K.written err.old) (answers.line_of NoMemory) (K.written err.new) (K.faults err.old) (K.faults err.new) }
    ensures later { K.faults err.old ≤ K.faults err.new }
{
    report(&Answer::Memory, err);
    status(&Answer::Memory)
}
