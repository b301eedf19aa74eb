//! The one call of the top call, and what it gave.

ghost use Rattle.std.specs.Prelude.{◌≡◌, ℕ, List, Some, true, IsTrue, length, IfOk};
ghost use Rattle.cdc_config.specs.Words.{command_from};
ghost use Rattle.cdc_top.specs.Ran.{IsFitToRun};
ghost use Rattle.cdc_top.specs.Words.{IsNoRun, IsRunCommand};

use crate::nodes::{ROOM, source_of};
use crate::service::Service;
use cdc_base::{Memory, Text, TextList};
use cdc_config::{Command, Refusal, command_of};
use cdc_memory::{MemSink, MemSource};
use cdc_top::{fits_to_run, top};
use std::alloc::{AllocError, Global};
use std::test::Fail;

/// A configuration, and which calls of its source fail.
#[derive(Clone, Copy)]
pub struct Config<'a> {
    pub text: &'a [u8],
    pub fails: &'a [u64],
}

/// The room of `out`, the writes to it that fail, and the room of `err`.
#[derive(Clone, Copy)]
pub struct Room<'a> {
    pub out: usize,
    pub fails: &'a [u64],
    pub err: usize,
}

/// What a call answered and wrote, and how many of its writes failed.
#[derive(Drop)]
pub struct Seen {
    pub status: u8,
    pub out: Vec<u8>,
    pub err: Vec<u8>,
    pub out_faults: u64,
    pub err_faults: u64,
}

impl Seen {
    /// Whether this was answered and written.
    pub fn is(&self, status: u8, out: &[u8], line: &[u8]) -> bool {
        self.status == status && self.out.as_slice() == out && self.err.as_slice() == line
    }

    /// Whether this was answered, with a front of this text and this line.
    pub fn is_front(&self, status: u8, text: &[u8], line: &[u8]) -> bool {
        let front = text.starts_with(self.out.as_slice());
        front && self.status == status && self.err.as_slice() == line
    }
}

// The sinks of a call.
#[derive(Drop)]
struct Sinks {
    out: MemSink,
    err: MemSink,
}

// Sinks of this room.
fn sinks_of(alloc: Global, room: &Room) -> Result<Sinks, Memory> {
    let out = MemSink::new(alloc, room.out, room.fails)?;
    let err = MemSink::new(alloc, room.err, &[])?;
    Ok(Sinks { out, err })
}

// What sinks have behind a call.
fn seen_of(alloc: Global, status: u8, sinks: &Sinks) -> Result<Seen, AllocError> {
    let out = Vec::from_slice(alloc, sinks.out.written())?;
    let err = Vec::from_slice(alloc, sinks.err.written())?;
    Ok(Seen {
        status,
        out,
        err,
        out_faults: sinks.out.faults(),
        err_faults: sinks.err.faults(),
    })
}

// A word; `''` is the empty one.
fn word_of(alloc: Global, word: &str) -> Result<Text, Memory> {
    if word == "''" {
        return Text::of(alloc, "");
    }
    Text::of(alloc, word)
}

// The words of a command, with blanks between them.
fn words_of(alloc: Global, text: &str) -> Result<TextList, Memory> {
    let mut words = TextList::new(alloc);
    for word in text.split_whitespace() {
        words.push(word_of(alloc, word)?)?;
    }
    Ok(words)
}

// Whether there is a source a file where the words are `print`.
fn fits_print(alloc: Global, words: &[Text], nodes: usize) -> Result<bool, Memory>
    ensures { IfOk result (λ fits. IsTrue fits → (files : List (List ℕ)) → command_from words.now ≡ Some (Command.Print files) → nodes ≡ length files) }
{
    match command_of(alloc, words) {
        Ok(Command::Print(files)) => Ok(files.len() == nodes),
        Ok(_) => Ok(true),
        Err(Refusal::Usage) => Ok(true),
        Err(_) => Err(Memory),
    }
}

// Whether the words aren't `run` without threads.
fn asks_no_pass(alloc: Global, words: &[Text]) -> Result<bool, Memory>
    ensures { IfOk result (λ none. IsTrue none → IsNoRun words.now) }
{
    match command_of(alloc, words) {
        Ok(Command::Run { threads, .. }) => Ok(threads),
        Ok(_) => Ok(true),
        Err(Refusal::Usage) => Ok(true),
        Err(_) => Err(Memory),
    }
}

// Whether the devices are those of the configuration where the words are `run`.
fn fits_run(
    alloc: Global,
    words: &[Text],
    config: &[u8],
    nodes: usize,
    outs: usize,
) -> Result<bool, Memory>
    ensures { IfOk result (λ fits. IsTrue fits → IsRunCommand words.now → IsFitToRun true config.now nodes outs) }
{
    if asks_no_pass(alloc, words)? {
        return Ok(true);
    }
    fits_to_run(alloc, config, nodes, outs)
}

// Calls over devices that fit the words; the calls of the configuration's source fail so.
fn answer(
    alloc: Global,
    words: &[Text],
    config: &[u8],
    fails: &[u64],
    nodes: &mut Vec<MemSource>,
    service: &mut Service,
    sinks: &mut Sinks,
) -> Result<u8, Fail> {
    if service.outs.len() > 4 || !fits_print(alloc, words, nodes.len())? {
        return Err("other nodes or outs")?;
    }
    if !fits_run(alloc, words, config, nodes.len(), service.outs.len())? {
        return Err("other devices")?;
    }
    let mut config = source_of(alloc, config, fails)?;
    Ok(top(
        alloc,
        words,
        &mut config,
        nodes,
        &mut service.outs,
        &mut service.task,
        &mut sinks.out,
        &mut sinks.err,
    ))
}

/// Calls with these words, over devices that fit them.
pub fn call(
    alloc: Global,
    words: &str,
    config: &Config,
    nodes: &mut Vec<MemSource>,
    service: &mut Service,
    room: &Room,
) -> Result<Seen, Fail> {
    let words = words_of(alloc, words)?;
    let mut sinks = sinks_of(alloc, room)?;
    let status = answer(
        alloc,
        words.as_slice(),
        config.text,
        config.fails,
        nodes,
        service,
        &mut sinks,
    )?;
    Ok(seen_of(alloc, status, &sinks)?)
}

/// Room for all.
pub const ROOMY: Room<'static> = Room {
    out: ROOM,
    fails: &[],
    err: 100,
};

/// No configuration.
const NO_CONFIG: Config<'static> = Config {
    text: b"",
    fails: &[],
};

/// Calls without a configuration, outs and a task.
pub fn call_plain(
    alloc: Global,
    words: &str,
    nodes: &mut Vec<MemSource>,
    room: &Room,
) -> Result<Seen, Fail> {
    let mut service = Service::bare(alloc)?;
    call(alloc, words, &NO_CONFIG, nodes, &mut service, room)
}

/// Calls without any device but the sinks.
pub fn call_alone(alloc: Global, words: &str, room: &Room) -> Result<Seen, Fail> {
    call_plain(alloc, words, &mut Vec::new(alloc), room)
}

/// `print` and so many files.
pub fn print_words(alloc: Global, files: usize) -> Result<String, AllocError> {
    let mut words = String::new(alloc);
    words.push_str("print")?;
    for _file in 0..files {
        words.push_str(" n")?;
    }
    Ok(words)
}

/// Prints all nodes into sinks of this room.
pub fn print_into(alloc: Global, nodes: &mut Vec<MemSource>, room: &Room) -> Result<Seen, Fail> {
    let words = print_words(alloc, nodes.len())?;
    call_plain(alloc, words.as_str(), nodes, room)
}

/// Prints all nodes.
pub fn print_all(alloc: Global, nodes: &mut Vec<MemSource>) -> Result<Seen, Fail> {
    print_into(alloc, nodes, &ROOMY)
}
