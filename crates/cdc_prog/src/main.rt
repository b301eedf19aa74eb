//! The program `cdc`: the top call over real files, folders and the standard streams.
//!
//! `cdc print FILE ..` reads one log a node, and writes the transactions of all of them to standard output;
//! `cdc run CONFIG` publishes what is settled in the logs of a configuration's nodes to the folders of its outputs;
//! `cdc list CONFIG` prints what the folders of the outputs have published; `cdc serve CONFIG` serves it to clients at the
//! outputs' addresses; `cdc --help` lists the commands. What the program answers is `top`'s and `top_serve`'s to say; here
//! the words and the configuration are read, files, folders and ports found and the status handed back.
#![tactic(auto)]

ghost use Rattle.std.specs.Prelude.{◌≡◌, IfOk, IfErr};
ghost use Rattle.cdc_top.specs.Answers.{status_of};
ghost use Rattle.cdc_top.specs.declared.answer.Answer.TheVariants.{Memory as NoMemory};

mod config;
mod nodes;
mod serving;
mod words;

use crate::config::{Disks, open_config, open_disks, read_places};
use crate::nodes::open_nodes;
use crate::serving::serve;
use crate::words::words_of;
use cdc_base::{Memory, Text};
use cdc_config::{Command, command_of};
use cdc_files::{StdSink, StdStream};
use cdc_outside::Sink;
use cdc_top::{answer_without_memory, top};
use std::alloc::Global;
use std::fs::{Files, OpenFile};
use std::io::{Read, Write};
use std::net::{Net, TcpListener, TcpStream};
use std::os::unix::fs::FileExt;
use std::process::ExitCode;
use std::random::RandomSource;
use std::rt::Env;
use std::sync::Wait;
use std::thread::Threads;

/// Answers words that are no `serve`.
fn answer_here<
    F: FileExt + OpenFile + Read + Drop,
    R: AllocGlobal + Files<File = F>,
    W: Write + Drop,
>(rt: &R, words: &[Text], out: &mut StdSink<W>, err: &mut StdSink<W>) -> Result<u8, Memory> {
    let mut config = open_config(rt, words)?;
    let places = read_places(rt.alloc(), &config)?;
    let mut nodes = open_nodes(rt, words, &places)?;
    let Disks { mut outs, mut task } = open_disks(rt, &places)?;
    Ok(top(
        rt.alloc(),
        words,
        &mut config,
        &mut nodes,
        &mut outs,
        &mut task,
        out,
        err,
    ))
}

/// Answers the words of the command line.
fn answer<
    F: FileExt + OpenFile + Read + Drop + Send,
    I: Read + Drop + Send,
    R: AllocGlobal
        + Env
        + Files<File = F, Dir = I>
        + Net<Listener = TcpListener, Stream = TcpStream>
        + RandomSource
        + Threads
        + Wait
        + Send
        + Sync,
    W: Write + Drop,
>(rt: &R, out: &mut StdSink<W>, err: &mut StdSink<W>) -> Result<u8, Memory> {
    let words = words_of(rt)?;
    match command_of(rt.alloc(), words.as_slice()) {
        Ok(
            Command::Serve {
                config,
                connections,
            },
        ) => serve(rt, words.as_slice(), &config, connections, err),
        _ => answer_here(rt, words.as_slice(), out, err),
    }
}

/// The status of an answer; where there was no memory for one, that of no memory, with its line.
fn status_for<K: Sink>(answer: Result<u8, Memory>, err: &mut K) -> u8
    ensures answered { IfOk answer (λ status. result ≡ status) }
    ensures memory { IfErr answer (λ _. result ≡ status_of NoMemory) }
{
    match answer {
        Ok(status) => status,
        Err(Memory) => answer_without_memory(err),
    }
}

fn main(rt: HostRuntime) -> ExitCode {
    let mut out = StdSink::new(StdStream::Out(rt.stdout()));
    let mut err = StdSink::new(StdStream::Err(rt.stderr()));
    let answer = answer(&rt, &mut out, &mut err);
    ExitCode::from(status_for(answer, &mut err))
}
