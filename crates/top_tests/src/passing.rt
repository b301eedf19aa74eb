//! Calls over a configuration's nodes, outs and task.

use crate::call::{Config, Room, Seen, call};
use crate::service::Service;
use cdc_memory::MemSource;
use std::alloc::Global;
use std::test::Fail;

/// What a configuration says besides nodes, outs and task: its first lines, and its last ones.
#[derive(Clone, Copy)]
pub struct Settings<'a> {
    pub first: &'a str,
    pub last: &'a str,
}

/// Nothing.
pub const PLAIN: Settings<'static> = Settings {
    first: "",
    last: "",
};

/// The room of a pass's sinks.
pub const PASS_ROOM: Room<'static> = Room {
    out: 1_000,
    fails: &[],
    err: 400,
};

// So many tables more, each of a front, its number from 0 on, and an end.
fn push_tables(
    alloc: Global,
    text: &mut String,
    front: &str,
    count: usize,
    end: &str,
) -> Result<(), Fail> {
    for number in 0..count {
        let table = format!(in alloc; "{front}{number}{end}")?;
        text.push_str(table.as_str())?;
    }
    Ok(())
}

// A configuration of so many nodes and outs.
fn config_text(
    alloc: Global,
    settings: &Settings,
    nodes: usize,
    outs: usize,
) -> Result<String, Fail> {
    let mut text = String::new(alloc);
    text.push_str(settings.first)?;
    push_tables(alloc, &mut text, "[[node]]\nfiles = [\"n", nodes, "\"]\n")?;
    push_tables(alloc, &mut text, "[[out]]\nfolder = \"o", outs, "\"\n")?;
    text.push_str("[task]\nfolder = \"t\"\n")?;
    text.push_str(settings.last)?;
    Ok(text)
}

/// Calls with these words, and a configuration of these settings, nodes and outs.
pub fn call_by(
    alloc: Global,
    words: &str,
    settings: &Settings,
    service: &mut Service,
    nodes: &mut Vec<MemSource>,
) -> Result<Seen, Fail> {
    let text = config_text(alloc, settings, nodes.len(), service.outs.len())?;
    call_with(alloc, words, text.as_bytes(), service, nodes)
}

/// Calls with these words and this configuration.
pub fn call_with(
    alloc: Global,
    words: &str,
    text: &[u8],
    service: &mut Service,
    nodes: &mut Vec<MemSource>,
) -> Result<Seen, Fail> {
    let config = Config { text, fails: &[] };
    call(alloc, words, &config, nodes, service, &PASS_ROOM)
}

/// Calls `run c` with these settings over nodes.
pub fn run(
    alloc: Global,
    settings: &Settings,
    service: &mut Service,
    nodes: &mut Vec<MemSource>,
) -> Result<Seen, Fail> {
    call_by(alloc, "run c", settings, service, nodes)
}
