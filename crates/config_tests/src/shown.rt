//! Answers as texts.

use cdc_base::{Memory, Text, TextList};
use cdc_config::{Command, Plan, Refusal, command_of, plan_of};
use std::alloc::{AllocError, Global};

/// A node, an out and a task, which every plan has.
pub const BASE: &str = "node=[{files=['a']}]\nout=[{folder='o'}]\ntask={folder='t'}\n";

// The words of a line; `''` stands for the empty word.
fn words_of(alloc: Global, line: &str) -> Result<TextList, Memory> {
    let mut words = TextList::new(alloc);
    for word in line.split(' ') {
        let text = if word == "''" { "" } else { word };
        words.push(Text::of(alloc, text)?)?;
    }
    Ok(words)
}

// A command with options, or a drill.
fn shown_options(alloc: Global, command: &Command) -> Result<String, AllocError> {
    match command {
        Command::Run {
            config,
            order,
            threads,
        } => format!(in alloc; "run {} {order:?} {threads}", config.as_str()),
        Command::Drill {
            seed,
            nodes,
            count,
            order,
            threads,
        } => format!(in alloc; "drill {seed} {nodes} {count} {order:?} {threads}"),
        _ => String::from_str(alloc, "other"),
    }
}

// A command with a configuration alone.
fn shown_config(alloc: Global, command: &Command) -> Result<String, AllocError> {
    match command {
        Command::List { config } => format!(in alloc; "list {}", config.as_str()),
        Command::Split { config } => format!(in alloc; "split {}", config.as_str()),
        Command::Print(files) => format!(in alloc; "print {}", files.len()),
        Command::Help => String::from_str(alloc, "help"),
        Command::Version => String::from_str(alloc, "version"),
        _ => shown_options(alloc, command),
    }
}

// A command, with its words.
fn shown(alloc: Global, command: &Command) -> Result<String, AllocError> {
    match command {
        Command::Serve {
            config,
            connections,
        } => format!(in alloc; "serve {} {connections:?}", config.as_str()),
        Command::Follow {
            config,
            connections,
        } => format!(in alloc; "follow {} {connections:?}", config.as_str()),
        Command::Purge { config, out, below } => {
            format!(in alloc; "purge {} {out} {below}", config.as_str())
        }
        Command::Seek {
            config,
            out,
            timestamp,
        } => format!(in alloc; "seek {} {out} {timestamp}", config.as_str()),
        _ => shown_config(alloc, command),
    }
}

// What is answered to words.
fn answer_of(alloc: Global, words: &[Text]) -> Result<String, AllocError> {
    match command_of(alloc, words) {
        Ok(command) => shown(alloc, &command),
        Err(refusal) => format!(in alloc; "{refusal:?}"),
    }
}

/// What is answered to the words of a line.
pub fn command_shown(alloc: Global, line: &str) -> Result<String, Memory> {
    let words = words_of(alloc, line)?;
    Ok(answer_of(alloc, words.as_slice())?)
}

/// A configuration: a line, with `;` for a line feed. Behind `+` the node, the out and the task follow.
pub fn config_of(alloc: Global, line: &str) -> Result<String, AllocError> {
    let (line, base) = match line.strip_prefix("+") {
        Some(line) => (line, BASE),
        None => (line, ""),
    };
    let mut text = String::new(alloc);
    for part in line.split(';') {
        text.push_str(part)?;
        text.push_str("\n")?;
    }
    text.push_str(base)?;
    Ok(text)
}

// The numbers of a plan.
fn plan_shown(alloc: Global, plan: &Plan) -> Result<String, AllocError> {
    let users = plan.users.len();
    let split = plan.split.is_some();
    format!(in alloc;
        "{} {} {} {} {users} {split}",
        plan.rotation, plan.window, plan.nodes, plan.outs
    )
}

/// What is answered to a configuration: the numbers of its plan, or the key.
pub fn config_shown(alloc: Global, text: &str) -> Result<String, AllocError> {
    match plan_of(alloc, text.as_bytes()) {
        Ok(plan) => plan_shown(alloc, &plan),
        Err(Refusal::Config(key)) => format!(in alloc; "{key:?}"),
        Err(refusal) => format!(in alloc; "{refusal:?}"),
    }
}
