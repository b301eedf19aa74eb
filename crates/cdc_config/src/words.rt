//! The command that words name.

ghost use Rattle.std.specs.Prelude.{◌≡◌, ◌⊎◌, ◌↔◌, IfOk, IfErr, None, Some};
ghost use Rattle.std.specs.List.{list_all};
ghost use Rattle.cdc_config.specs.Words as spec;
ghost use Rattle.cdc_config.specs.Words.{Reads, command_from};

use crate::command::{Command, Refusal};
use crate::number::number_of;
use crate::options::{pace_of, sessions_of};
use crate::texts::texts_of;
use crate::verb::{Verb, verb_of};
use cdc_base::{Text, TextList};
use std::alloc::Global;

/// The most files that `print` takes, one a node.
const FILES_MAX: usize = 256;

/// The most nodes of a drill.
const NODES_MAX: u64 = 256;

/// The most transactions of a drill.
const COUNT_MAX: u64 = 100_000;

/// What `serve` and `follow` are told.
#[derive(Debug, Drop)]
struct Server {
    config: Text,
    connections: Option<u64>,
}

/// What `purge` and `seek` are told.
#[derive(Debug, Drop)]
struct Target {
    config: Text,
    out: u64,
    number: u64,
}

/// The numbers of a drill.
#[derive(Clone, Copy, Debug)]
struct Drill {
    seed: u64,
    nodes: u32,
    count: u32,
}

// Whether a word may name a file: it isn't empty, and doesn't begin with `-`.
fn is_path_word(word: &Text) -> bool
    ensures { result ≡ spec.is_path_word word.now }
{
    match word.bytes() {
        [] => false,
        [first, ..] => *first != b'-',
    }
}

// Whether each word may name a file.
fn are_path_words(words: &[Text]) -> bool
    ensures { result ≡ list_all spec.is_path_word words.now }
{
    for word in words {
        if !is_path_word(word) {
            return false;
        }
    }
    true
}

// A word that may name a file.
fn path_of(alloc: Global, word: &Text) -> Result<Text, Refusal>
    ensures { Reads result (spec.path_from word.now) }
{
    if !is_path_word(word) {
        return Err(Refusal::Usage);
    }
    Ok(Text::of(alloc, word.as_str())?)
}

// `FILE ..`
fn files_of(alloc: Global, files: &[Text]) -> Result<TextList, Refusal>
    ensures { Reads result (spec.files_from files.now) }
{
    if files.is_empty() || files.len() > FILES_MAX || !are_path_words(files) {
        return Err(Refusal::Usage);
    }
    Ok(texts_of(alloc, files)?)
}

// `CONFIG`
fn config_of(alloc: Global, words: &[Text]) -> Result<Text, Refusal>
    ensures { Reads result (spec.config_from words.now) }
{
    match words {
        [config] => path_of(alloc, config),
        _ => Err(Refusal::Usage),
    }
}

// `CONFIG [--order N] [--threads]`
fn run_of(alloc: Global, words: &[Text]) -> Result<Command, Refusal>
    ensures { Reads result (spec.run_from words.now) }
{
    let [config, options @ ..] = words else {
        return Err(Refusal::Usage);
    };
    let Some(pace) = pace_of(options) else {
        return Err(Refusal::Usage);
    };
    Ok(Command::Run {
        config: path_of(alloc, config)?,
        order: pace.order,
        threads: pace.threads,
    })
}

// `CONFIG [--connections N]`
fn server_of(alloc: Global, words: &[Text]) -> Result<Server, Refusal>
    ensures { Reads result (spec.server_from words.now) }
{
    let [config, options @ ..] = words else {
        return Err(Refusal::Usage);
    };
    let Some(sessions) = sessions_of(options) else {
        return Err(Refusal::Usage);
    };
    Ok(Server {
        config: path_of(alloc, config)?,
        connections: sessions.connections,
    })
}

// `CONFIG OUT N`
fn target_of(alloc: Global, words: &[Text]) -> Result<Target, Refusal>
    ensures { Reads result (spec.target_from words.now) }
{
    let [config, out, number] = words else {
        return Err(Refusal::Usage);
    };
    let Some(out) = number_of(out) else {
        return Err(Refusal::Usage);
    };
    let Some(number) = number_of(number) else {
        return Err(Refusal::Usage);
    };
    Ok(Target {
        config: path_of(alloc, config)?,
        out,
        number,
    })
}

// The numbers of a drill, where they are within its limits.
fn drill_within(seed: u64, nodes: u64, count: u64) -> Option<Drill>
    ensures { result ≡ spec.if_drill seed nodes count }
{
    if nodes >= 1 && nodes <= NODES_MAX && count <= COUNT_MAX {
        Some(Drill {
            seed,
            nodes: nodes as u32,
            count: count as u32,
        })
    } else {
        None
    }
}

// `SEED NODES COUNT`
fn numbers_of(seed: &Text, nodes: &Text, count: &Text) -> Option<Drill>
    ensures { result ≡ spec.drill_numbers seed.now nodes.now count.now }
{
    drill_within(number_of(seed)?, number_of(nodes)?, number_of(count)?)
}

// `SEED NODES COUNT [--order N] [--threads]`
fn drill_of(words: &[Text]) -> Option<Command>
    ensures { result ≡ spec.drill_from words.now }
{
    let [seed, nodes, count, options @ ..] = words else {
        return None;
    };
    let drill = numbers_of(seed, nodes, count)?;
    let pace = pace_of(options)?;
    Some(Command::Drill {
        seed: drill.seed,
        nodes: drill.nodes,
        count: drill.count,
        order: pace.order,
        threads: pace.threads,
    })
}

// A word that stands alone.
fn alone(command: Command, words: &[Text]) -> Option<Command>
    ensures { result ≡ spec.alone command words.now }
{
    if words.is_empty() {
        Some(command)
    } else {
        None
    }
}

// The command of a server.
fn serve_of(alloc: Global, words: &[Text]) -> Result<Command, Refusal>
    ensures { Reads result (spec.command_by Verb.Serve words.now) }
{
    let Server {
        config,
        connections,
    } = server_of(alloc, words)?;
    Ok(Command::Serve {
        config,
        connections,
    })
}

// The command of a server beside a pass.
fn follow_of(alloc: Global, words: &[Text]) -> Result<Command, Refusal>
    ensures { Reads result (spec.command_by Verb.Follow words.now) }
{
    let Server {
        config,
        connections,
    } = server_of(alloc, words)?;
    Ok(Command::Follow {
        config,
        connections,
    })
}

// The command that removes files.
fn purge_of(alloc: Global, words: &[Text]) -> Result<Command, Refusal>
    ensures { Reads result (spec.command_by Verb.Purge words.now) }
{
    let Target {
        config,
        out,
        number,
    } = target_of(alloc, words)?;
    Ok(Command::Purge {
        config,
        out,
        below: number,
    })
}

// The command that finds a timestamp.
fn seek_of(alloc: Global, words: &[Text]) -> Result<Command, Refusal>
    ensures { Reads result (spec.command_by Verb.Seek words.now) }
{
    let Target {
        config,
        out,
        number,
    } = target_of(alloc, words)?;
    Ok(Command::Seek {
        config,
        out,
        timestamp: number,
    })
}

// The command of a verb, by the words behind it.
fn command_by(alloc: Global, verb: Verb, words: &[Text]) -> Result<Command, Refusal>
    ensures { Reads result (spec.command_by verb words.now) }
{
    match verb {
        Verb::Print => Ok(Command::Print(files_of(alloc, words)?)),
        Verb::Run => run_of(alloc, words),
        Verb::List => Ok(Command::List {
            config: config_of(alloc, words)?,
        }),
        Verb::Serve => serve_of(alloc, words),
        Verb::Follow => follow_of(alloc, words),
        Verb::Split => Ok(Command::Split {
            config: config_of(alloc, words)?,
        }),
        Verb::Purge => purge_of(alloc, words),
        Verb::Seek => seek_of(alloc, words),
        Verb::Drill => drill_of(words).ok_or(Refusal::Usage),
        Verb::Help => alone(Command::Help, words).ok_or(Refusal::Usage),
        Verb::Version => alone(Command::Version, words).ok_or(Refusal::Usage),
    }
}

/// The command that the words behind the program's name are; `Usage` exactly where they are none.
///
/// | Words | |
/// |---|---|
/// | `print FILE ..` | 1 to 256 files |
/// | `run CONFIG [--order N] [--threads]` | not both options |
/// | `list CONFIG` | |
/// | `serve CONFIG [--connections N]` | |
/// | `follow CONFIG [--connections N]` | |
/// | `split CONFIG` | |
/// | `purge CONFIG OUT N` | |
/// | `seek CONFIG OUT T` | |
/// | `drill SEED NODES COUNT [--order N] [--threads]` | 1 to 256 nodes, a count of at most 100,000; not both options |
/// | `--help` | alone |
/// | `--version` | alone |
///
/// CONFIG and FILE aren't empty and don't begin with `-`. A number is 1 to 20 decimal digits of a value below 2^64.
/// Options stand behind the other words, in any order, each at most once. `Memory` comes only where the words are a
/// command.
pub fn command_of(alloc: Global, words: &[Text]) -> Result<Command, Refusal>
    ensures command { IfOk result (λ command. command_from words.now ≡ Some command) }
    ensures usage { (result ≡ Err Refusal.Usage) ↔ (command_from words.now ≡ None) }
    ensures others { IfErr result (λ refusal. (refusal ≡ Refusal.Usage) ⊎ (refusal ≡ Refusal.Memory)) }
{
    read(alloc, words)
}

// The command that words are.
fn read(alloc: Global, words: &[Text]) -> Result<Command, Refusal>
    ensures { Reads result (command_from words.now) }
{
    let [word, words @ ..] = words else {
        return Err(Refusal::Usage);
    };
    match verb_of(word.bytes()) {
        Some(verb) => command_by(alloc, verb, words),
        None => Err(Refusal::Usage),
    }
}
