//! The words of the command line.

ghost use Rattle.std.specs.Prelude.{◌≤◌, ◌^◌, IfSome};

use cdc_base::{Memory, Text, TextList};
use cdc_event::{HEADER_LENGTH, LENGTH_MAX};
use std::env;
use std::rt::Env;

/// What is timed.
#[derive(Clone, Copy, Debug)]
pub enum Task {
    /// The reading of row events, each at its place in memory.
    ReadRows,
    /// The cutting of row events from pieces.
    CutRows,
    /// The cutting of row events in place, which are kept in runs.
    KeepRows,
    /// The same, where the runs are held to the end.
    HoldRows,
    /// The making of units.
    MakeUnits,
    /// The making of units that are published, so many by one commit.
    PublishUnits { group: u64 },
}

/// A task, and how much of it.
#[derive(Clone, Copy, Debug)]
pub struct Work {
    pub task: Task,
    /// The bytes of each row event, header included; where units are published, those of each print.
    pub size: u32,
    /// How many events are read, or units made or published.
    pub count: u64,
}

/// The words behind the program's name: none where they can't be had.
pub fn words_of<R: AllocGlobal + Env>(rt: &R) -> Result<TextList, Memory> {
    let mut words = TextList::new(rt.alloc());
    if let Ok(args) = env::args(rt) {
        for word in args.skip(1) {
            words.push(Text::of(rt.alloc(), &word)?)?;
        }
    }
    Ok(words)
}

/// The size of an event, in figures: at least a header, and at most what an event may have.
fn size_of(word: &str) -> Option<u32>
    ensures least { IfSome result (λ size. 19 ≤ size) }
    ensures most { IfSome result (λ size. size ≤ 2 ^ 27) }
{
    match word.parse::<u32>() {
        Ok(size) if size >= HEADER_LENGTH as u32 && size <= LENGTH_MAX => Some(size),
        _ => None,
    }
}

/// How many units a commit publishes, in figures: one at least.
fn group_of(word: &str) -> Option<u64> {
    match word.parse::<u64>() {
        Ok(group) if group > 0 => Some(group),
        _ => None,
    }
}

/// The task of the first two words.
fn task_of(word: &str, which: &str) -> Option<Task> {
    if word == "publish" {
        let group = group_of(which)?;
        return Some(Task::PublishUnits { group });
    }
    if which != "row" {
        return None;
    }
    match word {
        "read" => Some(Task::ReadRows),
        "cut" => Some(Task::CutRows),
        "keep" => Some(Task::KeepRows),
        "hold" => Some(Task::HoldRows),
        "unit" => Some(Task::MakeUnits),
        _ => None,
    }
}

/// What the words ask for: `read`, `cut`, `keep`, `hold` or `unit`, `row`, a row event's size and how many, or
/// `publish`, how many units a commit has, a print's size and how many. None for any others.
pub fn work_of(words: &[Text]) -> Option<Work>
    ensures least { IfSome result (λ work. 19 ≤ work.size) }
    ensures most { IfSome result (λ work. work.size ≤ 2 ^ 27) }
{
    match words {
        [task, which, size, count] => {
            let task = task_of(task.as_str(), which.as_str())?;
            let size = size_of(size.as_str())?;
            let count = count.as_str().parse::<u64>().ok()?;
            Some(Work { task, size, count })
        }
        _ => None,
    }
}
