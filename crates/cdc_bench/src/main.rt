//! The program `cdc_bench`: the library's calls over made data, to be timed from outside.
//!
//! `cdc_bench read row SIZE COUNT` reads COUNT row events of SIZE bytes each, header included, one after another as a
//! reader of logs does, and prints how many it read and how many bytes they had. They stand in one log in memory of
//! 64 MiB, or of one event that is longer, which is gone over again and again; making it takes the same time whatever
//! COUNT is.
//!
//! `cdc_bench cut row SIZE COUNT` cuts at least as many from such logs, which are fed to a cutter in pieces of 65,536
//! bytes as one file.
//!
//! `cdc_bench keep row SIZE COUNT` cuts as many from them in place and keeps their rows in runs of ten, each of which is
//! given away as a branch's rows and dropped; `cdc_bench hold row SIZE COUNT` holds these to the end.
//!
//! `cdc_bench unit row SIZE COUNT` makes COUNT units, each behind the one before, of one transaction of two branches,
//! which have a table map and ten row events of SIZE bytes each, and prints how many it made and how many bytes they
//! had. Files are closed at 2^30 bytes.
//!
//! `cdc_bench publish GROUP SIZE COUNT` makes COUNT units, each of one transaction of one branch with a table map and one
//! row event, whose print has SIZE bytes (176 at least), and publishes them as an output in the folder `published` of
//! the current folder, behind what is there: each by itself where GROUP is 1, else GROUP of them by one commit. It prints
//! how many it published and how many bytes they had.
//!
//! `cdc_bench sort open OPEN COUNT` opens OPEN branches in a sorter, and then COUNT times commits the oldest of them, opens
//! another and takes out what is settled. It prints how many entries it took and how many branches it was given.
//!
//! `cdc_bench merge nodes NODES COUNT` hands a merger in COUNT rounds one branch and a bound of each of NODES nodes (256 at
//! most), and takes out what is settled. It prints how many transactions it was given, and how many branches they had.
//!
//! Any other words are answered by the usage and status 2.
#![tactic(auto)]

ghost use Rattle.std.specs.Prelude.{◌≤◌};

mod cutting;
mod flow;
mod keeping;
mod merging;
mod publishing;
mod reading;
mod rows;
mod sorting;
mod tally;
mod units;
mod words;

use crate::cutting::cut_events;
use crate::flow::{Flow, do_flow, flow_of};
use crate::keeping::keep_events;
use crate::publishing::{print_transaction, publish_units};
use crate::reading::read_events;
use crate::rows::row_log;
use crate::tally::Tally;
use crate::units::{ROW_MAX, make_units, row_transaction};
use crate::words::{Task, Work, words_of, work_of};
use cdc_base::{Memory, Text};
use cdc_files::FileDisk;
use cdc_samples::NotMade;
use std::alloc::Global;
use std::fs::{Files, OpenFile};
use std::io::{self, Eprint, Print};
use std::os::unix::fs::FileExt;
use std::process::ExitCode;
use std::rt::Env;

/// The folder of the output that is published.
const FOLDER: &str = "published";

/// The status where something that isn't a row event was read, or a unit wasn't made or published, or the line couldn't be printed.
const FAILED: u8 = 1;

/// The status of wrong words.
const USAGE: u8 = 2;

/// The status where there was no memory.
const NO_MEMORY: u8 = 8;

/// Reads events; none where one couldn't be read.
fn events_read(alloc: Global, work: &Work) -> Result<Option<Tally>, NotMade>
    requires { 19 ≤ work.now.size }
{
    let log = row_log(alloc, work.size)?;
    match read_events(&log, work.count)? {
        Some(bytes) => Ok(Some(Tally {
            count: work.count,
            bytes,
        })),
        None => Ok(None),
    }
}

/// Makes units; none where one wasn't made.
fn units_made(alloc: Global, work: &Work) -> Result<Option<Tally>, Memory> {
    if work.size > ROW_MAX {
        return Ok(None);
    }
    let Some(txn) = row_transaction(alloc, work.size)? else {
        return Ok(None);
    };
    match make_units(alloc, &txn, work.count)? {
        Some(bytes) => Ok(Some(Tally {
            count: work.count,
            bytes,
        })),
        None => Ok(None),
    }
}

/// Publishes units; none where one wasn't published.
fn units_published<F: FileExt + OpenFile + Drop, R: AllocGlobal + Files<File = F>>(
    rt: &R,
    group: u64,
    work: &Work,
) -> Result<Option<Tally>, Memory> {
    let alloc = rt.alloc();
    let Some(txn) = print_transaction(alloc, work.size)? else {
        return Ok(None);
    };
    let mut txn = txn;
    let mut disk = FileDisk::new(rt, alloc, &Text::of(alloc, FOLDER)?)?;
    match publish_units(alloc, &mut disk, &mut txn, group, work.count)? {
        Some(bytes) => Ok(Some(Tally {
            count: work.count,
            bytes,
        })),
        None => Ok(None),
    }
}

/// Does the work, and answers what was done; none where an event couldn't be read, or a unit wasn't made or published.
fn do_work<F: FileExt + OpenFile + Drop, R: AllocGlobal + Files<File = F>>(
    rt: &R,
    work: &Work,
) -> Result<Option<Tally>, NotMade>
    requires { 19 ≤ work.now.size }
{
    let alloc = rt.alloc();
    match work.task {
        Task::ReadRows => events_read(alloc, work),
        Task::CutRows => Ok(cut_events(alloc, &row_log(alloc, work.size)?, work.count)?),
        Task::KeepRows => Ok(keep_events(alloc, &row_log(alloc, work.size)?, work.count, false)?),
        Task::HoldRows => Ok(keep_events(alloc, &row_log(alloc, work.size)?, work.count, true)?),
        Task::MakeUnits => Ok(units_made(alloc, work)?),
        Task::PublishUnits { group } => Ok(units_published(rt, group, work)?),
    }
}

/// The line that says what was done.
fn print_done<R: Print>(rt: &R, task: Task, done: Tally) -> io::Result<()> {
    match task {
        Task::ReadRows | Task::CutRows => {
            println!(rt; "read {} events {} bytes", done.count, done.bytes)
        }
        Task::KeepRows | Task::HoldRows => {
            println!(rt; "kept {} rows {} bytes", done.count, done.bytes)
        }
        Task::MakeUnits => println!(rt; "made {} units {} bytes", done.count, done.bytes),
        Task::PublishUnits { .. } => {
            println!(rt; "published {} units {} bytes", done.count, done.bytes)
        }
    }
}

/// Does what goes through a sorter or a merger, and answers the status.
fn answer_flow<R: AllocGlobal + Print>(rt: &R, flow: Flow) -> Result<u8, Memory> {
    let Some(done) = do_flow(rt.alloc(), flow)? else {
        return Ok(FAILED);
    };
    let printed = match flow {
        Flow::Sort { .. } => {
            println!(rt; "sorted {} entries {} branches", done.count, done.bytes)
        }
        Flow::Merge { .. } => {
            println!(rt;
                "merged {} transactions {} branches",
                done.count, done.bytes
            )
        }
    };
    match printed {
        Ok(()) => Ok(0),
        Err(_) => Ok(FAILED),
    }
}

/// Does what the words say, and answers the status.
fn answer<F: FileExt + OpenFile + Drop, R: AllocGlobal + Eprint + Env + Files<File = F> + Print>(
    rt: &R,
) -> Result<u8, NotMade> {
    let words = words_of(rt)?;
    if let Some(flow) = flow_of(words.as_slice()) {
        return Ok(answer_flow(rt, flow)?);
    }
    let Some(work) = work_of(words.as_slice()) else {
        let _printed = eprintln!(rt;
            "usage: cdc_bench read|cut|keep|hold|unit row SIZE COUNT | publish GROUP SIZE COUNT | sort open OPEN COUNT | merge nodes NODES COUNT"
        );
        return Ok(USAGE);
    };
    let Some(done) = do_work(rt, &work)? else {
        return Ok(FAILED);
    };
    match print_done(rt, work.task, done) {
        Ok(()) => Ok(0),
        Err(_) => Ok(FAILED),
    }
}

fn main(rt: HostRuntime) -> ExitCode {
    match answer(&rt) {
        Ok(status) => ExitCode::from(status),
        Err(NotMade::Memory) => ExitCode::from(NO_MEMORY),
        Err(_) => ExitCode::from(FAILED),
    }
}
