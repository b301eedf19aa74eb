//! The configuration of a command, and the disks that it names.

ghost use Rattle.std.specs.Prelude.{◌≡◌, ◌<◌, ◌^◌, true, length, IfOk};
ghost use Rattle.cdc_files.specs.Held.{bytes_kept};
ghost use Rattle.cdc_top.specs.Ran.{IsFitToRun};

use cdc_base::{Memory, Text, TextList};
use cdc_config::{Command, Plan, Refusal, TextLists, command_of, paths, plan_of};
use cdc_files::{FileDisk, HeldSource};
use std::alloc::Global;
use std::fs::{Files, OpenFile};
use std::io::Read;
use std::os::unix::fs::FileExt;

/// The configuration that the words name, read now; where they name none, a source that fails at each call.
pub fn open_config<F: Read + OpenFile + Drop, R: AllocGlobal + Files<File = F>>(
    rt: &R,
    words: &[Text],
) -> Result<HeldSource, Memory> {
    match command_of(rt.alloc(), words) {
        Ok(Command::List { config } | Command::Run { config, .. }) => HeldSource::open(rt, &config),
        Ok(_) => HeldSource::new::<F>(rt.alloc(), None),
        Err(Refusal::Memory) => Err(Memory),
        Err(_) => HeldSource::new::<F>(rt.alloc(), None),
    }
}

/// The files of the nodes, the folders of the outs and of the task, and the addresses of the outs, empty where one has none.
#[derive(Debug, Drop)]
pub struct Places {
    pub nodes: TextLists,
    pub outs: TextList,
    pub listen: TextList,
    pub task: Text,
    pub ghost few: { length outs < 2 ^ 31 },
}

/// No node and no out, and the folder that is at hand.
fn no_places(alloc: Global) -> Result<Places, Memory> {
    Ok(Places {
        nodes: TextLists::new(alloc),
        outs: TextList::new(alloc),
        listen: TextList::new(alloc),
        task: Text::of(alloc, "")?,
    })
}

/// The places of a plan.
fn places_of(alloc: Global, plan: &Plan) -> Result<Places, Memory>
    ensures nodes { IfOk result (λ places. places.nodes ≡ plan.now.paths.node_files) }
    ensures outs { IfOk result (λ places. places.outs ≡ plan.now.paths.out_folders) }
{
    let paths = paths(alloc, plan)?;
    Ok(Places {
        nodes: paths.node_files,
        outs: paths.out_folders,
        listen: paths.listen,
        task: paths.task_folder,
    })
}

/// The places that a text names; none where it is no configuration.
fn places_in(alloc: Global, text: &[u8]) -> Result<Places, Memory>
    ensures { IfOk result (λ places. IsFitToRun true text.now (length places.nodes) (length places.outs)) }
{
    match plan_of(alloc, text) {
        Ok(plan) => places_of(alloc, &plan),
        Err(Refusal::Memory) => Err(Memory),
        Err(_) => no_places(alloc),
    }
}

/// The places that a configuration names; none where it is none.
pub fn read_places(alloc: Global, config: &HeldSource) -> Result<Places, Memory>
    ensures { IfOk result (λ places. IsFitToRun true (bytes_kept config.now) (length places.nodes) (length places.outs)) }
{
    places_in(alloc, config.bytes())
}

/// Disks over the folders of the outs and of the task.
#[derive(Drop)]
pub struct Disks<R, F> {
    pub outs: Vec<FileDisk<R, F>>,
    pub task: FileDisk<R, F>,
    pub ghost few: { length outs.items < 2 ^ 32 },
}

/// A disk a folder.
pub fn over_each<'a, F: FileExt + OpenFile + Drop, R: AllocGlobal + Files<File = F>>(
    rt: &'a R,
    folders: &[Text],
) -> Result<Vec<FileDisk<&'a R, F>>, Memory>
    ensures { IfOk result (λ disks. length disks.items ≡ length folders.now) }
{
    let mut disks = Vec::new(rt.alloc());
    for folder in folders {
        disks.push(FileDisk::new(rt, rt.alloc(), folder)?)?;
    }
    Ok(disks)
}

/// The disks of folders, of which nothing is opened or made as yet.
pub fn open_disks<'a, F: FileExt + OpenFile + Drop, R: AllocGlobal + Files<File = F>>(
    rt: &'a R,
    places: &Places,
) -> Result<Disks<&'a R, F>, Memory>
    ensures { IfOk result (λ disks. length disks.outs.items ≡ length places.now.outs) }
{
    let outs = over_each(rt, places.outs.as_slice())?;
    let task = FileDisk::new(rt, rt.alloc(), &places.task)?;
    Ok(Disks { outs, task })
}
