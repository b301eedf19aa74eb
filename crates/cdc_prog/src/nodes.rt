//! The sources of the nodes.

ghost use Rattle.std.specs.Prelude.{◌≡◌, ℕ, List, Some, length, IfOk};
ghost use Rattle.cdc_config.specs.Words.{command_from};
ghost use Rattle.cdc_top.specs.Words.{IsRunCommand};

use crate::config::Places;
use cdc_base::{Memory, Text, TextList};
use cdc_config::{Command, Refusal, command_of};
use cdc_files::FileSource;
use std::alloc::Global;
use std::fs::{Files, OpenFile};
use std::os::unix::fs::FileExt;
use std::slice;

/// The sources of the nodes: a file word each where the words are `print` and files, the files of each of a configuration's
/// nodes where they are `run`; else none. A file that can't be opened makes its source fail at each call.
pub fn open_nodes<F: FileExt + OpenFile + Drop, R: AllocGlobal + Files<File = F>>(
    rt: &R,
    words: &[Text],
    places: &Places,
) -> Result<Vec<FileSource<F>>, Memory>
    ensures print { IfOk result (λ nodes. (files : List (List ℕ)) → command_from words.now ≡ Some (Command.Print files) → length nodes.items ≡ length files) }
    ensures run { IfOk result (λ nodes. IsRunCommand words.now → length nodes.items ≡ length places.now.nodes) }
{
    match command_of(rt.alloc(), words) {
        Ok(Command::Print(files)) => open_each(rt, files.as_slice()),
        Ok(Command::Run { .. }) => open_lists(rt, places.nodes.as_slice()),
        Ok(_) => Ok(Vec::new(rt.alloc())),
        Err(Refusal::Memory) => Err(Memory),
        Err(_) => Ok(Vec::new(rt.alloc())),
    }
}

/// A source a list of files. No node has more of them than a u32 counts.
fn open_lists<F: FileExt + OpenFile + Drop, R: AllocGlobal + Files<File = F>>(
    rt: &R,
    lists: &[TextList],
) -> Result<Vec<FileSource<F>>, Memory>
    ensures { IfOk result (λ nodes. length nodes.items ≡ length lists.now) }
{
    let mut nodes = Vec::new(rt.alloc());
    for list in lists {
        let files = list.as_slice();
        let most = files.len().min(u32::MAX as usize);
        nodes.push(FileSource::open(rt, &files[..most])?)?;
    }
    Ok(nodes)
}

/// A source a word.
fn open_each<F: FileExt + OpenFile + Drop, R: AllocGlobal + Files<File = F>>(
    rt: &R,
    files: &[Text],
) -> Result<Vec<FileSource<F>>, Memory>
    ensures { IfOk result (λ nodes. length nodes.items ≡ length files.now) }
{
    let mut nodes = Vec::new(rt.alloc());
    for file in files {
        nodes.push(FileSource::open(rt, slice::from_ref(file))?)?;
    }
    Ok(nodes)
}
