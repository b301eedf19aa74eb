//! Copies of texts and of paths.

ghost use Rattle.std.specs.Prelude.{◌≡◌, IfOk};

use crate::plan::{Paths, Plan, TextLists};
use cdc_base::{Memory, Text, TextList};
use std::alloc::Global;

/// The same texts.
pub fn texts_of(alloc: Global, texts: &[Text]) -> Result<TextList, Memory>
    ensures { IfOk result (λ copies. copies ≡ texts.now) }
{
    let mut copies = TextList::new(alloc);
    for text in texts {
        copies.push(Text::of(alloc, text.as_str())?)?;
    }
    Ok(copies)
}

// The same lists of texts.
fn lists_of(alloc: Global, lists: &[TextList]) -> Result<TextLists, Memory>
    ensures { IfOk result (λ copies. copies ≡ lists.now) }
{
    let mut copies = TextLists::new(alloc);
    for list in lists {
        copies.push(texts_of(alloc, list.as_slice())?)?;
    }
    Ok(copies)
}

/// A copy of a plan's paths.
pub fn paths(alloc: Global, plan: &Plan) -> Result<Paths, Memory>
    ensures { IfOk result (λ paths. paths ≡ plan.now.paths) }
{
    let paths = &plan.paths;
    let node_files = lists_of(alloc, paths.node_files.as_slice())?;
    let out_folders = texts_of(alloc, paths.out_folders.as_slice())?;
    let listen = texts_of(alloc, paths.listen.as_slice())?;
    let task_folder = Text::of(alloc, paths.task_folder.as_str())?;
    Ok(Paths {
        node_files,
        out_folders,
        listen,
        task_folder,
    })
}
