//! The plan of a drill.

ghost use Rattle.std.specs.Prelude.{◌≡◌, ◌≤◌, length, IfOk};
ghost use Rattle.cdc_pass.specs.Starting.{output_plan};
ghost use Rattle.cdc_drill.specs.Drill.{drill_plan};

use crate::sizes::MEBIBYTE;
use cdc_base::{Memory, Text, TextList, UserList};
use cdc_config::{Paths, Plan, TextLists};
use cdc_rename::Names;
use std::alloc::Global;

/// So many nodes with no named file.
fn node_files(alloc: Global, nodes: u32) -> Result<TextLists, Memory>
    ensures { IfOk result (λ files. length files ≡ nodes) }
{
    let mut files = TextLists::new(alloc);
    for _node in 0..nodes {
        files.push(TextList::new(alloc))?;
    }
    Ok(files)
}

/// One text that is empty.
fn one_empty(alloc: Global) -> Result<TextList, Memory>
    ensures { IfOk result (λ texts. length texts ≡ 1) }
{
    let mut texts = TextList::new(alloc);
    texts.push(Text::of(alloc, "")?)?;
    Ok(texts)
}

/// The paths of so many nodes and one output, all of them empty.
fn paths_of(alloc: Global, nodes: u32) -> Result<Paths, Memory>
    ensures { IfOk result (λ paths. (length paths.node_files ≡ nodes) × (length paths.out_folders ≡ 1) × (length paths.listen ≡ 1)) }
{
    Ok(Paths {
        node_files: node_files(alloc, nodes)?,
        out_folders: one_empty(alloc)?,
        listen: one_empty(alloc)?,
        task_folder: Text::of(alloc, "")?,
    })
}

/// The plan of a drill on so many nodes: one output, no renaming rules, rotation and window of 1,048,576 bytes.
pub(crate) fn plan_of(alloc: Global, nodes: u32) -> Result<Plan, Memory>
    requires some { 1 ≤ nodes }
    requires few { nodes ≤ 256 }
    ensures nodes { IfOk result (λ plan. plan.nodes ≡ nodes) }
    ensures outs { IfOk result (λ plan. plan.outs ≡ 1) }
    ensures output { IfOk result (λ plan. output_plan plan ≡ drill_plan) }
{
    Ok(Plan {
        rotation: MEBIBYTE,
        window: MEBIBYTE,
        nodes,
        outs: 1,
        names: Names::new(alloc),
        paths: paths_of(alloc, nodes)?,
        users: UserList::new(alloc),
        split: None,
    })
}
