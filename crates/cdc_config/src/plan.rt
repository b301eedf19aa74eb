//! What a configuration asks for.

ghost use Rattle.cdc_config.specs.Limits.{AreListed, AreSizes, IsSplit};

use cdc_base::{Items, Text, TextList, UserList};
use cdc_rename::Names;

/// A list of lists of texts.
pub type TextLists = Items<TextList>;

/// An out whose stream is split, and where its parts go.
#[derive(Debug, Drop)]
pub struct SplitPlan {
    pub from: u32,
    pub folders: TextList,
}

/// Where the files, the folders and the addresses of a plan are.
#[derive(Debug, Drop)]
pub struct Paths {
    /// The files of each node.
    pub node_files: TextLists,
    /// The folder of each out.
    pub out_folders: TextList,
    /// The address of each out, empty where it has none.
    pub listen: TextList,
    pub task_folder: Text,
}

/// What a configuration asks for. Nodes and outs are counted from 1.
#[derive(Debug, Drop)]
pub struct Plan {
    /// From how many bytes on an output file is closed.
    pub rotation: u64,
    /// How many bytes of a node are read between two checkpoints.
    pub window: u64,
    pub nodes: u32,
    pub outs: u32,
    pub names: Names,
    pub paths: Paths,
    /// Who may read; none where everyone may.
    pub users: UserList,
    pub split: Option<SplitPlan>,
    pub ghost sizes: { AreSizes rotation window },
    pub ghost listed: { AreListed nodes outs paths users },
    pub ghost parts: { IsSplit outs split },
}
