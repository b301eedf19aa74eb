//! A command of the program, and why words or a configuration are refused.

use cdc_base::{Memory, Text, TextList};

/// A command, with the words that it was given. Outs are counted from 1.
#[derive(Debug, Drop)]
pub enum Command {
    /// Prints the transactions of the logs in these files, one file a node.
    Print(TextList),
    /// One pass over the nodes of a plan.
    Run {
        config: Text,
        order: Option<u64>,
        threads: bool,
    },
    /// Prints what each out has published.
    List {
        config: Text,
    },
    /// Serves each out at its address; a door closes after so many connections.
    Serve {
        config: Text,
        connections: Option<u64>,
    },
    /// Serves each out while a pass goes on.
    Follow {
        config: Text,
        connections: Option<u64>,
    },
    /// Splits an out's stream by table.
    Split {
        config: Text,
    },
    /// Removes the files of an out below a number.
    Purge {
        config: Text,
        out: u64,
        below: u64,
    },
    /// Finds a commit timestamp in an out.
    Seek {
        config: Text,
        out: u64,
        timestamp: u64,
    },
    /// One pass over logs that are made from a number.
    Drill {
        seed: u64,
        nodes: u32,
        count: u32,
        order: Option<u64>,
        threads: bool,
    },
    /// Prints the commands.
    Help,
    /// Prints the program's name and version.
    Version,
}

/// A key of the configuration, in the order in which they are tested.
#[derive(Clone, Copy, Debug, PartialEq, Eq)]
pub enum ConfigKey {
    Toml,
    Rotation,
    Window,
    Node,
    Out,
    Task,
    Table,
    User,
    Split,
    Unknown,
}

impl ConfigKey {
    ghost use Rattle.std.specs.Prelude.{◌≡◌};
    ghost use Rattle.cdc_config.specs.KeyWords.{key_word};

    /// The word by which a line names the key.
    pub fn word(self) -> &'static [u8]
        ensures { result.now ≡ key_word self }
    {
        match self {
            ConfigKey::Toml => b"toml",
            ConfigKey::Rotation => b"rotation",
            ConfigKey::Window => b"window",
            ConfigKey::Node => b"node",
            ConfigKey::Out => b"out",
            ConfigKey::Task => b"task",
            ConfigKey::Table => b"table",
            ConfigKey::User => b"user",
            ConfigKey::Split => b"split",
            ConfigKey::Unknown => b"unknown",
        }
    }
}

/// Why there is no command, or no plan.
#[derive(Clone, Copy, Debug, PartialEq, Eq)]
pub enum Refusal {
    /// The words are no command.
    Usage,
    /// The configuration is refused for this key.
    Config(ConfigKey),
    /// There was no memory.
    Memory,
}

impl From<Memory> for Refusal {
    ghost use Rattle.std.specs.Prelude.{◌≡◌};
    ghost use Rattle.cdc_config.specs.declared.command.Refusal.TheVariants.{Memory as NoMemory};

    ghost from_gives = { λ _ refusal. refusal ≡ NoMemory };

    fn from(_memory: Memory) -> Refusal {
        Refusal::Memory
    }
}
