//! The texts of `--help` and `--version`.

ghost use Rattle.std.specs.Prelude.{◌≡◌, ◌++◌, ◌≤◌, IsTrue};
ghost use Rattle.cdc_top.specs.Texts.{IsTextWritten};
ghost use Rattle.cdc_top.specs.Words.{help_text, version_text};

use crate::findings::Findings;
use cdc_outside::{Failed, Sink};

/// The commands, a line a command.
#[tactic(auto, unfolding(crate::specs::Words::help_text))]
pub fn help() -> &'static [u8]
    ensures { result.now ≡ help_text }
{
    b"cdc print FILE ..: print the settled transactions of 1 to 256 nodes, one file a node\n\
    cdc run CONFIG [--order N]: publish what is settled to each output\n\
    cdc list CONFIG: print what each output has published\n\
    cdc drill SEED NODES COUNT [--order N]: print what one pass over made logs publishes\n\
    cdc serve CONFIG [--connections N]: serve each output's published files at its address\n\
    cdc --help: print the commands\n\
    cdc --version: print the name and the version\n"
}

/// The name and the version.
#[tactic(auto, unfolding(crate::specs::Words::version_text))]
pub fn version() -> &'static [u8]
    ensures { result.now ≡ version_text }
{
    b"cdc 0.1.0\n"
}

/// Writes a text, or a front of it where the sink failed.
pub fn write_text<K: Sink>(text: &[u8], out: &mut K) -> Findings
    ensures written { IsTextWritten K.tells (K.written out.old) text.now (K.written out.new) (K.faults out.old) (K.faults out.new) result }
    ensures later { K.faults out.old ≤ K.faults out.new }
{
    match out.write(text) {
        Ok(()) => Findings::none(),
        Err(Failed) => Findings::of_sink(),
    }
}
