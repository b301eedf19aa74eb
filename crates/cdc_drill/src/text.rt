//! The text of a drill.

ghost use Rattle.std.specs.Prelude.{◌≡◌, ◌++◌, ◌≤◌, string_bytes, IfOk};
ghost use Rattle.cdc_list.specs.Lines as lines;
ghost use Rattle.cdc_drill.specs.Drill.{drill_run};
ghost use Rattle.cdc_drill.specs.Attempts.{numbers_line, WritesText};

use crate::drill_end::DrillEnd;
use cdc_base::{Buffer, Memory};
use cdc_list::out_line;
use cdc_outside::{Failed, Sink};
use cdc_records::Front;
use std::alloc::Global;

/// The line of a drill: its numbers.
fn drill_line(alloc: Global, seed: u64, nodes: u32, count: u32) -> Result<String, Memory>
    ensures { IfOk result (λ line. string_bytes line ≡ numbers_line seed nodes count) }
{
    Ok(format!(in alloc; "drill {seed} {nodes} {count}\n")?)
}

/// The line of a drill, and the line of its output.
fn drill_text(
    alloc: Global,
    seed: u64,
    nodes: u32,
    count: u32,
    front: &Front,
) -> Result<Buffer, Memory>
    ensures { IfOk result (λ text. text ≡ numbers_line seed nodes count ++ lines.out_line 1 front.now) }
{
    let line = drill_line(alloc, seed, nodes, count)?;
    let mut text = Buffer::new(alloc);
    text.push(line.as_bytes())?;
    text.push(out_line(1, front).as_slice())?;
    Ok(text)
}

/// Writes the text of a drill whose output has this Front, in one write.
pub(crate) fn write_text<K: Sink>(
    alloc: Global,
    seed: u64,
    nodes: u32,
    count: u32,
    front: &Front,
    out: &mut K,
) -> DrillEnd
    ensures written { WritesText K.tells (drill_run seed nodes count (K.written out.old) (K.written out.new) (K.faults out.old) (K.faults out.new)) front.now result }
    ensures sink_later { K.faults out.old ≤ K.faults out.new }
{
    let text = match drill_text(alloc, seed, nodes, count, front) {
        Ok(text) => text,
        Err(Memory) => return DrillEnd::Memory,
    };
    match out.write(text.bytes()) {
        Ok(()) => DrillEnd::Done,
        Err(Failed) => DrillEnd::Sink,
    }
}
