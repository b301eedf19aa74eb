//! The lines of what is kept and refused by a pass.

ghost use Rattle.std.specs.Prelude.{◌≡◌, ◌++◌, ◌≤◌, length, decimal};
ghost use Rattle.cdc_top.specs.Answers as answers;

use crate::line::{Line, put, put_key, put_layout, put_number, put_place};
use cdc_base::{Key, Place};
use cdc_model::Layout;

/// The line of a task that was kept for another number of nodes.
pub fn task_nodes_line(kept: u32, given: u32) -> Line
    ensures { result.items ≡ answers.task_nodes_line kept given }
{
    let mut line = Line::new();
    put(&mut line, b"cdc: kept task nodes ");
    put_number(&mut line, u64::from(kept));
    put(&mut line, b" ");
    put_number(&mut line, u64::from(given));
    put(&mut line, b"\n");
    line
}

/// The line of a task that was kept for another rotation size.
pub fn task_rotation_line(kept: u64, given: u64) -> Line
    ensures { result.items ≡ answers.task_rotation_line kept given }
{
    let mut line = Line::new();
    put(&mut line, b"cdc: kept task rotation ");
    put_number(&mut line, kept);
    put(&mut line, b" ");
    put_number(&mut line, given);
    put(&mut line, b"\n");
    line
}

/// The line of a node whose log ends before the place from which it is read on.
pub fn behind_line(node: u32, kept: Place, given: Place) -> Line
    ensures { result.items ≡ answers.behind_line node kept given }
{
    let mut line = Line::new();
    put(&mut line, b"cdc: kept node ");
    put_number(&mut line, u64::from(node));
    put(&mut line, b" behind ");
    put_place(&mut line, kept);
    put(&mut line, b" ");
    put_place(&mut line, given);
    put(&mut line, b"\n");
    line
}

/// The line of an out that stands elsewhere than where the next transaction begins.
pub fn differs_line(out: u32, kept: &Layout, given: &Layout) -> Line
    ensures { result.items ≡ answers.differs_line out kept.now given.now }
{
    let mut line = Line::new();
    put(&mut line, b"cdc: kept out ");
    put_number(&mut line, u64::from(out));
    put(&mut line, b" differs ");
    put_layout(&mut line, kept);
    put(&mut line, b" ");
    put_layout(&mut line, given);
    put(&mut line, b"\n");
    line
}

/// The line of an out whose last transaction has another key.
pub fn other_key_line(out: u32, kept: &Key, given: &Key) -> Line
    ensures { result.items ≡ answers.other_key_line out kept.now given.now }
{
    let mut line = Line::new();
    put(&mut line, b"cdc: kept out ");
    put_number(&mut line, u64::from(out));
    put(&mut line, b" key ");
    put_key(&mut line, kept);
    put(&mut line, b" ");
    put_key(&mut line, given);
    put(&mut line, b"\n");
    line
}
