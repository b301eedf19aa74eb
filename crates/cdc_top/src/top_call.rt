//! The top call.

ghost use Rattle.std.specs.Prelude.{◌≡◌, ℕ, ◌≤◌, ◌<◌, ◌^◌, List, Some, IsTrue, length, map};
ghost use Rattle.std.specs.List.{AllZip, AllByRecursion};
ghost use Rattle.cdc_cell.specs.Reading.{IsLeftAlone};
ghost use Rattle.cdc_config.specs.Words.{command_from};
ghost use Rattle.cdc_drill.specs.Drill.{drill_run, IsDrillEnd};
ghost use Rattle.cdc_drill.specs.declared.drill_end.DrillEnd.{DrillEnd as EndOfDrill};
ghost use Rattle.cdc_dump_stage.specs.Disks.{disk_words};
ghost use Rattle.cdc_list.specs.Listing.{AllLater};
ghost use Rattle.cdc_node_stage.specs.Job.{source_words};
ghost use Rattle.cdc_outside.specs.Source.{file_of};
ghost use Rattle.cdc_pass.specs.Starting.{IsClear};
ghost use Rattle.cdc_print.specs.Outcome.{run_seen, NoCountFell};
ghost use Rattle.cdc_top.specs.Answers as answers;
ghost use Rattle.cdc_top.specs.Call.{call_seen, config_seen, outs_seen, AreFindings, IsAnswered, WroteFor};
ghost use Rattle.cdc_top.specs.Order as order;
ghost use Rattle.cdc_top.specs.Ran.{run_call, IsFitToRun, IsRunCall, RunSays};
ghost use Rattle.cdc_top.specs.Words.{IsRunCommand, IsDrillCommand, IsNoRun, IsNoPass};
ghost use Rattle.cdc_top.specs.declared.answer.Answer.{Answer as Reply};
ghost use Rattle.cdc_top.specs.declared.findings.Findings.{Findings as Met};

use crate::answer::status;
use crate::findings::{Findings, answer_of, findings_of, findings_of_drilled};
use crate::list_call::list_outs;
use crate::report::report;
use crate::run_call::run_plan;
use crate::texts::{help, version, write_text};
use cdc_base::Text;
use cdc_config::{Command, Refusal, command_of};
use cdc_drill::drill;
use cdc_outside::{Disk, Sink, Source};
use cdc_print::print_logs;
use cdc_recovery::image_has_one_front;
use std::alloc::Global;

/// Does what the words ask, and tells what was met with; a command that has no body yet is no command here.
fn do_words<C: Source, S: Source, D: Disk, K: Sink>(
    alloc: Global,
    words: &[Text],
    config: &mut C,
    nodes: &mut Vec<S>,
    outs: &mut Vec<D>,
    task: &mut D,
    out: &mut K,
) -> Findings
    requires print { (files : List (List ℕ)) → command_from words.now ≡ Some (Command.Print files) → length nodes.old.items ≡ length files }
    requires one { length (C.sizes config.old) ≡ 1 }
    requires few { length outs.old.items < 2 ^ 32 }
    requires fit { IsRunCommand words.now → IsFitToRun C.tells (file_of (C.held config.old) 1) (length nodes.old.items) (length outs.old.items) }
    requires clear { IsRunCommand words.now → IsTrue D.tells → AllByRecursion (λ disk. IsClear (D.seen disk)) outs.old.items }
    ensures findings { IsNoPass words.now → AreFindings S.tells (call_seen words.now (run_seen S.held S.faults K.written K.faults nodes.old.items nodes.new.items out.old out.new)
        (config_seen C.tells C.held C.faults config.old config.new) (outs_seen D.tells D.seen D.faults outs.old.items outs.new.items)) result }
    ensures wrote { IsNoPass words.now → IsTrue K.tells → WroteFor S.tells (call_seen words.now (run_seen S.held S.faults K.written K.faults nodes.old.items nodes.new.items out.old out.new)
        (config_seen C.tells C.held C.faults config.old config.new) (outs_seen D.tells D.seen D.faults outs.old.items outs.new.items)) (order.answer_of result) }
    ensures later { NoCountFell (map S.faults nodes.old.items) (map S.faults nodes.new.items) }
    ensures held { map S.held nodes.new.items ≡ map S.held nodes.old.items }
    ensures config_later { C.faults config.old ≤ C.faults config.new }
    ensures config_held { C.held config.new ≡ C.held config.old }
    ensures outs_later { AllLater D.faults outs.old.items outs.new.items }
    ensures outs_alone { IsNoRun words.now → IsTrue D.tells → AllZip (IsLeftAlone D.seen D.synced D.pending D.may_leave D.moment D.left_since) outs.old.items outs.new.items }
    ensures task { IsNoRun words.now → task.new ≡ task.old }
    ensures task_later { D.faults task.old ≤ D.faults task.new }
    ensures drilled { (seed nodes count : ℕ) → IsDrillCommand words.now seed nodes count → (end : EndOfDrill) × IsDrillEnd K.tells (drill_run seed nodes count (K.written out.old) (K.written out.new) (K.faults out.old) (K.faults out.new)) end
        × (result ≡ order.findings_of_drill end) }
    ensures ran { IsRunCommand words.now → IsRunCall (source_words S.tells S.held S.sizes S.lowest S.faults) (disk_words D.tells D.seen D.synced D.pending D.may_leave D.moment D.left_since D.faults) K.tells
        (run_call (config_seen C.tells C.held C.faults config.old config.new) nodes.old.items nodes.new.items outs.old.items outs.new.items task.old task.new (K.written out.old) (K.written out.new) (K.faults out.old) (K.faults out.new)) result }
    ensures sink_later { K.faults out.old ≤ K.faults out.new }
{
    let command = match command_of(alloc, words) {
        Ok(command) => command,
        Err(Refusal::Memory) => return Findings::of_want(),
        Err(Refusal::Usage) => return Findings::of_usage(),
        Err(Refusal::Config(_)) => unreachable!(),
    };
    match command {
        Command::Print(_) => findings_of(&print_logs(alloc, nodes, out)),
        Command::Run {
            config: _,
            order,
            threads,
        } => {
            if threads {
                return Findings::of_usage();
            }
            run_plan(alloc, order, config, nodes, outs, task, out)
        }
        Command::Drill {
            seed,
            nodes,
            count,
            order,
            threads,
        } => {
            if threads {
                return Findings::of_usage();
            }
            findings_of_drilled(&drill(alloc, seed, nodes, count, order, out))
        }
        Command::List { config: _ } => list_outs(alloc, config, outs, out),
        Command::Help => write_text(help(), out),
        Command::Version => write_text(version(), out),
        _ => Findings::of_usage(),
    }
}

/// Answers the words of the command line: `print FILE ..`, with the log of one node a FILE; `run CONFIG [--order N]`;
/// `list CONFIG`; `drill SEED NODES COUNT [--order N]`; `--help`; `--version`.
///
/// `print` reads each of `nodes`, and writes the transactions of all in the global order to `out`, as one file without
/// rotation and without renaming. `run` reads the one file of `config`, which has to be a configuration, and makes one pass
/// over the plan's `nodes`: what is settled and new is published to each of `outs`, with a checkpoint on `task`; behind a
/// pass that published all it writes the line of each out. With an order its stages take turns by the drawn schedule of that
/// number, and else round and round. `list` reads `config` too, and writes what each of `outs` has published; it changes
/// nothing on their disks. `drill` uses none of the devices but `out` and `err`: it makes the logs of so many nodes from the
/// numbers, passes over them in memory, and writes its line and that of the one out. `--help` writes the commands that this call has, a line a command, and `--version` the name and
/// the version. The answer's line goes to `err`. The result is the exit status, the first of these that holds, from above,
/// but that 0 stands for none:
///
/// | Status | Line | When |
/// |---|---|---|
/// | 2 | `cdc: usage` | the words are no command of this call: of words that `command_of` refuses, always; of a command that has no body yet, but for want of memory |
/// | 4 | `cdc: read config` | `config` failed in this call |
/// | 2 | `cdc: config KEY` | the configuration is refused, for this key |
/// | 5, 7, 4 or 8 | as below | a pass ended before all was published: the first of the rows of a pass |
/// | 5 | `cdc: disk out N` | the disk of out N failed while it was opened; each lesser out can be opened |
/// | 7 | `cdc: kept out N bad cell` | the record of out N is refused; each lesser out can be opened |
/// | 7 | `cdc: kept out N bad front KEPT FOUND` | the last file of out N has FOUND bytes, and its record says KEPT; each lesser out can be opened |
/// | 5 | `cdc: disk out N` | the disk of out N failed in this call, when all outs were opened |
/// | 4 | `cdc: read node N` | the source of node N failed in this call; N is the least such node |
/// | 8 | `cdc: memory` | there was no memory |
/// | 6 | `cdc: too large NUMBER BYTES` | the file, or with `run` an out, has no room for the transaction of this number, whose print has so many bytes |
/// | 3 | `cdc: node N FILE:PLACE FAULT` | the log of node N has this fault at this place; N is the least such node |
/// | 9 | `cdc: sink` | `out` failed in this call |
/// | 0 | none | the whole file or text was written |
///
/// The rows of a pass, in the order of `cdc_pass::run`:
///
/// | Status | Line | When |
/// |---|---|---|
/// | 7 | `cdc: kept out N bad cell`, `cdc: kept out N bad front KEPT FOUND` | out N can't be opened, as above |
/// | 7 | `cdc: kept task bad cell` | the record of the task is refused |
/// | 7 | `cdc: kept task nodes KEPT GIVEN` | the task was kept for KEPT nodes, and the plan has GIVEN |
/// | 7 | `cdc: kept task rotation KEPT GIVEN` | the task was kept for a rotation size of KEPT, and the plan's is GIVEN |
/// | 7 | `cdc: kept node N behind FILE:PLACE FILE:PLACE` | the log of node N is to be read on from the first place, and ends at the second |
/// | 5 | `cdc: disk out N`, `cdc: disk task` | the disk of out N, or of the task, failed |
/// | 4 | `cdc: read node N` | the source of node N failed |
/// | 8 | `cdc: memory` | there was no memory |
/// | 7 | `cdc: kept out N differs FILE:LENGTH FILE:LENGTH` | out N stands at the first, and its next transaction begins at the second |
/// | 7 | `cdc: kept out N key KEY KEY` | the last transaction of out N has the first key, and the one of its number the second |
///
/// On 2, 4, 5, 7 and 8 nothing was written to `out`; on 9 a front of the file or text; on 3 and 6 the file, which has all
/// that is settled, up to the transaction that is too large, or with `run` the lines of the outs, or a front of these where
/// `out` failed. A line that can't be written changes no status. Nodes and outs are counted from 1.
pub fn top<C: Source, S: Source, D: Disk, K: Sink>(
    alloc: Global,
    words: &[Text],
    config: &mut C,
    nodes: &mut Vec<S>,
    outs: &mut Vec<D>,
    task: &mut D,
    out: &mut K,
    err: &mut K,
) -> u8
    // One source a file word; a configuration is one file; with `run` the devices are the plan's, and disks that tell have nothing behind what is
    // published.
    requires print { (files : List (List ℕ)) → command_from words.now ≡ Some (Command.Print files) → length nodes.old.items ≡ length files }
    requires one { length (C.sizes config.old) ≡ 1 }
    requires few { length outs.old.items < 2 ^ 32 }
    requires fit { IsRunCommand words.now → IsFitToRun C.tells (file_of (C.held config.old) 1) (length nodes.old.items) (length outs.old.items) }
    requires clear { IsRunCommand words.now → IsTrue D.tells → AllByRecursion (λ disk. IsClear (D.seen disk)) outs.old.items }

    // The promises, status by status.
    ensures answered { IsNoPass words.now → IsAnswered S.tells K.tells (call_seen words.now (run_seen S.held S.faults K.written K.faults nodes.old.items nodes.new.items out.old out.new)
        (config_seen C.tells C.held C.faults config.old config.new) (outs_seen D.tells D.seen D.faults outs.old.items outs.new.items)) result }

    // What was met with; the answer is the first of it in the order of answers. What was written, and the answer's line.
    ensures answer { IsNoPass words.now → (found : Met) × AreFindings S.tells (call_seen words.now (run_seen S.held S.faults K.written K.faults nodes.old.items nodes.new.items out.old out.new)
        (config_seen C.tells C.held C.faults config.old config.new) (outs_seen D.tells D.seen D.faults outs.old.items outs.new.items)) found
        × (result ≡ answers.status_of (order.answer_of found))
        × (IsTrue K.tells → WroteFor S.tells (call_seen words.now (run_seen S.held S.faults K.written K.faults nodes.old.items nodes.new.items out.old out.new)
        (config_seen C.tells C.held C.faults config.old config.new) (outs_seen D.tells D.seen D.faults outs.old.items outs.new.items)) (order.answer_of found))
        × (IsTrue K.tells → answers.IsSaid (K.written err.old) (answers.line_of (order.answer_of found)) (K.written err.new) (K.faults err.old) (K.faults err.new)) }

    // With `run`: what its answer says of its pass, with the headline, and what was written; the answer's status and its line.
    ensures ran { IsRunCommand words.now → (said : Reply) × RunSays (source_words S.tells S.held S.sizes S.lowest S.faults) (disk_words D.tells D.seen D.synced D.pending D.may_leave D.moment D.left_since D.faults) K.tells
        (run_call (config_seen C.tells C.held C.faults config.old config.new) nodes.old.items nodes.new.items outs.old.items outs.new.items task.old task.new (K.written out.old) (K.written out.new) (K.faults out.old) (K.faults out.new)) said
        × (result ≡ answers.status_of said)
        × (IsTrue K.tells → answers.IsSaid (K.written err.old) (answers.line_of said) (K.written err.new) (K.faults err.old) (K.faults err.new)) }

    // With `drill`: how it ended, why, and what was written; the answer's status and its line.
    ensures drilled { (seed nodes count : ℕ) → IsDrillCommand words.now seed nodes count → (end : EndOfDrill) × IsDrillEnd K.tells (drill_run seed nodes count (K.written out.old) (K.written out.new) (K.faults out.old) (K.faults out.new)) end
        × (result ≡ answers.status_of (order.drill_answer end))
        × (IsTrue K.tells → answers.IsSaid (K.written err.old) (answers.line_of (order.drill_answer end)) (K.written err.new) (K.faults err.old) (K.faults err.new)) }

    // No count falls, and sources hold what they held.
    ensures later { NoCountFell (map S.faults nodes.old.items) (map S.faults nodes.new.items) }
    ensures config_later { C.faults config.old ≤ C.faults config.new }
    ensures outs_later { AllLater D.faults outs.old.items outs.new.items }
    ensures task_later { D.faults task.old ≤ D.faults task.new }
    ensures sink_later { K.faults out.old ≤ K.faults out.new }
    ensures line_later { K.faults err.old ≤ K.faults err.new }
    ensures held { map S.held nodes.new.items ≡ map S.held nodes.old.items }
    ensures config_held { C.held config.new ≡ C.held config.old }

    // No command but `run` changes a disk.
    ensures outs_alone { IsNoRun words.now → IsTrue D.tells → AllZip (IsLeftAlone D.seen D.synced D.pending D.may_leave D.moment D.left_since) outs.old.items outs.new.items }
    ensures task { IsNoRun words.now → task.new ≡ task.old }
{
    image_has_one_front();
    let found = do_words(alloc, words, config, nodes, outs, task, out);
    let answer = answer_of(&found);
    report(&answer, err);
    status(&answer)
}
