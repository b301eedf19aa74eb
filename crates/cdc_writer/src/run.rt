//! All that one transaction appends to the output, as one run of bytes.

ghost use Rattle.std.specs.Prelude.{ℕ, List, ◌≡◌, ◌+◌, ◌<◌, ◌≤◌, ◌^◌, ◌++◌, [], ◌↔◌, if◌then◌else◌, IsTrue, length, IfOk, IfErr, OnOk};
ghost use Rattle.std.specs.List.{AllByRecursion};
ghost use Rattle.cdc_model.specs.Layout.{IsRotation, HasRoom, begins_file, next_file};
ghost use Rattle.cdc_base.specs.declared.rename.Rename.{Rename};
ghost use Rattle.cdc_model.specs.Records.{Transaction};
ghost use Rattle.cdc_model.specs.Print.{distinct, statements_of, printed_length};
ghost use Rattle.cdc_model.specs.Output.{file_head, rotate_event};
ghost use Rattle.cdc_model.specs.Unit.{unit_of, IsOutputStepFrom};
ghost use Rattle.cdc_writer.specs.Refusal.{too_large, HasPrintCause};
ghost use Rattle.cdc_writer.specs.Run.{run_at, unit_at};
ghost use Rattle.cdc_writer.specs.Statements.{IsShort, told};

use crate::different::Told;
use crate::head::{HEAD_LENGTH, write_head};
use crate::printing::{PrintError, counted};
use crate::rotate::{put_rotate, rotate_length};
use crate::spot::{Spot, place};
use crate::transaction::put_transaction;
use cdc_base::{Blob, Buffer, Memory};
use cdc_model::{Layout, Txn, units_are_steps};
use cdc_rename::Names;
use std::alloc::Global;

// Appends the head, where one is due.
fn put_head(spot: &Spot, into: &mut Buffer) -> Result<(), Memory>
    ensures { OnOk result (into.new ≡ into.old ++ (if spot.now.head then file_head else [])) }
{
    if spot.head { write_head(into) } else { Ok(()) }
}

// Appends the event that closes the file at `end`, where it closes.
fn put_closing(alloc: Global, spot: &Spot, end: u64, into: &mut Buffer) -> Result<(), Memory>
    requires file { spot.now.file ≤ 2 ^ 63 }
    requires end { end ≤ 2 ^ 31 }
    ensures { OnOk result (into.new ≡ into.old ++ (if spot.now.closes then rotate_event end (spot.now.file + 1) else [])) }
{
    if spot.closes {
        put_rotate(alloc, spot.file + 1, end, into)
    } else {
        Ok(())
    }
}

// Appends head, print and ROTATE.
fn put_run(
    alloc: Global,
    txn: &Txn,
    statements: &[Told<'_>],
    names: &Names,
    spot: &Spot,
    length: u64,
    into: &mut Buffer,
) -> Result<(), Memory>
    requires file { spot.now.file ≤ 2 ^ 63 }
    requires statements { told statements.now ≡ distinct (statements_of txn.now.branches) }
    requires short { AllByRecursion IsShort (told statements.now) }
    requires size { length ≡ printed_length names.now txn.now }
    requires end { spot.now.at + length ≤ 2 ^ 31 }
    ensures { OnOk result (into.new ≡ into.old ++ run_at names.now txn.now spot.now) }
{
    put_head(spot, into)?;
    put_transaction(alloc, txn, statements, names, spot.at, into)?;
    put_closing(alloc, spot, spot.at + length, into)
}

// How many bytes the head has, where one is due.
#[tactic(auto, using(crate::proofs::HeadBytes::head_size))]
fn head_room(spot: &Spot) -> usize
    ensures size { result ≡ length (if spot.now.head then file_head else []) }
    ensures short { result ≤ 123 }
{
    if spot.head { HEAD_LENGTH } else { 0 }
}

// How many bytes the event has that closes the file, where it closes.
fn closing_room(spot: &Spot) -> usize
    requires { spot.now.file ≤ 2 ^ 63 }
    ensures size { (end : ℕ) → result ≡ length (if spot.now.closes then rotate_event end (spot.now.file + 1) else []) }
    ensures short { result ≤ 54 }
{
    if spot.closes {
        rotate_length(spot.file + 1)
    } else {
        0
    }
}

// How many bytes head, a print of so many bytes, and ROTATE have.
fn room_for(spot: &Spot, printed: u64) -> u64
    requires file { spot.now.file ≤ 2 ^ 63 }
    requires size { printed ≤ 2 ^ 28 }
    ensures { (rules : List Rename) (txn : Transaction) → printed ≡ printed_length rules txn → result ≡ length (run_at rules txn spot.now) }
{
    printed + (head_room(spot) + closing_room(spot)) as u64
}

// Head, print and ROTATE, in a room that is made once.
fn run_of(
    alloc: Global,
    txn: &Txn,
    statements: &[Told<'_>],
    names: &Names,
    spot: &Spot,
    length: u64,
) -> Result<Blob, Memory>
    requires file { spot.now.file ≤ 2 ^ 63 }
    requires statements { told statements.now ≡ distinct (statements_of txn.now.branches) }
    requires short { AllByRecursion IsShort (told statements.now) }
    requires most { length ≤ 2 ^ 28 }
    requires size { length ≡ printed_length names.now txn.now }
    requires end { spot.now.at + length ≤ 2 ^ 31 }
    ensures { IfOk result (λ run. run ≡ run_at names.now txn.now spot.now) }
{
    let mut run = Buffer::with_room(alloc, room_for(spot, length) as usize)?;
    put_run(alloc, txn, statements, names, spot, length, &mut run)?;
    run.freeze()
}

// The unit of these bytes.
fn unit_with(txn: &Txn, before: &Layout, spot: &Spot, run: Blob) -> cdc_model::Unit
    requires file { spot.now.file ≡ next_file before.now }
    requires head { spot.now.head ≡ begins_file before.now }
    requires begins { IsTrue (begins_file before.now) → 123 ≤ length run }
    requires before { HasRoom before.now }
    requires most { length run ≤ 2 ^ 30 }
    ensures { result ≡ unit_at txn.now before.now spot.now run }
{
    let start = if spot.head { 0 } else { before.length };
    cdc_model::Unit {
        number: txn.number,
        key: txn.key,
        before: *before,
        after: Layout {
            file: spot.file,
            length: start + run.len() as u64,
            closed: spot.closes,
        },
        bytes: run,
    }
}

/// All that a transaction appends to an output that stands at `before`: the file's head where one is due, the
/// print, and ROTATE where the file then has the rotation size, as one run of bytes; and where the output then
/// stands.
///
/// `TooLarge` comes exactly where the print is longer than 2^28 bytes. Each body of a row is copied once, into the
/// unit's bytes, whose room is made once; equal statements are found by a set.
pub fn unit(
    alloc: Global,
    txn: &Txn,
    names: &Names,
    before: &Layout,
    rotation: u64,
) -> Result<cdc_model::Unit, PrintError>
    requires rotation { IsRotation rotation }
    requires before { HasRoom before.now }
    ensures ok { IfOk result (λ unit. unit ≡ unit_of names.now rotation txn.now before.now) }
    ensures step { IfOk result (λ unit. IsOutputStepFrom names.now rotation txn.now before.now unit) }
    ensures refused { IfErr result (HasPrintCause names.now txn.now) }
    ensures too_large { (result ≡ Err (too_large names.now txn.now)) ↔ (2 ^ 28 < printed_length names.now txn.now) }
{
    let (statements, length) = counted(alloc, txn, names)?;
    units_are_steps();
    let spot = place(before, rotation, length);
    let run = run_of(alloc, txn, statements.as_slice(), names, &spot, length)?;
    Ok(unit_with(txn, before, &spot, run))
}
