//! A transaction's print, whole or not at all.

ghost use Rattle.std.specs.Prelude.{◌≡◌, ◌+◌, ◌<◌, ◌≤◌, ◌^◌, ◌++◌, ◌↔◌, IfOk, IfErr, OnOk, OnErr};
ghost use Rattle.std.specs.List.{AllByRecursion};
ghost use Rattle.cdc_model.specs.Print.{distinct, statements_of, printed_bytes, printed_length};
ghost use Rattle.cdc_writer.specs.Refusal.{too_large, HasPrintCause};
ghost use Rattle.cdc_writer.specs.Statements.{IsShort, told};
ghost use Rattle.cdc_writer.specs.declared.printing.PrintError.TheVariants.{TooLarge, Memory as NoMemory};

use crate::different::{Told, different};
use crate::length::{length_with, print_length};
use crate::transaction::put_transaction;
use cdc_base::{Buffer, Memory};
use cdc_model::Txn;
use cdc_rename::Names;
use indexmap::IndexSet;
use std::alloc::Global;

/// The most bytes that a transaction's print has.
pub const PRINT_MAX: u64 = 1 << 28;

/// Why a transaction wasn't printed.
#[derive(Clone, Copy, Debug, PartialEq, Eq)]
pub enum PrintError {
    /// The print of this transaction is longer than 2^28 bytes.
    TooLarge { number: u64, bytes: u64 },
    /// There was no memory.
    Memory,
}

impl From<Memory> for PrintError {
    ghost from_gives = { λ _ error. error ≡ NoMemory };

    fn from(_memory: Memory) -> PrintError {
        PrintError::Memory
    }
}

// A print's length, where it isn't too large.
fn within(number: u64, bytes: u64) -> Result<u64, PrintError>
    ensures ok { IfOk result (λ length. (length ≡ bytes) × (bytes ≤ 2 ^ 28)) }
    ensures err { IfErr result (λ error. (error ≡ TooLarge number bytes) × (2 ^ 28 < bytes)) }
{
    if bytes > PRINT_MAX {
        return Err(PrintError::TooLarge { number, bytes });
    }
    Ok(bytes)
}

// The answer to a transaction whose statements couldn't be kept: want of memory, but of a print that is too large.
fn uncounted(txn: &Txn, names: &Names) -> PrintError
    ensures refused { HasPrintCause names.now txn.now result }
    ensures too_large { (result ≡ too_large names.now txn.now) ↔ (2 ^ 28 < printed_length names.now txn.now) }
{
    match within(txn.number, print_length(txn, names)) {
        Ok(_) => PrintError::Memory,
        Err(error) => error,
    }
}

/// The different statements of a transaction that is to be printed, and how long its print is, where it isn't too
/// large.
pub(crate) fn counted<'a>(
    alloc: Global,
    txn: &'a Txn,
    names: &Names,
) -> Result<(IndexSet<Told<'a>>, u64), PrintError>
    ensures statements { IfOk result (λ counted. told counted.0.keys ≡ distinct (statements_of txn.now.branches)) }
    ensures short { IfOk result (λ counted. AllByRecursion IsShort (told counted.0.keys)) }
    ensures length { IfOk result (λ counted. (counted.1 ≡ printed_length names.now txn.now) × (counted.1 ≤ 2 ^ 28)) }
    ensures refused { IfErr result (HasPrintCause names.now txn.now) }
    ensures too_large { (result ≡ Err (too_large names.now txn.now)) ↔ (2 ^ 28 < printed_length names.now txn.now) }
{
    match different(alloc, txn.branches.as_slice()) {
        Err(Memory) => Err(uncounted(txn, names)),
        Ok(statements) => {
            let bytes = within(txn.number, length_with(statements.as_slice(), txn, names))?;
            Ok((statements, bytes))
        }
    }
}

/// Appends a transaction's print, which stands at `at` of its file: its events, one behind another, each with
/// the place behind it as its next position. Where the print isn't too large its end is below 2^32.
///
/// `TooLarge` comes exactly where the print is longer than 2^28 bytes. On both errors the buffer's bytes are
/// unchanged. Rows are written straight into the buffer, whose room is made once; equal statements are found by a set.
pub fn print(
    alloc: Global,
    txn: &Txn,
    names: &Names,
    at: u64,
    into: &mut Buffer,
) -> Result<(), PrintError>
    requires { printed_length names.now txn.now ≤ 2 ^ 28 → at + printed_length names.now txn.now < 2 ^ 32 }
    ensures ok { OnOk result (into.new ≡ into.old ++ printed_bytes names.now txn.now at) }
    ensures err { OnErr result (into.new ≡ into.old) }
    ensures refused { IfErr result (HasPrintCause names.now txn.now) }
    ensures too_large { (result ≡ Err (too_large names.now txn.now)) ↔ (2 ^ 28 < printed_length names.now txn.now) }
{
    let (statements, bytes) = counted(alloc, txn, names)?;
    into.reserve(bytes as usize)?;
    let before = into.len();
    match put_transaction(alloc, txn, statements.as_slice(), names, at, into) {
        Ok(_) => Ok(()),
        Err(Memory) => {
            into.truncate(before);
            Err(PrintError::Memory)
        }
    }
}
