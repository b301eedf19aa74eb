//! The one file as it is printed, transaction by transaction.

ghost use Rattle.std.specs.Prelude.{◌≡◌, ◌+◌, ◌<◌, ◌≤◌, ◌^◌, ◌++◌, ◌∷◌, List, [], IsTrue, false, None, IfOk, OnOk};
ghost use Rattle.cdc_model.specs.Records.{Transaction};
ghost use Rattle.cdc_model.specs.Print.{printed_length};
ghost use Rattle.cdc_model.specs.Output.{last_place};

use crate::pieces::Pieces;
use cdc_base::Memory;
use cdc_model::Txn;
use cdc_rename::Names;
use cdc_writer::{HEAD_LENGTH, PRINT_MAX, PrintError, head_has_its_length, print_length};
use std::alloc::Global;

/// The last place of the one file.
const LAST_PLACE: u64 = u32::MAX as u64;

/// No logs have as many transactions.
const MOST_TRANSACTIONS: u64 = 1 << 62;

/// A transaction before which the file ends.
#[derive(Clone, Copy, Debug, PartialEq, Eq)]
pub(crate) struct Beyond {
    pub number: u64,
    pub bytes: u64,
}

/// The one file of the transactions that came, in order: its head and their prints, up to the first for which it has no
/// room. `begun` says whether the file has its head; `at` is where the next print stands; `count` is how many came.
#[derive(Debug, Drop)]
pub(crate) struct Printing {
    pub pieces: Pieces,
    pub names: Names,
    pub at: u64,
    pub begun: bool,
    pub count: u64,
    pub beyond: Option<Beyond>,
    ghost plain: { names ≡ [] },
    ghost within: { at ≤ 4294967295 },
    ghost few: { count ≤ 2 ^ 62 },
}

impl Printing {
    ghost use Rattle.cdc_print.specs.Printed.{IsPrinted, Puts};

    /// No transaction came.
    pub fn new(alloc: Global) -> Result<Printing, Memory>
        ensures { IfOk result (λ printing. IsPrinted printing []) }
    {
        head_has_its_length();
        Ok(Printing {
            pieces: Pieces::head(alloc)?,
            names: Names::new(alloc),
            at: HEAD_LENGTH as u64,
            begun: false,
            count: 0,
            beyond: None,
        })
    }

    // Whether the file has room for a print that isn't too large.
    fn has_room(&self, txn: &Txn) -> bool
        ensures room { IsTrue result → printed_length [] txn.now ≤ 2 ^ 28 → self.now.at + printed_length [] txn.now ≤ last_place }
        ensures none { result ≡ false → (printed_length [] txn.now ≤ 2 ^ 28) × (last_place < self.now.at + printed_length [] txn.now) }
    {
        if self.at <= LAST_PLACE - PRINT_MAX {
            return true;
        }
        let bytes = print_length(txn, &self.names);
        if bytes > PRINT_MAX {
            return true;
        }
        bytes <= LAST_PLACE - self.at
    }

    // Ends the file before a transaction for which it has no room.
    fn end_before(&mut self, txn: &Txn)
        requires fits { printed_length [] txn.now ≤ 2 ^ 28 }
        requires passes { last_place < self.old.at + printed_length [] txn.now }
        ensures puts { Puts self.old self.new txn.now }
        ensures count { self.new.count ≡ self.old.count }
    {
        self.begun = true;
        self.beyond = Some(Beyond {
            number: txn.number,
            bytes: print_length(txn, &self.names),
        });
    }

    // Prints a transaction, or ends the file before it.
    fn put(&mut self, txn: &Txn) -> Result<(), Memory>
        requires { self.old.beyond ≡ None }
        ensures puts { OnOk result (Puts self.old self.new txn.now) }
        ensures count { self.new.count ≡ self.old.count }
    {
        if !self.has_room(txn) {
            self.end_before(txn);
            return Ok(());
        }
        match self.pieces.print(txn, &self.names, self.at) {
            Ok(bytes) => {
                self.at += bytes;
                self.begun = true;
                Ok(())
            }
            Err(PrintError::TooLarge { number, bytes }) => {
                self.beyond = Some(Beyond { number, bytes });
                Ok(())
            }
            Err(PrintError::Memory) => Err(Memory),
        }
    }

    /// Takes the next transaction in order: prints it, where the file hasn't ended and has room for it.
    pub fn print_next(&mut self, txn: &Txn) -> Result<(), Memory>
        ensures { OnOk result ((txns : List Transaction) → IsPrinted self.old txns → IsPrinted self.new (txns ++ txn.now ∷ [])) }
    {
        if self.count >= MOST_TRANSACTIONS {
            return Err(Memory);
        }
        self.count += 1;
        if let Some(_) = self.beyond {
            return Ok(());
        }
        self.put(txn)
    }
}
