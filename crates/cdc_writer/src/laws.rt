//! Laws about prints.

ghost use Rattle.std.specs.Prelude.{◌≡◌, ℕ, ◌≤◌, List, length};
ghost use Rattle.std.specs.List.{AllByRecursion};
ghost use Rattle.cdc_base.specs.declared.rename.Rename.{Rename as Rule};
ghost use Rattle.cdc_model.specs.Records.{Transaction};
ghost use Rattle.cdc_model.specs.Print.{printed_bytes, printed_length};
ghost use Rattle.cdc_model.specs.Output.{file_head};
ghost use Rattle.cdc_writer.specs.Short.{HasNoRows, HasShortId};

/// A law: a print has its length, wherever it stands.
pub fn prints_have_their_length()
    ensures { (rules : List Rule) (txn : Transaction) (at : ℕ) → length (printed_bytes rules txn at) ≡ printed_length rules txn }
{}

/// A law: the print of a transaction without rows has at most 242 bytes.
pub fn prints_without_rows_are_short()
    ensures { (rules : List Rule) (txn : Transaction) → AllByRecursion HasNoRows txn.branches → HasShortId txn.key → printed_length rules txn ≤ 242 }
{}

/// A law: the head of an output file has 123 bytes.
pub fn head_has_its_length()
    ensures { length file_head ≡ 123 }
{}
