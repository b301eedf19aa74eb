//! The rules, at most one for each table.

ghost use Rattle.std.specs.Prelude.{◌≡◌, ◌==◌, ◌↔◌, [], length, IsSome, IfSome, OnOk, OnErr, IfOk, IfErr};
ghost use Rattle.std.specs.Option.{option_copied};
ghost use Rattle.cdc_event.specs.Table.{rule_for};
ghost use Rattle.cdc_rename.specs.Names.{IsRule, Adds, IsRuleAt, IsGapFor, table_of, table_order};
ghost use Rattle.cdc_rename.specs.declared.names.NamesError.TheVariants.{Memory as NoMemory};

use cdc_base::{Memory, Rename};
use std::alloc::{AllocFailed, Global};
use std::cmp::Ordering;
use std::marker::Model;

/// Renaming rules, no two for one table, seen as the list of them in the order of their tables' names.
#[derive(Debug, Drop)]
pub struct Names {
    alloc: Global,
    rules: Vec<Rename>,
}

impl Model for Names {
    ghost use Rattle.std.specs.Prelude.{List};
    ghost use Rattle.cdc_base.specs.declared.rename.Rename.{Rename as Rule};

    ghost Value = { List Rule };

    ghost use Rattle.cdc_rename.specs.Names.{IsOrdered};

    ghost view = { λ names. names.rules.items };

    ghost invariant = { λ names. IsOrdered names.rules.items };
}

/// Why a rule wasn't added.
#[derive(Clone, Copy, Debug, PartialEq, Eq)]
pub enum NamesError {
    /// There is a rule for this table already.
    Twice,
    /// There was no memory.
    Memory,
}

impl From<AllocFailed<Rename>> for NamesError {
    ghost from_gives = { λ _ error. error ≡ NoMemory };

    fn from(_error: AllocFailed<Rename>) -> NamesError {
        NamesError::Memory
    }
}

impl Names {
    /// No rules, which takes no memory; the allocator is kept for growth.
    pub fn new(alloc: Global) -> Names
        ensures { result ≡ [] }
    {
        Names {
            alloc,
            rules: Vec::new(alloc),
        }
    }

    /// Whether there is no rule.
    pub fn is_empty(&self) -> bool
        ensures { result ≡ (length self.now == 0) }
    {
        self.rules.is_empty()
    }

    /// The allocator that the rules are kept with.
    pub(crate) fn alloc(&self) -> Global {
        self.alloc
    }

    /// Adds a rule of four texts of 1 to 64 bytes. `Twice` comes exactly where there is a rule for its table;
    /// on both errors nothing changes, and the rule is let go.
    pub fn add(&mut self, rename: Rename) -> Result<(), NamesError>
        requires { IsRule rename }
        ensures ok { OnOk result (Adds self.old self.new rename) }
        ensures twice { (result ≡ Err NamesError.Twice) ↔ IsSome (rule_for rename.db rename.table self.old) }
        ensures err { OnErr result (self.new ≡ self.old) }
    {
        match self.search(rename.db.bytes(), rename.table.bytes()) {
            Ok(_) => Err(NamesError::Twice),
            Err(at) => Ok(self.rules.insert(at, rename)?),
        }
    }

    /// The rule for a table; none exactly where there is none. Names match byte for byte.
    pub fn find(&self, db: &[u8], table: &[u8]) -> Option<&Rename>
        ensures names { IfSome result (λ rule. IsRule rule.now) }
        ensures rule { option_copied result ≡ rule_for db.now table.now self.now }
    {
        match self.search(db, table) {
            Ok(at) => Some(&self.rules[at]),
            Err(_) => None,
        }
    }

    // Where the rule for a table is, or where it would go.
    fn search(&self, db: &[u8], table: &[u8]) -> Result<usize, usize>
        ensures found { IfOk result (IsRuleAt self.now (db.now, table.now)) }
        ensures absent { IfErr result (IsGapFor self.now (db.now, table.now)) }
    {
        self.rules.binary_search_by(|rule| compare(rule, db, table))
    }
}

// The order of a rule's table and another.
fn compare(rule: &Rename, db: &[u8], table: &[u8]) -> Ordering
    ensures { result ≡ table_order (table_of rule.now) (db.now, table.now) }
{
    rule.db.bytes().cmp(db).then(rule.table.bytes().cmp(table))
}
