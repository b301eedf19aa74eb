//! Renaming rules, filed by their tables.

ghost use Rattle.std.specs.Prelude.{◌≡◌, IsSome, IsNone, OnOk};
ghost use Rattle.std.specs.List.{AllByRecursion};
ghost use Rattle.toml.specs.View.{view};
ghost use Rattle.cdc_event.specs.Table.{rule_for};
ghost use Rattle.cdc_rename.specs.Names.{Adds, IsRule};
ghost use Rattle.cdc_config.specs.Filing.{Files, GivesNames};

use crate::keys::rules_of;
use crate::misfit::Misfit;
use cdc_base::{Rename, RenameList};
use cdc_rename::{Names, NamesError};
use std::alloc::Global;
use toml::Value;

// Files one rule more; refused where there is one for its table.
fn file(names: &mut Names, rule: Rename) -> Result<(), Misfit>
    requires { IsRule rule }
    ensures ok { OnOk result (Adds names.old names.new rule) }
    ensures apart { OnOk result (IsNone (rule_for rule.db rule.table names.old)) }
    ensures refused { result ≡ Err Misfit.Refused → IsSome (rule_for rule.db rule.table names.old) }
{
    match names.add(rule) {
        Ok(()) => Ok(()),
        Err(NamesError::Twice) => Err(Misfit::Refused),
        Err(NamesError::Memory) => Err(Misfit::Memory),
    }
}

// Files rules, from the last to the first; refused where two are for one table.
fn names_from(alloc: Global, rules: RenameList) -> Result<Names, Misfit>
    requires { AllByRecursion IsRule rules }
    ensures { Files result rules }
{
    let mut names = Names::new(alloc);
    let mut rest = rules;
    while let Some(rule) = rest.pop() {
        match file(&mut names, rule) {
            Ok(()) => {}
            Err(misfit) => return Err(misfit),
        }
    }
    Ok(names)
}

/// The rules of a configuration, filed by their tables; refused where two are for one table.
pub fn names_of(alloc: Global, root: &Value) -> Result<Names, Misfit>
    ensures { GivesNames result (view root.now) }
{
    match rules_of(alloc, root) {
        Ok(rules) => names_from(alloc, rules),
        Err(misfit) => Err(misfit),
    }
}
