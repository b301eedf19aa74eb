//! The plan of a call, read from its configuration.

ghost use Rattle.std.specs.Prelude.{◌≡◌, ◌≤◌, Err, IsTrue, IfOk, length};
ghost use Rattle.cdc_config.specs.Plan.{IsPlanOf};
ghost use Rattle.cdc_outside.specs.Source.{file_of};
ghost use Rattle.cdc_top.specs.Call.{config_seen};
ghost use Rattle.cdc_top.specs.Planning.{IsPlanOrStop, IsPlanRead, StopsFor};

use cdc_config::{ConfigKey, Plan, Refusal, plan_of};
use cdc_outside::{ReadWholeError, Source, read_whole};
use std::alloc::Global;

/// Why there is no plan.
#[derive(Clone, Copy, Debug, PartialEq, Eq)]
pub enum ConfigStop {
    /// The source failed.
    Unread,
    /// The configuration is refused for this key.
    Refused(ConfigKey),
    /// There was no memory.
    Memory,
}

/// Why there is no plan where a text is refused.
fn stop_of(refusal: Refusal) -> ConfigStop
    requires { refusal ≡ Refusal.Usage → ⊥ }
    ensures { StopsFor refusal result }
{
    match refusal {
        Refusal::Config(key) => ConfigStop::Refused(key),
        Refusal::Memory => ConfigStop::Memory,
        Refusal::Usage => unreachable!(),
    }
}

/// The plan of a text.
fn plan_in(alloc: Global, text: &[u8]) -> Result<Plan, ConfigStop>
    ensures answer { IsPlanOrStop result text.now }
    ensures plan { IfOk result (IsPlanOf text.now) }
{
    match plan_of(alloc, text) {
        Ok(plan) => Ok(plan),
        Err(refusal) => Err(stop_of(refusal)),
    }
}

/// The plan that a source of one file asks for.
pub fn read_plan<C: Source>(alloc: Global, config: &mut C) -> Result<Plan, ConfigStop>
    requires { length (C.sizes config.old) ≡ 1 }
    ensures read { IsPlanRead result (config_seen C.tells C.held C.faults config.old config.new) }
    ensures plan { IsTrue C.tells → IfOk result (IsPlanOf (file_of (C.held config.old) 1)) }
    ensures later { C.faults config.old ≤ C.faults config.new }
    ensures held { C.held config.new ≡ C.held config.old }
{
    let text = match read_whole(alloc, config, 1) {
        Ok(text) => text,
        Err(ReadWholeError::Failed) => return Err(ConfigStop::Unread),
        Err(ReadWholeError::Memory) => return Err(ConfigStop::Memory),
    };
    plan_in(alloc, text.bytes())
}
