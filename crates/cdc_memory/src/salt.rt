//! A salt in memory.

ghost use Rattle.std.specs.Prelude.{◌≡◌, ◌≤◌, [], ◌∷◌, ◌++◌, ℕ, List, Option, true, IfOk};
ghost use Rattle.std.specs.Result.{result_ok};
ghost use Rattle.cdc_outside.specs.Count.{RisesOnErr};
ghost use Rattle.cdc_memory.specs.Calls.{at_first, Counts};

use crate::calls::CallPlan;
use cdc_base::Memory;
use cdc_outside::{Failed, SALT_LENGTH, Salt};
use std::alloc::Global;

/// Listed draws, whose listed calls fail.
#[derive(Debug, Drop)]
pub struct MemSalt {
    draws: Vec<[u8; SALT_LENGTH]>,
    calls: CallPlan,
}

impl MemSalt {
    ghost use Rattle.cdc_memory.specs.Salt.{draws_of, salt_calls_of, drawn_of};

    /// The k-th call (from 1) gives the k-th of these draws. It fails for each k of `fails` and past the end of the
    /// draws, and no other does.
    #[tactic(auto, unfolding(crate::specs::Salt::first_answers))]
    pub fn new(alloc: Global, draws: &[[u8; SALT_LENGTH]], fails: &[u64]) -> Result<MemSalt, Memory>
        ensures draws { IfOk result (λ salt. draws_of salt ≡ draws.now) }
        ensures calls { IfOk result (λ salt. salt_calls_of salt ≡ at_first fails.now) }
        ensures drawn { IfOk result (λ salt. drawn_of salt []) }
    {
        Ok(MemSalt {
            draws: draws.to_vec(alloc)?,
            calls: CallPlan::new(alloc, fails)?,
        })
    }
}

impl Salt for MemSalt {
    ghost use Rattle.cdc_memory.specs.Salt.{draws_of, salt_calls_of, is_past_draws, drawn_of};

    ghost tells = { true };

    ghost drawn = { drawn_of };

    ghost faults = { λ salt. (salt_calls_of salt).faults };

    fn draw(&mut self) -> Result<[u8; SALT_LENGTH], Failed>
        ensures drawn { (answers : List (Option (List ℕ))) → drawn_of self.old answers → drawn_of self.new (answers ++ result_ok result ∷ []) }
        ensures draws { draws_of self.new ≡ draws_of self.old }
        ensures faults { RisesOnErr (salt_calls_of self.old).faults (salt_calls_of self.new).faults result }
        ensures call { Counts (is_past_draws self.old) (salt_calls_of self.old) (salt_calls_of self.new) result }
    {
        let before = self.calls.calls();
        if self.calls.count(before >= self.draws.len() as u64).is_err() {
            return Err(Failed);
        }
        Ok(self.draws[before as usize])
    }
}
