//! Draws from a seed.

ghost use Rattle.std.specs.Prelude.{◌≡◌, ◌<◌, ◌^◌, IfOk};
ghost use Rattle.cdc_gen.specs.Draws.{next_state, drawn_from, schedule};

use cdc_base::Memory;
use std::alloc::Global;

/// How many numbers a schedule has.
const SCHEDULE_LENGTH: usize = 4096;

/// What the state is multiplied with.
const FACTOR: u64 = 6_364_136_223_846_793_005;

/// What is added to it then.
const INCREMENT: u64 = 1_442_695_040_888_963_407;

/// The state of a generator; at first, its seed.
#[derive(Debug, Drop)]
pub struct Draws {
    pub state: u64,
}

impl Draws {
    /// The next draw: a number below 2^31.
    #[tactic(auto, unfolding(crate::specs::Draws::next_state, crate::specs::Draws::drawn_from))]
    pub fn draw(&mut self) -> u32
        ensures state { self.new.state ≡ next_state self.old.state }
        ensures drawn { result ≡ drawn_from self.new.state }
    {
        self.state = self.state.wrapping_mul(FACTOR).wrapping_add(INCREMENT);
        (self.state >> 33) as u32
    }
}

/// The first 4,096 draws from a number: the turns of a schedule.
pub fn schedule_of(alloc: Global, order: u64) -> Result<Vec<u32>, Memory>
    ensures { IfOk result (λ turns. turns.items ≡ schedule order) }
{
    let mut draws = Draws { state: order };
    let mut turns = Vec::with_capacity(alloc, SCHEDULE_LENGTH)?;
    for _turn in 0..SCHEDULE_LENGTH {
        turns.push(draws.draw())?;
    }
    Ok(turns)
}
