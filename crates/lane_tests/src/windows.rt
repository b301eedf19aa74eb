//! Windows of three jobs by a schedule.

ghost use Rattle.std.specs.Prelude.{◌≡◌, ◌+◌, ◌<◌, ◌≤◌, ◌^◌, length};

use crate::feeder::Feeder;
use crate::keeper::Keeper;
use crate::relay::{Relay, State};
use cdc_lane::PlainLane;
use cdc_turns::run;
use std::alloc::Global;
use std::test::Fail;

// What came out of 1,000 numbers that went through lanes of so many places, and how much of the schedule was used.
fn came_through(alloc: Global, room: usize, schedule: &[u32]) -> Result<(Keeper, usize), Fail>
    requires { 1 ≤ room }
{
    let mut nodes = [Feeder {
        next: 0,
        upto: 1_000,
        step: 0,
        ended: false,
    }];
    let mut ins = [PlainLane::new(alloc, room)?];
    let mut merge = Relay {
        state: State::Taking,
    };
    let mut outs = [PlainLane::new(alloc, room)?];
    let mut dumps = [Keeper {
        next: 0,
        wrong: 0,
        ends: 0,
        ended: false,
    }];
    let mut at = 0;
    run(
        &mut nodes, &mut ins, &mut merge, &mut outs, &mut dumps, schedule, &mut at,
    );
    let [keeper] = dumps;
    Ok((keeper, at))
}

/// 1,000 items through lanes of few places and of many, by several schedules.
#[test]
fn all_items_come_through(rt: HostRuntime) -> Result<(), Fail> {
    let schedules: [&[u32]; 4] = [
        &[],
        &[0, 0, 0, 0, 1, 2],
        &[2, 1, 0, 0, 1, 1, 2, 0],
        &[0, 1, 2, 7, 9, 4_000_000_000],
    ];
    for schedule in schedules {
        for room in [1, 3, 16] {
            let (keeper, at) = came_through(rt.alloc(), room, schedule)?;
            assert!(rt;
                keeper.next == 1_000 && keeper.wrong == 0 && keeper.ends == 1,
                "{keeper:?}"
            );
            assert!(rt; at == schedule.len(), "{at} of the schedule");
        }
    }
    Ok(())
}
