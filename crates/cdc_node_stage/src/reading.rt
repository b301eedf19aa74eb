//! Reads of further bytes.

ghost use Rattle.std.specs.Prelude.{◌≡◌, ◌⊎◌, ◌≤◌, ◌<◌, ◌+◌, IsTrue, List, length, IfSome};
ghost use Rattle.cdc_outside.specs.Count.{Rose};
ghost use Rattle.cdc_model.specs.Records.{LogEntry};
ghost use Rattle.cdc_model.specs.Feed.{NodeFeed};
ghost use Rattle.cdc_sorter.specs.Sorting.{SortReading};
ghost use Rattle.cdc_cutter.specs.Cutting.{IsGoingOn};
ghost use Rattle.cdc_reader.specs.declared.step.NodeEnd.TheVariants.{Open as GoesOn, Read as SourceFailed};
ghost use Rattle.cdc_reader.specs.Asking.{IsFromOn, NothingBelow, bytes_in, bytes_up_to};
ghost use Rattle.cdc_reader.specs.Filling.{IsLogSized};
ghost use Rattle.cdc_reader.specs.LogFront.{IsTakenTo};
ghost use Rattle.cdc_reader.specs.Standing.{AllGiven, IsReading, StepsTo};
ghost use Rattle.cdc_node_stage.specs.Preparing.{count_in, step_read};

use cdc_outside::Source;
use cdc_reader::{Reader, Step};

// How many bytes a step read; none where it is another.
fn count_in(step: &Step) -> Option<usize>
    ensures { result ≡ count_in step.now }
{
    match step {
        Step::Read(count) => Some(*count),
        Step::Branch(_) | Step::Bound(_) | Step::End => None,
    }
}

/// Reads at most so many bytes, where nothing more is at hand: how many were read; none where the reading ended.
pub(crate) fn read_bytes<S: Source>(
    reader: &mut Reader,
    source: &mut S,
    piece: &mut [u8],
    most: usize,
) -> Option<usize>
    requires some { 0 < most }
    requires within { most ≤ length piece.old }
    requires cuts { IsGoingOn reader.old.log.follower.cutter.state }
    ensures steps { (reading : SortReading) (taken : List LogEntry) (feed : NodeFeed) → IsReading S.tells (S.held source.old) reader.old reading taken feed → reader.old.end ≡ GoesOn → AllGiven reading taken feed
        → (IsTrue S.tells → IsTakenTo reading.from (S.held source.old) reader.old.log.follower reader.old.log.place taken) → StepsTo S.tells (S.held source.old) reader.new reading taken feed (step_read result) }
    ensures within { IfSome result (λ count. count ≤ most) }
    ensures below { NothingBelow reader.old.log.place (S.lowest source.old) (S.lowest source.new) }
    ensures onward { IsFromOn reader.old.log.place reader.new.log.place }
    ensures bytes { IsTrue S.tells → IsLogSized (S.held source.old) reader.old.log → bytes_up_to (S.held source.old) reader.new.log.place ≤ bytes_up_to (S.held source.old) reader.old.log.place + bytes_in (step_read result) }
    ensures sorter { reader.new.sorter ≡ reader.old.sorter }
    ensures failed { reader.new.end ≡ SourceFailed → (reader.old.end ≡ SourceFailed) ⊎ Rose (S.faults source.old) (S.faults source.new) }
    ensures later { S.faults source.old ≤ S.faults source.new }
    ensures held { S.held source.new ≡ S.held source.old }
    ensures sizes { S.sizes source.new ≡ S.sizes source.old }
{
    let step = reader.fill(source, &mut piece[..most]);
    count_in(&step)
}
