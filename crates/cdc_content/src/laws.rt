//! The laws of a pass's content. Each function ensures its law, so that the check proves it.

ghost use Rattle.cdc_content.specs.Laws.{ReadingsStandSo, ReadingsAreFeeds, ReadingsSettleTheNext, ReadingsOfAllSettleAll, PointsBehindAreSound, PointsOfAllAreLatest};

use cdc_model::restart_place_reads_the_rest;

/// A law: what a reader keeps of its reading is what these laws speak of, whatever the reading's end.
pub fn readings_stand_so()
    ensures { ReadingsStandSo }
{}

/// A law: what nodes have read and given are feeds of what was read, as logs; where all was read they have told its marks.
pub fn readings_are_feeds()
    ensures { ReadingsAreFeeds }
{}

/// A law: whatever nodes have read from restart points on settles the next transactions of the whole logs, under their numbers;
/// and where it has an oversized one, that is the whole logs', and all before it are settled.
pub fn readings_settle_the_next()
    ensures { ReadingsSettleTheNext }
{
    restart_place_reads_the_rest();
}

/// A law: where each log was read to its end or its fault, what was read settles all of them.
pub fn readings_of_all_settle_all()
    ensures { ReadingsOfAllSettleAll }
{
    restart_place_reads_the_rest();
}

/// A law: the latest restart points of what was read, for the key of the last transaction that was made of it, are restart points
/// of the whole logs for it.
pub fn points_behind_are_sound()
    ensures { PointsBehindAreSound }
{
    restart_place_reads_the_rest();
}

/// A law: where each log was read to its end or its fault, they are the latest ones of the whole logs.
pub fn points_of_all_are_the_latest()
    ensures { PointsOfAllAreLatest }
{
    restart_place_reads_the_rest();
}
