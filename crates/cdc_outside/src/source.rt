//! What is read: the log files of one node, or one file.

ghost use Rattle.std.specs.Prelude.{◌≡◌, ℕ, ◌≤◌, ◌^◌, Bool, IsTrue, List, Option, length, map, sum, IfOk};
ghost use Rattle.cdc_base.specs.declared.place.Place.{Place};
ghost use Rattle.cdc_outside.specs.Count.{RisesOnErr};
ghost use Rattle.cdc_outside.specs.Source.{behind, earlier_place, file_of, later_place, lowered, raised, size_of, ReadsFile};

use crate::failed::Failed;
use cdc_base::Place;

/// A list of files, counted from 1, whose bytes no call changes.
///
/// Every call takes no memory, and leaves each meaning as it was but for what its clauses say. It answers
/// `Failed` only where the count of faults rose in this call.
pub trait Source: Drop {
    /// Whether sources of this type tell their content. A real file doesn't.
    ghost tells: { Bool };

    /// The files as byte lists, where it tells.
    ghost held: { Self → List (List ℕ) };

    /// One number a file, told by every source: no file is longer than its number.
    ghost sizes: { Self → List ℕ };

    /// The least place that `read_at` was asked for.
    ghost lowest: { Self → Option Place };

    /// The greatest place behind bytes that `read_at` was asked for.
    ghost highest: { Self → Option Place };

    /// How often it has failed, a count that stands still at `u64`'s end.
    ghost faults: { Self → ℕ };

    /// How many files there are.
    fn files(&mut self) -> Result<u32, Failed>
        ensures number { IfOk result (λ number. number ≡ length (sizes self.old)) }
        ensures held { held self.new ≡ held self.old }
        ensures sizes { sizes self.new ≡ sizes self.old }
        ensures lowest { lowest self.new ≡ lowest self.old }
        ensures highest { highest self.new ≡ highest self.old }
        ensures faults { RisesOnErr (faults self.old) (faults self.new) result };

    /// How many bytes a file has.
    fn length(&mut self, file: u32) -> Result<u64, Failed>
        requires first { 1 ≤ file }
        requires last { file ≤ length (sizes self.old) }
        ensures within { IfOk result (λ bytes. bytes ≤ size_of (sizes self.old) file) }
        ensures exact { IsTrue tells → IfOk result (λ bytes. bytes ≡ length (file_of (held self.old) file)) }
        ensures held { held self.new ≡ held self.old }
        ensures sizes { sizes self.new ≡ sizes self.old }
        ensures lowest { lowest self.new ≡ lowest self.old }
        ensures highest { highest self.new ≡ highest self.old }
        ensures faults { RisesOnErr (faults self.old) (faults self.new) result };

    /// Puts bytes of a file, from its byte `at` on, at the front of `into`, and answers how many. It answers
    /// 0 exactly where `at` isn't below the file's length or `into` is empty. What `into` has behind them, and
    /// all of `into` after `Failed`, is unknown.
    fn read_at(&mut self, file: u32, at: u64, into: &mut [u8]) -> Result<usize, Failed>
        requires first { 1 ≤ file }
        requires last { file ≤ length (sizes self.old) }
        ensures within { IfOk result (λ read. read ≤ length into.old) }
        ensures read { IsTrue tells → IfOk result (λ read. ReadsFile (file_of (held self.old) file) at into.new read) }
        ensures held { held self.new ≡ held self.old }
        ensures sizes { sizes self.new ≡ sizes self.old }
        // Also where it failed.
        ensures lowest { lowest self.new ≡ lowered (lowest self.old) file at }
        ensures highest { highest self.new ≡ raised (highest self.old) file (behind at (length into.old)) }
        ensures faults { RisesOnErr (faults self.old) (faults self.new) result };

    ghost limit: { (source : Self) → sum (sizes source) ≤ 2 ^ 54 };

    ghost sizes_are_lengths: { (source : Self) → IsTrue tells → sizes source ≡ map length (held source) };
}

/// The least place asked for, with one more: what a source keeps for `lowest`.
pub fn lowest_place(lowest: Option<Place>, file: u32, at: u64) -> Option<Place>
    ensures { result ≡ lowered lowest file at }
{
    let place = Place { file, at };
    match lowest {
        Some(lowest) => Some(earlier(place, lowest)),
        None => Some(place),
    }
}

/// The first of two places; the second where they are equal.
fn earlier(place: Place, other: Place) -> Place
    ensures { result ≡ earlier_place place other }
{
    if place.file < other.file || (place.file == other.file && place.at < other.at) {
        place
    } else {
        other
    }
}

/// The greatest place asked for, with that behind `count` bytes more: what a source keeps for `highest`.
pub fn highest_place(highest: Option<Place>, file: u32, at: u64, count: usize) -> Option<Place>
    ensures { result ≡ raised highest file (behind at count) }
{
    let place = Place {
        file,
        at: at.saturating_add(count as u64),
    };
    match highest {
        Some(highest) => Some(later(place, highest)),
        None => Some(place),
    }
}

/// The later of two places; the second one where they are equal.
fn later(place: Place, other: Place) -> Place
    ensures { result ≡ later_place place other }
{
    if other.file < place.file || (place.file == other.file && other.at < place.at) {
        place
    } else {
        other
    }
}
