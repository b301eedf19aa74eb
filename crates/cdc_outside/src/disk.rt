//! A disk whose files a crash may tear.

ghost use Rattle.std.specs.Prelude.{◌≡◌, ℕ, ◌≤◌, Bool, IsTrue, List, length, take, IfOk, OnOk};
ghost use Rattle.cdc_outside.specs.declared.disk_file.DiskFile.{DiskFile};
ghost use Rattle.cdc_outside.specs.Count.{RisesOnErr};
ghost use Rattle.cdc_outside.specs.Disk.{Image, Change, Wrote, CutTo, MayLeave, IsDurable, Begins, Elapses, with_file, overwritten};
ghost use Rattle.cdc_outside.specs.Source.{ReadsFile};

use crate::disk_file::DiskFile;
use crate::failed::Failed;

/// A folder of files. What is written reaches it for certain at the next sync, and before that in part.
///
/// Every call takes no memory, leaves each meaning as it was but for what its clauses say, and answers `Failed`
/// only where the count of faults rose in this call. A file that was never written has length 0.
pub trait Disk: Drop {
    /// Whether disks of this type tell their content. A real folder doesn't.
    ghost tells: { Bool };

    /// What a read gives.
    ghost seen: { Self → Image };

    /// The content at the last sync.
    ghost synced: { Self → Image };

    /// The changes of each file since the last sync, those that failed among them.
    ghost pending: { Self → DiskFile → List Change };

    /// What a crash now may leave.
    ghost may_leave: { Self → Image → Type 0 };

    /// The moment, as a number that doesn't fall.
    ghost moment: { Self → ℕ };

    /// What a crash at some moment from that one on might have left, during a call or between two.
    ghost left_since: { Self → ℕ → Image → Type 0 };

    /// How often it has failed, a count that stands still at `u64`'s end.
    ghost faults: { Self → ℕ };

    /// How many bytes a file has.
    fn length(&mut self, file: DiskFile) -> Result<u64, Failed>
        ensures exact { IsTrue tells → IfOk result (λ bytes. bytes ≡ length (seen self.old file)) }
        ensures seen { IsTrue tells → seen self.new ≡ seen self.old }
        ensures synced { IsTrue tells → synced self.new ≡ synced self.old }
        ensures pending { IsTrue tells → pending self.new ≡ pending self.old }
        ensures crash { IsTrue tells → (image : Image) → may_leave self.new image → may_leave self.old image }
        ensures time { IsTrue tells → Elapses (moment self.old) (moment self.new) (left_since self.old) (left_since self.new) (may_leave self.new) }
        ensures faults { RisesOnErr (faults self.old) (faults self.new) result };

    /// Puts bytes of a file, from its byte `at` on, at the front of `into`, and answers how many. It answers
    /// 0 exactly where `at` isn't below the file's length or `into` is empty. What `into` has behind them, and
    /// all of `into` after `Failed`, is unknown.
    fn read_at(&mut self, file: DiskFile, at: u64, into: &mut [u8]) -> Result<usize, Failed>
        ensures within { IfOk result (λ read. read ≤ length into.old) }
        ensures read { IsTrue tells → IfOk result (λ read. ReadsFile (seen self.old file) at into.new read) }
        ensures seen { IsTrue tells → seen self.new ≡ seen self.old }
        ensures synced { IsTrue tells → synced self.new ≡ synced self.old }
        ensures pending { IsTrue tells → pending self.new ≡ pending self.old }
        ensures crash { IsTrue tells → (image : Image) → may_leave self.new image → may_leave self.old image }
        ensures time { IsTrue tells → Elapses (moment self.old) (moment self.new) (left_since self.old) (left_since self.new) (may_leave self.new) }
        ensures faults { RisesOnErr (faults self.old) (faults self.new) result };

    /// Writes over what stands from `at` on, and past the end. After `Failed` it may be done in part.
    fn write_at(&mut self, file: DiskFile, at: u64, from: &[u8]) -> Result<(), Failed>
        requires { IsTrue tells → at ≤ length (seen self.old file) }
        ensures written { IsTrue tells → OnOk result (seen self.new ≡ with_file file (overwritten at from.now (seen self.old file)) (seen self.old)) }
        ensures synced { IsTrue tells → synced self.new ≡ synced self.old }
        ensures pending { IsTrue tells → Begins file (Wrote at (length from.now)) (pending self.old) (pending self.new) }
        ensures time { IsTrue tells → Elapses (moment self.old) (moment self.new) (left_since self.old) (left_since self.new) (may_leave self.new) }
        ensures faults { RisesOnErr (faults self.old) (faults self.new) result };

    /// Cuts a file to a length. After `Failed` it may be done in part.
    fn cut(&mut self, file: DiskFile, to: u64) -> Result<(), Failed>
        requires { IsTrue tells → to ≤ length (seen self.old file) }
        ensures cut { IsTrue tells → OnOk result (seen self.new ≡ with_file file (take to (seen self.old file)) (seen self.old)) }
        ensures synced { IsTrue tells → synced self.new ≡ synced self.old }
        ensures pending { IsTrue tells → Begins file (CutTo to) (pending self.old) (pending self.new) }
        ensures time { IsTrue tells → Elapses (moment self.old) (moment self.new) (left_since self.old) (left_since self.new) (may_leave self.new) }
        ensures faults { RisesOnErr (faults self.old) (faults self.new) result };

    /// After it a crash leaves what a read gives. One that failed counts as none.
    fn sync(&mut self) -> Result<(), Failed>
        ensures durable { IsTrue tells → OnOk result (IsDurable (seen self.new) (synced self.new) (pending self.new)) }
        ensures seen { IsTrue tells → seen self.new ≡ seen self.old }
        ensures crash { IsTrue tells → (image : Image) → may_leave self.new image → may_leave self.old image }
        ensures time { IsTrue tells → Elapses (moment self.old) (moment self.new) (left_since self.old) (left_since self.new) (may_leave self.new) }
        ensures faults { RisesOnErr (faults self.old) (faults self.new) result };

    /// A crash leaves of each file what the model lets it leave.
    ghost image_is: { (disk : Self) (image : Image) → IsTrue tells → may_leave disk image → (file : DiskFile) → MayLeave (synced disk file) (pending disk file) (image file) };

    /// What a read gives may stay.
    ghost seen_may_stay: { (disk : Self) → IsTrue tells → may_leave disk (seen disk) };

    /// This moment is one of those since an earlier one.
    ghost counts_now: { (disk : Self) (t : ℕ) (image : Image) → IsTrue tells → t ≤ moment disk → may_leave disk image → left_since disk t image };

    /// Since this moment there is no other.
    ghost only_now: { (disk : Self) (image : Image) → IsTrue tells → left_since disk (moment disk) image → may_leave disk image };
}
