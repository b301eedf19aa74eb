//! The laws above the definitions: what each definition means, in other words. Each is a function that does nothing
//! and ensures its law, so that the check proves it.

ghost use Rattle.cdc_model.specs.Watermark.{OpenAsNewestSays, NumbersCount, MarkIsGreatest, NodeMarkIsLeast, MarkIsLeast};
ghost use Rattle.cdc_model.specs.Soundness.{SoundIsLongest};
ghost use Rattle.cdc_model.specs.Log.{LogPrefixIsAnOrder, GrownLogContinues};
ghost use Rattle.cdc_model.specs.Transaction.{OrderIsExact, SettledIsExact, SettledFit};
ghost use Rattle.cdc_model.specs.Output.{FilesAreWhole, OneMoreIsOneStep};
ghost use Rattle.cdc_model.specs.Unit.{UnitsAreSteps, UnitsMakeFiles};

/// A law: the open branches are exactly those whose newest Prepare, Commit or Rollback is a Prepare.
pub fn open_as_newest_says()
    ensures { OpenAsNewestSays }
{}

/// A law: entries are numbered one after another.
pub fn numbers_count()
    ensures { NumbersCount }
{}

/// A law: the high-water mark is the greatest of the timestamps so far and the mark before them.
pub fn mark_is_greatest()
    ensures { MarkIsGreatest }
{}

/// A law: a node's low-water mark is the least of its high-water mark and its open branches' floors.
pub fn node_mark_is_least()
    ensures { NodeMarkIsLeast }
{}

/// A law: the low-water mark of one or more nodes is the least of theirs.
pub fn mark_is_least()
    ensures { MarkIsLeast }
{}

/// A law: the sound entries of a log are its longest front whose entries are all sound.
pub fn sound_is_longest()
    ensures { SoundIsLongest }
{}

/// A law: each log continues itself, and one that continues a continuation continues the first.
pub fn log_prefix_is_an_order()
    ensures { LogPrefixIsAnOrder }
{}

/// A law: a log continues another whose last file was shorter and that had no file behind it.
pub fn grown_log_continues()
    ensures { GrownLogContinues }
{}

/// A law: the global order has exactly the settled keys, each once and in order, each with all its branches, and
/// numbers them one after another.
pub fn order_is_exact()
    ensures { OrderIsExact }
{}

/// A law: the settled transactions are those of the global order below the first oversized one.
pub fn settled_is_exact()
    ensures { SettledIsExact }
{}

/// A law: the print of a settled transaction has at most 2^28 bytes, that of the oversized one more.
pub fn settled_fit()
    ensures { SettledFit }
{}

/// A law: the output files have all transactions, in order, each file its head and whole prints, closed exactly
/// where it has the rotation size.
pub fn files_are_whole()
    ensures { FilesAreWhole }
{}

/// A law: the output of some transactions and one more is one step behind theirs.
pub fn one_more_is_one_step()
    ensures { OneMoreIsOneStep }
{}

/// A law: a transaction's unit is one step of each output that stands where the unit begins: its bytes are
/// what the step appends, and behind it the output stands where the unit says.
pub fn units_are_steps()
    ensures { UnitsAreSteps }
{}

/// A law: the output files of some transactions and one more are theirs with the unit's bytes appended.
pub fn units_make_files()
    ensures { UnitsMakeFiles }
{}
