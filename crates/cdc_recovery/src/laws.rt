//! The laws of what is recoverable: it stays so where logs go on, and counts are one. Each function ensures its law, so that
//! the check proves it.

ghost use Rattle.cdc_recovery.specs.Laws.{OutputsStayKept, LogsKeepOutputs, CheckpointStaysSound, LogsKeepTask, ImageHasOneFront, CountIsOne, LatestIsLast, NothingIsKept, NoTaskIsKept};

/// A law: an output that has nothing is recoverable, with no transaction.
pub fn nothing_is_kept()
    ensures { NothingIsKept }
{}

/// A law: a task that has nothing is recoverable, with no checkpoint.
pub fn no_task_is_kept()
    ensures { NoTaskIsKept }
{}

/// A law: an output that is recoverable for some transactions is so, with the same count, for those that begin with them.
pub fn outputs_stay_kept()
    ensures { OutputsStayKept }
{}

/// A law: what is recoverable of an output for some logs is so, with the same count, for logs that go on.
pub fn logs_keep_outputs()
    ensures { LogsKeepOutputs }
{}

/// A law: a sound checkpoint stays sound for logs that go on.
pub fn checkpoint_stays_sound()
    ensures { CheckpointStaysSound }
{}

/// A law: a task that is recoverable for some logs is so, with the same checkpoint, for logs that go on.
pub fn logs_keep_task()
    ensures { LogsKeepTask }
{}

/// A law: an image has one Front.
pub fn image_has_one_front()
    ensures { ImageHasOneFront }
{}

/// A law: whatever transactions it is recoverable for, an output has one count.
pub fn count_is_one()
    ensures { CountIsOne }
{}

/// A law: a sound checkpoint whose record number isn't below the last one's is that one, but for the rotation size.
pub fn latest_is_last()
    ensures { LatestIsLast }
{}
