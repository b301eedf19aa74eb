//! What a merge stage gives of the logs, and how it goes on with the outputs. Each function ensures its law, so that the check
//! proves it.

ghost use Rattle.cdc_merge_stage.specs.Settled.{UnitsAreSettled, UnitsContinueOutputs};

/// A law: what a stage gives of what the nodes give of their logs are the first settled transactions; all of them where it is
/// whole and each node has told its low-water mark, and where the next one is too large, which it then tells.
pub fn units_are_settled()
    ensures { UnitsAreSettled }
{}

/// A law: the units of a stage that begins where an output of the first transactions stands are one by one that output's steps
/// with those behind them, and the layout behind these units is that of all.
pub fn units_continue_outputs()
    ensures { UnitsContinueOutputs }
{}
