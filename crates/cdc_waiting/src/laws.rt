//! What the order of those that wait says.

ghost use Rattle.cdc_waiting.specs.Waiting.{NewestStandsBehind};

/// A law: a branch that a later entry committed than all that wait stands behind all whose keys aren't above its own.
pub fn newest_stands_behind()
    ensures { NewestStandsBehind }
{}
