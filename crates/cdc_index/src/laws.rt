//! A law about the events of a published file.

ghost use Rattle.cdc_index.specs.Laws.{ChainIsExact};

/// A file's events by their lengths are exactly those that stand one behind another in it, each as long as it says.
pub fn chain_is_exact()
    ensures { ChainIsExact }
{}
