//! What gets the units of an output.

ghost use Rattle.std.specs.Prelude.{◌≡◌, Bool, true, List};
ghost use Rattle.cdc_model.specs.Records.{OutputUnit};
ghost use Rattle.cdc_watched_stage.specs.Getting.{Gets};

use cdc_model::Unit;

/// Gets the units of an output one after another.
///
/// It may end by itself, at any unit; from then on it keeps none.
pub trait Watch: Drop {
    /// The units that it kept.
    ghost kept: { Self → List OutputUnit };

    /// Whether it keeps no more.
    ghost ended: { Self → Bool };

    /// Keeps a unit behind the others, or ends without it.
    fn unit(&mut self, unit: Unit)
        ensures { Gets (kept self.old) (ended self.old) unit (kept self.new) (ended self.new) };

    /// Ends: no further unit comes.
    fn end(&mut self)
        ensures kept { kept self.new ≡ kept self.old }
        ensures ended { ended self.new ≡ true };
}
