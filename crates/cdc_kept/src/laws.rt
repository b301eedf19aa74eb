//! The laws of kept disks. Each function ensures its law, so that the check proves it.

ghost use Rattle.cdc_kept.specs.Laws.{KeptIsOpened, OpenedGoesOn};

use cdc_model::start_is_restart_point;
use cdc_records::image_has_one_point;
use cdc_recovery::image_has_one_front;

/// A law: over kept disks, and logs that have gone on, an opening is refused by nothing but a device or want of memory.
pub fn kept_disks_are_opened()
    ensures { KeptIsOpened }
{
    image_has_one_front();
    image_has_one_point();
}

/// A law: a pass that was opened over kept disks goes on soundly.
pub fn opened_pass_goes_on()
    ensures { OpenedGoesOn }
{
    start_is_restart_point();
    image_has_one_point();
}
