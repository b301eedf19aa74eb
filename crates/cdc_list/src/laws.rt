//! The laws of a listing. Each function ensures its law, so that the check proves it.

ghost use Rattle.cdc_list.specs.Listing.{ListIsComplete, ListingIsOne};
ghost use Rattle.cdc_list.specs.Rows.{WorkedOutsAreListed};

use cdc_recovery::image_has_one_front;

/// A law: where the disks tell, each out can be opened and no device failed, all is listed, or memory was wanting.
pub fn list_is_complete()
    ensures { ListIsComplete }
{
    image_has_one_front();
}

/// A law: contents have at most one text.
pub fn listing_is_one()
    ensures { ListingIsOne }
{
    image_has_one_front();
}

/// A law: the lines of outs that were worked out by hand.
pub fn worked_outs_are_listed()
    ensures { WorkedOutsAreListed }
{}
