//! The laws.

ghost use Rattle.link_open_laws.specs.OpeningFollows.Laws.{ClosingsTakeAsMuch, NewImagesAreFound, NewImagesArePrepared, NewModulesHavePlaces, NewRangesAreLaid};

use crate::relocated_are_of_records;

/// The new objects have their modules, one after another, beside those that were there.
pub fn new_modules_have_places()
    ensures { NewModulesHavePlaces }
{}

/// Each new range takes pages that are free beside those before it.
pub fn new_ranges_are_laid()
    ensures { NewRangesAreLaid }
{}

/// A closing that waits for its objects takes with it what it took before: nothing that is new.
pub fn closings_take_as_much()
    ensures { ClosingsTakeAsMuch }
{
    history_state::serials_are_in_order();
    history_state::each_dies_once();
}

/// The image that the state after the opening has of a new object is found by its serial.
pub fn new_images_are_found()
    ensures { NewImagesAreFound }
{
    history_state::serials_are_in_order();
    history_state::images_are_mapped();
}

/// Images of the new objects, relocated by what is seen in their namespace, are those that the state after
/// the opening has, found by their serials.
pub fn new_images_are_prepared()
    ensures { NewImagesArePrepared }
{
    history_state::serials_are_in_order();
    history_state::images_are_mapped();
    relocated_are_of_records();
}
