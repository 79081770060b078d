//! The laws.

ghost use Rattle.link_holds.specs.OpeningBrings.StartupAreas.Laws.{AreasAreInstalled, StaticBlocksFit};

use history_journal::accepted_object;
use link_open_images::{areas_have_words, blocks_begin_as_kept};
use link_open_laws::{new_images_are_found, new_objects_are_placed};

/// The static blocks of new objects fit into an area, each apart from the others, and areas end below 2^32.
pub fn static_blocks_fit()
    ensures { StaticBlocksFit }
{
    history_state::serials_are_in_order();
    history_state::statics_are_apart();
    history_state::ranges_apart();
    history_state::modules_are_tidy();
    new_objects_are_placed();
    blocks_begin_as_kept();
}

/// The images of the pages for data, made of what is kept of the new objects, are what memory gets.
pub fn areas_are_installed()
    ensures { AreasAreInstalled }
{
    history_state::serials_are_in_order();
    history_state::statics_are_apart();
    history_state::objects_are_apart();
    history_state::modules_are_tidy();
    history_state::nothing_comes_before_startup();
    history_state::ranges_are_owned();
    accepted_object();
    new_objects_are_placed();
    new_images_are_found();
    blocks_begin_as_kept();
    areas_have_words();
}
