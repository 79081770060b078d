//! The laws.

ghost use Rattle.link_open_laws.specs.Laws.{CopiesAreSeen, ImagesAreInstalls, ImagesRelocate, LibrariesHaveNoCopies, NewBindingsAreSeen};
ghost use Rattle.link_open_laws.specs.Laws.{NewObjectsArePlaced, OpeningsRelocate, RelocatedAreInstalls, RelocatedAreOfRecords, UncopiedAreSeen};

use history_journal::accepted_object;

/// Each new object of an opening is one of which an image can be made, at its base.
pub fn new_objects_are_placed()
    ensures { NewObjectsArePlaced }
{
    scope_rule::serials_follow();
    scope_rule::found_stands();
    scope_rule::reads_candidates();
    seg_image::pages_hold_segments();
    accepted_object();
}

/// New objects but the first, which is the program where startup opens it, have no relocation that copies.
pub fn libraries_have_no_copies()
    ensures { LibrariesHaveNoCopies }
{
    scope_rule::serials_follow();
    scope_rule::found_stands();
    history_state::serials_are_in_order();
    history_state::objects_are_read();
    accepted_object();
}

/// What the relocations of a new object are bound to in the history's state, copies apart, is what is
/// seen in its namespace.
pub fn new_bindings_are_seen()
    ensures { NewBindingsAreSeen }
{
    scope_rule::serials_follow();
    scope_rule::found_stands();
}

/// Images of new objects that are relocated as the history's state has them are what memory gets: each
/// word is memory's after the opening, with its role.
pub fn images_are_installs()
    ensures { ImagesAreInstalls }
{
    scope_rule::serials_follow();
    scope_rule::found_stands();
    scope_rule::reads_candidates();
    seg_image::pages_hold_segments();
    accepted_object();
}

/// Each new object may be relocated by the bindings that the history's state has of it.
pub fn images_relocate()
    ensures { ImagesRelocate }
{
    history_state::images_are_bound();
    history_state::offsets_are_there();
    new_objects_are_placed();
    accepted_object();
}

/// What an object without copies is bound to in the history's state is what is seen in its namespace.
pub fn uncopied_are_seen()
    ensures { UncopiedAreSeen }
{
    new_bindings_are_seen();
}

/// What any new object is bound to in the history's state is what is seen in its namespace, and its
/// copies take the bytes of the other new objects' images.
pub fn copies_are_seen()
    ensures { CopiesAreSeen }
{
    scope_rule::serials_follow();
    scope_rule::found_stands();
    seg_image::pages_hold_segments();
    history_state::serials_are_in_order();
    history_state::objects_are_read();
    history_state::images_are_mapped();
    accepted_object();
    new_objects_are_placed();
    new_bindings_are_seen();
    libraries_have_no_copies();
}

/// The new objects of an opening may be relocated by what is seen in their namespace.
pub fn openings_relocate()
    ensures { OpeningsRelocate }
{
    images_relocate();
    copies_are_seen();
    libraries_have_no_copies();
}

/// Their images are then what memory gets of them.
pub fn relocated_are_installs()
    ensures { RelocatedAreInstalls }
{
    images_are_installs();
    copies_are_seen();
}

/// Such an image is that of the object's record in the history's state, so that what is read of the image
/// is what the record says.
pub fn relocated_are_of_records()
    ensures { RelocatedAreOfRecords }
{
    copies_are_seen();
}
