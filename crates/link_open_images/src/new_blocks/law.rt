//! What holds of new blocks.

ghost use Rattle.std.specs.Prelude.{◌≡◌, ℕ, length, Some};
ghost use Rattle.link_open_images.specs.AreaImages.Areas.{byte_among};
ghost use Rattle.link_images.specs.Parts.{storage_of};
ghost use Rattle.ld_base.specs.declared.object.TlsSeg.{TlsSeg};
ghost use Rattle.history_state.specs.Memory.{segment_byte};
ghost use Rattle.history_state.specs.State.{Linked};
ghost use Rattle.link_open_images.specs.NewBlocks.Laws.{AreasHaveWords, HartsHaveNewBlocks, NewBlocksAreInstalled};

/// What is kept of an object's image is what a block of its thread-local storage begins with.
pub fn blocks_begin_as_kept()
    ensures bytes { (i : Linked) (seg : TlsSeg) (block a : ℕ) → i.object.tls ≡ Some seg → byte_among block (storage_of i) a ≡ segment_byte i seg block a }
    ensures count { (i : Linked) (seg : TlsSeg) → i.object.tls ≡ Some seg → length (storage_of i) ≡ seg.filesz }
{}

/// Pages for data whose bytes are those that were put there first are what memory gets.
pub fn areas_have_words()
    ensures { AreasHaveWords }
{
    scope_rule::serials_follow();
    scope_rule::found_stands();
    scope_rule::reads_candidates();
    seg_image::pages_hold_segments();
}

/// Pages with the bytes that an object's image gives for its thread-local storage are what memory gets
/// for a hart's new block of the object's module: no other block has a byte of them.
pub fn new_blocks_are_installed()
    ensures { NewBlocksAreInstalled }
{
    scope_rule::serials_follow();
    scope_rule::found_stands();
    scope_rule::reads_candidates();
    seg_image::pages_hold_segments();
    tls_blocks::modules_stay_numbered();
}

/// A hart that gets a block of an object's module has it from then on.
pub fn harts_have_new_blocks()
    ensures { HartsHaveNewBlocks }
{}
