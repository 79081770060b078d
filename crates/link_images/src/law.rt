//! What holds of the parts of images.

ghost use Rattle.std.specs.Prelude.{not, ◌≡◌, ℕ, List, filter, map};
ghost use Rattle.history_state.specs.Objects.{has};
ghost use Rattle.history_state.specs.State.{Linked};
ghost use Rattle.link_images.specs.Parts.{part_of};

/// Where the images of some objects go, their parts go.
pub fn parts_go()
    ensures { (set : List ℕ) (images : List Linked) →
        map part_of (filter (λ m. not (has set m.serial)) images) ≡ filter (λ p. not (has set p.serial)) (map part_of images) }
{}
