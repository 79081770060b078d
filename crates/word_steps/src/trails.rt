//! What a keeper knows once nobody steps on the memory any more.

ghost use Rattle.std.specs.Prelude.{◌≡◌};
ghost use Rattle.word_steps.specs.Views.{keeper_of};

use atomic_table::Seat;
use std::marker::Model;
use word_rule::View;

/// The keeper's last view, with the last views and the trails of the harts that were joined. Its type has
/// no memory's name, so that a call that names its memory can hand it out. Contracts see it as that view.
#[derive(Drop)]
pub struct Trails {
    seat: Seat<(), View>,
}

impl Model for Trails {
    ghost use Rattle.word_rule.specs.declared.view.KeeperView.{KeeperView};
    ghost use Rattle.word_steps.specs.Views.{keeper_of};

    ghost Value = { KeeperView };

    ghost view = { λ s. keeper_of s.seat.me.0 };
}

impl Trails {
    pub(crate) fn new(seat: Seat<(), View>) -> Self
        ensures { result ≡ keeper_of seat.me.0 }
    {
        Trails { seat }
    }
}
