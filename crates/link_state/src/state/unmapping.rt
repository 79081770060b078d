//! Unmappings.

ghost use Rattle.std.specs.Prelude.{◌≡◌, IfErr, IfNone, IfOk, IfSome, OnErr, OnOk};
ghost use Rattle.history_event.specs.declared.event.Event.TheVariants.{Unmapped};
ghost use Rattle.history_state.specs.After.{after};
ghost use Rattle.history_state.specs.Allowed.{IsUngranted};
ghost use Rattle.history_calls.specs.Waiting.{HasFinished, IsHeldBy};
ghost use Rattle.link_state.specs.Table.{appended};
ghost use Rattle.link_state.specs.Unmapping.{IsRemoved};

use crate::LinkState;
use close_mark::{first_is_least, holding, remove_modules};
use history_event::{Dying, Event, Ranges, Removed};
use history_state::{edges_follow, modules_are_few, modules_are_tidy};
use ld_base::{Added, GrantNo, HartId};
use link_images::parts_go;

impl LinkState {
    /// The objects of a closing of the hart, whose destructors have run, are unmapped: they are handed out,
    /// with the ranges of their pages and blocks. It takes no memory.
    ///
    /// # Errors
    ///
    /// The least open grant whose owner or target is one of them. Nothing has changed then.
    pub fn apply_unmap(&mut self, hart: HartId, dying: &Dying) -> Result<Removed, GrantNo>
        requires { HasFinished (after self.old.events) hart dying.now.list }
        ensures ok { OnOk result (self.new ≡ appended self.old (Unmapped hart dying.now.list)) }
        ensures free { OnOk result (IsUngranted (after self.old.events) dying.now.list) }
        ensures removed { IfOk result (IsRemoved (after self.old.events) dying.now.list) }
        ensures held { IfErr result (IsHeldBy (after self.old.events) dying.now.list) }
        ensures err { OnErr result (self.new ≡ self.old) }
    {
        match self.holder_of(dying) {
            Some(grant) => Err(grant),
            None => Ok(self.unmap(hart, dying)),
        }
    }

    /// The least open grant whose owner or target is one of some objects.
    fn holder_of(&self, dying: &Dying) -> Option<GrantNo>
        ensures held { IfSome result (IsHeldBy (after self.now.events) dying.now.list) }
        ensures free { IfNone result (IsUngranted (after self.now.events) dying.now.list) }
    {
        first_is_least();
        let _ = self.journal.journal();
        holding(self.settling.as_slice(), dying.list.as_slice())
    }

    /// Objects that no open grant holds are unmapped.
    fn unmap(&mut self, hart: HartId, dying: &Dying) -> Removed
        requires finished { HasFinished (after self.old.events) hart dying.now.list }
        requires free { IsUngranted (after self.old.events) dying.now.list }
        ensures state { self.new ≡ appended self.old (Unmapped hart dying.now.list) }
        ensures removed { IsRemoved (after self.old.events) dying.now.list result }
    {
        edges_follow();
        modules_are_tidy();
        modules_are_few();
        parts_go();
        let _ = self.journal.journal();
        let Some(pending) = self.closings.take(hart, dying.list.as_slice()) else {
            unreachable!()
        };
        let (set, mut objects, mut ranges) = pending.into_lists();
        self.namespaces
            .take_out(self.alloc, set.as_slice(), &mut objects);
        self.reserved.remove(set.as_slice(), &mut ranges);
        remove_modules(&mut self.modules, set.as_slice());
        self.blocks.remove(set.as_slice());
        self.parts.remove(set.as_slice());
        self.edges.remove(set.as_slice());
        self.journal.push_owed(Event::Unmapped { hart, set });
        Removed {
            objects: Added::from(objects),
            ranges: Ranges::from(ranges),
        }
    }
}
