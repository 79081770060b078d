//! Closings.

ghost use Rattle.std.specs.Prelude.{◌≡◌, IfErr, IfOk, OnErr, OnOk};
ghost use Rattle.history_event.specs.declared.event.CloseAnswer.TheVariants.{Done};
ghost use Rattle.history_event.specs.declared.event.Event.TheVariants.{Close};
ghost use Rattle.history_state.specs.After.{after};
ghost use Rattle.history_state.specs.Allowed.{Closes};
ghost use Rattle.link_state.specs.Closing.{IsNotClosed, IsPlanOf};
ghost use Rattle.link_state.specs.Table.{appended};

use crate::LinkState;
use crate::faults::CloseFault;
use close_mark::{ClosingPlan, closing_set, first_is_opened, opened_in, wait};
use history_event::Dying;
use history_state::{edges_follow, serials_are_in_order};
use ld_base::{HartId, Serial};
use link_holds::{closing_event, fixed_roots, room_for_closing};
use std::alloc::AllocError;

impl LinkState {
    /// What a closing of a handle needs: the objects of its namespace that nothing needs with one opening less,
    /// in load order, and room for their unmapping.
    ///
    /// # Errors
    ///
    /// That the handle is of no opening that may be closed, or want of memory.
    pub fn plan_close(&self, hart: HartId, handle: u64) -> Result<ClosingPlan, CloseFault>
        ensures ok { IfOk result (IsPlanOf (after self.now.events) hart handle) }
        ensures err { IfErr result (IsNotClosed (after self.now.events) handle) }
    {
        first_is_opened();
        serials_are_in_order();
        let _ = self.journal.journal();
        let namespaces = self.namespaces.as_slice();
        let Some(namespace) = opened_in(namespaces, handle) else {
            return Err(CloseFault::BadHandle(handle));
        };
        let fixed = fixed_roots(self.alloc, &self.loads)?;
        let set = closing_set(
            self.alloc,
            namespaces,
            namespace,
            Serial::new(handle),
            fixed.as_slice(),
            self.edges.as_slice(),
            self.settling.as_slice(),
        )?;
        let plan = ClosingPlan::new(self.alloc, hart, set, namespaces, &self.reserved)?;
        Ok(plan)
    }

    /// Plans a closing and makes it: one opening less of a handle counts, and the objects of its namespace that
    /// nothing needs then die by the hart. They are handed out, in load order.
    ///
    /// # Errors
    ///
    /// That the handle is of no opening that may be closed, or want of memory. Nothing has changed then.
    pub fn apply_close(&mut self, hart: HartId, handle: u64) -> Result<Dying, CloseFault>
        ensures ok { IfOk result (λ dying. self.new ≡ appended self.old (Close hart handle (Done dying.list))) }
        ensures closes { IfOk result (λ dying. Closes (after self.old.events) handle dying.list) }
        ensures fault { IfErr result (IsNotClosed (after self.old.events) handle) }
        ensures err { OnErr result (self.new ≡ self.old) }
    {
        let plan = self.plan_close(hart, handle)?;
        let dying = self.close_planned(hart, handle, plan)?;
        Ok(dying)
    }

    /// One opening less of a handle counts, as planned in this state. The objects of its namespace that nothing
    /// needs then die by the hart: they are handed out, in load order.
    ///
    /// # Errors
    ///
    /// Want of memory. Nothing has changed then.
    pub fn close_planned(
        &mut self,
        hart: HartId,
        handle: u64,
        plan: ClosingPlan,
    ) -> Result<Dying, AllocError>
        requires { IsPlanOf (after self.old.events) hart handle plan }
        ensures ok { OnOk result (self.new ≡ appended self.old (Close hart handle (Done plan.list))) }
        ensures dying { IfOk result (λ dying. dying.list ≡ plan.list) }
        ensures err { OnErr result (self.new ≡ self.old) }
    {
        edges_follow();
        let _ = self.journal.journal();
        room_for_closing(&mut self.closings, &mut self.journal)?;
        let ClosingPlan {
            list,
            dying,
            pending,
        } = plan;
        let root = Serial::new(handle);
        self.namespaces
            .close(self.alloc, hart, root, list.as_slice());
        wait(&mut self.closings, pending);
        self.journal.push(closing_event(hart, handle, list));
        Ok(dying)
    }
}
