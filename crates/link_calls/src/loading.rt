//! Openings that are carried out.

ghost use Rattle.std.specs.Prelude.{◌≡◌, ℕ, [], List, None, Option, IfOk, OnErr, OnOk};
ghost use Rattle.history_calls.specs.CallLaws.Coming.{IsOver, refusal_of};
ghost use Rattle.history_journal.specs.Following.{MayFollow, machine_of};
ghost use Rattle.ld_base.specs.declared.linking.File.{File};
ghost use Rattle.link_calls.specs.Opening.{MayPlan, OpensIn};
ghost use Rattle.history_event.specs.declared.event.Event.TheVariants.{Open};
ghost use Rattle.history_event.specs.declared.event.OpenAnswer.TheVariants.{Done};
ghost use Rattle.history_state.specs.After.{after};
ghost use Rattle.history_state.specs.Setting.{Setting};
ghost use Rattle.link_calls.specs.LinkOpening.Planned.{IsOpenPlan, OpensNew};
ghost use Rattle.link_state.specs.Opening.{AreChosen};
ghost use Rattle.link_state.specs.Table.{appended};
ghost use Rattle.history_calls.specs.declared.link_served.served.Served.TheVariants.{Done as Returns};
ghost use Rattle.history_calls.specs.Call.{opens};
ghost use Rattle.link_open_plan.specs.declared.planning.Planned.TheVariants.{New};

use crate::link_opening::OpenPlan;
use history_calls::{Served, new_objects_stand_behind, own_order_is_the_order};
use history_event::{ChoiceLists, OpenAnswer, OpenAsk, Opening, Ranges};
use history_journal::accepted_object;
use history_state::objects_are_read;
use ld_base::{Added, HartId, NsId, Serial};
use link_images::ConstructorRooms;
use link_lists::Copied;
use link_open_plan::{NewObjects, Planned};
use link_state::LinkState;
use std::alloc::{AllocError, Global};

/// An opening that is planned is carried out.
///
/// # Errors
///
/// Want of memory. Nothing has changed then.
pub(crate) fn carry_out(
    alloc: Global,
    state: &mut LinkState,
    hart: HartId,
    ask: OpenAsk,
    plan: OpenPlan,
) -> Result<Served, AllocError>
    requires may { MayPlan state.old.harts (after state.old.events) hart ask plan.ns plan.planned }
    ensures served { (folders : List (List ℕ)) (files : Option (List File))
        → ((w : Setting) → IsOver (machine_of state.old.harts) folders files w → IsOpenPlan w (after state.old.events) hart ask plan)
        → IfOk result (λ came. OpensIn state.old folders files hart (opens ask) came state.new) }
    ensures unrefused { IfOk result (λ came. refusal_of came ≡ None) }
    ensures harts { state.new.harts ≡ state.old.harts }
    ensures made { state.new.made ≡ state.old.made }
    ensures err { OnErr result (state.new ≡ state.old) }
{
    let OpenPlan { ns, planned } = plan;
    match planned {
        Planned::Absent => note(alloc, state, hart, ask, OpenAnswer::Absent, 0),
        Planned::There(root) => {
            let answer = there(alloc, ns, root);
            note(alloc, state, hart, ask, answer, root.number())
        }
        Planned::New(news) => load(alloc, state, hart, ask, ns, news),
    }
}

/// The answer where the root is there already.
fn there(alloc: Global, ns: NsId, root: Serial) -> OpenAnswer
    ensures { result ≡ Done ns root [] [] }
{
    OpenAnswer::Done {
        ns,
        root,
        added: Added::new(alloc),
        ranges: Ranges::new(alloc),
    }
}

/// An opening that loads nothing is noted, and returns with this value.
///
/// # Errors
///
/// Want of memory. Nothing has changed then.
fn note(
    alloc: Global,
    state: &mut LinkState,
    hart: HartId,
    ask: OpenAsk,
    answer: OpenAnswer,
    value: u64,
) -> Result<Served, AllocError>
    requires may { MayFollow state.old.harts state.old.events (Open hart ask answer) }
    requires chosen { AreChosen (after state.old.events) ask [] answer }
    ensures served { IfOk result (λ came. came ≡ Returns value) }
    ensures noted { OnOk result (state.new ≡ appended state.old (Open hart ask answer)) }
    ensures harts { state.new.harts ≡ state.old.harts }
    ensures made { state.new.made ≡ state.old.made }
    ensures err { OnErr result (state.new ≡ state.old) }
{
    let choices = ChoiceLists::new(alloc);
    let _ = state.apply_open(Opening {
        hart,
        ask,
        answer,
        choices,
    })?;
    Ok(Served::Done(value))
}

/// What a load brings is put into the state. The order of the constructors, and room for them, are there
/// before anything changes.
///
/// # Errors
///
/// Want of memory. Nothing has changed then.
fn load(
    alloc: Global,
    state: &mut LinkState,
    hart: HartId,
    ask: OpenAsk,
    ns: NsId,
    news: NewObjects,
) -> Result<Served, AllocError>
    requires may { MayPlan state.old.harts (after state.old.events) hart ask ns (New news) }
    ensures served { (folders : List (List ℕ)) (files : Option (List File))
        → ((w : Setting) → IsOver (machine_of state.old.harts) folders files w → OpensNew w (after state.old.events) hart ask ns news)
        → IfOk result (λ came. OpensIn state.old folders files hart (opens ask) came state.new) }
    ensures unrefused { IfOk result (λ came. refusal_of came ≡ None) }
    ensures harts { state.new.harts ≡ state.old.harts }
    ensures made { state.new.made ≡ state.old.made }
    ensures err { OnErr result (state.new ≡ state.old) }
{
    new_objects_stand_behind();
    own_order_is_the_order();
    accepted_object();
    objects_are_read();
    let _ = state.journal();
    let NewObjects {
        root,
        added,
        ranges,
        choices,
    } = news;
    let rooms = ConstructorRooms::new(alloc, added.as_slice())?;
    let objects = added.copy(alloc)?;
    let answer = OpenAnswer::Done {
        ns,
        root,
        added,
        ranges,
    };
    let installs = state.apply_open(Opening {
        hart,
        ask,
        answer,
        choices,
    })?;
    if objects.is_empty() {
        return Ok(Served::Done(root.number()));
    }
    let functions = rooms.fill(objects.as_slice(), installs.images.as_slice());
    Ok(Served::Opened(root.number(), installs, functions))
}
