//! New objects and their constructors.

ghost use Rattle.std.specs.Prelude.{◌≡◌, List, map, IfOk, OnErr, OnOk};
ghost use Rattle.history_calls.specs.CallLaws.Laws.{AreNumberedFrom};
ghost use Rattle.link_images.specs.ImageReads.Reads.{ArePrepared};
ghost use Rattle.ld_base.specs.declared.linking.Loaded.{Loaded};
ghost use Rattle.history_journal.specs.Following.{MayFollow};
ghost use Rattle.link_startup.specs.Bringing.{CameLast};
ghost use Rattle.history_event.specs.declared.event.Event.TheVariants.{Open};
ghost use Rattle.history_event.specs.declared.event.OpenAnswer.TheVariants.{Done};
ghost use Rattle.history_state.specs.After.{after};
ghost use Rattle.history_state.specs.Objects.{serial_of};
ghost use Rattle.history_state.specs.Step.{binds, seen_after};
ghost use Rattle.history_calls.specs.Functions.{AreConstructors, AreOf, constructors, object_of};
ghost use Rattle.link_state.specs.Opening.{ArePut, event_of};
ghost use Rattle.link_state.specs.Table.{appended};
ghost use Rattle.link_images.specs.ObjectFunctions.Rooms.{AreRooms, CanReadAll, room_object};
ghost use Rattle.link_open_images.specs.Relocated.{AreChoices};

use history_calls::{Installs, new_objects_stand_behind, own_order_is_the_order};
use history_event::{Event, Functions, OpenAnswer, OpenAsk, Opening};
use history_journal::accepted_object;
use history_state::objects_are_read;
use ld_base::{HartId, NsId};
use link_images::ConstructorRooms;
use link_open_plan::NewObjects;
use link_state::LinkState;
use std::alloc::{AllocError, Global};

/// Makes an opening that brings these objects: what memory gets of them, and their constructors. The order of
/// the constructors, and room for their addresses, are had first: once the objects are there nothing takes
/// memory.
///
/// # Errors
///
/// Want of memory. Nothing has changed then.
pub(crate) fn bring(
    alloc: Global,
    state: &mut LinkState,
    hart: HartId,
    ask: OpenAsk,
    ns: NsId,
    news: NewObjects,
) -> Result<(Installs, Functions), AllocError>
    requires may { MayFollow state.old.harts state.old.events (Open hart ask (Done ns news.root news.added news.ranges)) }
    requires chosen { AreChoices (seen_after (after state.old.events) ask ns news.root news.added) (binds (after state.old.events) ask)
        news.added news.choices }
    requires numbered { AreNumberedFrom (after state.old.events).next news.added }
    ensures event { OnOk result (state.new ≡ appended state.old (Open hart ask (Done ns news.root news.added news.ranges))) }
    ensures put { IfOk result (λ p. ArePut (after state.new.events) news.added news.ranges p.0) }
    ensures readable { IfOk result (λ p. CanReadAll news.added p.0.images) }
    ensures constructors { IfOk result (λ p. AreConstructors (after state.new.events) (map serial_of news.added) p.1) }
    ensures err { OnErr result (state.new ≡ state.old) }
{
    new_objects_stand_behind();
    own_order_is_the_order();
    accepted_object();
    objects_are_read();
    let _ = state.journal();
    let rooms = ConstructorRooms::new(alloc, news.added.as_slice())?;
    let installs = state.apply_open(opening_of(hart, ask, ns, news))?;
    let functions = constructors(state, rooms, &installs);
    Ok((installs, functions))
}

/// The opening that brings these objects.
fn opening_of(hart: HartId, ask: OpenAsk, ns: NsId, news: NewObjects) -> Opening
    ensures event { event_of result ≡ Open hart ask (Done ns news.root news.added news.ranges) }
    ensures choices { result.choices ≡ news.choices }
{
    let NewObjects {
        root,
        added,
        ranges,
        choices,
    } = news;
    let answer = OpenAnswer::Done {
        ns,
        root,
        added,
        ranges,
    };
    Opening {
        hart,
        ask,
        answer,
        choices,
    }
}

/// The constructors of the objects that the latest event, an opening, brought.
fn constructors(state: &LinkState, rooms: ConstructorRooms, installs: &Installs) -> Functions
    requires last { (objects : List Loaded) × CameLast state.now.events objects × AreRooms objects rooms × CanReadAll objects installs.now.images }
    ensures order { map object_of result ≡ map room_object rooms }
    ensures addresses { (objects : List Loaded) → CameLast state.now.events objects → ArePrepared (after state.now.events) objects installs.now.images
        → AreOf (after state.now.events) constructors result }
{
    match state.journal().as_slice().last() {
        Some(
            Event::Open {
                answer: OpenAnswer::Done { added, .. },
                ..
            },
        ) => rooms.fill(added.as_slice(), installs.images.as_slice()),
        _ => unreachable!(),
    }
}
