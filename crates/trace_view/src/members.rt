//! The objects of a run.

ghost use Rattle.std.specs.Prelude.{◌≡◌, ◌==◌, ◌++◌, IfOk, OnOk, map};
ghost use Rattle.std.specs.Option.{option_copied};
ghost use Rattle.trace_view.specs.Members.{loaded_by, member_for, member_of, members_of, slot_symbol_of, symbol_of};

use crate::journal::Step;
use history_event::{EventLine, NewLine, OpenLine};
use ld_base::{Name, NsId, Object, Sequence, Serial};
use std::alloc::{AllocError, Global};

/// An object that an opening loaded.
#[derive(Drop)]
pub struct Member {
    pub serial: Serial,
    pub path: Name,
    pub base: u64,
    pub ns: NsId,
    /// What its file says, where it was found.
    pub object: Option<Object>,
}

/// Objects, in load order.
pub type Members = Sequence<Member>;

/// The object of a serial.
pub(crate) fn member_of(members: &[Member], serial: Serial) -> Option<&Member>
    ensures { option_copied result ≡ member_of members.now serial }
{
    members.iter().find(|member| member.serial == serial)
}

/// The name of a symbol of an object whose file was found.
#[tactic(auto, unfolding(crate::specs::Members::symbol_of))]
pub(crate) fn symbol_of<'a>(members: &'a [Member], serial: Serial, index: u32) -> Option<&'a Name>
    ensures { option_copied result ≡ symbol_of members.now serial index }
{
    let member = member_of(members, serial)?;
    let object = member.object.as_ref()?;
    let symbol = object.symbols.as_slice().get(index as usize)?;
    Some(&symbol.name)
}

/// The symbol of a slot, by its index.
#[tactic(auto, unfolding(crate::specs::Members::slot_symbol_of))]
pub(crate) fn slot_symbol_of(members: &[Member], owner: Serial, slot: u32) -> Option<u32>
    ensures { result ≡ slot_symbol_of members.now owner slot }
{
    let member = member_of(members, owner)?;
    let object = member.object.as_ref()?;
    let reloc = object.plt_relocs.as_slice().get(slot as usize)?;
    Some(reloc.symbol)
}

/// The object of a new object's line, of whose file nothing is known.
fn member_for(alloc: Global, ns: NsId, new: &NewLine) -> Result<Member, AllocError>
    ensures { IfOk result (λ m. m ≡ member_for ns new.now) }
{
    Ok(Member {
        serial: new.serial,
        path: Name::new(alloc, new.path.as_bytes())?,
        base: new.base,
        ns,
        object: None,
    })
}

/// Puts the objects of an opening behind others.
fn push_news(
    alloc: Global,
    members: &mut Members,
    ns: NsId,
    news: &[NewLine],
) -> Result<(), AllocError>
    ensures { OnOk result (members.new ≡ members.old ++ map (member_for ns) news.now) }
{
    for new in news {
        members.push(member_for(alloc, ns, new)?)?;
    }
    Ok(())
}

/// Puts the objects that an event loaded behind others.
fn push_loaded(alloc: Global, members: &mut Members, event: &EventLine) -> Result<(), AllocError>
    ensures { OnOk result (members.new ≡ members.old ++ loaded_by event.now) }
{
    match event {
        EventLine::Open {
            hart: _,
            ask: _,
            answer: OpenLine::Done { ns, added, .. },
        } => push_news(alloc, members, *ns, added.as_slice()),
        _ => Ok(()),
    }
}

/// The objects that a journal's openings loaded, in order. Of their files nothing is known yet.
///
/// # Errors
///
/// Want of memory.
pub fn members_of(alloc: Global, steps: &[Step]) -> Result<Members, AllocError>
    ensures { IfOk result (λ members. members ≡ members_of steps.now) }
{
    let mut members = Members::new(alloc);
    for step in steps {
        push_loaded(alloc, &mut members, &step.event)?;
    }
    Ok(members)
}
