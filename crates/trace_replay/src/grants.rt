//! Grants, found by their numbers and by their slots.

ghost use Rattle.std.specs.Prelude.{◌≡◌, ◌==◌, ℕ, ◌+◌, ◌<◌, ◌&&◌, false, [], ◌∷◌, ◌++◌, filter, find, length, map, slice_set, if◌then◌else◌, IfNone};
ghost use Rattle.std.specs.Prelude.{IfSome, OnErr, OnOk, Some};
ghost use Rattle.std.specs.List.{slice_get};
ghost use Rattle.std.specs.Vec.{vec_capacity, vec_len};
ghost use Rattle.history_event.specs.declared.state.Granting.{Granting as granting};
ghost use Rattle.history_event.specs.declared.state.Standing.TheVariants.{Open};
ghost use Rattle.history_state.specs.Grants.{is_bound_standing, is_open, is_open_standing};
ghost use Rattle.history_state.specs.Step.{settled_as};
ghost use Rattle.trace_replay.specs.Granted.{HasNoBound, IsBoundTo, is_numbered};
ghost use Rattle.trace_replay.specs.Indexed.{place_of, same_slot};

use history_event::{Granting, Standing};
use indexmap::IndexMap;
use ld_base::{GrantNo, Serial};
use std::alloc::{AllocError, Global};
use std::marker::Model;

/// All grants of a history, in the order of their numbers, which count from 1. Contracts see the list.
#[derive(Drop)]
pub struct GrantTable {
    all: Vec<Granting>,
    /// Those that aren't settled.
    open: Vec<Granting>,
    /// The place of the bound grant of a slot: of the object, and the slot's number there.
    bound: IndexMap<(Serial, u32), usize>,
}

impl Model for GrantTable {
    ghost use Rattle.std.specs.Prelude.{List};
    ghost use Rattle.history_event.specs.declared.state.Granting.{Granting};

    ghost Value = { List Granting };

    ghost use Rattle.trace_replay.specs.Indexed.{IsIndexed};

    ghost view = { λ t. t.all.items };

    ghost invariant = { λ t. IsIndexed t.all.items t.open.items t.bound.entries };
}

impl GrantTable {
    /// No grants.
    pub fn new(alloc: Global) -> Self
        ensures { result ≡ [] }
    {
        GrantTable {
            all: Vec::new(alloc),
            open: Vec::new(alloc),
            bound: IndexMap::new(alloc),
        }
    }

    /// How many grants there are.
    pub fn len(&self) -> usize
        ensures { result ≡ length self.now }
    {
        self.all.len()
    }

    /// Whether there is no grant.
    pub fn is_empty(&self) -> bool
        ensures { result ≡ (length self.now == 0) }
    {
        self.all.is_empty()
    }

    /// The grants as a slice.
    pub fn as_slice(&self) -> &[Granting]
        ensures { result.now ≡ self.now }
    {
        self.all.as_slice()
    }

    /// Those that aren't settled, in the order of their numbers.
    pub fn open(&self) -> &[Granting]
        ensures { result.now ≡ filter is_open self.now }
    {
        self.open.as_slice()
    }

    /// The open grant with a number.
    pub fn open_grant(&self, number: GrantNo) -> Option<Granting>
        ensures { result ≡ find (is_numbered number) (filter is_open self.now) }
    {
        grant_in(self.open.as_slice(), number)
    }

    /// A bound grant of a slot of an object.
    pub fn bound_to(&self, owner: Serial, slot: u32) -> Option<Granting>
        ensures some { IfSome result (IsBoundTo self.now owner slot) }
        ensures none { IfNone result (HasNoBound self.now owner slot) }
    {
        match self.bound.get(&(owner, slot)) {
            Some(place) => Some(self.all[*place]),
            None => None,
        }
    }

    /// One grant more, which is open.
    ///
    /// # Errors
    ///
    /// Want of memory. Nothing has changed then.
    pub fn push(&mut self, grant: &Granting) -> Result<(), AllocError>
        requires numbered { grant.now.number ≡ length self.old + 1 }
        requires pending { grant.now.standing ≡ Open }
        ensures ok { OnOk result (self.new ≡ self.old ++ grant.now ∷ []) }
        ensures err { OnErr result (self.new ≡ self.old) }
    {
        self.all.reserve(1)?;
        self.open.reserve(1)?;
        put(&mut self.all, grant);
        put(&mut self.open, grant);
        Ok(())
    }

    /// The open grant with a number, if there is one, is settled.
    ///
    /// # Errors
    ///
    /// Want of memory. Nothing has changed then.
    pub fn settle(&mut self, number: GrantNo, standing: Standing) -> Result<(), AllocError>
        requires { is_open_standing standing ≡ false }
        ensures ok { OnOk result (self.new ≡ map (settled_as number standing) self.old) }
        ensures err { OnErr result (self.new ≡ self.old) }
    {
        let Some(grant) = grant_in(self.open.as_slice(), number) else {
            return Ok(());
        };
        let place = number.number() as usize - 1;
        note(&mut self.bound, grant.owner, grant.slot, place, standing)?;
        settle_at(self.all.as_mut_slice(), place, standing);
        self.open.retain(|other| other.number != number);
        Ok(())
    }
}

/// Puts a grant at the end, where there is room.
fn put(grants: &mut Vec<Granting>, grant: &Granting)
    requires { vec_len grants.old < vec_capacity grants.old }
    ensures { grants.new.items ≡ grants.old.items ++ grant.now ∷ [] }
{
    grants.push_reserved(Granting {
        number: grant.number,
        hart: grant.hart,
        owner: grant.owner,
        slot: grant.slot,
        choice: grant.choice,
        value: grant.value,
        standing: grant.standing,
    });
}

/// The first of some grants with a number.
fn grant_in(grants: &[Granting], number: GrantNo) -> Option<Granting>
    ensures { result ≡ find (is_numbered number) grants.now }
{
    for grant in grants {
        if grant.number == number {
            return Some(*grant);
        }
    }
    None
}

/// The grant at a place is settled.
fn settle_at(grants: &mut [Granting], place: usize, standing: Standing)
    requires { place < length grants.old }
    ensures { (g : granting) → slice_get grants.old place ≡ Some g → grants.new ≡ slice_set grants.old place (record g { standing = standing }) }
{
    grants[place].standing = standing;
}

/// Notes the place of a slot's grant, if it is bound.
///
/// # Errors
///
/// Want of memory. Nothing has changed then.
fn note(
    bound: &mut IndexMap<(Serial, u32), usize>,
    owner: Serial,
    slot: u32,
    place: usize,
    standing: Standing,
) -> Result<(), AllocError>
    ensures ok { OnOk result ((o s : ℕ) → place_of bound.new.entries o s
        ≡ (if is_bound_standing standing && same_slot (owner, slot) (o, s) then Some place else place_of bound.old.entries o s)) }
    ensures err { OnErr result ((o s : ℕ) → place_of bound.new.entries o s ≡ place_of bound.old.entries o s) }
{
    if is_bound(standing) {
        bound.insert((owner, slot), place)?;
    }
    Ok(())
}

/// Whether a slot got its value.
fn is_bound(standing: Standing) -> bool
    ensures { result ≡ is_bound_standing standing }
{
    standing == Standing::Bound
}
