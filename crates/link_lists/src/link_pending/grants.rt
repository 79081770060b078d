//! The grants that aren't settled yet.

ghost use Rattle.std.specs.Prelude.{◌≡◌, ◌+◌, ◌<◌, ◌≤◌, ◌^◌, [], ◌∷◌, ◌++◌, filter, find, IfNone, IfSome, OnOk};
ghost use Rattle.history_event.specs.declared.state.Standing.TheVariants as standings;
ghost use Rattle.link_lists.specs.LinkPending.Pending.{has_number, is_another};

use history_event::{Granting, Standing};
use ld_base::{Choice, GrantNo, HartId, Serial};
use std::alloc::{AllocError, Global};
use std::marker::Model;

/// Grants have numbers up to this one.
const LAST_NUMBER: u64 = 1 << 62;

/// Grants that aren't settled yet, in order of their numbers. Contracts see the list, with the number of
/// all grants that were ever made, and with the room for more.
#[derive(Drop)]
pub struct OpenGrants {
    grants: Vec<Granting>,
    count: u64,
}

impl Model for OpenGrants {
    ghost use Rattle.std.specs.Prelude.{◌-◌};
    ghost use Rattle.std.specs.Vec.{vec_capacity, vec_len};
    ghost use Rattle.link_lists.specs.LinkPending.Pending.{GrantTable};

    ghost Value = { GrantTable };

    ghost view = { λ g. record { grants = g.grants.items; count = g.count; spare = vec_capacity g.grants - vec_len g.grants } };
}

impl OpenGrants {
    /// No grants.
    pub fn new(alloc: Global) -> Self
        ensures grants { result.grants ≡ [] }
        ensures count { result.count ≡ 0 }
    {
        OpenGrants {
            grants: Vec::new(alloc),
            count: 0,
        }
    }

    /// The grants as a slice.
    pub fn as_slice(&self) -> &[Granting]
        ensures { result.now ≡ self.now.grants }
    {
        self.grants.as_slice()
    }

    /// The number of the next grant, while numbers last.
    pub fn next(&self) -> Option<GrantNo>
        ensures number { IfSome result (λ number. number ≡ self.now.count + 1) }
        ensures few { IfSome result (λ number. self.now.count < 2 ^ 62) }
        ensures none { IfNone result (2 ^ 62 ≤ self.now.count) }
    {
        if self.count < LAST_NUMBER {
            Some(GrantNo::new(self.count + 1))
        } else {
            None
        }
    }

    /// Makes room for a grant more.
    ///
    /// # Errors
    ///
    /// Want of memory.
    pub fn make_room(&mut self) -> Result<(), AllocError>
        ensures room { OnOk result (0 < self.new.spare) }
        ensures grants { self.new.grants ≡ self.old.grants }
        ensures count { self.new.count ≡ self.old.count }
    {
        self.grants.reserve(1)
    }

    /// One grant more, with the next number.
    pub fn push(&mut self, hart: HartId, owner: Serial, slot: u32, choice: Choice, value: u64)
        requires room { 0 < self.old.spare }
        requires few { self.old.count < 2 ^ 62 }
        ensures grants { self.new.grants ≡ self.old.grants ++
            record { number = self.old.count + 1; hart = hart; owner = owner; slot = slot; choice = choice; value = value; standing = standings.Open } ∷ [] }
        ensures count { self.new.count ≡ self.old.count + 1 }
    {
        self.count += 1;
        self.grants.push_reserved(Granting {
            number: GrantNo::new(self.count),
            hart,
            owner,
            slot,
            choice,
            value,
            standing: Standing::Open,
        });
    }

    /// The grant with a number is settled: it isn't one of these any more.
    pub fn settle(&mut self, number: GrantNo) -> Option<Granting>
        ensures grant { result ≡ find (has_number number) self.old.grants }
        ensures grants { self.new.grants ≡ filter (is_another number) self.old.grants }
        ensures count { self.new.count ≡ self.old.count }
    {
        let grant = numbered(self.grants.as_slice(), number);
        self.grants.retain(|grant| grant.number != number);
        grant
    }
}

/// The first of some grants with a number.
fn numbered(grants: &[Granting], number: GrantNo) -> Option<Granting>
    ensures { result ≡ find (has_number number) grants.now }
{
    for grant in grants {
        if grant.number == number {
            return Some(*grant);
        }
    }
    None
}
