//! The refusals that are kept for harts.

ghost use Rattle.std.specs.Prelude.{◌≡◌, ◌<◌, None, [], ◌∷◌, ◌++◌, filter, find, length, slice_get, IfNone, IfSome, OnOk};
ghost use Rattle.std.specs.Option.{option_copied};
ghost use Rattle.history_journal.specs.LinkHarts.Kept.{fault_of, is_anothers, is_of};

use history_event::Kept;
use ld_base::{DlFault, HartId};
use std::alloc::{AllocError, Global};
use std::marker::Model;

/// The refusals that harts haven't been told yet. Contracts see them as a list, the latest last, with
/// the room for more.
#[derive(Drop)]
pub struct KeptFaults {
    kept: Vec<Kept>,
}

impl Model for KeptFaults {
    ghost use Rattle.std.specs.Prelude.{◌-◌};
    ghost use Rattle.std.specs.Vec.{vec_capacity, vec_len};
    ghost use Rattle.history_journal.specs.LinkHarts.Kept.{KeptTable};

    ghost Value = { KeptTable };

    ghost view = { λ k. record { kept = k.kept.items; spare = vec_capacity k.kept - vec_len k.kept } };
}

impl KeptFaults {
    /// No refusals.
    pub fn new(alloc: Global) -> Self
        ensures { result.kept ≡ [] }
    {
        KeptFaults {
            kept: Vec::new(alloc),
        }
    }

    /// The refusal that is kept for a hart.
    pub fn find(&self, hart: HartId) -> Option<&DlFault>
        ensures { option_copied result ≡ fault_of hart self.now.kept }
    {
        for kept in self.kept.as_slice() {
            if kept.hart == hart {
                return Some(&kept.fault);
            }
        }
        None
    }

    /// Makes room for a refusal more.
    ///
    /// # Errors
    ///
    /// Want of memory.
    pub fn make_room(&mut self) -> Result<(), AllocError>
        ensures room { OnOk result (0 < self.new.spare) }
        ensures kept { self.new.kept ≡ self.old.kept }
    {
        self.kept.reserve(1)
    }

    /// Keeps a refusal for a hart, in place of the one that was kept for it.
    pub fn keep(&mut self, hart: HartId, fault: DlFault)
        requires { 0 < self.old.spare }
        ensures { self.new.kept ≡ filter (is_anothers hart) self.old.kept ++ record { hart = hart; fault = fault } ∷ [] }
    {
        self.kept.retain(|kept| kept.hart != hart);
        self.kept.push_reserved(Kept { hart, fault });
    }

    /// Takes the refusal that is kept for a hart: then none is.
    pub fn take(&mut self, hart: HartId) -> Option<DlFault>
        ensures taken { result ≡ fault_of hart self.old.kept }
        ensures kept { self.new.kept ≡ filter (is_anothers hart) self.old.kept }
    {
        let place = place_of(self.kept.as_slice(), hart)?;
        let Kept { hart: _, fault } = self.kept.remove(place);
        self.kept.retain(|kept| kept.hart != hart);
        Some(fault)
    }
}

/// The place of the first refusal that is kept for a hart.
fn place_of(kept: &[Kept], hart: HartId) -> Option<usize>
    ensures found { IfSome result (λ place. slice_get kept.now place ≡ find (is_of hart) kept.now) }
    ensures within { IfSome result (λ place. place < length kept.now) }
    ensures none { IfNone result (find (is_of hart) kept.now ≡ None) }
{
    for (place, kept) in kept.iter().enumerate() {
        if kept.hart == hart {
            return Some(place);
        }
    }
    None
}
