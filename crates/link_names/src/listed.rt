//! Namespaces with their lists.

ghost use Rattle.std.specs.Prelude.{◌≡◌, IfErr, IfOk};
ghost use Rattle.history_state.specs.Laws.{AreApart};
ghost use Rattle.history_state.specs.State.{State};
ghost use Rattle.link_names.specs.Kept.{AreKept};
ghost use Rattle.link_finds.specs.SlotChoosing.Choosing.{AllSound, ChoosesSlot, IsFaultOf};

use crate::kept::{KeptLists, home};
use crate::staying::{closing_leaves_lists, opening_leaves_lists};
use close_mark::{close_in, take_out};
use ld_base::{Added, HartId, Loaded, NsId, Serial};
use link_finds::{SlotChoice, SlotFault, slot_choice};
use link_spaces::{make_ready, open_in};
use scope_lists::lists_stay;
use scope_rule::Namespace;
use std::alloc::{AllocError, Global};
use std::marker::Model;

/// Namespaces, with the search lists that are kept of them. Contracts see the namespaces.
#[derive(Drop)]
pub struct ListedNamespaces {
    namespaces: Vec<Namespace>,
    lists: KeptLists,
}

impl Model for ListedNamespaces {
    ghost use Rattle.std.specs.Prelude.{List};
    ghost use Rattle.link_names.specs.Kept.{AreKept};
    ghost use Rattle.scope_rule.specs.declared.namespace.Namespace.{Namespace};

    ghost Value = { List Namespace };

    ghost view = { λ n. n.namespaces.items };

    ghost invariant = { λ n. AreKept n.namespaces.items n.lists };
}

/// What the slot of an object chooses, by lists and a scope that are kept or made now.
fn chosen(
    alloc: Global,
    namespaces: &[Namespace],
    lists: &mut KeptLists,
    owner: Serial,
    eights: u64,
) -> Result<SlotChoice, SlotFault>
    requires sound { AllSound namespaces.now }
    requires kept { AreKept namespaces.now lists.old }
    ensures ok { IfOk result (λ x. (s : State) → s.namespaces ≡ namespaces.now → AreApart s → ChoosesSlot s owner eights x) }
    ensures err { IfErr result (λ e. (s : State) → s.namespaces ≡ namespaces.now → IsFaultOf s owner eights e) }
    ensures kept { AreKept namespaces.now lists.new }
{
    let Some(place) = home(namespaces, lists, owner) else {
        return Err(SlotFault::Unloaded);
    };
    lists.make(alloc, namespaces, place, owner)?;
    slot_choice(&namespaces[place], lists.get(place).unwrap(), owner, eights)
}

impl ListedNamespaces {
    ghost use Rattle.std.specs.Prelude.{◌≡◌, ◌+◌, ◌≤◌, ◌++◌, count_by, filter, map, IfErr, IfOk, OnErr, OnOk};
    ghost use Rattle.std.specs.List.{flat_map};
    ghost use Rattle.std.specs.Vec.{vec_capacity, vec_len};
    ghost use Rattle.close_mark.specs.ClosingPlans.Plans.{closed_by};
    ghost use Rattle.history_state.specs.Laws.{AreApart};
    ghost use Rattle.history_state.specs.State.{State};
    ghost use Rattle.history_state.specs.Step.{gone_in, is_left, ready_in, with_namespace};
    ghost use Rattle.link_spaces.specs.Numbered.{AreNumberedApart};
    ghost use Rattle.scope_rule.specs.Opening.{opened};
    ghost use Rattle.link_finds.specs.SlotChoosing.Choosing.{AllSound, ChoosesSlot, IsFaultOf};
    ghost use Rattle.close_mark.specs.UnmappedObjects.Taken.{goes};

    /// These namespaces, of which no lists are made.
    pub fn new(alloc: Global, namespaces: Vec<Namespace>) -> Self
        ensures { result ≡ namespaces.items }
    {
        ListedNamespaces {
            namespaces,
            lists: KeptLists::new(alloc),
        }
    }

    /// The namespaces.
    pub fn as_slice(&self) -> &[Namespace]
        ensures value { result.now ≡ self.now }
    {
        self.namespaces.as_slice()
    }

    /// What the slot of an object chooses now, `eights` being eight times its number: by the lists of its
    /// namespace and its own scope, which are made now if they aren't there.
    ///
    /// # Errors
    ///
    /// - Unloaded: no such object is mapped.
    /// - NoSlot: it has no such slot.
    /// - Memory: want of memory, or the slot's number is past 32 bits.
    pub fn slot_choice(
        &mut self,
        alloc: Global,
        owner: Serial,
        eights: u64,
    ) -> Result<SlotChoice, SlotFault>
        requires { AllSound self.old }
        ensures ok { IfOk result (λ x. (s : State) → s.namespaces ≡ self.old → AreApart s → ChoosesSlot s owner eights x) }
        ensures err { IfErr result (λ e. (s : State) → s.namespaces ≡ self.old → IsFaultOf s owner eights e) }
        ensures same { self.new ≡ self.old }
    {
        let namespaces = self.namespaces.as_slice();
        chosen(alloc, namespaces, &mut self.lists, owner, eights)
    }

    /// Makes the object of a serial ready, where it is being initialised. The lists stay.
    pub fn make_ready(&mut self, alloc: Global, serial: Serial)
        ensures { self.new ≡ map (ready_in serial) self.old }
    {
        lists_stay();
        make_ready(alloc, self.namespaces.as_mut_slice(), serial);
    }

    /// One opening less of a handle counts, and these objects die by a hart. The lists stay where none dies and
    /// no opening goes.
    pub fn close(&mut self, alloc: Global, hart: HartId, handle: Serial, set: &[Serial])
        ensures { self.new ≡ closed_by hart handle set.now self.old }
    {
        let stay = closing_leaves_lists(self.namespaces.as_slice(), handle, set);
        self.lists.keep_if(alloc, stay);
        close_in(alloc, &mut self.namespaces, hart, handle, set);
    }

    /// Opens a root in the namespace with a number: its new objects stand there at the end. Where there is no
    /// such namespace, a new one follows the others. The lists stay where a root that is open is opened again,
    /// without new objects, and becomes no global one.
    ///
    /// # Errors
    ///
    /// Want of memory. The namespaces are as before then.
    pub fn open_in(
        &mut self,
        alloc: Global,
        id: NsId,
        added: Added,
        root: Serial,
        is_global: bool,
    ) -> Result<(), AllocError>
        requires apart { AreNumberedApart self.old }
        ensures ok { OnOk result (self.new ≡ with_namespace id (λ ns. opened ns added root is_global) self.old) }
        ensures err { OnErr result (self.new ≡ self.old) }
    {
        let namespaces = self.namespaces.as_slice();
        let stay = opening_leaves_lists(namespaces, id, added.as_slice(), root, is_global);
        self.lists.keep_if(alloc, stay);
        open_in(alloc, &mut self.namespaces, id, added, root, is_global)
    }

    /// Takes the objects of a set out of their namespaces, and puts them behind others, for which there is room.
    /// A namespace but the base ends with its last object.
    pub fn take_out(&mut self, alloc: Global, set: &[Serial], gone: &mut Vec<Loaded>)
        requires { vec_len gone.old + count_by (goes set.now) (flat_map (λ ns. ns.objects) self.old) ≤ vec_capacity gone.old }
        ensures namespaces { self.new ≡ filter is_left (map (gone_in set.now) self.old) }
        ensures gone { gone.new.items ≡ gone.old.items ++ filter (goes set.now) (flat_map (λ ns. ns.objects) self.old) }
    {
        self.lists = KeptLists::new(alloc);
        take_out(alloc, &mut self.namespaces, set, gone);
    }
}
