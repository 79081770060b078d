//! A load part way: it says which path it has to know next, and is told what reading it gave.

ghost use Rattle.std.specs.Prelude.{◌≡◌, ◌++◌, ◌∷◌, [], OnOk, IfOk};

use crate::arrivals::Arrivals;
use crate::ask::{LoadAsk, LoadFault};
use crate::finding::Finding;
use crate::missed::Missed;
use crate::objects_there::ObjectsThere;
use ld_base::{DlFault, Name, Names, Serial, Serials};
use scope_rule::Arrival;
use std::alloc::{AllocError, Global};

/// Serials stay below this number.
const SERIAL_LIMIT: u64 = 1 << 62;

/// A load part way.
#[derive(Drop)]
pub(crate) struct Walker {
    /// The names that are asked for, so far as the new objects tell.
    pub names: Names,
    /// The serial that each name so far found.
    pub found: Serials,
    /// The new objects, in the order in which they came.
    pub arrivals: Arrivals,
    /// The paths at which there was no file. A load reads no path twice.
    pub missed: Missed,
}

/// What comes next of a load.
#[derive(Drop)]
pub(crate) enum Next {
    /// The next name finds the object with this serial.
    Found(Serial),
    /// The path that has to be read before more is known.
    Read(Name),
    /// No name is left.
    Done,
}

/// Puts copies of names at the end.
fn append_names(alloc: Global, names: &mut Names, more: &[Name]) -> Result<(), AllocError>
    ensures { OnOk result (names.new ≡ names.old ++ more.now) }
{
    for name in more {
        names.push(Name::new(alloc, name.as_bytes())?)?;
    }
    Ok(())
}

impl Walker {
    ghost use Rattle.std.specs.Prelude.{◌≡◌, ◌<◌, ◌+◌, ◌++◌, ◌∷◌, [], length, IfOk, OnOk, IfSome};
    ghost use Rattle.std.specs.List.{slice_get};
    ghost use Rattle.std.specs.Option.{option_copied};
    ghost use Rattle.load_walk.specs.Walking.{IsWalker, Looks, announced, grown, more_names};

    /// A load at its start.
    pub fn new(alloc: Global, ask: &LoadAsk) -> Result<Self, AllocError>
        ensures { IfOk result (λ w. w ≡ record { names = ask.now.name ∷ []; found = []; arrivals = []; missed = [] }) }
    {
        let mut names = Names::new(alloc);
        names.push(Name::new(alloc, ask.name.as_bytes())?)?;
        Ok(Walker {
            names,
            found: Serials::new(alloc),
            arrivals: Arrivals::new(alloc),
            missed: Missed::new(alloc),
        })
    }

    /// The next name, if one is left.
    fn next_name(&self) -> Option<&Name>
        ensures { option_copied result ≡ slice_get self.now.names (length self.now.found) }
    {
        self.names.as_slice().get(self.found.len())
    }

    /// What comes next.
    #[tactic(auto, using(crate::proofs::Walkers::looks_missing))]
    pub fn look(
        &self,
        alloc: Global,
        there: &ObjectsThere,
        ask: &LoadAsk,
    ) -> Result<Next, LoadFault>
        requires { IsWalker ask.now there.now self.now }
        ensures { Looks ask.now there.now self.now result }
    {
        let Some(name) = self.next_name() else {
            return Ok(Next::Done);
        };
        match self.find(alloc, there, ask, name.as_bytes())? {
            Finding::Found(serial) => Ok(Next::Found(serial)),
            Finding::Read(path) => Ok(Next::Read(path)),
            Finding::Nowhere => {
                let name = Name::new(alloc, name.as_bytes())?;
                Err(LoadFault::Refused(DlFault::MissingLibrary(name)))
            }
        }
    }

    /// What the load's own name found, once it did.
    pub fn root(&self) -> Result<Serial, AllocError>
        ensures { IfOk result (λ root. slice_get self.now.found 0 ≡ Some root) }
    {
        self.found.as_slice().first().copied().ok_or(AllocError)
    }

    /// The serial of the next new object, while there are serials.
    fn next_serial(&self, ask: &LoadAsk) -> Option<Serial>
        ensures { IfSome result (λ serial. serial ≡ ask.now.next + length self.now.arrivals) }
    {
        let number = ask.next.number().checked_add(self.arrivals.len() as u64)?;
        if number < SERIAL_LIMIT {
            Some(Serial::new(number))
        } else {
            None
        }
    }

    /// Adds the names that one more new object asks for.
    fn add_names(
        &mut self,
        alloc: Global,
        ask: &LoadAsk,
        arrival: &Arrival,
    ) -> Result<(), AllocError>
        ensures { OnOk result (self.new ≡ record self.old { names = self.old.names ++ more_names ask.now self.old arrival.now }) }
    {
        if ask.program && self.arrivals.is_empty() {
            append_names(alloc, &mut self.names, ask.preload.as_slice())?;
        }
        append_names(alloc, &mut self.names, arrival.object.needed.as_slice())
    }

    /// Adds the serial of a new object, which the next name found, and the names that it asks for.
    fn announce(
        &mut self,
        alloc: Global,
        ask: &LoadAsk,
        arrival: &Arrival,
    ) -> Result<(), AllocError>
        ensures { OnOk result (self.new ≡ announced ask.now self.old arrival.now) }
    {
        let Some(serial) = self.next_serial(ask) else {
            return Err(AllocError);
        };
        self.add_names(alloc, ask, arrival)?;
        self.found.push(serial)?;
        Ok(())
    }

    /// Takes in a new object, which the next name found.
    pub fn give_object(
        &mut self,
        alloc: Global,
        ask: &LoadAsk,
        arrival: Arrival,
    ) -> Result<(), AllocError>
        ensures { OnOk result (self.new ≡ grown ask.now self.old arrival) }
    {
        // The object goes into the list in any case, so that no exit drops it here.
        let announced = self.announce(alloc, ask, &arrival);
        self.arrivals.push(alloc, arrival)?;
        announced
    }
}
