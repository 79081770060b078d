//! What a walk over candidates keeps.

ghost use Rattle.std.specs.Prelude.{◌≡◌, not};
ghost use Rattle.ld_base.specs.Pick.{is_offer};
ghost use Rattle.ld_base.specs.Symbol.{is_hidden_version};
ghost use Rattle.sym_lookup.specs.SymFind.Best.{after, least, made, nothing, passes, precedes, seen_too, taken};

use ld_base::{Carriers, Object, Symbol};

/// Which versions of a definition are wanted.
#[derive(Clone, Copy)]
pub(crate) enum Test<'a> {
    /// Any.
    Any,
    /// That of index 1 or of this one.
    Base(u16),
    /// Those that carry a name.
    Just(&'a Carriers),
    /// Those that carry a name, and what every version takes.
    Version(&'a Carriers),
}

/// A search of an object for a name.
#[derive(Clone, Copy)]
pub(crate) struct Search<'a> {
    pub(crate) object: &'a Object,
    pub(crate) name: &'a [u8],
    pub(crate) test: Test<'a>,
}

/// The definitions in sight among the candidates so far.
#[derive(Clone, Copy)]
pub(crate) enum Sight {
    Nothing,
    One(u32),
    Several,
}

/// The first candidate so far that fits, and what is in sight of them.
#[derive(Clone, Copy)]
pub(crate) struct Best {
    pub(crate) first: Option<u32>,
    pub(crate) sight: Sight,
}

impl<'a> Test<'a> {
    /// Whether the version of a definition is one that is wanted.
    pub(crate) fn passes(self, symbol: &Symbol) -> bool
        ensures { result ≡ passes self.entry symbol.now }
    {
        let index = symbol.version_index();
        match self {
            Test::Any => true,
            Test::Base(last) => index == 1 || index == last,
            Test::Just(carriers) => carriers.has(index),
            Test::Version(carriers) => carriers.has(index) || symbol.version == 1,
        }
    }
}

impl Sight {
    /// With one more in sight.
    fn with(self, index: u32) -> Self
        ensures { result ≡ seen_too self index }
    {
        match self {
            Sight::Nothing => Sight::One(index),
            Sight::One(other) if other == index => Sight::One(other),
            _ => Sight::Several,
        }
    }
}

/// The lesser of the first so far and one more.
pub(crate) fn least(first: Option<u32>, index: u32) -> Option<u32>
    ensures { result ≡ least first index }
{
    match first {
        Some(first) => Some(first.min(index)),
        None => Some(index),
    }
}

impl<'a> Search<'a> {
    /// Whether a symbol is a definition of the name.
    fn is_offer(&self, symbol: &Symbol) -> bool
        ensures { result ≡ is_offer self.now.object.now self.now.name.now symbol.now }
    {
        symbol.is_visible_definition()
            && symbol.name.is(self.name)
            && (!self.object.has_versym || symbol.version_index() != 0)
    }

    /// What is kept with a definition of the name more.
    fn with_offer(&self, best: Best, symbol: &Symbol, index: u32) -> Best
        ensures { result ≡ made best index (passes self.now.test symbol.now) (not (is_hidden_version symbol.now)) }
    {
        let first = if self.test.passes(symbol) {
            least(best.first, index)
        } else {
            best.first
        };
        let sight = if symbol.is_hidden_version() {
            best.sight
        } else {
            best.sight.with(index)
        };
        Best { first, sight }
    }

    /// What is kept with a candidate more.
    pub(crate) fn after(&self, best: Best, index: usize) -> Best
        ensures { result ≡ after self.now best index }
    {
        let symbols = self.object.symbols.as_slice();
        if index < self.object.first_exported as usize {
            return best;
        }
        if index >= symbols.len() {
            return best;
        }
        let symbol = &symbols[index];
        if self.is_offer(symbol) {
            self.with_offer(best, symbol, index as u32)
        } else {
            best
        }
    }
}

impl Best {
    /// What a reference takes: the first that fits, or else, if that is allowed, the only one in sight.
    pub(crate) fn taken(self, only: bool) -> Option<u32>
        ensures { result ≡ taken self only }
    {
        match (self.first, self.sight) {
            (Some(first), _) => Some(first),
            (None, Sight::One(index)) if only => Some(index),
            (None, _) => None,
        }
    }

    /// Whether the first that fits isn't behind a symbol.
    pub(crate) fn precedes(&self, index: u32) -> bool
        ensures { result ≡ precedes self.now index }
    {
        match self.first {
            Some(first) => first <= index,
            None => false,
        }
    }

    /// Nothing yet.
    pub(crate) fn new() -> Self
        ensures { result ≡ nothing }
    {
        Best {
            first: None,
            sight: Sight::Nothing,
        }
    }
}
