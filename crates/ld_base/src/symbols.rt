//! Symbol tables.

ghost use Rattle.std.specs.Prelude.{◌≡◌, [], ◌∷◌, ◌++◌, ◌+◌, ◌<◌, ◌^◌, ◌==◌, length, OnOk, OnErr, IfOk};

use crate::{Sequence, SharedList, Symbol};
use std::alloc::{AllocError, Global};
use std::marker::Model;

/// Symbols, by index; the first is the null symbol. There are fewer than 2^32, so that each has an
/// index.
#[derive(Drop)]
pub struct Symbols {
    items: Sequence<Symbol>,
}

impl Model for Symbols {
    ghost use Rattle.std.specs.Prelude.{List, length, ◌<◌, ◌^◌};
    ghost use Rattle.ld_base.specs.declared.object.Symbol.{Symbol};

    ghost Value = { List Symbol };

    ghost view = { λ s. s.items };

    ghost invariant = { λ s. length s.items < 2 ^ 32 };
}

impl Symbols {
    /// No symbol, which takes no memory yet.
    pub fn new(alloc: Global) -> Self
        ensures { result ≡ [] }
    {
        Symbols {
            items: Sequence::new(alloc),
        }
    }

    /// No symbol, with room for so many.
    ///
    /// # Errors
    ///
    /// Want of memory.
    pub fn with_capacity(alloc: Global, count: u32) -> Result<Self, AllocError>
        ensures { IfOk result (λ symbols. symbols ≡ []) }
    {
        let items = Vec::with_capacity(alloc, count as usize)?;
        Ok(Symbols {
            items: Sequence::from(items),
        })
    }

    /// How many symbols there are.
    pub fn len(&self) -> u32
        ensures len { result ≡ length self.now }
        ensures few { length self.now < 2 ^ 32 }
    {
        self.items.len() as u32
    }

    /// Whether there is no symbol.
    pub fn is_empty(&self) -> bool
        ensures { result ≡ (length self.now == 0) }
    {
        self.items.is_empty()
    }

    /// The symbols as a slice.
    pub fn as_slice(&self) -> &[Symbol]
        ensures value { result.now ≡ self.now }
        ensures few { length self.now < 2 ^ 32 }
    {
        self.items.as_slice()
    }

    /// Puts a symbol at the end.
    ///
    /// # Errors
    ///
    /// Want of memory. The symbols are as before then.
    pub fn push(&mut self, symbol: Symbol) -> Result<(), AllocError>
        requires { length self.old + 1 < 2 ^ 32 }
        ensures ok { OnOk result (self.new ≡ self.old ++ symbol ∷ []) }
        ensures err { OnErr result (self.new ≡ self.old) }
    {
        self.items.push(symbol)
    }

    /// The symbols of a vector.
    pub fn from_vec(items: Vec<Symbol>) -> Self
        requires { length items.items < 2 ^ 32 }
        ensures { result ≡ items.items }
    {
        Symbols {
            items: Sequence::from(items),
        }
    }

    /// The symbols as a vector.
    pub fn into_vec(self) -> Vec<Symbol>
        ensures value { result.items ≡ self }
        ensures few { length self < 2 ^ 32 }
    {
        let Symbols { items } = self;
        items.into_vec()
    }

    /// The symbols as they stand, to have several owners.
    ///
    /// # Errors
    ///
    /// Want of memory.
    pub fn into_shared(self, alloc: Global) -> Result<SharedSymbols, AllocError>
        ensures { IfOk result (λ symbols. symbols ≡ self) }
    {
        let Symbols { items } = self;
        let items = items.into_shared(alloc)?;
        Ok(SharedSymbols { items })
    }
}

/// Symbols of an object, by index, which no longer change and may have several owners. There are fewer
/// than 2^32.
#[derive(Drop)]
pub struct SharedSymbols {
    items: SharedList<Symbol>,
}

impl Model for SharedSymbols {
    ghost use Rattle.std.specs.Prelude.{List, length, ◌<◌, ◌^◌};
    ghost use Rattle.ld_base.specs.declared.object.Symbol.{Symbol};

    ghost Value = { List Symbol };

    ghost view = { λ s. s.items };

    ghost invariant = { λ s. length s.items < 2 ^ 32 };
}

impl SharedSymbols {
    /// How many symbols there are.
    pub fn len(&self) -> u32
        ensures len { result ≡ length self.now }
        ensures few { length self.now < 2 ^ 32 }
    {
        self.items.len() as u32
    }

    /// Whether there is no symbol.
    pub fn is_empty(&self) -> bool
        ensures { result ≡ (length self.now == 0) }
    {
        self.items.is_empty()
    }

    /// The symbols as a slice.
    pub fn as_slice(&self) -> &[Symbol]
        ensures value { result.now ≡ self.now }
        ensures few { length self.now < 2 ^ 32 }
    {
        self.items.as_slice()
    }

    /// The same symbols for one owner more, in the same memory.
    ///
    /// # Errors
    ///
    /// Want of memory; so many owners that they can't be counted are that too.
    pub fn share(&self) -> Result<Self, AllocError>
        ensures { IfOk result (λ symbols. symbols ≡ self.now) }
    {
        let items = self.items.share()?;
        Ok(SharedSymbols { items })
    }
}
