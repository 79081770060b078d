//! How much of symbols other objects see.

ghost use Rattle.std.specs.Prelude.{◌≡◌, [], ℕ, List, IfOk, OnOk, fold, option_map, if◌then◌else◌};
ghost use Rattle.std.specs.Str.{bytes_eq};
ghost use Rattle.asm_layout.specs.Symbols.{visibility_given};
ghost use Rattle.asm_symbols.specs.Visibilities.{code_of, given_or, visibility_of};

use asm_statement::{Directive, Export, Line, Statement, Statements};
use indexmap::IndexMap;
use std::alloc::{AllocError, Global};
use std::marker::Model;

/// How much of a symbol other objects see.
#[derive(Clone, Copy)]
pub enum Visibility {
    /// They find it, and may define another in its place.
    Default,
    /// They don't find it.
    Hidden,
    /// They find it, and its own object always takes its own.
    Protected,
}

impl Visibility {
    /// The number that the symbol table has for it (st_other).
    pub fn code(self) -> u8
        ensures { result ≡ code_of self }
    {
        match self {
            Visibility::Default => 0,
            Visibility::Hidden => 2,
            Visibility::Protected => 3,
        }
    }
}

/// The visibilities that lines give names. Contracts see a list of both.
#[derive(Drop)]
pub struct Visibilities {
    given: IndexMap<Vec<u8>, Visibility>,
}

impl Model for Visibilities {
    ghost use Rattle.std.specs.Prelude.{List, ℕ};
    ghost use Rattle.asm_uses.specs.Spelled.{spelled_pairs};
    ghost use Rattle.asm_symbols.specs.declared.visibilities.Visibility.{Visibility};

    ghost Value = { List (List ℕ × Visibility) };

    ghost view = { λ v. spelled_pairs v.given.entries };
}

/// The name that a line gives a visibility.
fn given(line: &Line) -> Option<(&[u8], Visibility)>
    ensures { (name : List ℕ) (before : ℕ) → visibility_given name before line.now.statement
        ≡ given_or name before (option_map (λ it. (it.0.now, it.1)) result) }
{
    let Some(Statement::Directive(Directive::Export(export, name))) = &line.statement else {
        return None;
    };
    match export {
        Export::Global => None,
        Export::Hidden => Some((name.as_bytes(), Visibility::Hidden)),
        Export::Protected => Some((name.as_bytes(), Visibility::Protected)),
    }
}

impl Visibilities {
    /// None is given.
    fn new(alloc: Global) -> Self
        ensures { result ≡ [] }
    {
        Visibilities {
            given: IndexMap::new(alloc),
        }
    }

    /// The visibility that a name was given last, or the default.
    pub fn get(&self, name: &[u8]) -> Visibility
        ensures { result ≡ visibility_of self.now name.now }
    {
        self.given.get(name).copied().unwrap_or(Visibility::Default)
    }

    /// Gives a name a visibility, in the place of that which it had.
    fn give(&mut self, alloc: Global, name: &[u8], visibility: Visibility) -> Result<(), AllocError>
        ensures { OnOk result ((other : List ℕ) →
            visibility_of self.new other ≡ (if bytes_eq other name.now then visibility else visibility_of self.old other)) }
    {
        let name = Vec::from_slice(alloc, name)?;
        self.given.insert(name, visibility)?;
        Ok(())
    }

    /// The same of what a line gives, where it gives one.
    fn give_found(
        &mut self,
        alloc: Global,
        given: Option<(&[u8], Visibility)>,
    ) -> Result<(), AllocError>
        ensures { OnOk result ((name : List ℕ) → code_of (visibility_of self.new name)
            ≡ given_or name (code_of (visibility_of self.old name)) (option_map (λ it. (it.0.now, it.1)) given.entry)) }
    {
        match given {
            Some((name, visibility)) => self.give(alloc, name, visibility),
            None => Ok(()),
        }
    }

    /// Those of the lines of a source: of several lines that give one name a visibility the last counts.
    ///
    /// # Errors
    ///
    /// Want of memory.
    pub fn of(alloc: Global, statements: &Statements) -> Result<Self, AllocError>
        ensures { IfOk result (λ all. (name : List ℕ) →
            code_of (visibility_of all name) ≡ fold (λ given line. visibility_given name given line.statement) 0 statements.now) }
    {
        let mut all = Visibilities::new(alloc);
        for line in statements.as_slice() {
            all.give_found(alloc, given(line))?;
        }
        Ok(all)
    }
}
