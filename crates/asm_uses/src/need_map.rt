//! What references need of versions.

ghost use Rattle.std.specs.Prelude.{◌≡◌, [], find, IfOk, OnOk, option_map};
ghost use Rattle.std.specs.Str.{bytes_eq};
ghost use Rattle.asm_layout.specs.Uses.{need_of, needs, with_need};
ghost use Rattle.asm_uses.specs.Needs.{with_found};

use asm_statement::{Directive, Line, Need, Statement, Statements};
use indexmap::IndexMap;
use ld_base::{Name, Sequence};
use std::alloc::{AllocError, Global};
use std::marker::Model;

/// What references need of versions, by the names that they are to. Contracts see it as a list.
#[derive(Drop)]
pub(crate) struct NeedMap {
    needs: IndexMap<Vec<u8>, Need>,
}

impl Model for NeedMap {
    ghost use Rattle.std.specs.Prelude.{List};
    ghost use Rattle.asm_statement.specs.declared.directive.Need.{Need};
    ghost use Rattle.asm_uses.specs.Needs.{values_of, AreByName};

    ghost Value = { List Need };

    ghost view = { λ m. values_of m.needs.entries };

    ghost invariant = { λ m. AreByName m.needs.entries };
}

/// What a line needs.
fn need_of(line: &Line) -> Option<&Need>
    ensures { option_map (λ need. need.now) result ≡ need_of line.now.statement }
{
    match &line.statement {
        Some(Statement::Directive(Directive::Need(need))) => Some(need),
        _ => None,
    }
}

/// The same need, with memory of its own.
fn copy_of(alloc: Global, need: &Need) -> Result<Need, AllocError>
    ensures { IfOk result (λ copy. copy ≡ need.now) }
{
    Ok(Need {
        name: Name::new(alloc, need.name.as_bytes())?,
        version: Name::new(alloc, need.version.as_bytes())?,
        file: Name::new(alloc, need.file.as_bytes())?,
        is_weak: need.is_weak,
    })
}

impl NeedMap {
    /// No needs.
    fn new(alloc: Global) -> Self
        ensures { result ≡ [] }
    {
        NeedMap {
            needs: IndexMap::new(alloc),
        }
    }

    /// Puts a need in the place of that of its name, or behind all.
    fn put(&mut self, alloc: Global, need: &Need) -> Result<(), AllocError>
        ensures { OnOk result (self.new ≡ with_need self.old need.now) }
    {
        let name = Vec::from_slice(alloc, need.name.as_bytes())?;
        let need = copy_of(alloc, need)?;
        self.needs.insert(name, need)?;
        Ok(())
    }

    /// The same of what a line needs, where it needs something.
    fn put_found(&mut self, alloc: Global, need: Option<&Need>) -> Result<(), AllocError>
        ensures { OnOk result (self.new ≡ with_found self.old (option_map (λ n. n.now) need.entry)) }
    {
        match need {
            Some(need) => self.put(alloc, need),
            None => Ok(()),
        }
    }

    /// Those of the lines of a source.
    ///
    /// # Errors
    ///
    /// Want of memory.
    pub fn of(alloc: Global, statements: &Statements) -> Result<Self, AllocError>
        ensures { IfOk result (λ map. map ≡ needs statements.now) }
    {
        let mut map = NeedMap::new(alloc);
        for line in statements.as_slice() {
            map.put_found(alloc, need_of(line))?;
        }
        Ok(map)
    }

    /// The version that references to a name carry.
    pub fn version(&self, name: &[u8]) -> Option<&[u8]>
        ensures { option_map (λ version. version.now) result
            ≡ option_map (λ need. need.version) (find (λ need. bytes_eq name.now need.name) self.now) }
    {
        match self.needs.get(name) {
            Some(need) => Some(need.version.as_bytes()),
            None => None,
        }
    }

    /// The needs as a list.
    ///
    /// # Errors
    ///
    /// Want of memory.
    pub fn into_list(self, alloc: Global) -> Result<Sequence<Need>, AllocError>
        ensures { IfOk result (λ list. list ≡ self) }
    {
        let NeedMap { needs } = self;
        let list: Vec<Need> = needs.into_values().collect(alloc)?;
        Ok(Sequence::from(list))
    }
}
