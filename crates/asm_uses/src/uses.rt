//! All that the lines say of names.

ghost use Rattle.std.specs.Prelude.{◌≡◌, List, IfOk, OnOk};
ghost use Rattle.asm_statement.specs.declared.line.Line.{Line};
ghost use Rattle.asm_layout.specs.Names.{is_preemptible};
ghost use Rattle.asm_layout.specs.Uses.{exports, needs};
ghost use Rattle.asm_uses.specs.Lines.{AreLabelsOf};
ghost use Rattle.asm_uses.specs.Uses.{AreUsesOf, IsBlank};

use crate::export_set::exports_of;
use crate::got::Got;
use crate::labels::Labels;
use crate::name_set::NameSet;
use crate::names::{fill_imports, fill_slots, fill_versions};
use crate::need_map::NeedMap;
use crate::preemption::Preemption;
use asm_layout::Exported;
use asm_statement::{Need, Statements};
use ld_base::Sequence;
use std::alloc::{AllocError, Global};

/// What the lines of a source say of names.
#[derive(Drop)]
pub struct Uses {
    /// The names that lines define.
    pub labels: Labels,
    /// What tells whether another object may define a name.
    pub preemption: Preemption,
    /// The names that have a slot in the procedure linkage table, in order.
    pub slots: NameSet,
    /// What stands in the global offset table.
    pub got: Got,
    /// The undefined symbols, in order.
    pub imports: NameSet,
    /// The versions that the object defines, in order.
    pub versions: NameSet,
    /// The symbols that other objects may find, in the order of the lines that first export them.
    pub exports: Sequence<Exported>,
    /// What references need of versions.
    pub needs: Sequence<Need>,
}

impl Uses {
    /// Nothing, which is filled in.
    fn new(alloc: Global) -> Self
        ensures { IsBlank result }
    {
        Uses {
            labels: Labels::new(alloc),
            preemption: Preemption::new(alloc),
            slots: NameSet::new(alloc),
            got: Got::new(alloc),
            imports: NameSet::new(alloc),
            versions: NameSet::new(alloc),
            exports: Sequence::new(alloc),
            needs: Sequence::new(alloc),
        }
    }

    /// The symbols that other objects may find, and what references need of versions.
    fn fill_symbols(&mut self, alloc: Global, statements: &Statements) -> Result<(), AllocError>
        requires { AreLabelsOf statements.now self.old.labels }
        ensures { OnOk result (self.new ≡ record self.old { exports = exports statements.now; needs = needs statements.now }) }
    {
        let needs = NeedMap::of(alloc, statements)?;
        self.exports = exports_of(alloc, statements, &self.labels, &needs)?;
        self.needs = needs.into_list(alloc)?;
        Ok(())
    }

    /// What the lines of a source say.
    fn fill(&mut self, alloc: Global, statements: &Statements) -> Result<(), AllocError>
        requires { IsBlank self.old }
        ensures { OnOk result (AreUsesOf statements.now self.new) }
    {
        self.labels.fill(alloc, statements)?;
        self.preemption.fill(alloc, statements)?;
        fill_slots(
            alloc,
            &mut self.slots,
            statements,
            &self.labels,
            &self.preemption,
        )?;
        self.got.fill(alloc, statements)?;
        fill_imports(alloc, &mut self.imports, statements, &self.labels)?;
        fill_versions(alloc, &mut self.versions, statements)?;
        self.fill_symbols(alloc, statements)
    }

    /// Those of the lines of a source.
    ///
    /// # Errors
    ///
    /// Want of memory.
    pub fn of(alloc: Global, statements: &Statements) -> Result<Self, AllocError>
        ensures { IfOk result (AreUsesOf statements.now) }
    {
        let mut uses = Uses::new(alloc);
        match uses.fill(alloc, statements) {
            Ok(()) => Ok(uses),
            Err(error) => Err(error),
        }
    }

    /// Whether another object may define a name.
    pub fn is_preemptible(&self, name: &[u8]) -> bool
        ensures { (lines : List Line) → AreUsesOf lines self.now → result ≡ is_preemptible lines name.now }
    {
        self.preemption.is_preemptible(&self.labels, name)
    }
}
