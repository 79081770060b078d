//! What lines say of symbols beside their places.

ghost use Rattle.std.specs.Prelude.{◌≡◌, ℕ, List, IfOk, option_map, position};
ghost use Rattle.std.specs.List.{list_any};
ghost use Rattle.std.specs.Str.{bytes_eq};
ghost use Rattle.asm_layout.specs.Once.{is_among, is_it};
ghost use Rattle.asm_layout.specs.Symbols.{weakens};
ghost use Rattle.asm_places.specs.Counts.{ArePlacesOf};
ghost use Rattle.asm_uses.specs.Numbers.{number_of};
ghost use Rattle.asm_uses.specs.Uses.{AreUsesOf};
ghost use Rattle.asm_symbols.specs.Facts.{AreFactsOf};

use crate::label_sizes::LabelSizes;
use crate::visibilities::Visibilities;
use asm_places::Places;
use asm_statement::{Directive, Line, Need, Statement, Statements};
use asm_uses::{FirstNumbers, NameSet, Uses};
use std::alloc::{AllocError, Global};

/// What the lines of a source say of symbols beside their places.
#[derive(Drop)]
pub struct SymbolFacts {
    /// The names whose symbols are weak.
    pub weak: NameSet,
    /// How much of symbols other objects see.
    pub visibilities: Visibilities,
    /// The place of each name's need among the needs.
    pub needs: FirstNumbers,
    /// How far labels reach.
    pub sizes: LabelSizes,
}

/// The name that a line makes weak.
fn weak_name(line: &Line) -> Option<&[u8]>
    ensures { (name : List ℕ) → weakens name line.now.statement ≡ is_it name (option_map (λ n. n.now) result) }
{
    match &line.statement {
        Some(Statement::Directive(Directive::Weak(name))) => Some(name.as_bytes()),
        _ => None,
    }
}

/// The names that lines make weak.
fn weak_names(alloc: Global, statements: &Statements) -> Result<NameSet, AllocError>
    ensures { IfOk result (λ names. (name : List ℕ) → is_among names name ≡ list_any (λ line. weakens name line.statement) statements.now) }
{
    let mut names = NameSet::new(alloc);
    for line in statements.as_slice() {
        names.add_found(alloc, weak_name(line))?;
    }
    Ok(names)
}

/// The place of each name's need among the needs.
fn need_numbers(alloc: Global, needs: &[Need]) -> Result<FirstNumbers, AllocError>
    ensures { IfOk result (λ numbers. (name : List ℕ) → number_of numbers name ≡ position (λ need. bytes_eq name need.name) needs.now) }
{
    let mut numbers = FirstNumbers::new(alloc);
    for (at, need) in needs.iter().enumerate() {
        numbers.note(alloc, need.name.as_bytes(), at)?;
    }
    Ok(numbers)
}

impl SymbolFacts {
    /// What the lines of a source say.
    ///
    /// # Errors
    ///
    /// Want of memory.
    pub fn of(
        alloc: Global,
        statements: &Statements,
        uses: &Uses,
        places: &Places,
    ) -> Result<Self, AllocError>
        requires uses { AreUsesOf statements.now uses.now }
        requires places { ArePlacesOf statements.now places.now }
        ensures { IfOk result (AreFactsOf statements.now) }
    {
        Ok(SymbolFacts {
            weak: weak_names(alloc, statements)?,
            visibilities: Visibilities::of(alloc, statements)?,
            needs: need_numbers(alloc, uses.needs.as_slice())?,
            sizes: LabelSizes::of(alloc, statements, places)?,
        })
    }
}
