//! What the lines say of the object as a whole.

ghost use Rattle.std.specs.Prelude.{◌≡◌};
ghost use Rattle.asm_layout.specs.Names.{kind_given, kind_of};
ghost use Rattle.asm_layout.specs.Tables.{asks_relr, hash_given, hash_of, is_relr};

use asm_statement::{Directive, HashKind, Line, ObjectKind, Statement, Statements};

fn kind_given(kind: ObjectKind, line: &Line) -> ObjectKind
    ensures { result ≡ kind_given kind line.now.statement }
{
    match &line.statement {
        Some(Statement::Directive(Directive::Kind(given))) => *given,
        _ => kind,
    }
}

/// The kind of object that the lines ask for: the last that they name, or a library.
#[tactic(auto, unfolding(asm_layout::specs::Names::kind_of))]
pub fn kind_of(statements: &Statements) -> ObjectKind
    ensures { result ≡ kind_of statements.now }
{
    let lines = statements.as_slice().iter();
    lines.fold(ObjectKind::Library, |kind, line| kind_given(kind, line))
}

fn hash_given(hash: HashKind, line: &Line) -> HashKind
    ensures { result ≡ hash_given hash line.now.statement }
{
    match &line.statement {
        Some(Statement::Directive(Directive::Hash(given))) => *given,
        _ => hash,
    }
}

/// The hash tables that the lines ask for: the last that they name, or the GNU table.
#[tactic(auto, unfolding(asm_layout::specs::Tables::hash_of))]
pub fn hash_of(statements: &Statements) -> HashKind
    ensures { result ≡ hash_of statements.now }
{
    let lines = statements.as_slice().iter();
    lines.fold(HashKind::Gnu, |hash, line| hash_given(hash, line))
}

fn asks_relr(line: &Line) -> bool
    ensures { result ≡ asks_relr line.now.statement }
{
    match &line.statement {
        Some(Statement::Directive(Directive::Relr)) => true,
        _ => false,
    }
}

/// Whether the lines ask that relative relocations stand in the packed table.
#[tactic(auto, unfolding(asm_layout::specs::Tables::is_relr))]
pub fn is_relr(statements: &Statements) -> bool
    ensures { result ≡ is_relr statements.now }
{
    statements.as_slice().iter().any(|line| asks_relr(line))
}
