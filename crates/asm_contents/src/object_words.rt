//! What the lines say of the object as a whole.

ghost use Rattle.std.specs.Prelude.{◌≡◌, option_map};
ghost use Rattle.asm_layout.specs.Contents.{elf_kind, entry_given, entry_name};
ghost use Rattle.asm_layout.specs.Tables.{flags_given, flags_joined, flags_of, has_gnu, has_sysv, soname, soname_given};

use asm_statement::{Directive, HashKind, Line, ObjectKind, Statement, Statements};
use asm_uses::kind_of;
use ld_base::{Kind, ObjFlags};

/// The label at which a program begins, where no line names one.
const START: &[u8] = b"_start";

/// The kind of the object, as its header has it.
pub(crate) fn elf_kind(statements: &Statements) -> Kind
    ensures { result ≡ elf_kind statements.now }
{
    match kind_of(statements) {
        ObjectKind::Executable => Kind::Exec,
        ObjectKind::Library | ObjectKind::Program => Kind::Dyn,
    }
}

/// The label at which a program begins, behind a line.
fn entry_given<'a>(entry: Option<&'a [u8]>, line: &'a Line) -> Option<&'a [u8]>
    ensures { option_map (λ name. name.now) result ≡ entry_given (option_map (λ name. name.now) entry.entry) line.entry.now.statement }
{
    match &line.statement {
        Some(Statement::Directive(Directive::Entry(name))) => Some(name.as_bytes()),
        _ => entry,
    }
}

/// The label at which a program begins: the last that lines name, or `_start`.
#[tactic(auto, unfolding(asm_layout::specs::Contents::entry_name))]
pub(crate) fn entry_name(statements: &Statements) -> &[u8]
    ensures { result.now ≡ entry_name statements.now }
{
    let mut entry = None;
    for line in statements.as_slice() {
        entry = entry_given(entry, line);
    }
    entry.unwrap_or(START)
}

/// The object's own name, behind a line.
fn soname_given<'a>(soname: Option<&'a [u8]>, line: &'a Line) -> Option<&'a [u8]>
    ensures { option_map (λ name. name.now) result ≡ soname_given (option_map (λ name. name.now) soname.entry) line.entry.now.statement }
{
    match &line.statement {
        Some(Statement::Directive(Directive::Soname(name))) => Some(name.as_bytes()),
        _ => soname,
    }
}

/// The object's own name, the last that lines give it.
#[tactic(auto, unfolding(asm_layout::specs::Tables::soname))]
pub(crate) fn soname(statements: &Statements) -> Option<&[u8]>
    ensures { option_map (λ name. name.now) result ≡ soname statements.now }
{
    let mut soname = None;
    for line in statements.as_slice() {
        soname = soname_given(soname, line);
    }
    soname
}

fn flags_joined(one: ObjFlags, other: ObjFlags) -> ObjFlags
    ensures { result ≡ flags_joined one other }
{
    ObjFlags {
        symbolic: one.symbolic || other.symbolic,
        bind_now: one.bind_now || other.bind_now,
        nodelete: one.nodelete || other.nodelete,
    }
}

/// The flags behind a line.
fn flags_given(flags: ObjFlags, line: &Line) -> ObjFlags
    ensures { result ≡ flags_given flags line.now.statement }
{
    match &line.statement {
        Some(Statement::Directive(Directive::Flags(given))) => flags_joined(flags, *given),
        _ => flags,
    }
}

/// The flags of the object: all that lines give it.
#[tactic(auto, unfolding(asm_layout::specs::Tables::flags_of))]
pub(crate) fn flags_of(statements: &Statements) -> ObjFlags
    ensures { result ≡ flags_of statements.now }
{
    let none = ObjFlags {
        symbolic: false,
        bind_now: false,
        nodelete: false,
    };
    let lines = statements.as_slice().iter();
    lines.fold(none, |flags, line| flags_given(flags, line))
}

/// Whether a GNU hash table is made.
pub(crate) fn has_gnu(hash: HashKind) -> bool
    ensures { result ≡ has_gnu hash }
{
    match hash {
        HashKind::Gnu | HashKind::Both => true,
        HashKind::Sysv => false,
    }
}

/// Whether a System V hash table is made.
pub(crate) fn has_sysv(hash: HashKind) -> bool
    ensures { result ≡ has_sysv hash }
{
    match hash {
        HashKind::Sysv | HashKind::Both => true,
        HashKind::Gnu => false,
    }
}
