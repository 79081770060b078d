//! The words of directives.

ghost use Rattle.std.specs.Prelude.{◌≡◌};
ghost use Rattle.asm_statement.specs.AsmWords.DirectiveWords.{directive_word};

use crate::asm_words::table::named;
use crate::{Array, DataSize, Export, Section};

/// A directive that takes a name, and nothing else.
#[derive(Clone, Copy)]
pub enum NameWord {
    Soname,
    Needed,
    Entry,
    Export(Export),
    Weak,
    Version,
    Entries(Array),
}

/// A directive that takes a number, and nothing else.
#[derive(Clone, Copy)]
pub enum NumberWord {
    Data(DataSize),
    Zero,
}

/// A directive that takes nothing.
#[derive(Clone, Copy)]
pub enum LoneWord {
    Section(Section),
    Relr,
}

/// The word of a directive, by the form of its operands.
#[derive(Clone, Copy)]
pub enum DirectiveWord {
    Name(NameWord),
    Number(NumberWord),
    Lone(LoneWord),
    Kind,
    Hash,
    Flags,
    Symver,
    Need,
    Dword,
    Asciz,
    Align,
    Copy,
}

const DIRECTIVES: [(&[u8], DirectiveWord); 32] = [
    (
        b".text",
        DirectiveWord::Lone(LoneWord::Section(Section::Text)),
    ),
    (
        b".rodata",
        DirectiveWord::Lone(LoneWord::Section(Section::Rodata)),
    ),
    (
        b".relro",
        DirectiveWord::Lone(LoneWord::Section(Section::Relro)),
    ),
    (
        b".data",
        DirectiveWord::Lone(LoneWord::Section(Section::Data)),
    ),
    (
        b".bss",
        DirectiveWord::Lone(LoneWord::Section(Section::Bss)),
    ),
    (
        b".tdata",
        DirectiveWord::Lone(LoneWord::Section(Section::Tdata)),
    ),
    (
        b".tbss",
        DirectiveWord::Lone(LoneWord::Section(Section::Tbss)),
    ),
    (b".soname", DirectiveWord::Name(NameWord::Soname)),
    (b".needed", DirectiveWord::Name(NameWord::Needed)),
    (b".entry", DirectiveWord::Name(NameWord::Entry)),
    (
        b".global",
        DirectiveWord::Name(NameWord::Export(Export::Global)),
    ),
    (
        b".hidden",
        DirectiveWord::Name(NameWord::Export(Export::Hidden)),
    ),
    (
        b".protected",
        DirectiveWord::Name(NameWord::Export(Export::Protected)),
    ),
    (b".weak", DirectiveWord::Name(NameWord::Weak)),
    (b".version", DirectiveWord::Name(NameWord::Version)),
    (
        b".preinit",
        DirectiveWord::Name(NameWord::Entries(Array::Preinit)),
    ),
    (
        b".init",
        DirectiveWord::Name(NameWord::Entries(Array::Init)),
    ),
    (
        b".fini",
        DirectiveWord::Name(NameWord::Entries(Array::Fini)),
    ),
    (
        b".word",
        DirectiveWord::Number(NumberWord::Data(DataSize::Word)),
    ),
    (
        b".half",
        DirectiveWord::Number(NumberWord::Data(DataSize::Half)),
    ),
    (
        b".byte",
        DirectiveWord::Number(NumberWord::Data(DataSize::Byte)),
    ),
    (b".zero", DirectiveWord::Number(NumberWord::Zero)),
    (b".relr", DirectiveWord::Lone(LoneWord::Relr)),
    (b".kind", DirectiveWord::Kind),
    (b".hash", DirectiveWord::Hash),
    (b".flags", DirectiveWord::Flags),
    (b".symver", DirectiveWord::Symver),
    (b".need", DirectiveWord::Need),
    (b".dword", DirectiveWord::Dword),
    (b".asciz", DirectiveWord::Asciz),
    (b".align", DirectiveWord::Align),
    (b".copy", DirectiveWord::Copy),
];

/// The directive that a word names.
#[tactic(auto, unfolding(crate::specs::AsmWords::DirectiveWords::directive_word))]
pub fn directive_word(word: &[u8]) -> Option<DirectiveWord>
    ensures { result ≡ directive_word word.now }
{
    named(&DIRECTIVES, word)
}
