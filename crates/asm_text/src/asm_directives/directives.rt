//! The operands of directives.

ghost use Rattle.std.specs.Prelude.{◌≡◌, ◌==◌, IfOk, map, length, if◌then◌else◌, Some, None};
ghost use Rattle.asm_statement.specs.AsmWords.Number.{number};
ghost use Rattle.asm_statement.specs.AsmWords.Kinds.{kind, hash};
ghost use Rattle.asm_statement.specs.declared.directive.Directive.TheVariants as the;
ghost use Rattle.std.specs.Option.{option_map};
ghost use Rattle.asm_grammar.specs.Directives.{is_flag, stands_in, flags, two_names, versioned, after_at, symver, need_of, need_file, need};
ghost use Rattle.asm_grammar.specs.Directives.{sum, doubleword, quoted, asciz, alignment, copy, named, sized, lone, directive};
ghost use Rattle.asm_statement.specs.AsmWords.Text.{trimmed};
ghost use Rattle.std.specs.List.{list_all};

use crate::asm_parts::{operands_of, words_of, zero};
use asm_statement::{
    Alignment, Directive, DirectiveWord, Doubleword, LoneWord, NameWord, Need, Number, NumberWord,
    Symver, after_blanks, cut, cut_blank, hash, kind, name_of, number_of, trimmed,
};
use ld_base::{Bytes, Name, ObjFlags};
use std::alloc::{AllocError, Global};

#[tactic(auto, unfolding(asm_grammar::specs::Directives::is_flag))]
fn is_flag(word: &[u8]) -> bool
    ensures { result ≡ is_flag word.now }
{
    let nodelete = b"nodelete".as_slice();
    word == b"symbolic".as_slice() || word == b"now".as_slice() || word == nodelete
}

fn stands_in(mut words: &[&[u8]], word: &[u8]) -> bool
    ensures { result ≡ stands_in (map (λ other. other.now) words.now) word.now }
{
    while let [other, rest @ ..] = words {
        if *other == word {
            return true;
        }
        words = rest;
    }
    false
}

fn are_flags(mut words: &[&[u8]]) -> bool
    ensures { result ≡ list_all is_flag (map (λ word. word.now) words.now) }
{
    while let [word, rest @ ..] = words {
        if !is_flag(word) {
            return false;
        }
        words = rest;
    }
    true
}

#[tactic(auto, unfolding(asm_grammar::specs::Directives::flags))]
fn flags(words: &[&[u8]]) -> Option<Directive>
    ensures { result ≡ flags (map (λ word. word.now) words.now) }
{
    if words.is_empty() || !are_flags(words) {
        return None;
    }
    Some(Directive::Flags(ObjFlags {
        symbolic: stands_in(words, b"symbolic"),
        bind_now: stands_in(words, b"now"),
        nodelete: stands_in(words, b"nodelete"),
    }))
}

fn two_names(alloc: Global, first: &[u8], second: &[u8]) -> Result<Option<(Name, Name)>, AllocError>
    ensures { IfOk result (λ names. names ≡ two_names first.now second.now) }
{
    let Some(first) = name_of(alloc, first)? else {
        return Ok(None);
    };
    match name_of(alloc, second)? {
        Some(second) => Ok(Some((first, second))),
        None => Ok(None),
    }
}

#[tactic(auto, unfolding(asm_grammar::specs::Directives::versioned))]
fn versioned(alloc: Global, text: &[u8]) -> Result<Option<(Name, Name)>, AllocError>
    ensures { IfOk result (λ names. names ≡ versioned text.now) }
{
    match cut(text, b'@') {
        Some((first, version)) => two_names(alloc, first, version),
        None => Ok(None),
    }
}

fn after_at(text: &[u8]) -> (bool, &[u8])
    ensures { (result.0, result.1.now) ≡ after_at text.now }
{
    match text {
        [b'@', rest @ ..] => (true, rest),
        _ => (false, text),
    }
}

#[tactic(auto, unfolding(asm_grammar::specs::Directives::symver))]
fn symver(alloc: Global, operands: &[&[u8]]) -> Result<Option<Directive>, AllocError>
    ensures { IfOk result (λ s. s ≡ symver (map (λ operand. trimmed operand.now) operands.now)) }
{
    let [label, text] = operands else {
        return Ok(None);
    };
    let Some(label) = name_of(alloc, trimmed(label))? else {
        return Ok(None);
    };
    let Some((exported, behind)) = cut(trimmed(text), b'@') else {
        return Ok(None);
    };
    let (is_default, version) = after_at(behind);
    let Some((name, version)) = two_names(alloc, exported, version)? else {
        return Ok(None);
    };
    Ok(Some(Directive::Symver(Symver {
        label,
        name,
        version,
        is_default,
    })))
}

#[tactic(auto, unfolding(asm_grammar::specs::Directives::need_of))]
fn need_of(
    alloc: Global,
    is_weak: bool,
    text: &[u8],
    file: &[u8],
) -> Result<Option<Directive>, AllocError>
    ensures { IfOk result (λ n. n ≡ need_of is_weak text.now file.now) }
{
    let Some((name, version)) = versioned(alloc, text)? else {
        return Ok(None);
    };
    let Some(file) = name_of(alloc, file)? else {
        return Ok(None);
    };
    Ok(Some(Directive::Need(Need {
        name,
        version,
        file,
        is_weak,
    })))
}

fn need_file(alloc: Global, text: &[u8], rest: &[u8]) -> Result<Option<Directive>, AllocError>
    ensures { IfOk result (λ n. n ≡ need_file text.now rest.now) }
{
    match cut_blank(rest) {
        None => need_of(alloc, false, text, rest),
        Some((file, behind)) if after_blanks(behind) == b"weak".as_slice() => {
            need_of(alloc, true, text, file)
        }
        Some(_) => Ok(None),
    }
}

#[tactic(auto, unfolding(asm_grammar::specs::Directives::need))]
fn need(alloc: Global, text: &[u8]) -> Result<Option<Directive>, AllocError>
    ensures { IfOk result (λ n. n ≡ need text.now) }
{
    match cut_blank(text) {
        Some((text, rest)) => need_file(alloc, text, after_blanks(rest)),
        None => Ok(None),
    }
}

#[tactic(auto, unfolding(asm_grammar::specs::Directives::sum))]
fn sum(alloc: Global, text: &[u8]) -> Result<Option<Directive>, AllocError>
    ensures { IfOk result (λ d. d ≡ sum text.now) }
{
    let Some((base, addend)) = cut(text, b'+') else {
        return Ok(None);
    };
    let Some(addend) = number_of(trimmed(addend)) else {
        return Ok(None);
    };
    match name_of(alloc, trimmed(base))? {
        Some(base) => Ok(Some(Directive::Dword(Doubleword::Address(base, addend)))),
        None => Ok(None),
    }
}

#[tactic(auto, unfolding(asm_grammar::specs::Directives::doubleword))]
fn doubleword(alloc: Global, text: &[u8]) -> Result<Option<Directive>, AllocError>
    ensures { IfOk result (λ d. d ≡ doubleword text.now) }
{
    if let Some(value) = number_of(text) {
        return Ok(Some(Directive::Dword(Doubleword::Number(value))));
    }
    match name_of(alloc, text)? {
        Some(base) => Ok(Some(Directive::Dword(Doubleword::Address(base, zero())))),
        None => sum(alloc, text),
    }
}

#[tactic(auto, unfolding(asm_grammar::specs::Directives::quoted))]
fn quoted(text: &[u8]) -> Option<&[u8]>
    ensures { option_map (λ inner. inner.now) result ≡ quoted text.now }
{
    match text {
        [b'"', rest @ ..] => {
            let (inner, behind) = cut(rest, b'"')?;
            behind.is_empty().then_some(inner)
        }
        _ => None,
    }
}

fn asciz(alloc: Global, text: &[u8]) -> Result<Option<Directive>, AllocError>
    ensures { IfOk result (λ d. d ≡ asciz text.now) }
{
    match quoted(text) {
        Some(inner) => Ok(Some(Directive::Asciz(Bytes::from_slice(alloc, inner)?))),
        None => Ok(None),
    }
}

#[tactic(auto, unfolding(asm_grammar::specs::Directives::alignment))]
fn alignment(text: &[u8]) -> Option<Alignment>
    ensures { result ≡ alignment text.now }
{
    let value = number_of(text)?;
    let magnitude = value.magnitude?;
    if value.is_negative {
        None
    } else {
        Alignment::from_bytes(magnitude)
    }
}

#[tactic(auto, unfolding(asm_grammar::specs::Directives::copy))]
fn copy(alloc: Global, operands: &[&[u8]]) -> Result<Option<Directive>, AllocError>
    ensures { IfOk result (λ d. d ≡ copy (map (λ operand. trimmed operand.now) operands.now)) }
{
    let [label, size] = operands else {
        return Ok(None);
    };
    let Some(size) = number_of(trimmed(size)) else {
        return Ok(None);
    };
    match name_of(alloc, trimmed(label))? {
        Some(label) => Ok(Some(Directive::Copy(label, size))),
        None => Ok(None),
    }
}

#[tactic(auto, unfolding(asm_grammar::specs::Directives::named))]
fn named(word: NameWord, name: Name) -> Directive
    ensures { result ≡ named word name }
{
    match word {
        NameWord::Soname => Directive::Soname(name),
        NameWord::Needed => Directive::Needed(name),
        NameWord::Entry => Directive::Entry(name),
        NameWord::Export(export) => Directive::Export(export, name),
        NameWord::Weak => Directive::Weak(name),
        NameWord::Version => Directive::Version(name),
        NameWord::Entries(array) => Directive::Entries(array, name),
    }
}

fn sized(word: NumberWord, value: Number) -> Directive
    ensures { result ≡ sized word value }
{
    match word {
        NumberWord::Data(size) => Directive::Data(size, value),
        NumberWord::Zero => Directive::Zero(value),
    }
}

fn lone(word: LoneWord) -> Directive
    ensures { result ≡ lone word }
{
    match word {
        LoneWord::Section(section) => Directive::Section(section),
        LoneWord::Relr => Directive::Relr,
    }
}

fn numbered(word: NumberWord, text: &[u8]) -> Option<Directive>
    ensures { result ≡ option_map (sized word) (number text.now) }
{
    Some(sized(word, number_of(text)?))
}

fn alone(word: LoneWord, text: &[u8]) -> Option<Directive>
    ensures { result ≡ (if length text.now == 0 then Some (lone word) else None) }
{
    if text.is_empty() {
        Some(lone(word))
    } else {
        None
    }
}

fn object_kind(text: &[u8]) -> Option<Directive>
    ensures { result ≡ option_map the.Kind (kind text.now) }
{
    Some(Directive::Kind(kind(text)?))
}

fn hash_kind(text: &[u8]) -> Option<Directive>
    ensures { result ≡ option_map the.Hash (hash text.now) }
{
    Some(Directive::Hash(hash(text)?))
}

fn align(text: &[u8]) -> Option<Directive>
    ensures { result ≡ option_map the.Align (alignment text.now) }
{
    Some(Directive::Align(alignment(text)?))
}

/// The directive of a word with its operands; None where they aren't what it asks for.
///
/// # Errors
///
/// Want of memory.
#[tactic(auto, unfolding(asm_grammar::specs::Directives::directive))]
pub fn directive(
    alloc: Global,
    word: DirectiveWord,
    text: &[u8],
) -> Result<Option<Directive>, AllocError>
    ensures { IfOk result (λ d. d ≡ directive word text.now) }
{
    match word {
        DirectiveWord::Name(word) => match name_of(alloc, text)? {
            Some(name) => Ok(Some(named(word, name))),
            None => Ok(None),
        },
        DirectiveWord::Number(word) => Ok(numbered(word, text)),
        DirectiveWord::Lone(word) => Ok(alone(word, text)),
        DirectiveWord::Kind => Ok(object_kind(text)),
        DirectiveWord::Hash => Ok(hash_kind(text)),
        DirectiveWord::Flags => {
            let words = words_of(alloc, text)?;
            Ok(flags(words.as_slice()))
        }
        DirectiveWord::Symver => {
            let operands = operands_of(alloc, text)?;
            symver(alloc, operands.as_slice())
        }
        DirectiveWord::Need => need(alloc, text),
        DirectiveWord::Dword => doubleword(alloc, text),
        DirectiveWord::Asciz => asciz(alloc, text),
        DirectiveWord::Align => Ok(align(text)),
        DirectiveWord::Copy => {
            let operands = operands_of(alloc, text)?;
            copy(alloc, operands.as_slice())
        }
    }
}
