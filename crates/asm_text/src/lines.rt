//! The lines of a source.

ghost use Rattle.std.specs.Prelude.{◌≡◌, false, Ok, option_map, IfOk, IfErr, map, length, ◌≤◌};
ghost use Rattle.std.specs.List.{list_all};
ghost use Rattle.asm_grammar.specs.Lines.{is_printed, is_quoted_after};
ghost use Rattle.asm_grammar.specs.Reading.{before_comment, uncommented, labelled, worded, statement, read_statement, read_text, line_of};
ghost use Rattle.asm_grammar.specs.Reading.{read_line, read_lines, lines_of, statements_of};
ghost use Rattle.std.specs.Option.{ok_or};
ghost use Rattle.asm_statement.specs.AsmWords.DirectiveWords.{directive_word};
ghost use Rattle.asm_statement.specs.AsmWords.Mnemonics.{mnemonic};
ghost use Rattle.asm_grammar.specs.Operands.{operands_of, instruction};
ghost use Rattle.asm_grammar.specs.Directives.{directive};
ghost use Rattle.asm_statement.specs.declared.line.Statement.TheVariants as statements;
ghost use Rattle.ld_base.specs.declared.fault.AsmCause.TheVariants as causes;
ghost use Rattle.asm_grammar.specs.Grammar.{SaysSource};
ghost use Rattle.asm_text.specs.Faults.{TellsOfLine, TellsOfLines, TellsOfSource, TellsOf};

use crate::asm_directives::directive;
use crate::asm_operands::instruction;
use crate::asm_parts::operands_of;
use asm_statement::{
    AsmFault, DirectiveWord, Form, Line, Statement, Statements, after_blanks, cut, cut_blank,
    directive_word, is_name, mnemonic, trimmed,
};
use ld_base::{AsmCause, Name};
use std::alloc::{AllocError, Global};

/// How many bytes a source may have.
const LONGEST_SOURCE: usize = 1 << 20;

#[tactic(auto, unfolding(asm_grammar::specs::Lines::is_printed))]
fn is_printed(byte: u8) -> bool
    ensures { result ≡ is_printed byte }
{
    byte == b'\t' || (b' '..=b'~').contains(&byte)
}

fn is_quoted_after(is_quoted: bool, byte: u8) -> bool
    ensures { result ≡ is_quoted_after is_quoted byte }
{
    if byte == b'"' { !is_quoted } else { is_quoted }
}

fn before_comment(line: &[u8]) -> usize
    ensures value { result ≡ before_comment false line.now }
    ensures bound { result ≤ length line.now }
{
    let mut count = 0;
    let mut is_quoted = false;
    let mut rest = line;
    while let [byte, others @ ..] = rest
        && (is_quoted || *byte != b'#')
    {
        is_quoted = is_quoted_after(is_quoted, *byte);
        count += 1;
        rest = others;
    }
    count
}

fn uncommented(line: &[u8]) -> &[u8]
    ensures { result.now ≡ uncommented line.now }
{
    &line[..before_comment(line)]
}

fn labelled(text: &[u8]) -> (Option<&[u8]>, &[u8])
    ensures { (option_map (λ label. label.now) result.0, result.1.now) ≡ labelled text.now }
{
    match cut(text, b':') {
        Some((label, rest)) if is_name(label) => (Some(label), after_blanks(rest)),
        _ => (None, text),
    }
}

fn worded(text: &[u8]) -> (&[u8], &[u8])
    ensures { (result.0.now, result.1.now) ≡ worded text.now }
{
    match cut_blank(text) {
        Some((word, rest)) => (word, after_blanks(rest)),
        None => (text, b"".as_slice()),
    }
}

fn directive_of(
    alloc: Global,
    word: DirectiveWord,
    text: &[u8],
) -> Result<Result<Statement, AsmCause>, AllocError>
    ensures { IfOk result (λ s. s ≡ ok_or (option_map statements.Directive (directive word text.now)) causes.BadOperand) }
{
    match directive(alloc, word, text)? {
        Some(directive) => Ok(Ok(Statement::Directive(directive))),
        None => Ok(Err(AsmCause::BadOperand)),
    }
}

fn instruction_of(
    alloc: Global,
    form: Form,
    text: &[u8],
) -> Result<Result<Statement, AsmCause>, AllocError>
    ensures { IfOk result (λ s. s ≡ ok_or (option_map statements.Instruction (instruction form (operands_of text.now))) causes.BadOperand) }
{
    let operands = operands_of(alloc, text)?;
    match instruction(alloc, form, operands.as_slice())? {
        Some(instruction) => Ok(Ok(Statement::Instruction(instruction))),
        None => Ok(Err(AsmCause::BadOperand)),
    }
}

#[tactic(auto, unfolding(asm_grammar::specs::Reading::statement))]
fn statement(
    alloc: Global,
    word: &[u8],
    text: &[u8],
) -> Result<Result<Statement, AsmCause>, AllocError>
    ensures { IfOk result (λ s. s ≡ statement (directive_word word.now) (mnemonic word.now) text.now) }
{
    if let Some(word) = directive_word(word) {
        return directive_of(alloc, word, text);
    }
    match mnemonic(word) {
        Some(form) => instruction_of(alloc, form, text),
        None => Ok(Err(AsmCause::UnknownWord)),
    }
}

#[tactic(auto, unfolding(asm_grammar::specs::Reading::read_statement))]
fn read_statement(alloc: Global, text: &[u8]) -> Result<Result<Statement, AsmCause>, AllocError>
    ensures { IfOk result (λ s. s ≡ read_statement text.now) }
{
    let (word, operands) = worded(text);
    if is_name(word) {
        statement(alloc, word, operands)
    } else {
        Ok(Err(AsmCause::BadStatement))
    }
}

#[tactic(auto, unfolding(asm_grammar::specs::Reading::read_text))]
fn read_text(alloc: Global, text: &[u8]) -> Result<Result<Option<Statement>, AsmCause>, AllocError>
    ensures { IfOk result (λ s. s ≡ read_text text.now) }
{
    if text.is_empty() {
        return Ok(Ok(None));
    }
    match read_statement(alloc, text)? {
        Ok(statement) => Ok(Ok(Some(statement))),
        Err(cause) => Ok(Err(cause)),
    }
}

fn label_name(alloc: Global, label: Option<&[u8]>) -> Result<Option<Name>, AllocError>
    ensures { IfOk result (λ n. n ≡ option_map (λ text. text.now) label.entry) }
{
    match label {
        Some(label) => Ok(Some(Name::new(alloc, label)?)),
        None => Ok(None),
    }
}

#[tactic(auto, unfolding(asm_grammar::specs::Reading::line_of))]
fn line_of(
    alloc: Global,
    label: Option<&[u8]>,
    text: &[u8],
) -> Result<Result<Line, AsmCause>, AllocError>
    ensures { IfOk result (λ read. read ≡ line_of (option_map (λ text. text.now) label.entry) text.now) }
{
    let label = label_name(alloc, label)?;
    match read_text(alloc, text)? {
        Ok(statement) => Ok(Ok(Line { label, statement })),
        Err(cause) => Ok(Err(cause)),
    }
}

fn are_printed(line: &[u8]) -> bool
    ensures { result ≡ list_all is_printed line.now }
{
    line.iter().all(|byte| is_printed(*byte))
}

#[tactic(auto, unfolding(asm_grammar::specs::Reading::read_line))]
fn read_line(alloc: Global, line: &[u8]) -> Result<Result<Line, AsmCause>, AllocError>
    ensures { IfOk result (λ read. read ≡ read_line line.now) }
{
    if !are_printed(line) {
        return Ok(Err(AsmCause::BadStatement));
    }
    let (label, text) = labelled(trimmed(uncommented(line)));
    line_of(alloc, label, text)
}

fn lines_of(alloc: Global, source: &[u8]) -> Result<Vec<&[u8]>, AllocError>
    ensures { IfOk result (λ lines. map (λ line. line.now) lines.items ≡ lines_of source.now) }
{
    source.split(|byte| *byte == b'\n').collect(alloc)
}

fn line_at(alloc: Global, number: u64, line: &[u8]) -> Result<Line, AsmFault>
    ensures line { IfOk result (λ read. read_line line.now ≡ Ok read) }
    ensures refused { IfErr result (TellsOfLine number line.now) }
{
    match read_line(alloc, line)? {
        Ok(read) => Ok(read),
        Err(cause) => Err(AsmFault::At(number, cause)),
    }
}

#[tactic(auto, using(crate::proofs::Reading::read_rules))]
fn read_lines(alloc: Global, lines: &[&[u8]]) -> Result<Statements, AsmFault>
    ensures statements { IfOk result (λ statements. read_lines 1 (map (λ line. line.now) lines.now) ≡ Ok statements) }
    ensures refused { IfErr result (TellsOfLines (map (λ line. line.now) lines.now)) }
{
    let mut statements = Statements::new(alloc);
    let mut number = 1;
    let mut rest = lines;
    while let [line, others @ ..] = rest {
        let read = line_at(alloc, number, line)?;
        statements.push(read)?;
        number += 1;
        rest = others;
    }
    Ok(statements)
}

#[tactic(auto, unfolding(asm_grammar::specs::Reading::statements_of))]
fn read_source(alloc: Global, source: &[u8]) -> Result<Statements, AsmFault>
    ensures statements { IfOk result (λ statements. statements_of source.now ≡ Ok statements) }
    ensures refused { IfErr result (TellsOfSource source.now) }
{
    if source.len() > LONGEST_SOURCE {
        return Err(AsmFault::At(0, AsmCause::TooBig));
    }
    let lines = lines_of(alloc, source)?;
    read_lines(alloc, lines.as_slice())
}

/// The statements of a source, line by line.
///
/// # Errors
///
/// The first line that is none of the grammar, and why, or line 0 for a source of more than 1 MiB;
/// or want of memory.
pub fn parse(alloc: Global, source: &[u8]) -> Result<Statements, AsmFault>
    ensures says { IfOk result (SaysSource source.now) }
    ensures refused { IfErr result (TellsOf source.now) }
{
    asm_grammar::one_source();
    read_source(alloc, source)
}
