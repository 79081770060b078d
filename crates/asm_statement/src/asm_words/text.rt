//! Text.

ghost use Rattle.std.specs.Prelude.{◌≡◌, ◌≤◌, IfOk, map, length, option_map};
ghost use Rattle.asm_statement.specs.AsmWords.Text.{is_blank, after_blanks, before_blanks, trimmed, is_mark, until_mark, until_blank, cut_at, cut};
ghost use Rattle.asm_statement.specs.AsmWords.Text.{cut_blank, parts_of};

use std::alloc::{AllocError, Global};

/// Whether this is a space or a tab.
#[tactic(auto, unfolding(crate::specs::AsmWords::Text::is_blank))]
pub fn is_blank(byte: u8) -> bool
    ensures { result ≡ is_blank byte }
{
    byte == b' ' || byte == b'\t'
}

/// What stands behind the blanks at a text's start.
pub fn after_blanks(mut text: &[u8]) -> &[u8]
    ensures { result.now ≡ after_blanks text.now }
{
    while let [byte, rest @ ..] = text
        && is_blank(*byte)
    {
        text = rest;
    }
    text
}

fn before_blanks(mut text: &[u8]) -> &[u8]
    ensures { result.now ≡ before_blanks text.now }
{
    while let [front @ .., byte] = text
        && is_blank(*byte)
    {
        text = front;
    }
    text
}

/// A text without the blanks around it.
pub fn trimmed(text: &[u8]) -> &[u8]
    ensures { result.now ≡ trimmed text.now }
{
    before_blanks(after_blanks(text))
}

#[tactic(auto, unfolding(crate::specs::AsmWords::Text::is_mark))]
fn is_mark(mark: u8, byte: u8) -> bool
    ensures { result ≡ is_mark mark byte }
{
    byte == mark
}

fn until_mark(mark: u8, text: &[u8]) -> usize
    ensures value { result ≡ until_mark mark text.now }
    ensures bound { result ≤ length text.now }
{
    let mut count = 0;
    let mut rest = text;
    while let [byte, others @ ..] = rest
        && !is_mark(mark, *byte)
    {
        count += 1;
        rest = others;
    }
    count
}

fn until_blank(text: &[u8]) -> usize
    ensures value { result ≡ until_blank text.now }
    ensures bound { result ≤ length text.now }
{
    let mut count = 0;
    let mut rest = text;
    while let [byte, others @ ..] = rest
        && !is_blank(*byte)
    {
        count += 1;
        rest = others;
    }
    count
}

fn cut_at(text: &[u8], count: usize) -> Option<(&[u8], &[u8])>
    requires { count ≤ length text.now }
    ensures { option_map (λ p. (p.0.now, p.1.now)) result ≡ cut_at count text.now }
{
    let (front, rest) = text.split_at(count);
    match rest {
        [_, behind @ ..] => Some((front, behind)),
        [] => None,
    }
}

/// What stands before a mark, the first of its kind, and what stands behind it.
pub fn cut(text: &[u8], mark: u8) -> Option<(&[u8], &[u8])>
    ensures { option_map (λ p. (p.0.now, p.1.now)) result ≡ cut mark text.now }
{
    cut_at(text, until_mark(mark, text))
}

/// What stands before the first blank, and what stands behind it.
pub fn cut_blank(text: &[u8]) -> Option<(&[u8], &[u8])>
    ensures { option_map (λ p. (p.0.now, p.1.now)) result ≡ cut_blank text.now }
{
    cut_at(text, until_blank(text))
}

/// What stands between commas.
///
/// # Errors
///
/// Want of memory.
pub fn parts_of(alloc: Global, text: &[u8]) -> Result<Vec<&[u8]>, AllocError>
    ensures { IfOk result (λ parts. map (λ part. part.now) parts.items ≡ parts_of text.now) }
{
    text.split(|byte| *byte == b',').collect(alloc)
}
