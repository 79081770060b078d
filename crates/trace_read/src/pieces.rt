//! Pieces of a line.

ghost use Rattle.std.specs.Prelude.{◌≡◌, ◌≤◌, length, map, option_map};
ghost use Rattle.trace_read.specs.Pieces.{is_mark, until_mark, cut_at, cut, behind, named};

#[tactic(auto, unfolding(crate::specs::Pieces::is_mark))]
fn is_mark(mark: u8, byte: u8) -> bool
    ensures { result ≡ is_mark mark byte }
{
    byte == mark
}

fn until_mark(mark: u8, text: &[u8]) -> usize
    ensures value { result ≡ until_mark mark text.now }
    ensures bound { result ≤ length text.now }
{
    let mut count = 0;
    let mut rest = text;
    while let [byte, others @ ..] = rest
        && !is_mark(mark, *byte)
    {
        count += 1;
        rest = others;
    }
    count
}

fn cut_at(text: &[u8], count: usize) -> Option<(&[u8], &[u8])>
    requires { count ≤ length text.now }
    ensures { option_map (λ p. (p.0.now, p.1.now)) result ≡ cut_at count text.now }
{
    let (front, rest) = text.split_at(count);
    match rest {
        [_, behind @ ..] => Some((front, behind)),
        [] => None,
    }
}

/// What stands before a mark, the first of its kind, and what stands behind it.
#[tactic(auto, unfolding(crate::specs::Pieces::cut))]
pub(crate) fn cut(text: &[u8], mark: u8) -> Option<(&[u8], &[u8])>
    ensures { option_map (λ p. (p.0.now, p.1.now)) result ≡ cut mark text.now }
{
    cut_at(text, until_mark(mark, text))
}

/// What stands behind a label with which a text begins.
#[tactic(auto, unfolding(crate::specs::Pieces::behind))]
pub(crate) fn behind<'a>(text: &'a [u8], label: &[u8]) -> Option<&'a [u8]>
    ensures { option_map (λ rest. rest.now) result ≡ behind label.now text.now }
{
    text.strip_prefix(label)
}

/// What a table has under a word.
pub(crate) fn named<T: Copy>(mut table: &[(&[u8], T)], word: &[u8]) -> Option<T>
    ensures { result ≡ named word.now (map (λ row. (row.0.now, row.1)) table.entry.now) }
{
    while let [row, rest @ ..] = table {
        if word == row.0 {
            return Some(row.1);
        }
        table = rest;
    }
    None
}
