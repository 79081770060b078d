//! Reading the head.

ghost use Rattle.std.specs.Prelude.{◌≡◌};
ghost use Rattle.elf_head.specs.AcceptancePart.Broken.{first_broken};
ghost use Rattle.elf_head.specs.AcceptancePart.Gives.{Answers, Gives};
ghost use Rattle.elf_head.specs.Header.{headers_of};
ghost use Rattle.elf_head.specs.Rules.{file_rules, head_of, head_verdict};
ghost use Rattle.elf_head.specs.Verdict.{BreaksFirst, SpellsHead};

use crate::elf_header::{broken_header_rule, kind_of};
use crate::program_headers::read_headers;
use crate::segments::bad_segment;
use crate::verdict::one_verdict;
use ld_base::{Head, Header, NotAccepted, ReadFault, field64};
use std::alloc::Global;

/// The most bytes of a file.
const MAX_FILE: usize = 8 << 20;

/// Reads the ELF header and the program headers of a file.
///
/// # Errors
///
/// The first of the rules 1 to 9 that the file breaks, with its number, or want of memory.
#[tactic(auto, using(crate::proofs::Law::head_answers))]
pub fn read_head(alloc: Global, bytes: &[u8]) -> Result<Head, ReadFault>
    ensures answers { Answers (SpellsHead bytes.now) (BreaksFirst bytes.now) result }
    ensures verdict { Gives result (head_verdict bytes.now) }
{
    one_verdict();
    read_rules(alloc, bytes)
}

/// Reads the head as the rules are tried, one after the other.
#[tactic(auto, using(crate::proofs::Verdicts::verdicts), unfolding(crate::specs::Rules::head_of, crate::specs::Rules::head_verdict))]
fn read_rules(alloc: Global, bytes: &[u8]) -> Result<Head, ReadFault>
    ensures { Gives result (head_verdict bytes.now) }
{
    if let Some(broken) = broken_header_rule(bytes) {
        return Err(ReadFault::NotAccepted(broken));
    }
    let headers = read_headers(alloc, bytes)?;
    if let Some(broken) = broken_file_rule(bytes, headers.as_slice()) {
        return Err(ReadFault::NotAccepted(broken));
    }
    Ok(Head {
        kind: kind_of(bytes),
        entry: field64(bytes, 24),
        headers,
    })
}

/// The first of the rules 8 and 9 that the file breaks.
fn broken_file_rule(bytes: &[u8], headers: &[Header]) -> Option<NotAccepted>
    requires { headers.now ≡ headers_of bytes.now }
    ensures { result ≡ first_broken 8 (file_rules bytes.now) }
{
    if let Some(index) = bad_segment(headers, bytes.len() as u64) {
        return Some(NotAccepted {
            rule: 8,
            number: index as u64,
        });
    }
    if bytes.len() > MAX_FILE {
        return Some(NotAccepted { rule: 9, number: 0 });
    }
    None
}
