//! The line that sums up a run.

ghost use Rattle.std.specs.Prelude.{◌≡◌, [], ◌∷◌, ◌++◌, IfOk, OnOk};
ghost use Rattle.std.specs.String.{string_bytes};
ghost use Rattle.lib_gen.specs.GeneratedSources.Shape.{symbol_count};
ghost use Rattle.lib_gen.specs.Summary.{run_words, set_words, summary_line};

use crate::generated_sources::{function_count, library_count};
use std::alloc::{AllocError, Global};
use std::fmt;
use trace_text::Counts;

/// The code with which a run exited, as its summary says it.
#[derive(Clone, Copy)]
struct ExitWord(Option<u64>);

impl fmt::Display for ExitWord {
    ghost use Rattle.std.specs.Prelude.{Some};
    ghost use Rattle.lib_gen.specs.Summary.{exit_word};

    ghost output = { λ w. Some (exit_word w.0) };

    fn fmt<W: fmt::Write>(&self, f: &mut fmt::Formatter<W>) -> fmt::Result {
        match self.0 {
            Some(code) => write!(f, "{code}"),
            None => write!(f, "-"),
        }
    }
}

/// How many symbols the libraries export.
fn symbol_count(number: u32) -> u64
    ensures { result ≡ symbol_count number }
{
    library_count(number) * (function_count(number) + 1)
}

/// Writes how large the set of a number is.
fn write_set(text: &mut String, number: u32) -> Result<(), AllocError>
    ensures { OnOk result (string_bytes text.new ≡ string_bytes text.old ++ set_words number) }
{
    let libraries = library_count(number);
    let symbols = symbol_count(number);
    write!(
        text,
        "gen {number} libs={libraries} symbols={symbols} slots={symbols}"
    )
}

/// Writes what a run came to.
fn write_run(text: &mut String, counts: Counts, code: Option<u64>) -> Result<(), AllocError>
    ensures { OnOk result (string_bytes text.new ≡ string_bytes text.old ++ (run_words counts code ++ 10 ∷ [])) }
{
    let Counts { grants, bound, .. } = counts;
    let exit = ExitWord(code);
    writeln!(text, " grants={grants} bound={bound} exit={exit}")
}

/// The line that sums up the run of a set: the set's number, how many libraries, symbols and slots it has,
/// how many slots the journal grants and binds, and the code with which the run exited, if it did.
///
/// # Errors
///
/// Want of memory.
#[tactic(auto, unfolding(crate::specs::Summary::summary_line))]
pub fn summary_line(
    alloc: Global,
    number: u32,
    counts: Counts,
    code: Option<u64>,
) -> Result<String, AllocError>
    ensures { IfOk result (λ line. string_bytes line ≡ summary_line number counts code) }
{
    let mut line = String::new(alloc);
    write_set(&mut line, number)?;
    write_run(&mut line, counts, code)?;
    Ok(line)
}
