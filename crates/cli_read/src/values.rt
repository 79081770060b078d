//! What the values of options say.

ghost use Rattle.std.specs.Prelude.{◌≡◌, ◌<◌, ◌-◌, ◌^◌, ℕ, List, IfOk, IfSome, IsTrue, None, ◌↔◌};
ghost use Rattle.std.specs.Option.{option_copied};
ghost use Rattle.cli_words.specs.Values.{AreParts, IsFuel, IsNumber, parts_by};
ghost use Rattle.cli_read.specs.Judged.{HasFolders, HasHarts, HasPreloads, parts_in};

use crate::decimals::decimal_number;
use ld_base::{Name, Names};
use std::alloc::{AllocError, Global};

/// How many folders, or names of libraries, there may be.
const MOST_PARTS: usize = 16;
/// How many bytes a folder may have.
const LONGEST_FOLDER: usize = 1000;
/// How many names of harts there may be.
const MOST_HARTS: usize = 15;
/// How many bytes the name of a hart's first function may have.
const LONGEST_HART: usize = 255;
/// How many turns a hart has unless it is said.
const FUEL: u64 = 1_000_000;
/// How many turns a hart may have.
const MOST_FUEL: u64 = 1 << 32;

/// Whether a value is so many parts at most between separators, none empty and none longer.
fn are_parts(value: &str, separator: char, most: usize, longest: usize) -> bool
    requires { separator < 128 }
    ensures { IsTrue result ↔ ((parts : List (List ℕ)) × AreParts separator most longest value.now parts) }
{
    value.split(separator).count() <= most
        && value
            .split(separator)
            .all(|part| !part.is_empty() && part.len() <= longest)
}

/// Whether the value of `--lib` names folders, where it stands.
pub(crate) fn are_folders(value: Option<&str>) -> bool
    ensures { IsTrue result ↔ HasFolders (option_copied value.entry) }
{
    match value {
        None => true,
        Some(value) => are_parts(value, ':', MOST_PARTS, LONGEST_FOLDER),
    }
}

/// Whether the value of `--preload` names libraries, where it stands.
pub(crate) fn are_preloads(value: Option<&str>) -> bool
    ensures { IsTrue result ↔ HasPreloads (option_copied value.entry) }
{
    match value {
        None => true,
        Some(value) => are_parts(value, ':', MOST_PARTS, value.len()),
    }
}

/// Whether the value of `--harts` names the harts' first functions, where it stands.
pub(crate) fn are_harts(value: Option<&str>) -> bool
    ensures { IsTrue result ↔ HasHarts (option_copied value.entry) }
{
    match value {
        None => true,
        Some(value) => are_parts(value, ',', MOST_HARTS, LONGEST_HART),
    }
}

/// The parts of a value between separators.
fn parts_of(alloc: Global, value: &str, separator: char) -> Result<Names, AllocError>
    requires { separator < 128 }
    ensures { IfOk result (λ names. names ≡ parts_by separator value.now) }
{
    let mut names = Names::new(alloc);
    for part in value.split(separator) {
        names.push(Name::new(alloc, part.as_bytes())?)?;
    }
    Ok(names)
}

/// The parts of a value between separators; none where there is no value.
pub(crate) fn parts_in(
    alloc: Global,
    value: Option<&str>,
    separator: char,
) -> Result<Names, AllocError>
    requires { separator < 128 }
    ensures { IfOk result (λ names. names ≡ parts_in separator (option_copied value.entry)) }
{
    match value {
        None => Ok(Names::new(alloc)),
        Some(value) => parts_of(alloc, value, separator),
    }
}

/// How many turns each hart has by `--fuel`, if it is a number that it may be.
pub(crate) fn fuel_of(value: Option<&str>) -> Option<u64>
    ensures is { IfSome result (IsFuel (option_copied value.entry)) }
    ensures none { result ≡ None → (fuel : ℕ) → IsFuel (option_copied value.entry) fuel → ⊥ }
{
    match value {
        None => Some(FUEL),
        Some(text) => {
            decimal_number(text.as_bytes()).filter(|fuel| 0 < *fuel && *fuel <= MOST_FUEL)
        }
    }
}

/// The number of 32 bits that a text is, if it is one.
pub(crate) fn number_of(text: &str) -> Option<u32>
    ensures is { IfSome result (IsNumber 0 (2 ^ 32 - 1) text.now) }
    ensures none { result ≡ None → (number : ℕ) → IsNumber 0 (2 ^ 32 - 1) text.now number → ⊥ }
{
    let number = decimal_number(text.as_bytes())?;
    u32::try_from(number).ok()
}
