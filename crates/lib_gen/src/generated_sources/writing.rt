//! The text of the sources.

ghost use Rattle.std.specs.Prelude.{◌≡◌, ◌^◌, ◌<◌, ◌++◌, IfOk, OnOk, flat_map};
ghost use Rattle.std.specs.List.{range_with_len};
ghost use Rattle.std.specs.String.{string_bytes};
ghost use Rattle.lib_gen.specs.GeneratedSources.Sources.{calls_from, function_lines, library_file, library_source, needed_line, program_file};
ghost use Rattle.lib_gen.specs.GeneratedSources.Sources.{program_source, sources};

use crate::generated_sources::{function_count, library_count};
use ld_base::{Bytes, File, Files, Name};
use std::alloc::{AllocError, Global};

/// Writes that a library is needed, if it is there.
fn write_needed(text: &mut String, libraries: u64, needed: u64) -> Result<(), AllocError>
    ensures { OnOk result (string_bytes text.new ≡ string_bytes text.old ++ needed_line libraries needed) }
{
    if needed < libraries {
        write!(text, ".needed lib{needed}.so\n")
    } else {
        Ok(())
    }
}

/// Writes the functions of a library.
#[tactic(auto, using(crate::proofs::GeneratedSources::Ranges::functions_more))]
fn write_functions(text: &mut String, index: u64, functions: u64) -> Result<(), AllocError>
    ensures { OnOk result (string_bytes text.new ≡ string_bytes text.old ++ flat_map (function_lines index) (range_with_len 0 functions)) }
{
    for function in 0..functions {
        write!(
            text,
            ".global f_{index}_{function}\nf_{index}_{function}: tail g\n"
        )?;
    }
    Ok(())
}

/// Writes the source of a library.
fn write_library(
    text: &mut String,
    libraries: u64,
    functions: u64,
    index: u64,
) -> Result<(), AllocError>
    requires { index < 2 ^ 32 }
    ensures { OnOk result (string_bytes text.new ≡ string_bytes text.old ++ library_source libraries functions index) }
{
    let answer = index + 1;
    write!(text, ".soname lib{index}.so\n")?;
    write_needed(text, libraries, 2 * index + 1)?;
    write_needed(text, libraries, 2 * index + 2)?;
    write_functions(text, index, functions)?;
    write!(text, ".global g\ng: li a0, {answer}\nret\n")
}

/// Writes the calls of all functions.
#[tactic(auto, using(crate::proofs::GeneratedSources::Ranges::calls_more))]
fn write_calls(text: &mut String, number: u64, functions: u64, calls: u64) -> Result<(), AllocError>
    requires number { number < 2 ^ 32 }
    requires functions { 0 < functions }
    requires calls { calls < 2 ^ 32 }
    ensures { OnOk result (string_bytes text.new ≡ string_bytes text.old ++ calls_from functions number calls) }
{
    for place in 0..calls {
        let called = (place + number) % calls;
        let library = called / functions;
        let function = called % functions;
        write!(text, "call f_{library}_{function}\nadd s0, s0, a0\n")?;
    }
    Ok(())
}

/// Writes the source of the program.
fn write_program(text: &mut String, number: u32) -> Result<(), AllocError>
    ensures { OnOk result (string_bytes text.new ≡ string_bytes text.old ++ program_source number) }
{
    let functions = function_count(number);
    let calls = library_count(number) * functions;
    write!(text, ".kind prog\n.needed lib0.so\n_start: li s0, 0\n")?;
    write_calls(text, u64::from(number), functions, calls)?;
    write!(text, "mv a0, s0\nli a7, 93\necall\n")
}

/// The file of a library.
fn library_file(alloc: Global, number: u32, index: u64) -> Result<File, AllocError>
    requires { index < 2 ^ 32 }
    ensures { IfOk result (λ file. file ≡ library_file number index) }
{
    let mut text = String::new(alloc);
    write_library(
        &mut text,
        library_count(number),
        function_count(number),
        index,
    )?;
    let path = format!(in alloc; "lib/lib{index}.so")?;
    Ok(File {
        path: Name::new(alloc, path.as_bytes())?,
        bytes: Bytes::from_slice(alloc, text.as_bytes())?,
    })
}

/// The file of the program.
fn program_file(alloc: Global, number: u32) -> Result<File, AllocError>
    ensures { IfOk result (λ file. file ≡ program_file number) }
{
    let mut text = String::new(alloc);
    write_program(&mut text, number)?;
    Ok(File {
        path: Name::new(alloc, b"gen")?,
        bytes: Bytes::from_slice(alloc, text.as_bytes())?,
    })
}

/// The sources of the libraries that a number makes, each at its library's path, and of the program.
///
/// # Errors
///
/// Want of memory.
#[tactic(auto, unfolding(crate::specs::GeneratedSources::Sources::sources), using(crate::proofs::GeneratedSources::Ranges::files_more))]
pub fn sources(alloc: Global, number: u32) -> Result<Files, AllocError>
    ensures { IfOk result (λ files. files ≡ sources number) }
{
    let mut files = Files::new(alloc);
    for index in 0..library_count(number) {
        files.push(library_file(alloc, number, index)?)?;
    }
    files.push(program_file(alloc, number)?)?;
    Ok(files)
}
