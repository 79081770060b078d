//! The indexes of versions, before they are cut to the bits that a table has for them.

ghost use Rattle.std.specs.Prelude.{◌≡◌, ◌+◌, ◌^◌, ◌<◌, List};
ghost use Rattle.asm_statement.specs.declared.line.Line.{Line};
ghost use Rattle.asm_layout.specs.Versions.{defined_number, first_needed};
ghost use Rattle.asm_uses.specs.Uses.{AreUsesOf};

use asm_uses::Uses;

/// The index of a version that the object defines.
pub fn defined_number(uses: &Uses, version: &[u8]) -> u128
    ensures value { (lines : List Line) → AreUsesOf lines uses.now → result ≡ defined_number lines version.now }
    ensures bound { result < 2 ^ 65 }
{
    2 + uses.versions.number(version).unwrap_or(0) as u128
}

/// The index of the first version that the object needs.
pub fn first_needed(uses: &Uses) -> u128
    ensures value { (lines : List Line) → AreUsesOf lines uses.now → result ≡ first_needed lines }
    ensures bound { result < 2 ^ 65 }
{
    2 + uses.versions.len() as u128
}
