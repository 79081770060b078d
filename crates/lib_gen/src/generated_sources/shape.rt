//! How much a number makes.

ghost use Rattle.std.specs.Prelude.{◌≡◌, ◌≤◌};
ghost use Rattle.lib_gen.specs.GeneratedSources.Shape.{function_count, library_count};

/// How many libraries there are.
#[tactic(auto, unfolding(crate::specs::GeneratedSources::Shape::library_count))]
pub fn library_count(number: u32) -> u64
    ensures is { result ≡ library_count number }
    ensures some { 8 ≤ result }
    ensures few { result ≤ 64 }
{
    8 + u64::from(number) % 57
}

/// How many functions each library has, but for the last.
#[tactic(auto, unfolding(crate::specs::GeneratedSources::Shape::function_count))]
pub fn function_count(number: u32) -> u64
    ensures is { result ≡ function_count number }
    ensures some { 4 ≤ result }
    ensures few { result ≤ 64 }
{
    4 + u64::from(number) / 64 % 61
}
