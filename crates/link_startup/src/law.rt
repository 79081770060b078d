//! What holds of each run that has started.

ghost use Rattle.link_startup.specs.Stacks.{StacksAreOwn};
ghost use Rattle.link_startup.specs.Worked.{HasNoProgram, LacksName, LacksNameOfTwo, LooksOn, SharesAStack, StartsInData, StartsTwo, StopsAtData};

use history_calls::one_startup;

/// The sp with which a hart starts is in the stack that is its own, 48 bytes below its end, and a multiple of 16.
pub fn stacks_are_own()
    ensures { StacksAreOwn }
{}

/// Worked starts. Two harts start, each in a stack of its own. A run doesn't start whose program isn't there; nor one
/// of whose names isn't found, and no later name is looked up then; nor one at whose name data stands. A setting
/// of fewer harts than are set up says of no such run how it comes out.
pub fn starts_are_worked()
    ensures two { StartsTwo }
    ensures own_stacks { SharesAStack → ⊥ }
    ensures no_program { HasNoProgram }
    ensures no_name { LacksName }
    ensures no_later { LooksOn → ⊥ }
    ensures of_its_harts { LacksNameOfTwo → ⊥ }
    ensures no_code { StopsAtData }
    ensures not_in_data { StartsInData → ⊥ }
{
    one_startup();
}
