//! What a verdict on a file means.

ghost use Rattle.std.specs.Prelude.{◌≡◌, ◌↔◌, ◌≤◌, ℕ, Ok, Err, List, length};
ghost use Rattle.ld_base.specs.declared.fault.NotAccepted.{NotAccepted};
ghost use Rattle.ld_base.specs.declared.parts.Head.{Head};
ghost use Rattle.elf_head.specs.Accepted.{AllFit};
ghost use Rattle.elf_head.specs.Rules.{head_verdict};
ghost use Rattle.elf_head.specs.Verdict.{BreaksFirst, SpellsHead};

/// Every file has one verdict: either it breaks no rule, and one record alone has each of its
/// fields, or one rule is the least that it breaks, with one number.
pub fn one_verdict()
    ensures accepted { (bytes : List ℕ) (head : Head) → (head_verdict bytes ≡ Ok head) ↔ SpellsHead bytes head }
    ensures refused { (bytes : List ℕ) (fault : NotAccepted) → (head_verdict bytes ≡ Err fault) ↔ BreaksFirst bytes fault }
{}

/// The head of an accepted file has segments that fit into the file and into the first 4 GiB of
/// addresses, and the file has at most 8 MiB.
#[tactic(auto, using(crate::proofs::Accepted::all_fit, crate::proofs::Accepted::file_limit))]
pub fn accepted_head()
    ensures segments { (bytes : List ℕ) (head : Head) → head_verdict bytes ≡ Ok head → AllFit (length bytes) head.headers }
    ensures size { (bytes : List ℕ) (head : Head) → head_verdict bytes ≡ Ok head → length bytes ≤ 8_388_608 }
{}
