//! Words that are put into memory.

ghost use Rattle.std.specs.Prelude.{◌≡◌, ◌≢◌, ℕ, ◌+◌, ◌*◌, ◌≤◌, ◌↔◌, Some, IfNone, IfSome, IsTrue};
ghost use Rattle.std.specs.List.{slice_get};
ghost use Rattle.ld_base.specs.declared.linking.Role.TheVariants.{None as NoRole, Slot as SlotRole};
ghost use Rattle.seg_image.specs.declared.image.Word.{Word};
ghost use Rattle.word_rule.specs.Layout.{place_of};
ghost use Rattle.word_rule.specs.Views.{kept_at};
ghost use Rattle.history_memory.specs.Memory.{IsDoubleword};
ghost use Rattle.word_installs.specs.Installed.{HasWord, IsInstalled, MayInstall, MayPut, MayPutSlot, MayPutSlots, MayPutWords};
ghost use Rattle.word_installs.specs.Installed.{OfImages, OfSlot, OfSlots, OfWord, OfWords, Puts, is_plain};

use crate::unmapping::raise_generation;
use history_calls::{Installs, SlotWord};
use ld_base::Role;
use seg_image::{Image, Word};
use word_memory::{KeeperSeat, Memory, Naming, set_word};

/// Puts words into memory where nothing was: first all words but slots, of objects and of areas, and then
/// the slots, each with its lazy word. The generation is set last, where it rose.
///
/// It takes no memory and doesn't wait.
pub fn install<J: Naming>(
    memory: &Memory<J>,
    keeper: &mut KeeperSeat<J>,
    installs: &Installs,
    generation: u64,
)
    requires may { MayInstall keeper.old installs.now }
    requires rises { keeper.old.generation ≤ generation }
    ensures installed { IsInstalled installs.now keeper.old keeper.new }
    ensures generation { keeper.new.generation ≡ generation }
{
    let images = installs.images.as_slice();
    put_images(memory, keeper, images);
    put_images(memory, keeper, installs.areas.as_slice());
    put_slots(memory, keeper, images, installs.slots.as_slice());
    raise_generation(memory, keeper, generation);
}

/// Puts the words of images there, all but slots.
fn put_images<J: Naming>(memory: &Memory<J>, keeper: &mut KeeperSeat<J>, images: &[Image])
    requires { MayPut keeper.old images.now }
    ensures { Puts (OfImages images.now) keeper.old keeper.new }
{
    for image in images {
        put_words(memory, keeper, image.start, image.words.as_slice());
    }
}

/// Puts words there, from an address on, all but slots.
fn put_words<J: Naming>(memory: &Memory<J>, keeper: &mut KeeperSeat<J>, start: u64, words: &[Word])
    requires { MayPutWords keeper.old start words.now }
    ensures { Puts (OfWords start words.now) keeper.old keeper.new }
{
    for (index, word) in words.iter().enumerate() {
        put_word(memory, keeper, start + 8 * index as u64, *word);
    }
}

/// Puts a word there, unless it is a slot or has no role.
fn put_word<J: Naming>(memory: &Memory<J>, keeper: &mut KeeperSeat<J>, address: u64, word: Word)
    requires placed { IsDoubleword address }
    requires free { (kept_at keeper.old (place_of address)).role ≡ NoRole }
    ensures { Puts (OfWord address word) keeper.old keeper.new }
{
    if is_plain(word.role) {
        let _ = set_word(memory, keeper, address, word.value, word.role, 0);
    }
}

/// Whether harts may read, run or write a word of this role as it is.
fn is_plain(role: Role) -> bool
    ensures { result ≡ is_plain role }
{
    matches!(role, Role::Ro | Role::Rx | Role::Rw)
}

/// Puts slots there, whose words are those of these images.
fn put_slots<J: Naming>(
    memory: &Memory<J>,
    keeper: &mut KeeperSeat<J>,
    images: &[Image],
    slots: &[SlotWord],
)
    requires { MayPutSlots keeper.old images.now slots.now }
    ensures { Puts (OfSlots images.now slots.now) keeper.old keeper.new }
{
    for slot in slots {
        put_slot(memory, keeper, images, *slot);
    }
}

/// Puts a slot there.
fn put_slot<J: Naming>(
    memory: &Memory<J>,
    keeper: &mut KeeperSeat<J>,
    images: &[Image],
    slot: SlotWord,
)
    requires { MayPutSlot keeper.old images.now slot }
    ensures { Puts (OfSlot images.now slot) keeper.old keeper.new }
{
    if let Some(word) = word_at(images, slot.address) {
        if is_slot_role(word.role) {
            let _ = set_word(
                memory,
                keeper,
                slot.address,
                word.value,
                Role::Slot,
                slot.lazy,
            );
        }
    }
}

/// Whether it is the role of a slot.
fn is_slot_role(role: Role) -> bool
    ensures { IsTrue result ↔ role ≡ SlotRole }
{
    matches!(role, Role::Slot)
}

/// The word of these images that stands at an address.
fn word_at(images: &[Image], address: u64) -> Option<Word>
    ensures found { IfSome result (HasWord images.now address) }
    ensures none { IfNone result ((word : Word) → HasWord images.now address word → ⊥) }
{
    for image in images {
        if let Some(word) = word_in(image, address) {
            return Some(word);
        }
    }
    None
}

/// The word of an image that stands at an address.
fn word_in(image: &Image, address: u64) -> Option<Word>
    ensures found { IfSome result (λ word. (j : ℕ) × (slice_get image.now.words j ≡ Some word) × (address ≡ image.now.start + 8 * j)) }
    ensures none { IfNone result ((j : ℕ) (word : Word) → slice_get image.now.words j ≡ Some word → address ≢ image.now.start + 8 * j) }
{
    let offset = address.checked_sub(image.start)?;
    if offset % 8 != 0 {
        return None;
    }
    image.words.as_slice().get((offset / 8) as usize).copied()
}
