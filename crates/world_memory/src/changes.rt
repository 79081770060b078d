//! What the events of a turn change.

ghost use Rattle.std.specs.Prelude.{◌≡◌, List, ◌++◌, length};
ghost use Rattle.ld_base.specs.declared.linking.Loaded.{Loaded};
ghost use Rattle.history_event.specs.declared.event.Event.{Event};
ghost use Rattle.history_event.specs.declared.event.Range.{Range};
ghost use Rattle.history_state.specs.After.{after};
ghost use Rattle.history_state.specs.Legal.{Legal};
ghost use Rattle.history_state.specs.Memory.{covers};
ghost use Rattle.history_state.specs.Setting.{Setting};
ghost use Rattle.history_state.specs.State.{State};
ghost use Rattle.history_calls.specs.Served.{AreImages, AreInstalls, AreWordsOf};
ghost use Rattle.world_memory.specs.Pages.{AreGuest, IsGuest, RemakesAt, RemakesEach, objects_first, word_over, released_word, reserved_word};
ghost use Rattle.rv_hart.specs.Doublewords.{raised, with_word_at, word_at};
ghost use Rattle.world_memory.specs.TurnAnswers.Changes.{Changes};
ghost use Rattle.world_turns.specs.Memory.{RemakesAll, lowest, word_count};

use crate::PlainMemory;
use crate::memory::{PAGE_COUNT, PAGE_WORDS};
use crate::turn_answers::MemoryChange;
use history_calls::Installs;
use history_event::Range;
use ld_base::Role;
use rv_hart::Doubleword;
use seg_image::{Image, Word};

/// A version counts modulo this.
const VERSIONS: u64 = 1 << 60;

impl PlainMemory {
    /// Makes the change that the events of a turn come to: pages are put there with their words and roles,
    /// or lose their roles. `made` is what the linker's state has made last, behind the events. It takes a
    /// step for each doubleword of these pages.
    pub fn apply(&mut self, change: &MemoryChange, made: &Installs)
        ensures { (w : Setting) (past given : List Event) → Legal w (past ++ given) → Changes (after past) given made.now change.now
            → RemakesAll (after past) given self.old self.new }
    {
        match change {
            MemoryChange::Nothing => {}
            MemoryChange::Installs(installs) => self.install(installs),
            MemoryChange::Made => self.install(made),
            MemoryChange::Removes(ranges) => self.release(ranges.as_slice()),
        }
    }

    /// Puts what is installed there: first objects, then areas.
    fn install(&mut self, installs: &Installs)
        ensures { (s : State) (added : List Loaded) (ranges : List Range) → AreInstalls s added ranges installs.now → AreGuest ranges
            → RemakesEach (reserved_word s) (objects_first ranges) self.old self.new }
    {
        self.put_images(installs.images.as_slice());
        self.put_images(installs.areas.as_slice());
    }

    /// Puts images there.
    fn put_images(&mut self, images: &[Image])
        ensures { (s : State) (ranges : List Range) → AreImages s ranges images.now → AreGuest ranges
            → RemakesEach (reserved_word s) ranges self.old self.new }
    {
        for image in images {
            self.put_words(image.start, image.words.as_slice());
        }
    }

    /// Puts words there, from an address on.
    fn put_words(&mut self, start: u64, words: &[Word])
        ensures { (s : State) (r : Range) → AreWordsOf s r (record { start = start; words = words.now }) → IsGuest r
            → RemakesAt (λ a. covers a r) (reserved_word s) self.old self.new }
    {
        for (index, word) in words.iter().enumerate() {
            self.put_word(start.wrapping_add(8 * index as u64), *word);
        }
    }

    /// Puts a word there, with its role.
    fn put_word(&mut self, address: u64, word: Word)
        ensures put { self.new ≡ with_word_at lowest self.old address (word_over word (word_at lowest self.old address)) }
        ensures whole { length self.old ≡ word_count }
    {
        let Word { value, role } = word;
        let version = raised(self.word(address).version);
        let put = Doubleword {
            value,
            role,
            version,
        };
        self.put(address, put);
    }

    /// Takes away the pages of these ranges.
    fn release(&mut self, ranges: &[Range])
        ensures { AreGuest ranges.now → RemakesEach released_word ranges.now self.old self.new }
    {
        for range in ranges {
            self.release_pages(*range);
        }
    }

    /// Takes away the pages of a range, of which guest memory has no more than it has pages.
    fn release_pages(&mut self, range: Range)
        ensures { IsGuest range → RemakesAt (λ a. covers a range) released_word self.old self.new }
    {
        for index in 0..PAGE_WORDS * range.pages.min(PAGE_COUNT) {
            self.release_word(range.address.wrapping_add(8 * index));
        }
    }

    /// Takes away the role of a doubleword.
    fn release_word(&mut self, address: u64)
        ensures put { self.new ≡ with_word_at lowest self.old address (released_word address (word_at lowest self.old address)) }
        ensures whole { length self.old ≡ word_count }
    {
        let mut word = self.word(address);
        word.role = Role::None;
        word.version = raised(word.version);
        self.put(address, word);
    }
}

/// The version after this one.
fn raised(version: u64) -> u64
    ensures { result ≡ raised version }
{
    version.wrapping_add(1) % VERSIONS
}
