//! The words of packed relative relocations (gABI, "Relative Relocation Table").

ghost use Rattle.std.specs.Prelude.{◌≡◌, ◌<◌, ℕ, suc, IfOk, Some, None};
ghost use Rattle.asm_write.specs.Relr.{is_in_map, bit_of, with_place, map_of, mapped_count, relr_words};
ghost use Rattle.asm_write.specs.Packing.{left};

use std::alloc::{AllocError, Global};

/// How many bytes an odd word stands for.
const REACH: u128 = 504;

fn is_in_map(base: u128, place: u64) -> bool
    ensures { result ≡ is_in_map base place }
{
    let place = u128::from(place);
    base <= place && place - base < REACH && (place - base) % 8 == 0
}

fn bit_of(base: u128, place: u64) -> u64
    ensures { result ≡ bit_of base place }
{
    if is_in_map(base, place) {
        1 << (1 + (u128::from(place) - base) / 8)
    } else {
        0
    }
}

/// An odd word with one place more.
#[tactic(auto, unfolding(crate::specs::Relr::with_place))]
fn with_place(base: u128, word: u64, place: u64) -> u64
    ensures { result ≡ with_place base word place }
{
    word | bit_of(base, place)
}

/// The odd word of these places.
fn map_of(base: u128, places: &[u64]) -> u64
    ensures { result ≡ map_of base places.now }
{
    let mut word = 1;
    for place in places {
        word = with_place(base, word, *place);
    }
    word
}

/// How many of the places an odd word can name.
fn mapped_count(base: u128, places: &[u64]) -> usize
    ensures { result ≡ mapped_count base places.now }
{
    places
        .iter()
        .take_while(|place| is_in_map(base, **place))
        .count()
}

/// The words so far, where the next odd word's places begin, and the places that are left.
#[derive(Drop)]
pub(crate) struct Packing<'a> {
    pub words: Vec<u64>,
    pub base: Option<u128>,
    pub places: &'a [u64],
}

impl<'a> Packing<'a> {
    /// The word that comes next, if one does.
    fn step(self) -> Result<Packing<'a>, AllocError>
        ensures { IfOk result (λ after. (most : ℕ) → left most after ≡ left (suc most) self.entry) }
    {
        let Packing {
            mut words,
            base,
            places,
        } = self;
        match (base, places) {
            (None, []) => Ok(Packing {
                words,
                base,
                places,
            }),
            (None, [place, rest @ ..]) => {
                words.push(*place)?;
                Ok(Packing {
                    words,
                    base: Some(u128::from(*place) + 8),
                    places: rest,
                })
            }
            (Some(base), places) => {
                let count = mapped_count(base, places);
                if count == 0 {
                    return Ok(Packing {
                        words,
                        base: None,
                        places,
                    });
                }
                let Some(next) = base.checked_add(REACH) else {
                    return Err(AllocError);
                };
                words.push(map_of(base, &places[..count]))?;
                Ok(Packing {
                    words,
                    base: Some(next),
                    places: &places[count..],
                })
            }
        }
    }
}

/// The words of the packed table for ascending places.
#[tactic(auto, unfolding(crate::specs::Relr::relr_words))]
pub(crate) fn relr_words(alloc: Global, places: &[u64]) -> Result<Vec<u64>, AllocError>
    ensures { IfOk result (λ words. words.items ≡ relr_words places.now) }
{
    let mut packing = Packing {
        words: Vec::new(alloc),
        base: None,
        places,
    };
    for _step in 0..2 * places.len() as u128 {
        packing = packing.step()?;
    }
    Ok(packing.words)
}
