//! GNU hash tables.

ghost use Rattle.std.specs.Prelude.{◌≡◌, ℕ, ◌+◌, ◌-◌, ◌*◌, ◌/◌, ◌%◌, ◌^◌, ◌<◌, ◌==◌, ◌&&◌};
ghost use Rattle.std.specs.Prelude.{◌||◌, None, Some, if◌then◌else◌, not, nat_le, nat_lt, length, take, drop, map, slice_index};
ghost use Rattle.std.specs.List.{list_all, list_any, slice_get};
ghost use Rattle.std.specs.Option.{option_or};
ghost use Rattle.ld_base.specs.Symbol.{is_visible_definition};
ghost use Rattle.sym_hash.specs.Gnu.{gnu_leads, gnu_walks_end, has_bit, has_word, in_bloom, in_chain, is_end, walk_reaches};
ghost use Rattle.sym_hash.specs.Hashed.{first_lost, EndsBelow};

use ld_base::{GnuPart, Symbol};

/// Whether a chain word marks the end of its chain.
fn is_end(word: u32) -> bool
    ensures { result ≡ is_end word }
{
    word % 2 == 1
}

/// One more than the place of the last word that marks an end, 0 where none does.
fn ended(words: &[u32]) -> usize
    ensures { (k : ℕ) → list_any is_end (drop k words.now) ≡ nat_lt k result }
{
    let mut ended = 0;
    for (index, word) in words.iter().enumerate() {
        ended = if is_end(*word) { index + 1 } else { ended };
    }
    ended
}

/// The words of those symbols that are below a number.
fn words_below(gnu: &GnuPart, past: usize) -> &[u32]
    ensures { result.now ≡ take (past - gnu.now.symoffset) gnu.now.chain }
{
    let words = gnu.chain.as_slice();
    &words[..words.len().min(past.saturating_sub(gnu.symoffset as usize))]
}

/// Whether the walk from a bucket ends, if it begins before the last end.
fn walk_ends(symoffset: u32, ended: usize, bucket: u32) -> bool
    ensures { result ≡ (bucket == 0 || (nat_le symoffset bucket && nat_lt (bucket - symoffset) ended)) }
{
    bucket == 0 || (bucket >= symoffset && ((bucket - symoffset) as usize) < ended)
}

fn all_end(buckets: &[u32], symoffset: u32, ended: usize) -> bool
    ensures { result ≡ list_all (λ b. b == 0 || (nat_le symoffset b && nat_lt (b - symoffset) ended)) buckets.now }
{
    buckets
        .iter()
        .all(|bucket| walk_ends(symoffset, ended, *bucket))
}

/// Whether every walk ends inside so many symbols.
#[tactic(auto, unfolding(crate::specs::Gnu::gnu_walks_end))]
fn walks_end(gnu: &GnuPart, count: usize) -> bool
    ensures { result ≡ gnu_walks_end gnu.now count }
{
    let ended = ended(words_below(gnu, count));
    all_end(gnu.buckets.as_slice(), gnu.symoffset, ended)
}

/// Whether a word has a bit.
fn has_bit(word: u64, bit: u32) -> bool
    requires { bit < 64 }
    ensures { result ≡ has_bit word bit }
{
    (word >> bit) % 2 == 1
}

/// The hash without its lowest bits.
fn shifted(hash: u32, shift: u32) -> u32
    ensures { result ≡ hash / 2 ^ shift }
{
    if shift < u32::BITS { hash >> shift } else { 0 }
}

/// The word at a place modulo the number of words, if there is any.
fn bloom_word(bloom: &[u64], place: u32) -> Option<u64>
    ensures { result ≡ slice_get bloom.now (place % length bloom.now) }
{
    if bloom.is_empty() {
        None
    } else {
        Some(bloom[place as usize % bloom.len()])
    }
}

/// Whether the bloom filter has both bits of the hash.
#[tactic(auto, unfolding(crate::specs::Gnu::in_bloom))]
fn in_bloom(gnu: &GnuPart, hash: u32) -> bool
    ensures { result ≡ in_bloom gnu.now hash }
{
    match bloom_word(gnu.bloom.as_slice(), hash / 64) {
        Some(word) => has_bit(word, hash % 64) && has_bit(word, shifted(hash, gnu.shift) % 64),
        None => false,
    }
}

/// The bucket of a hash, if there is any.
pub(crate) fn bucket_of(buckets: &[u32], hash: u32) -> Option<u32>
    ensures { result ≡ slice_get buckets.now (hash % length buckets.now) }
{
    if buckets.is_empty() {
        None
    } else {
        Some(buckets[hash as usize % buckets.len()])
    }
}

/// Whether the walk from a bucket comes to the symbol: no end stands between the two.
fn walk_reaches(gnu: &GnuPart, bucket: u32, index: usize, ended: usize) -> bool
    ensures { EndsBelow gnu.now index ended → result ≡ walk_reaches gnu.now bucket index }
{
    bucket > 0
        && bucket >= gnu.symoffset
        && bucket as usize <= index
        && (bucket - gnu.symoffset) as usize >= ended
}

/// Whether the symbol is in the chain that the bucket of the hash begins.
fn in_chain(gnu: &GnuPart, hash: u32, index: usize, ended: usize) -> bool
    ensures { EndsBelow gnu.now index ended → result ≡ in_chain gnu.now hash index }
{
    match bucket_of(gnu.buckets.as_slice(), hash) {
        Some(bucket) => walk_reaches(gnu, bucket, index, ended),
        None => false,
    }
}

/// Whether the chain word of the symbol is the hash, but for its lowest bit.
fn has_word(gnu: &GnuPart, hash: u32, index: usize) -> bool
    ensures { result ≡ has_word gnu.now hash index }
{
    let words = gnu.chain.as_slice();
    let place = index.saturating_sub(gnu.symoffset as usize);
    place < words.len() && words[place] / 2 == hash / 2
}

/// Whether the symbol is found by a hash.
#[tactic(auto, unfolding(crate::specs::Gnu::gnu_leads))]
fn leads(gnu: &GnuPart, hash: u32, index: usize, ended: usize) -> bool
    ensures { EndsBelow gnu.now index ended → result ≡ gnu_leads gnu.now hash index }
{
    in_bloom(gnu, hash) && has_word(gnu, hash, index) && in_chain(gnu, hash, index, ended)
}

/// Whether the symbol is an exported definition that isn't found by its hash.
fn is_lost(
    gnu: &GnuPart,
    symbol: &Symbol,
    hash: u32,
    first: u32,
    index: usize,
    ended: usize,
) -> bool
    ensures { EndsBelow gnu.now index ended
        → result ≡ (nat_le first index && is_visible_definition symbol.now && not (gnu_leads gnu.now hash index)) }
{
    index >= first as usize && symbol.is_visible_definition() && !leads(gnu, hash, index, ended)
}

/// How the ends stand behind the word of a symbol.
fn ended_after(gnu: &GnuPart, index: usize, ended: usize) -> usize
    requires { index < 2 ^ 63 }
    ensures { EndsBelow gnu.now index ended → EndsBelow gnu.now (index + 1) result }
{
    let words = gnu.chain.as_slice();
    let symoffset = gnu.symoffset as usize;
    if index >= symoffset && index - symoffset < words.len() && is_end(words[index - symoffset]) {
        index - symoffset + 1
    } else {
        ended
    }
}

/// The first exported definition that isn't found by its hash.
#[tactic(auto, unfolding(crate::specs::Hashed::first_lost), using(crate::proofs::Following::lost_here, crate::proofs::Following::not_lost))]
fn first_lost(gnu: &GnuPart, symbols: &[Symbol], hashes: &[u32], first: u32) -> Option<usize>
    requires { length hashes.now ≡ length symbols.now }
    ensures { result ≡ first_lost (λ i. gnu_leads gnu.now (slice_index hashes.now i) i) (map is_visible_definition symbols.now) first }
{
    let mut ended = 0;
    for (index, symbol) in symbols.iter().enumerate() {
        if is_lost(gnu, symbol, hashes[index], first, index, ended) {
            return Some(index);
        }
        ended = ended_after(gnu, index, ended);
    }
    None
}

/// What breaks rule 19, of symbols whose names have these hashes.
pub(crate) fn unmet(gnu: &GnuPart, symbols: &[Symbol], hashes: &[u32], first: u32) -> Option<usize>
    requires { length hashes.now ≡ length symbols.now }
    ensures { result ≡ option_or (if gnu_walks_end gnu.now (length symbols.now) then None
        else Some 0) (first_lost (λ i. gnu_leads gnu.now (slice_index hashes.now i) i) (map is_visible_definition symbols.now) first) }
{
    if walks_end(gnu, symbols.len()) {
        first_lost(gnu, symbols, hashes, first)
    } else {
        Some(0)
    }
}
