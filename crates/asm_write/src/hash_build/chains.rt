//! The first symbol of each bucket, and from each symbol the next of its bucket.

ghost use Rattle.std.specs.Prelude.{◌≡◌, ◌+◌, ◌<◌, IfOk, replicate};
ghost use Rattle.asm_write.specs.HashBuild.Hashed.{word, buckets_of, links_of};

use std::alloc::{AllocError, Global};

/// Buckets and links of some symbols.
#[derive(Drop)]
pub(crate) struct Chains {
    /// The first symbol of each bucket.
    pub buckets: Vec<u32>,
    /// The next symbol of each one's bucket.
    pub links: Vec<u32>,
}

/// The index of a symbol, as a word has it.
fn symbol(first: u32, at: usize) -> u32
    ensures { result ≡ word (first + at) }
{
    ((u128::from(first) + at as u128) % 0x1_0000_0000) as u32
}

/// So many zeros.
fn zeros(alloc: Global, count: usize) -> Result<Vec<u32>, AllocError>
    ensures { IfOk result (λ zeros. zeros.items ≡ replicate count 0) }
{
    vec![in alloc; 0; count]
}

impl Chains {
    ghost use Rattle.std.specs.Prelude.{◌≡◌, ◌+◌, ◌<◌, ◌%◌, length, slice_index, slice_set};
    ghost use Rattle.asm_write.specs.HashBuild.Hashed.{word};

    /// Puts a symbol before the others of its bucket.
    fn add(&mut self, first: u32, at: usize, hash: u32)
        requires some { 0 < length self.old.buckets.items }
        requires within { at < length self.old.links.items }
        ensures buckets { self.new.buckets.items
            ≡ slice_set self.old.buckets.items (hash % length self.old.buckets.items) (word (first + at)) }
        ensures links { self.new.links.items
            ≡ slice_set self.old.links.items at (slice_index self.old.buckets.items (hash % length self.old.buckets.items)) }
    {
        let bucket = hash as usize % self.buckets.len();
        self.links[at] = self.buckets[bucket];
        self.buckets[bucket] = symbol(first, at);
    }
}

/// The chains of symbols with these hashes, the first of which has this index.
pub(crate) fn chains_of(
    alloc: Global,
    first: u32,
    count: usize,
    hashes: &[u32],
) -> Result<Chains, AllocError>
    requires { 0 < count }
    ensures buckets { IfOk result (λ chains. chains.buckets.items ≡ buckets_of first count hashes.now) }
    ensures links { IfOk result (λ chains. chains.links.items ≡ links_of first count hashes.now) }
{
    let mut chains = Chains {
        buckets: zeros(alloc, count)?,
        links: zeros(alloc, hashes.len())?,
    };
    for at in (0..hashes.len()).rev() {
        chains.add(first, at, hashes[at]);
    }
    Ok(chains)
}
