//! A row of bits, 64 to a word.
ghost use Rattle.std.specs.Prelude.{◌≡◌, ◌<◌, ◌==◌, ◌*◌, ◌||◌, ℕ, false, length, slice_index, bit_or, IfOk};
ghost use Rattle.cdi_paths.specs.BitRow.{has_bit};

use std::alloc::{AllocError, Global};
use std::marker::Model;

/// A row of bits. Contracts see its words, and read a bit of them by `has_bit`.
#[derive(Drop)]
pub(crate) struct BitRow {
    words: Vec<u64>,
}

impl Model for BitRow {
    ghost use Rattle.std.specs.Prelude.{ℕ, List};

    ghost Value = { List ℕ };

    ghost view = { λ r. r.words.items };
}

/// Sets each bit that the other words have set. It is a function over slices since a loop over a field runs several times slower.
fn join_words(words: &mut [u64], others: &[u64])
    requires { length words.old ≡ length others.now }
    ensures { (k : ℕ) → slice_index words.new k
        ≡ bit_or (slice_index words.old k) (slice_index others.now k) }
{
    for i in 0..words.len() {
        words[i] |= others[i];
    }
}

impl BitRow {
    /// So many words, with no bit set.
    pub(crate) fn new(alloc: Global, count: usize) -> Result<BitRow, AllocError>
        ensures len { IfOk result (λ row. length row ≡ count) }
        ensures none { IfOk result (λ row. (i : ℕ) → has_bit row i ≡ false) }
    {
        Ok(BitRow {
            words: vec![in alloc; 0; count]?,
        })
    }

    /// Whether a bit is set. Behind the last word none is.
    pub(crate) fn has(&self, bit: usize) -> bool
        ensures { result ≡ has_bit self.now bit }
    {
        match self.words.get(bit / 64) {
            Some(word) => (*word >> (bit % 64)) & 1 == 1,
            None => false,
        }
    }

    /// Sets a bit.
    pub(crate) fn put(&mut self, bit: usize)
        requires { bit < length self.old * 64 }
        ensures len { length self.new ≡ length self.old }
        ensures bits { (i : ℕ) → has_bit self.new i ≡ (has_bit self.old i || (i == bit)) }
    {
        self.words[bit / 64] |= 1 << (bit % 64);
    }

    /// Sets each bit that the other row has set.
    pub(crate) fn join(&mut self, other: &BitRow)
        requires { length self.old ≡ length other.now }
        ensures len { length self.new ≡ length self.old }
        ensures bits { (i : ℕ) → has_bit self.new i
            ≡ (has_bit self.old i || has_bit other.now i) }
    {
        join_words(self.words.as_mut_slice(), other.words.as_slice());
    }

    /// A copy.
    pub(crate) fn copy(&self, alloc: Global) -> Result<BitRow, AllocError>
        ensures { IfOk result (λ row. row ≡ self.now) }
    {
        Ok(BitRow {
            words: Vec::from_slice(alloc, self.words.as_slice())?,
        })
    }
}
