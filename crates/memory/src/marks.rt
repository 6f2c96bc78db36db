// Marks: one bit for each row, in words of 64 bits (docs/RULES.md, "One step").
ghost use Rattle.std.specs.Prelude.{◌≡◌, ℕ, ◌*◌, ◌<◌, true, false, length, replicate, slice_set};
ghost use Rattle.memory.specs.Marks.{bit, marked, bits_of};

// Marks row i; past the last word nothing changes.
pub fn mark(words: &mut [u64], i: usize)
    ensures words { words.new ≡ marked words.old i }
    ensures bits { i < 64 * length words.old → (n : ℕ) → bits_of n words.new ≡ slice_set (bits_of n words.old) i true }
{
    let w = i / 64;
    if w < words.len() {
        words[w] |= 1 << (i % 64);
    }
}

// Whether row i is marked; past the last word none is.
pub fn is_marked(words: &[u64], i: usize) -> bool
    ensures { result ≡ bit words.now i }
{
    match words.get(i / 64) {
        Some(word) => (*word >> (i % 64)) & 1 == 1,
        None => false,
    }
}

// Clears all marks.
pub fn clear_marks(words: &mut [u64])
    ensures words { words.new ≡ replicate (length words.old) 0 }
    ensures bits { (n : ℕ) → bits_of n words.new ≡ replicate n false }
{
    words.fill(0);
}
