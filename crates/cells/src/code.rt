// A code: one to eight ASCII letters or digits, a letter first, in one number.
ghost use Rattle.std.specs.Prelude.{◌≡◌, ◌≤◌, true, false, ◌++◌, length, drop, ◌==◌, MatchOption};
ghost use Rattle.std.specs.List.{position_or_len};
ghost use Rattle.cells.specs.Codes.{is_code, letters, packed};

// Room for the letters of any code.
pub type CodeBytes = [u8; 8];

// The first letter in the highest byte, the unused low bytes zero.
#[derive(Clone, Copy, PartialEq, Eq)]
pub struct Code {
    bits: u64,
    ghost named: { is_code (letters bits) ≡ true },
}

fn is_code(bytes: &[u8]) -> bool
    ensures { result ≡ is_code bytes.now }
{
    if bytes.len() < 1 || bytes.len() > 8 || !bytes[0].is_ascii_alphabetic() {
        return false;
    }
    bytes.iter().all(|b| b.is_ascii_alphanumeric())
}

fn pack(bytes: &[u8]) -> u64
    requires { is_code bytes.now ≡ true }
    ensures { result ≡ packed bytes.now }
{
    let mut all = [0; 8];
    all[..bytes.len()].copy_from_slice(bytes);
    u64::from_be_bytes(all)
}

// How many bytes stand before the first zero.
fn filled(all: &CodeBytes) -> usize
    ensures { result ≡ position_or_len (λ b. b == 0) all.now }
{
    all.iter().position(|b| *b == 0).unwrap_or(all.len())
}

impl Code {
    // The code with these letters, where they make one. An Option: of a text that is no code there is nothing more to tell.
    pub fn new(bytes: &[u8]) -> Option<Code>
        ensures { MatchOption result (is_code bytes.now ≡ false) (λ c. (is_code bytes.now ≡ true) × (c.bits ≡ packed bytes.now) × (letters c.bits ≡ bytes.now)) }
    {
        if !is_code(bytes) {
            return None;
        }
        Some(Code { bits: pack(bytes) })
    }

    // The number that holds the letters.
    pub fn bits(self) -> u64
        ensures number { result ≡ self.bits }
        ensures packs { result ≡ packed (letters self.bits) }
    {
        self.bits
    }

    // Puts the letters at the front of `out`, and answers how many there are: the caller lends the bytes, as cells use no heap.
    pub fn write(self, out: &mut CodeBytes) -> usize
        ensures count { result ≡ length (letters self.bits) }
        ensures few { result ≤ 8 }
        ensures bytes { out.new ≡ letters self.bits ++ drop result out.old }
    {
        let all = self.bits.to_be_bytes();
        let count = filled(&all);
        out[..count].copy_from_slice(&all[..count]);
        count
    }
}
