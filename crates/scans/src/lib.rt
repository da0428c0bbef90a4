// Tests of runs of bytes in a lent slice. A run is given by its place and its length, as `zeros` has it.
#![tactic(auto)]

ghost use Rattle.std.specs.Prelude.{◌≡◌, ◌+◌, ◌*◌, ◌≤◌, length};
ghost use Rattle.words.specs.Bytes.{zeros, bytes_are};

use words::Word;

// Whether the count bytes from at on are zero.
fn zero_bytes(s: &[u8], count: usize, at: usize) -> bool
    requires { at + count ≤ length s.now }
    ensures { result ≡ zeros s.now count at }
{
    s[at..at + count].iter().all(|&b| b == 0)
}

// Whether the count words from at on are zero, eight bytes at a look: a word by its number, as `load` takes its place.
fn zero_words(s: &[u8], count: usize, at: usize) -> bool
    requires { at + 8 * count ≤ length s.now }
    ensures { result ≡ zeros s.now (8 * count) at }
{
    (0..count).all(|k| u64::load(s, at + 8 * k) == 0)
}

// Whether the count bytes from at on are zero. The odd bytes come first: the header's reserved runs end where a word does,
// so each look at a word is aligned if the region is.
pub fn all_zero(s: &[u8], count: usize, at: usize) -> bool
    requires { at + count ≤ length s.now }
    ensures { result ≡ zeros s.now count at }
{
    let odd = count % 8;
    zero_bytes(s, odd, at) && zero_words(s, count / 8, at + odd)
}

// Whether the bytes of s from at on begin with those of t.
pub fn same_bytes(s: &[u8], at: usize, t: &[u8]) -> bool
    requires { at + length t.now ≤ length s.now }
    ensures { result ≡ bytes_are s.now at t.now }
{
    s[at..].starts_with(t)
}
