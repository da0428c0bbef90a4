// Copies of runs of bytes in a lent slice. A run is given by its place and its length, as `part` has it.
#![tactic(auto)]

ghost use Rattle.std.specs.Prelude.{◌≡◌, ◌++◌, ◌+◌, ◌≤◌, length, drop, replicate};
ghost use Rattle.std.proofs.lemmas.List.Edits.{sets};
ghost use Rattle.words.specs.Bytes.{part};

// Copies all of src to dst from at on.
pub fn copy_in(dst: &mut [u8], at: usize, src: &[u8])
    requires { at + length src.now ≤ length dst.old }
    ensures { dst.new ≡ sets dst.old at src.now }
{
    dst[at..at + src.len()].copy_from_slice(src);
}

// Copies the count bytes of src from at on to the start of dst.
pub fn copy_out(src: &[u8], at: usize, count: usize, dst: &mut [u8])
    requires { (at + count ≤ length src.now) × (count ≤ length dst.old) }
    ensures { dst.new ≡ part src.now at count ++ drop count dst.old }
{
    dst[..count].copy_from_slice(&src[at..at + count]);
}

// Moves the count bytes from at on to the start.
pub fn shift(s: &mut [u8], at: usize, count: usize)
    requires { at + count ≤ length s.old }
    ensures { s.new ≡ sets s.old 0 (part s.old at count) }
{
    s.copy_within(at..at + count, 0);
}

// Zeros over the first count bytes.
pub fn clear(s: &mut [u8], count: usize)
    requires { count ≤ length s.old }
    ensures { s.new ≡ sets s.old 0 (replicate count 0) }
{
    s[..count].fill(0);
}
