// Little-endian words in a lent slice, and words that wrap.
#![tactic(auto, unfolding(crate::specs::Wrap::plus, crate::specs::Wrap::minus))]

ghost use Rattle.std.specs.Prelude.{ℕ, ◌≡◌, ◌+◌, ◌*◌, ◌<◌, ◌≤◌, length};
ghost use Rattle.words.specs.Le.{le_at, put_le};
ghost use Rattle.words.specs.Wrap.{minus, next};

// A word that lies in a slice, its lowest byte first.
pub trait Word: Copy {
    // How many bytes it has, and its number.
    ghost bytes: { ℕ };

    ghost number: { Self → ℕ };

    // The word in the bytes from i on.
    fn load(s: &[u8], i: usize) -> Self
        requires { i + bytes ≤ length s.now }
        ensures { number result ≡ le_at bytes s.now i };

    // Stores the word in the bytes from i on.
    fn store(self, s: &mut [u8], i: usize)
        requires { i + bytes ≤ length s.old }
        ensures { s.new ≡ put_le bytes s.old i (number self) };

    // A number is one word's.
    ghost exact: { (x y : Self) → number x ≡ number y → x ≡ y };
}

// Each width is written out: the gate takes no impl that a macro of the repository wrote.
impl Word for u8 {
    ghost bytes = { 1 };

    ghost number = { λ x. x };

    fn load(s: &[u8], i: usize) -> u8 {
        s[i]
    }

    fn store(self, s: &mut [u8], i: usize) {
        s[i] = self;
    }

    ghost exact = { λ x y e. e };
}

impl Word for u16 {
    ghost bytes = { 2 };

    ghost number = { λ x. x };

    fn load(s: &[u8], i: usize) -> u16 {
        u16::from_le_bytes([s[i], s[i + 1]])
    }

    fn store(self, s: &mut [u8], i: usize) {
        s[i..i + 2].copy_from_slice(&self.to_le_bytes());
    }

    ghost exact = { λ x y e. e };
}

impl Word for u32 {
    ghost bytes = { 4 };

    ghost number = { λ x. x };

    fn load(s: &[u8], i: usize) -> u32 {
        u32::from_le_bytes([s[i], s[i + 1], s[i + 2], s[i + 3]])
    }

    fn store(self, s: &mut [u8], i: usize) {
        s[i..i + 4].copy_from_slice(&self.to_le_bytes());
    }

    ghost exact = { λ x y e. e };
}

impl Word for u64 {
    ghost bytes = { 8 };

    ghost number = { λ x. x };

    fn load(s: &[u8], i: usize) -> u64 {
        u64::from_le_bytes([
            s[i],
            s[i + 1],
            s[i + 2],
            s[i + 3],
            s[i + 4],
            s[i + 5],
            s[i + 6],
            s[i + 7],
        ])
    }

    fn store(self, s: &mut [u8], i: usize) {
        s[i..i + 8].copy_from_slice(&self.to_le_bytes());
    }

    ghost exact = { λ x y e. e };
}

// A word that wraps: a counter, a bell.
pub trait Wraps: Word {
    // The next one.
    fn next(self) -> Self
        ensures { Self.number result ≡ next (8 * Self.bytes) (Self.number self) };

    // How far it lies ahead of another.
    fn ahead_of(self, other: Self) -> Self
        ensures { Self.number result ≡ minus (8 * Self.bytes) (Self.number self) (Self.number other) };
}

impl Wraps for u64 {
    fn next(self) -> u64 {
        self.wrapping_add(1)
    }

    fn ahead_of(self, other: u64) -> u64 {
        self.wrapping_sub(other)
    }
}

impl Wraps for u32 {
    fn next(self) -> u32 {
        self.wrapping_add(1)
    }

    fn ahead_of(self, other: u32) -> u32 {
        self.wrapping_sub(other)
    }
}
