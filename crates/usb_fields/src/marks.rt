//! `Marks`, a set of bytes.
ghost use Rattle.std.specs.Prelude.{◌≡◌, ℕ, ◌<◌, ◌/◌, length, not, slice_index_or};
ghost use Rattle.usb_fields.specs.Marks.{IsNextAbsent, unmarked, marked, is_marked};

use std::marker::Model;

/// Which of the 256 bytes were added: what a walk that looks back keeps.
///
/// ```rust
/// let mut seen = Marks::new();
/// seen.add(7);
/// assert!(rt; seen.has(7) && !seen.has(8));
/// ```
#[derive(Clone, Debug, Drop, PartialEq, Eq, Hash)]
pub struct Marks {
    /// A bit for each byte, 64 of them in a word.
    words: [u64; 4],
}

impl Model for Marks {
    ghost use Rattle.std.specs.Prelude.{◌≡◌, List, ℕ, length};

    ghost Value = { List ℕ };

    ghost view = { λ m. m.words };

    ghost invariant = { λ m. length m.words ≡ 4 };

    ghost inverse = { λ words. record { words = words } };
}

impl Marks {
    /// A set without a byte.
    pub fn new() -> Marks
        ensures { is_marked result ≡ unmarked }
    {
        Marks { words: [0; 4] }
    }

    /// Whether the byte was added.
    #[tactic(auto, unfolding(crate::specs::Marks::is_marked))]
    pub fn has(&self, n: u8) -> bool
        ensures { result ≡ is_marked self.now n }
    {
        self.words[usize::from(n) / 64] >> (n % 64) & 1 == 1
    }

    /// Adds a byte.
    pub fn add(&mut self, n: u8)
        ensures { is_marked self.new ≡ marked (is_marked self.old) n }
    {
        self.words[usize::from(n) / 64] |= 1 << (n % 64);
    }

    /// The first byte from this one on that wasn't added, or 256.
    pub fn next_absent(&self, from: u8) -> usize
        ensures { IsNextAbsent (is_marked self.now) from result }
    {
        let mut next = usize::from(from);
        'run: loop {
            let ones = (self.word(next) >> (next % 64)).trailing_ones();
            next += ones as usize;
            if ones == 0 || next > 255 {
                return next;
            }
        }
    }

    /// The other bytes.
    pub fn complement(&self) -> Marks
        ensures { (n : ℕ) → n < 256 → is_marked result n ≡ not (is_marked self.now n) }
    {
        Marks {
            words: [
                !self.word(0),
                !self.word(64),
                !self.word(128),
                !self.word(192),
            ],
        }
    }

    /// The word that has the bit of the number.
    fn word(&self, n: usize) -> u64
        requires { n < 256 }
        ensures word { result ≡ slice_index_or self.now (n / 64) 0 }
        ensures words { length self.now ≡ 4 }
    {
        self.words[n / 64]
    }
}
