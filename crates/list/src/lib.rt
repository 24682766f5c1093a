// All maps from one skeleton into another, in dictionary order. A candidate gives each of the n source strands one of `base` target
// strands; candidate number c has the digits of c to that base. Which candidates are maps is kept a bit each.
#![tactic(auto)]

ghost use Rattle.std.specs.Prelude.{◌≡◌, ◌||◌, false, ◌++◌, ℕ, ◌+◌, ◌*◌, ◌^◌, ◌≤◌, ◌<◌, eqb, length, drop};
ghost use Rattle.model.specs.Answers.{over, end_to_end};
ghost use Rattle.list.specs.Candidates.{digits, passing};

use terms::{has_bit, put_bit};

// The candidates of two skeletons: the source has n strands, and the target `base`.
#[derive(Clone, Copy)]
pub struct Candidates {
    pub n: u8,
    pub base: u8,
    ghost few: { (1 ≤ base) × (base ≤ 6) × (n ≤ 6) },
}

impl Candidates {
    // How many there are.
    pub fn total(self) -> usize
        ensures { (result ≡ self.base ^ self.n) × (result ≤ 46656) }
    {
        usize::from(self.base).pow(u32::from(self.n))
    }

    // Writes the digits of candidate c, the first digit weighs most. The place of a digit is counted, since its weight falls beside it; a
    // digit is below six, so it is a byte.
    pub fn put_digits(self, out: &mut [u8], c: usize)
        requires { (c < self.base ^ self.n) × (self.n ≤ length out.old) }
        ensures { out.new ≡ digits self.n self.base c ++ drop self.n out.old }
    {
        let base = usize::from(self.base);
        let mut weight = self.total();
        let mut rest = c;
        for i in 0..usize::from(self.n) {
            weight /= base;
            out[i] = (rest / weight) as u8;
            rest %= weight;
        }
    }
}

// How many words have a bit for each of the most candidates, 6 to the 6th power.
pub const WORDS: usize = 729;

// Which candidates are maps: bit c % 64 of word c / 64 says whether candidate c is one. It takes 5832 bytes, so who owns it lends it:
// no function hands one back.
#[derive(Drop)]
pub struct Found {
    pub words: [u64; WORDS],
}

impl Found {
    ghost use Rattle.list.specs.Found.{marked};

    // Marks nothing.
    pub fn clear(&mut self)
        ensures { (k : ℕ) → marked self.new k ≡ false }
    {
        self.words.fill(0);
    }

    // Whether candidate c is marked.
    pub fn has(&self, c: usize) -> bool
        requires { c < 46656 }
        ensures { result ≡ marked self.now c }
    {
        has_bit(&self.words, c)
    }

    // Marks candidate c as a map.
    pub fn mark(&mut self, c: usize)
        requires { c < 46656 }
        ensures { (k : ℕ) → marked self.new k ≡ (marked self.old k || eqb k c) }
    {
        put_bit(&mut self.words, c);
    }

    // How many of the first `total` candidates are marked.
    pub fn count(&self, total: usize) -> usize
        requires { total ≤ 46656 }
        ensures by_index { (n base : ℕ) → result ≡ length (passing n base (marked self.now) total) }
        ensures upper_bound { result ≤ total }
    {
        (0..total).filter(|c| self.has(*c)).count()
    }

    // Writes the marked ones of the first `total` candidates end to end.
    pub fn write(&self, candidates: Candidates, total: usize, space: &mut [u8])
        requires { (total ≤ candidates.base ^ candidates.n)
            × (length (passing candidates.n candidates.base (marked self.now) total) * candidates.n ≤ length space.old) }
        ensures { space.new ≡ over (end_to_end (passing candidates.n candidates.base (marked self.now) total)) space.old }
    {
        let marked = (0..total).filter(|c| self.has(*c));
        for (i, c) in marked.enumerate() {
            candidates.put_digits(&mut space[i * usize::from(candidates.n)..], c);
        }
    }
}
