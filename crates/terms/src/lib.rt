// Sets of numbers as words of bits: number k is bit k % 64 of word k / 64. A `TermSet` is a set of term numbers.
#![tactic(auto)]

ghost use Rattle.std.specs.Prelude.{◌≡◌, ◌||◌, ◌&&◌, not, true, false, ◌↔◌, ℕ, ◌*◌, ◌<◌, ◌≤◌, eqb, length, slice_index};
ghost use Rattle.terms.specs.Set.{member, mem, Added, IsSize, HasThose};

use std::array;

// A term's number on a sheet: never a strand's.
#[derive(Clone, Copy, PartialEq, Eq)]
pub struct Term(pub u8);

// A strand's number in a skeleton: never a term's.
#[derive(Clone, Copy, PartialEq, Eq)]
pub struct Strand(pub u8);

// An event of a strand, by its position.
#[derive(Clone, Copy, PartialEq, Eq)]
pub struct Node {
    pub strand: Strand,
    pub position: u8,
}

// A set of term numbers.
#[derive(Clone, Copy)]
pub struct TermSet {
    pub words: [u64; 4],
}

// Whether the set of these words has the number k.
pub fn has_bit(words: &[u64], k: usize) -> bool
    requires { k < 64 * length words.now }
    ensures { result ≡ member words.now k }
{
    (words[k / 64] >> (k % 64)) % 2 == 1
}

// Puts the number k into it.
pub fn put_bit(words: &mut [u64], k: usize)
    requires { k < 64 * length words.old }
    ensures { Added k true words.old words.new }
{
    words[k / 64] |= 1u64 << (k % 64);
}

impl TermSet {
    pub const EMPTY: TermSet = TermSet {
        words: [0, 0, 0, 0],
    };

    // Whether t is in the set.
    pub fn has(&self, t: Term) -> bool
        ensures { result ≡ mem self.now t.0 }
    {
        has_bit(&self.words, usize::from(t.0))
    }

    // Puts t into the set.
    pub fn insert(&mut self, t: Term)
        ensures { Added t.0 true self.old.words self.new.words }
    {
        put_bit(&mut self.words, usize::from(t.0));
    }

    // Puts t into the set, if it is so.
    pub fn insert_if(&mut self, t: Term, so: bool)
        ensures { Added t.0 so self.old.words self.new.words }
    {
        if so {
            self.insert(t);
        }
    }

    // The set with t in it too.
    pub fn with(self, t: Term) -> TermSet
        ensures { (k : ℕ) → mem result k ≡ (mem self k || eqb k t.0) }
    {
        let mut set = self;
        set.insert(t);
        set
    }

    // The set of t alone.
    pub fn one(t: Term) -> TermSet
        ensures { (k : ℕ) → mem result k ≡ eqb k t.0 }
    {
        TermSet::EMPTY.with(t)
    }

    // The terms below n that pass the test.
    pub fn such_that<F: Fn(Term) -> bool>(n: u8, test: F) -> TermSet
        requires { (k : ℕ) → k < n → F.pre test (record { 0 = k }) }
        ensures { HasThose n (λ k r. F.post test (record { 0 = k }) r) result }
    {
        let mut set = TermSet::EMPTY;
        for i in 0..n {
            set.insert_if(Term(i), test(Term(i)));
        }
        set
    }

    // The set whose words `join` makes of the words of both.
    fn by_words<F: Fn(u64, u64) -> u64>(self, other: TermSet, join: F) -> TermSet
        requires { F.IsAlwaysCallable join }
        ensures { (i : ℕ) → i < 4 → F.post join (slice_index self.words i) (slice_index other.words i) (slice_index result.words i) }
    {
        TermSet {
            words: array::from_fn(|i| join(self.words[i], other.words[i])),
        }
    }

    // What is in either set.
    pub fn union(self, other: TermSet) -> TermSet
        ensures { (k : ℕ) → mem result k ≡ (mem self k || mem other k) }
    {
        self.by_words(other, |a, b| a | b)
    }

    // What is in this set and not in the other.
    pub fn minus(self, other: TermSet) -> TermSet
        ensures { (k : ℕ) → mem result k ≡ (mem self k && not (mem other k)) }
    {
        self.by_words(other, |a, b| a & !b)
    }

    // What is in both sets.
    pub fn common(self, other: TermSet) -> TermSet
        ensures { (k : ℕ) → mem result k ≡ (mem self k && mem other k) }
    {
        self.by_words(other, |a, b| a & b)
    }

    // Whether nothing is in the set.
    pub fn is_empty(&self) -> bool
        ensures { (result ≡ true) ↔ ((k : ℕ) → mem self.now k ≡ false) }
    {
        self.count() == 0
    }

    // How many are in the set. The words are added in a loop: with `map` and `sum` the proof that the sum stays in range did not
    // close. A count of ones is a `u32`, from which `usize` has no `From`.
    pub fn count(&self) -> usize
        ensures { IsSize self.now result }
    {
        let mut n = 0usize;
        for w in self.words {
            n += w.count_ones() as usize;
        }
        n
    }
}
