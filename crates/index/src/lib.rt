// Which words of the pending bits have a set bit: a word is 64 bits, and place i is in word i / 64. The index has a bit for each word, in numbers
// of 64 bits; one number more, the top, has a bit for each of them that is not 0, so that two counts give the first word. A bundle keeps it beside
// the record; no format holds it.
#![tactic(auto)]

ghost use Rattle.std.specs.Prelude.{◌≡◌, ℕ, true, false, cond, ◌*◌, ◌/◌, ◌<◌, replicate, MatchOption};
ghost use Rattle.base.specs.Loops.{first_from, any};
ghost use Rattle.memory.specs.Bits.{has_bit, with_bit};
ghost use Rattle.record.specs.Layout.{messages};
ghost use Rattle.index.specs.inner.Index.{words, parts, is_noted, noting, first_noted, is_some, Exact};

use record::MESSAGES;

// The bits of a word and of a number of the index.
pub const WORD: usize = 64;

const WORDS: usize = MESSAGES / WORD;

// How many numbers have a bit for each word: at most as many as the top has bits.
pub const SIZE: usize = (WORDS + WORD - 1) / WORD;

// Any numbers and any top: only `first_by_top` asks that the top is exact.
#[derive(Drop)]
pub struct Index {
    pub numbers: [u64; SIZE],
    pub top: u64,
}

impl Index {
    // No word is noted.
    pub fn new() -> Self
        ensures { (result.numbers ≡ replicate parts 0) × (result.top ≡ 0) }
    {
        Index {
            numbers: [0; SIZE],
            top: 0,
        }
    }

    // Notes the word of place i.
    pub fn note(&mut self, i: usize)
        requires { i < messages }
        ensures { (self.new.numbers ≡ noting self.old.numbers (i / 64) true) × (self.new.top ≡ with_bit self.old.top (i / 64 / 64) true) }
    {
        let w = i / WORD;
        let k = w / WORD;
        self.numbers[k] |= 1u64 << (w % WORD);
        self.top |= 1u64 << k;
    }

    // Strikes word w out, which is noted. The top loses the bit of its number if that is 0 now: an exact one stays exact.
    pub fn strike(&mut self, w: usize)
        requires { (w < words) × (is_noted self.old.numbers w ≡ true) }
        ensures { (self.new.numbers ≡ noting self.old.numbers w false)
            × (self.new.top ≡ cond (is_some self.new.numbers (w / 64)) self.old.top (with_bit self.old.top (w / 64) false))
            × (Exact self.old.numbers self.old.top → self.new.top ≡ with_bit self.old.top (w / 64) (is_some self.new.numbers (w / 64))) }
    {
        let k = w / WORD;
        self.numbers[k] -= 1u64 << (w % WORD);
        if self.numbers[k] == 0 {
            self.top &= !(1u64 << k);
        }
    }

    // The first noted word, if there is one, whatever the top is: the numbers are gone through.
    pub fn first(&self) -> Option<usize>
        ensures { MatchOption result ((w : ℕ) → w < parts * 64 → is_noted self.now.numbers w ≡ false)
            (λ w. (w ≡ first_noted self.now.numbers) × (w < parts * 64)) }
    {
        let k = self.numbers.iter().position(|x| *x != 0)?;
        let x = self.numbers[k];
        Some(k * WORD + lowest(x))
    }

    // The first noted word, if there is one, by the top, which is exact: two counts.
    pub fn first_by_top(&self) -> Option<usize>
        requires { Exact self.now.numbers self.now.top }
        ensures { MatchOption result ((w : ℕ) → w < parts * 64 → is_noted self.now.numbers w ≡ false)
            (λ w. (w ≡ first_noted self.now.numbers) × (w < parts * 64)) }
    {
        if self.top == 0 {
            return None;
        }
        let k = lowest(self.top);
        Some(k * WORD + lowest(self.numbers[k]))
    }
}

// The first set bit of a number of which one is set.
fn lowest(x: u64) -> usize
    requires { any 64 (has_bit x) ≡ true }
    ensures { (result ≡ first_from 64 0 (has_bit x)) × (result < 64) }
{
    x.trailing_zeros() as usize
}

#[cfg(test)]
mod tests {
    use super::*;

    // Words 130 and 5 are noted and struck out again, the first one first.
    #[test]
    fn strikes_out_the_first(rt: HostRuntime) {
        let mut index = Index::new();
        assert_eq!(rt; index.first(), None);
        index.note(130 * WORD + 63);
        index.note(5 * WORD);
        assert_eq!(rt; index.first(), Some(5));
        index.strike(5);
        assert_eq!(rt; index.first(), Some(130));
        index.strike(130);
        assert_eq!(rt; index.first(), None);
    }

    // The numbers say which words are noted, whatever the top says.
    #[test]
    fn reads_no_top(rt: HostRuntime) {
        for top in [0, 1, u64::MAX] {
            let mut index = Index {
                numbers: [0; SIZE],
                top,
            };
            assert_eq!(rt; index.first(), None, "no word, top {top}");
            index.numbers[2] = 4 + 8;
            assert_eq!(rt; index.first(), Some(2 * WORD + 2), "top {top}");
        }
    }
}
