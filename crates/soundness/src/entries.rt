// Phase, states, entries of free seats, and numbers: the clauses of soundness that name no link of a taken seat and no message. That numbers
// differ is found out without comparing all pairs: lots whose numbers have one remainder stand in one bucket, and each new lot is compared
// with those of its bucket, the last one first. Here reserved lots are among the lots.
ghost use Rattle.std.specs.Prelude.{◌≡◌, true, false, ◌&&◌, ℕ, ◌+◌, ◌%◌, ◌≤◌, ◌<◌, List, is_some, IfSome};
ghost use Rattle.base.specs.Loops.{all, any};
ghost use Rattle.protocol.specs.State.{taken};
ghost use Rattle.record.specs.Layout.{seats};
ghost use Rattle.record.specs.Meaning.{seats_in};
ghost use Rattle.record.specs.Sound.{as_opened, numbers_differ};
ghost use Rattle.soundness.specs.inner.Parts.{HasNumbers, differ, seat_fits};
ghost use Rattle.soundness.specs.inner.Buckets.{buckets, same_number, KeptIn};

use record::lots::{is_taken, no_links};
use record::{ENTRIES, ENTRY, NUMBER_AT, Record, SEATS};

// How many buckets there are: a prime, so that numbers at equal distances, such as round ones, are spread.
const BUCKETS: usize = 509;

// The lots below a seat, kept by the remainders of their numbers: their numbers, the last lot of each bucket, and the one before each. A lot is its seat
// and 1 there, and 0 is none: a byte each, in fixed memory.
#[derive(Drop)]
pub struct Buckets {
    pub numbers: [u64; SEATS],
    pub last: [u8; BUCKETS],
    pub before: [u8; SEATS],
}

// Whether number, vector and links of seat s are as open writes them.
fn as_opened(rec: &Record, s: usize) -> bool
    requires { s < seats }
    ensures { result ≡ as_opened rec.now s }
{
    memory::zero_word(rec, ENTRIES + ENTRY * s + NUMBER_AT)
        && (record::vector(rec, s) == 0 && no_links(rec, s))
}

// The bucket of a number.
fn bucket(n: u64) -> usize
    ensures { (result ≡ n % buckets) × (result < buckets) }
{
    (n % (BUCKETS as u64)) as usize
}

impl Buckets {
    // No lot.
    pub fn new() -> Buckets
        ensures { (l : List ℕ) → KeptIn l 0 result }
    {
        Buckets {
            numbers: [0; SEATS],
            last: [0; BUCKETS],
            before: [0; SEATS],
        }
    }

    // Whether a lot below seat s has its number: along the lots of its bucket.
    fn repeats(&self, rec: &Record, s: usize) -> bool
        requires { (s < seats) × KeptIn rec.now s self.now }
        ensures { result ≡ any s (same_number rec.now s) }
    {
        let n = record::number(rec, s);
        let mut y = self.last[bucket(n)] as usize;
        while y != 0 {
            if self.numbers[y - 1] == n {
                return true;
            }
            y = self.before[y - 1] as usize;
        }
        false
    }

    // Puts seat s, with its number, behind the lots of its bucket.
    fn keep(&mut self, rec: &Record, s: usize)
        requires { (s < seats) × (taken (seats_in rec.now) s ≡ true) × KeptIn rec.now s self.old }
        ensures { KeptIn rec.now (s + 1) self.new }
    {
        let n = record::number(rec, s);
        let b = bucket(n);
        self.numbers[s] = n;
        self.before[s] = self.last[b];
        self.last[b] = (s + 1) as u8;
    }

    // Whether no lot below the lot on seat s has its number. It is kept for those above it.
    fn lot_fits(&mut self, rec: &Record, s: usize) -> bool
        requires { (s < seats) × (taken (seats_in rec.now) s ≡ true) × KeptIn rec.now s self.old }
        ensures { let l = rec.now in (result ≡ all s (differ l s)) × (result ≡ true → KeptIn l (s + 1) self.new) }
    {
        if self.repeats(rec, s) {
            return false;
        }
        self.keep(rec, s);
        true
    }

    // The clauses of seat s: its state, and its number or, if it is free, its entry.
    fn seat_fits(&mut self, rec: &Record, s: usize) -> bool
        requires { (s < seats) × KeptIn rec.now s self.old }
        ensures { let l = rec.now in (result ≡ seat_fits l s && all s (differ l s)) × (result ≡ true → KeptIn l (s + 1) self.new) }
    {
        if !record::state_fits(rec, s) {
            return false;
        }
        if is_taken(rec, s) {
            return self.lot_fits(rec, s);
        }
        as_opened(rec, s)
    }
}

// The clauses of all seats, and that numbers differ. Leaves the numbers of the lots, and answers how many seats there are up to the last
// taken one, or none if a clause fails.
pub fn seats_fit(rec: &Record, lots: &mut Buckets) -> Option<usize>
    requires { (l : List ℕ) → KeptIn l 0 lots.old }
    ensures says { is_some result ≡ all seats (seat_fits rec.now) && numbers_differ rec.now }
    ensures lots { IfSome result (λ top. (top ≤ seats) × HasNumbers rec.now lots.new.numbers
        × ((s : ℕ) → s < seats → top ≤ s → taken (seats_in rec.now) s ≡ false)) }
{
    let mut top: usize = 0;
    for s in 0..SEATS {
        if !lots.seat_fits(rec, s) {
            return None;
        }
        if is_taken(rec, s) {
            top = s + 1;
        }
    }
    Some(top)
}
