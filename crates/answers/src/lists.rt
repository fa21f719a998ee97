// The lists of a record as text (line P). The lists of a level are found by the lots with which they begin: after each the one of the smallest bits
// above its own, or of the same bits and a larger first number.
#![tactic(auto, using(crate::proofs::Parts::lots))]

ghost use Rattle.std.specs.Prelude.{◌≡◌, ◌++◌, map, ◌<◌};
ghost use Rattle.std.specs.Option.{ForSome};
ghost use Rattle.std.proofs.Math.Option.{some};
ghost use Rattle.graph.specs.Vector.{width};
ghost use Rattle.record.specs.Layout.{seats, levels};
ghost use Rattle.record.specs.Meaning.{seats_in, meaning};
ghost use Rattle.command.specs.Text.{shown, spaced};
ghost use Rattle.check_links.specs.Check.{members_in};
ghost use Rattle.listing.specs.Lists.{begins as begins_at, right_from, shared_bits, comes_before, comes_after};
ghost use Rattle.listing.specs.Lists.{earlier as earlier_of, first_of, next_first};
ghost use Rattle.listing.specs.Text.{bits_text, list_text, level_text, lists_text};
ghost use Rattle.text.specs.inner.Written.{written};
ghost use Rattle.record.specs.Code.{as_link};

use graph::Side;
use record::lots::{is_member, link};
use record::{LEVELS, Record, SEATS, WIDTH};
use text::Writer;

// A level of a record.
#[derive(Clone, Copy)]
struct Level<'a> {
    rec: &'a Record,
    k: usize,
    ghost level: { k < levels },
}

impl Level<'_> {
    // The first k bits of the vector on seat s, as a number.
    fn shared_bits(&self, s: usize) -> usize
        requires { s < seats }
        ensures { let l = self.now.rec.now in result ≡ shared_bits width (members_in l) self.now.k s }
    {
        usize::from(record::vector(self.rec, s)) >> (WIDTH - self.k)
    }

    // Whether a list begins on seat s and goes on.
    #[tactic(auto, using(crate::proofs::Parts::lots), unfolding(listing::specs::Lists::begins))]
    fn begins(&self, s: usize) -> bool
        requires { s < seats }
        ensures { let l = self.now.rec.now in result ≡ begins_at width (members_in l) (meaning l).link self.now.k s }
    {
        is_member(self.rec, s)
            && link(self.rec, s, self.k, Side::Left).is_none()
            && link(self.rec, s, self.k, Side::Right).is_some()
    }

    // Whether the list that begins on seat x comes before that on seat y.
    #[tactic(auto, using(crate::proofs::Parts::lots), unfolding(listing::specs::Lists::comes_before))]
    fn comes_before(&self, x: usize, y: usize) -> bool
        requires { (x < seats) × (y < seats) }
        ensures { let l = self.now.rec.now in result ≡ comes_before width (members_in l) self.now.k x y }
    {
        let a = self.shared_bits(x);
        let b = self.shared_bits(y);
        a < b || (a == b && record::number(self.rec, x) < record::number(self.rec, y))
    }

    // Whether it comes after that on seat `last`, if there is one.
    #[tactic(auto, using(crate::proofs::Parts::lots), unfolding(listing::specs::Lists::comes_after))]
    fn comes_after(&self, last: Option<usize>, x: usize) -> bool
        requires { (x < seats) × ForSome last (λ y. y < seats) }
        ensures { let l = self.now.rec.now in result ≡ comes_after width (members_in l) self.now.k (as_link last) x }
    {
        // a `match`: what `is_none_or` answers by a method was not proved
        match last {
            Some(last) => self.comes_before(last, x),
            None => true,
        }
    }

    // The seat x, or `best` if there is one and its list comes before.
    #[tactic(auto, using(crate::proofs::Parts::lots), unfolding(listing::specs::Lists::earlier))]
    fn earlier(&self, x: usize, best: Option<usize>) -> usize
        requires { (x < seats) × ForSome best (λ y. y < seats) }
        ensures seat { result < seats }
        ensures earlier { let l = self.now.rec.now in some result ≡ earlier_of width (members_in l) self.now.k x (as_link best) }
    {
        match best {
            Some(best) if !self.comes_before(x, best) => best,
            _ => x,
        }
    }

    // The first of the list that begins on seat s, if it comes after that on seat `last`, and the one that was found before it.
    #[tactic(auto, using(crate::proofs::Parts::lots), unfolding(listing::specs::Lists::first_of))]
    fn first_of(&self, last: Option<usize>, s: usize, best: Option<usize>) -> Option<usize>
        requires { (s < seats) × ForSome last (λ y. y < seats) × ForSome best (λ y. y < seats) }
        ensures seat { ForSome result (λ y. y < seats) }
        ensures first { let l = self.now.rec.now in
            as_link result ≡ first_of width (members_in l) (meaning l).link self.now.k (as_link last) s (as_link best) }
    {
        if self.begins(s) && self.comes_after(last, s) {
            Some(self.earlier(s, best))
        } else {
            best
        }
    }

    // The seat on which the first list after that on seat `last` begins, if there is one.
    fn next_first(&self, last: Option<usize>) -> Option<usize>
        requires { ForSome last (λ y. y < seats) }
        ensures seat { ForSome result (λ y. y < seats) }
        ensures next { let l = self.now.rec.now in
            as_link result ≡ next_first width (members_in l) (meaning l).link seats self.now.k (as_link last) }
    {
        // a loop: that `reduce` may call its closure at every item was not proved
        let mut best = None;
        for s in 0..SEATS {
            best = self.first_of(last, s, best);
        }
        best
    }

    // The numbers from seat s on, with a space before each.
    fn numbers(&self, s: usize, w: &mut Writer<'_>)
        requires { s < seats }
        ensures { let l = self.now.rec.now in w.new ≡ written w.old
            (spaced (map (λ z. shown ((seats_in l).number z)) (right_from (meaning l).link seats self.now.k (some s)))) }
    {
        // SEATS turns at most: the links of any bytes may lead round
        let mut next = Some(s);
        for _ in 0..SEATS {
            let Some(seat) = next else {
                break;
            };
            w.bytes(b" ");
            w.decimal(record::number(self.rec, seat));
            next = link(self.rec, seat, self.k, Side::Right);
        }
    }

    // The list that begins on seat s: level, bits and numbers.
    #[tactic(auto, using(crate::proofs::Parts::lots), unfolding(listing::specs::Text::list_text))]
    fn list(&self, s: usize, w: &mut Writer<'_>)
        requires { s < seats }
        ensures { let l = self.now.rec.now in w.new ≡ written w.old (list_text seats width (members_in l) (meaning l).link self.now.k s) }
    {
        w.decimal(self.k as u64);
        w.bytes(b" ");
        bits(record::vector(self.rec, s), self.k, w);
        w.bytes(b":");
        self.numbers(s, w);
        w.bytes(b"\n");
    }

    // All lists.
    fn lists(&self, w: &mut Writer<'_>)
        ensures { let l = self.now.rec.now in w.new ≡ written w.old (level_text seats width (members_in l) (meaning l).link self.now.k) }
    {
        let mut last = None;
        for _ in 0..SEATS {
            let Some(first) = self.next_first(last) else {
                break;
            };
            self.list(first, w);
            last = Some(first);
        }
    }
}

// The first k bits of a vector, `-` for none.
fn bits(vector: u8, k: usize, w: &mut Writer<'_>)
    requires { k < levels }
    ensures { w.new ≡ written w.old (bits_text width k vector) }
{
    if k == 0 {
        w.bytes(b"-");
    }
    for j in 0..k {
        w.byte(b'0' + graph::bit(vector, j) as u8);
    }
}

// The lists of all levels.
#[tactic(auto, using(crate::proofs::Parts::lots), unfolding(listing::specs::Text::lists_text))]
pub fn lists(rec: &Record, w: &mut Writer<'_>)
    ensures { let l = rec.now in w.new ≡ written w.old (lists_text seats width (members_in l) (meaning l).link) }
{
    for k in 0..LEVELS {
        Level { rec, k }.lists(w);
    }
}
