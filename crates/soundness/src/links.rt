// Links: each is none, or names another seated lot on its own side that shares the level's bits.
ghost use Rattle.std.specs.Prelude.{◌≡◌, true, false, ◌&&◌, ℕ, ◌≤◌, ◌<◌};
ghost use Rattle.base.specs.Loops.{all};
ghost use Rattle.graph.specs.Side.{left, right};
ghost use Rattle.graph.specs.inner.Code.{as_side};
ghost use Rattle.graph.specs.Vector.{width};
ghost use Rattle.protocol.specs.State.{taken, seated};
ghost use Rattle.protocol.specs.Sound.{link_ok};
ghost use Rattle.record.specs.Layout.{seats, levels};
ghost use Rattle.record.specs.Meaning.{seats_in};
ghost use Rattle.record.specs.Sound.{link_fits, links_fit};
ghost use Rattle.soundness.specs.inner.Parts.{HasNumbers, seat_fits};

use graph::{Side, on_side};
use record::lots::{is_seated, no_links, shares};
use record::{LEVELS, NONE, Record, SEATS};

// A record and the numbers of its taken seats, which the links are tested with.
#[derive(Clone, Copy)]
pub struct Lots<'a> {
    pub rec: &'a Record,
    pub numbers: &'a [u64; SEATS],
    ghost numbered: { HasNumbers rec.now numbers.now },
}

impl Lots<'_> {
    // Whether seat y may be the link of the lot on seat x at level k on side d. That y is another seat shows by its number.
    fn may_link(&self, x: usize, k: usize, d: Side, y: usize) -> bool
        requires { (x < seats) × (y < seats) × (seated (seats_in self.now.rec.now) x ≡ true) }
        ensures { result ≡ link_ok width (seats_in self.now.rec.now) x k (as_side d) y }
    {
        is_seated(self.rec, y)
            && (shares(self.rec, k, x, y) && on_side(d, self.numbers[x], self.numbers[y]))
    }

    // The link of the lot on seat x at level k on side d.
    fn link_fits(&self, x: usize, k: usize, d: Side) -> bool
        requires { (x < seats) × (k < levels) × (seated (seats_in self.now.rec.now) x ≡ true) }
        ensures { result ≡ link_fits self.now.rec.now x k (as_side d) }
    {
        let b = record::link(self.rec, x, k, d);
        if b == NONE {
            return true;
        }
        let y = b as usize;
        y < SEATS && self.may_link(x, k, d, y)
    }

    // Both links of the lot on seat x at level k.
    fn level_fits(&self, x: usize, k: usize) -> bool
        requires { (x < seats) × (k < levels) × (seated (seats_in self.now.rec.now) x ≡ true) }
        ensures { let l = self.now.rec.now in result ≡ link_fits l x k left && link_fits l x k right }
    {
        self.link_fits(x, k, Side::Left) && self.link_fits(x, k, Side::Right)
    }

    // All links of the lot on seat x.
    fn lot_fits(&self, x: usize) -> bool
        requires { (x < seats) × (seated (seats_in self.now.rec.now) x ≡ true) }
        ensures { let l = self.now.rec.now in result ≡ all levels (λ k. link_fits l x k left && link_fits l x k right) }
    {
        (0..LEVELS).all(|k| self.level_fits(x, k))
    }

    // All links of seat x: a seat without a lot has none, reserved or free.
    fn seat_fits(&self, x: usize) -> bool
        requires { x < seats }
        ensures { let l = self.now.rec.now in result ≡ all levels (λ k. link_fits l x k left && link_fits l x k right) }
    {
        if !is_seated(self.rec, x) {
            return no_links(self.rec, x);
        }
        self.lot_fits(x)
    }

    // All links: those of the first `top` seats, above which all are free.
    pub fn links_fit(&self, top: usize) -> bool
        requires { (all seats (seat_fits self.now.rec.now) ≡ true) × (top ≤ seats)
            × ((s : ℕ) → s < seats → top ≤ s → taken (seats_in self.now.rec.now) s ≡ false) }
        ensures { result ≡ links_fit self.now.rec.now }
    {
        (0..top).all(|x| self.seat_fits(x))
    }
}
