// The lots of a record in the terms of its meaning (specs/Meaning.antt): the phase, which seats are taken or only reserved, who is seated, who stays
// and who is a member, sides, shared bits and links.
ghost use Rattle.std.specs.Prelude.{◌≡◌, ◌<◌, leb, IfSome};
ghost use Rattle.base.specs.Loops.{all};
ghost use Rattle.graph.specs.Side.{on_side, side_of};
ghost use Rattle.graph.specs.inner.Code.{as_side};
ghost use Rattle.graph.specs.Vector.{width, shared};
ghost use Rattle.protocol.specs.State.{is_clearing, taken, seated, stays, leaves, held, member};
ghost use Rattle.protocol.specs.Sound.{pair_ok};
ghost use Rattle.record.specs.Layout.{seats, levels};
ghost use Rattle.record.specs.Meaning.{seats_in, meaning};
ghost use Rattle.record.specs.Code.{as_link};
ghost use Rattle.record.specs.inner.Entry.{bare_at};

use crate::states::{Phase, State};
use crate::{Record, SEATS};
use graph::Side;

// Whether the phase is clearing.
pub fn is_clearing(rec: &Record) -> bool
    ensures { result ≡ is_clearing (seats_in rec.now).phase }
{
    crate::phase(rec) == Phase::Clearing
}

// Whether a lot of the graph sits on seat s: staying or leaving.
pub fn is_seated(rec: &Record, s: usize) -> bool
    requires { s < seats }
    ensures { result ≡ seated (seats_in rec.now) s }
{
    // two tests: as one `matches!` a test of soundness takes a tenth more instructions
    let t = crate::state(rec, s);
    t == State::Staying || t == State::Leaving
}

// Whether seat s is not free.
pub fn is_taken(rec: &Record, s: usize) -> bool
    requires { s < seats }
    ensures { result ≡ taken (seats_in rec.now) s }
{
    crate::state(rec, s) != State::Free
}

// Whether seat s has no link: the bytes of its links are looked at eight at a time.
pub fn no_links(rec: &Record, s: usize) -> bool
    requires { s < seats }
    ensures { result ≡ all levels (bare_at rec.now s) }
{
    memory::full_run(
        rec,
        crate::ENTRIES + crate::ENTRY * s + crate::LINKS_AT,
        crate::LINKS,
    )
}

// Whether a staying lot sits on seat s.
pub fn is_staying(rec: &Record, s: usize) -> bool
    requires { s < seats }
    ensures { result ≡ stays (seats_in rec.now) s }
{
    crate::state(rec, s) == State::Staying
}

// Whether a leaving lot sits on seat s.
pub fn is_leaving(rec: &Record, s: usize) -> bool
    requires { s < seats }
    ensures { result ≡ leaves (seats_in rec.now) s }
{
    crate::state(rec, s) == State::Leaving
}

// Whether seat s is reserved. A state that is none of the four is read so.
pub fn is_reserved(rec: &Record, s: usize) -> bool
    requires { s < seats }
    ensures { result ≡ held (seats_in rec.now) s }
{
    crate::state(rec, s) == State::Reserved
}

// Whether the lot on seat s is a member: in phase open any lot, while clearing a staying one.
pub fn is_member(rec: &Record, s: usize) -> bool
    requires { s < seats }
    ensures { result ≡ member (seats_in rec.now) s }
{
    if is_clearing(rec) {
        is_staying(rec, s)
    } else {
        is_seated(rec, s)
    }
}

// The side of the lot on seat x on which that on seat y lies.
pub fn side_of(rec: &Record, x: usize, y: usize) -> Side
    requires { (x < seats) × (y < seats) }
    ensures { as_side result ≡ side_of ((meaning rec.now).seats.number x) ((meaning rec.now).seats.number y) }
{
    graph::side_of(crate::number(rec, x), crate::number(rec, y))
}

// Whether the lot on seat y lies beyond that on seat x on side d: x is nearer.
pub fn beyond(rec: &Record, x: usize, y: usize, d: Side) -> bool
    requires { (x < seats) × (y < seats) }
    ensures { result ≡ on_side (as_side d) ((meaning rec.now).seats.number x) ((meaning rec.now).seats.number y) }
{
    graph::on_side(d, crate::number(rec, x), crate::number(rec, y))
}

// The link of seat s at level k on side d: a seat, if there is one.
pub fn link(rec: &Record, s: usize, k: usize, d: Side) -> Option<usize>
    requires { (s < seats) × (k < levels) }
    ensures link { as_link result ≡ (meaning rec.now).link s k (as_side d) }
    ensures seat { IfSome result (λ y. y < seats) }
{
    let y = crate::link(rec, s, k, d) as usize;
    if y < SEATS { Some(y) } else { None }
}

// How many bits the vectors of two seats share.
pub fn share(rec: &Record, x: usize, y: usize) -> usize
    requires { (x < seats) × (y < seats) }
    ensures { result ≡ shared width ((meaning rec.now).seats.vector x) ((meaning rec.now).seats.vector y) }
{
    graph::share(crate::vector(rec, x), crate::vector(rec, y)) as usize
}

// Whether the vectors of two seats share at least k bits.
pub fn shares(rec: &Record, k: usize, x: usize, y: usize) -> bool
    requires { (x < seats) × (y < seats) }
    ensures { result ≡ leb k (shared width ((seats_in rec.now).vector x) ((seats_in rec.now).vector y)) }
{
    k <= share(rec, x, y)
}

// Whether x and y are two different seated lots that share at least k bits.
pub fn pair_fits(rec: &Record, k: usize, x: usize, y: usize) -> bool
    requires { (x < seats) × (y < seats) }
    ensures { result ≡ pair_ok width (seats_in rec.now) k x y }
{
    is_seated(rec, x) && (is_seated(rec, y) && (x != y && shares(rec, k, x, y)))
}
