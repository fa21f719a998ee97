// The check of the links over a lent record (document 01, "Check"; document 02, #106), without a table, for any number of components. At every level
// each link of a member names a member that links back. Above level 0 its right link is the first lot to the right on the level below that has its
// next bit; the left links then follow from the links back. That is Constraints 1 to 6 of document 000, so each component is a skip graph: which lot
// is in which need not be known. A run to the right stops at the first lot with the bit, so that it passes only lots with the other bit; where links
// have their links back each lot is passed by one run at most for each level, and the whole is linear.
#![tactic(auto)]

ghost use Rattle.std.specs.Prelude.{◌≡◌, true, ◌<◌, T, IfSome};
ghost use Rattle.graph.specs.inner.Code.{as_side};
ghost use Rattle.graph.specs.Vector.{width, bit};
ghost use Rattle.protocol.specs.State.{seated, member};
ghost use Rattle.record.specs.Layout.{seats, levels};
ghost use Rattle.record.specs.Meaning.{seats_in, meaning};
ghost use Rattle.record.specs.Sound.{sound};
ghost use Rattle.record.specs.Code.{as_link};
ghost use Rattle.base.specs.Loops.{one_if, all};
ghost use Rattle.search.specs.inner.LinkCheck.{back_of, backs_ok, ahead_of, above_ok, lot_backs, lot_aboves};
ghost use Rattle.check_links.specs.Check.{members_in, check_in};
ghost use Rattle.check_links.specs.Answer.{verdict_numbers};

use graph::Side;
use record::lots::{is_clearing, is_member, is_staying, link};
use record::refusals::Refusal;
use record::{LEVELS, Record, SEATS, WIDTH};
use soundness::sound_record;

// Whether a seated lot is a member: in phase open it need not be looked at.
fn seated_is_member(rec: &Record, s: usize) -> bool
    requires { (s < seats) × T (seated (seats_in rec.now) s) }
    ensures { result ≡ member (seats_in rec.now) s }
{
    !is_clearing(rec) || is_staying(rec, s)
}

// Whether the link of x at level k on side d is none, or a member whose link back is x. On a sound record it names a seated lot.
fn back_fits(rec: &Record, x: usize, k: usize, d: Side) -> bool
    requires { (sound rec.now ≡ true) × (x < seats) × (k < levels) }
    ensures { let l = rec.now in result ≡ back_of (members_in l) (meaning l).link x k (as_side d) ((meaning l).link x k (as_side d)) }
{
    match link(rec, x, k, d) {
        // by the byte: with options compared the check takes a third more instructions
        Some(y) => seated_is_member(rec, y) && record::link(rec, y, k, d.opposite()) as usize == x,
        None => true,
    }
}

// Both links of x at level k.
fn backs_fit(rec: &Record, x: usize, k: usize) -> bool
    requires { (sound rec.now ≡ true) × (x < seats) × (k < levels) }
    ensures { let l = rec.now in result ≡ backs_ok (members_in l) (meaning l).link x k }
{
    back_fits(rec, x, k, Side::Left) && back_fits(rec, x, k, Side::Right)
}

// All links of x, if it is a member.
fn lot_backs_fit(rec: &Record, x: usize) -> bool
    requires { (sound rec.now ≡ true) × (x < seats) }
    ensures { let l = rec.now in result ≡ lot_backs width (members_in l) (meaning l).link x }
{
    !is_member(rec, x) || (0..LEVELS).all(|k| backs_fit(rec, x, k))
}

fn all_backs_fit(rec: &Record) -> bool
    requires { sound rec.now ≡ true }
    ensures { let l = rec.now in result ≡ all seats (lot_backs width (members_in l) (meaning l).link) }
{
    (0..SEATS).all(|x| lot_backs_fit(rec, x))
}

// Bit k of the vector of the lot on seat s.
fn bit_of(rec: &Record, s: usize, k: usize) -> usize
    requires { (s < seats) × (k < width) }
    ensures { result ≡ one_if (bit width k ((seats_in rec.now).vector s)) }
{
    graph::bit(record::vector(rec, s), k)
}

// The first lot to the right of x at level k that has bit k as x, if there is one.
fn ahead(rec: &Record, x: usize, k: usize) -> Option<usize>
    requires { (x < seats) × (k < width) }
    ensures lot { let l = rec.now in as_link result ≡ ahead_of seats width (members_in l) (meaning l).link x k }
    ensures seat { IfSome result (λ y. y < seats) }
{
    let b = bit_of(rec, x, k);
    let mut y = link(rec, x, k, Side::Right)?;
    // SEATS turns at most: the links may lead round
    for _ in 0..SEATS {
        if bit_of(rec, y, k) == b {
            break;
        }
        y = link(rec, y, k, Side::Right)?;
    }
    Some(y)
}

// Whether the right link of x one level above k is that lot. Where it is the next lot at level k it has the bit, since the record is sound.
fn above_fits(rec: &Record, x: usize, k: usize) -> bool
    requires { (sound rec.now ≡ true) × (x < seats) × (k < width) }
    ensures { let l = rec.now in result ≡ above_ok seats width (members_in l) (meaning l).link x k }
{
    // by the bytes: with options compared the check takes a sixth more instructions
    let y = record::link(rec, x, k + 1, Side::Right) as usize;
    if record::link(rec, x, k, Side::Right) as usize == y {
        return true;
    }
    match ahead(rec, x, k) {
        Some(z) => y == z,
        None => y >= SEATS,
    }
}

// The right links of x above level 0, if it is a member.
fn lot_aboves_fit(rec: &Record, x: usize) -> bool
    requires { (sound rec.now ≡ true) × (x < seats) }
    ensures { let l = rec.now in result ≡ lot_aboves seats width (members_in l) (meaning l).link x }
{
    !is_member(rec, x) || (0..WIDTH).all(|k| above_fits(rec, x, k))
}

fn all_aboves_fit(rec: &Record) -> bool
    requires { sound rec.now ≡ true }
    ensures { let l = rec.now in result ≡ all seats (lot_aboves seats width (members_in l) (meaning l).link) }
{
    (0..SEATS).all(|x| lot_aboves_fit(rec, x))
}

// The whole test of the links of a record that is known to be sound: whether the check says yes. The links back come first, so that the runs of all
// lots together are linear.
pub fn links_fit(rec: &Record) -> bool
    requires { sound rec.now ≡ true }
    ensures { result ≡ (check_in rec.now).yes }
{
    all_backs_fit(rec) && all_aboves_fit(rec)
}

// Whether every component of the members is the skip graph of its own lots: yes exactly if Constraints 1 to 6 hold for all members. Refused: 1 wrong
// size, 2 unsound. Of a record that open has just written the answer is yes.
pub fn check(rec: &[u8]) -> Result<bool, Refusal>
    ensures { verdict_numbers result ≡ check_in rec.now }
{
    let rec = sound_record(rec)?;
    Ok(links_fit(rec))
}
