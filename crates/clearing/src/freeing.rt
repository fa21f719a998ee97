// Seats that become free (document 01, "Turn"): a set of seats, its links, and the links to it. Bit s of a set, the lowest is 0, is seat s.
ghost use Rattle.std.specs.Prelude.{◌≡◌, ◌||◌, ◌+◌, ◌<◌};
ghost use Rattle.memory.specs.Bits.{has_bit};
ghost use Rattle.graph.specs.Side.{side_number};
ghost use Rattle.graph.specs.inner.Code.{as_side};
ghost use Rattle.record.specs.Layout.{seats, levels};
ghost use Rattle.clearing.specs.inner.Steps.{Step, same, link_place, freed_to, freed};

use graph::Side;
use record::lots::{link, no_links};
use record::states::State;
use record::{LEVELS, NONE, Record, SEATS};

// Whether seat s is in the set, a plain number, as C hands it to a crash: every number is a set.
pub fn in_set(set: u64, s: usize) -> bool
    requires { s < seats }
    ensures { result ≡ has_bit set s }
{
    (set >> s) % 2 == 1
}

// Whether a link from x to y becomes none: one of the two is freed.
fn parts(set: u64, x: usize, y: usize) -> bool
    requires { (x < seats) × (y < seats) }
    ensures { result ≡ has_bit set x || has_bit set y }
{
    in_set(set, x) || in_set(set, y)
}

// Makes the link of x at level k on side d none if x or the seat that it names is freed.
fn unlink(rec: &mut Record, set: u64, x: usize, k: usize, d: Side)
    requires { (x < seats) × (k < levels) }
    ensures { let n = link_place x k (side_number (as_side d)) in Step (freed_to set (x + 1) n) (freed_to set (x + 1) (n + 1)) rec.old rec.new }
{
    if let Some(y) = link(rec, x, k, d)
        && parts(set, x, y)
    {
        record::write_link(rec, x, k, d, Some(NONE));
    }
}

// The same for every link of x.
fn unlink_lot(rec: &mut Record, set: u64, x: usize)
    requires { x < seats }
    ensures { Step (freed_to set (x + 1) (link_place x 0 0)) (freed_to set (x + 1) (link_place (x + 1) 0 0)) rec.old rec.new }
{
    for k in 0..LEVELS {
        unlink(rec, set, x, k, Side::Left);
        unlink(rec, set, x, k, Side::Right);
    }
}

// The same; a seat without links, as every free one is, is passed over at once.
fn unlink_seat(rec: &mut Record, set: u64, x: usize)
    requires { x < seats }
    ensures { Step (freed_to set (x + 1) (link_place x 0 0)) (freed_to set (x + 1) (link_place (x + 1) 0 0)) rec.old rec.new }
{
    if !no_links(rec, x) {
        unlink_lot(rec, set, x);
    }
}

// State, number and vector of seat s as opened if it is freed.
fn clear_seat(rec: &mut Record, set: u64, s: usize)
    requires { s < seats }
    ensures { Step (freed_to set s (link_place s 0 0)) (freed_to set (s + 1) (link_place s 0 0)) rec.old rec.new }
{
    if in_set(set, s) {
        record::fill(rec, s, State::Free as u8, 0, 0);
    }
}

// The seats of the set become free as opened, and links of them and to them become none. The phase and the pending messages stay.
pub fn free_seats(rec: &mut Record, set: u64)
    ensures { Step same (freed set) rec.old rec.new }
{
    for s in 0..SEATS {
        clear_seat(rec, set, s);
        unlink_seat(rec, set, s);
    }
}
