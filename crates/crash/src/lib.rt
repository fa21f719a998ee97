// A scale dies (document 02, #106): the seats of a set become free, and every link that remains above level 0 makes its two ends known to each other.
// Bit s of a set, the lowest is 0, is seat s.
#![tactic(auto)]

ghost use Rattle.std.specs.Prelude.{◌≡◌, ◌&&◌, ◌<◌};
ghost use Rattle.memory.specs.Bits.{has_bit};
ghost use Rattle.graph.specs.inner.Code.{as_side};
ghost use Rattle.graph.specs.Vector.{width};
ghost use Rattle.protocol.specs.State.{empty};
ghost use Rattle.protocol.specs.Calls.{crash as crashing, refusal, accept};
ghost use Rattle.protocol.specs.pages.Crash.{names_empty, introduced, introductions};
ghost use Rattle.record.specs.Layout.{seats, levels};
ghost use Rattle.record.specs.Meaning.{seats_in, meaning};
ghost use Rattle.record.specs.Call.{call_refusal, called};
ghost use Rattle.record.specs.Answer.{number_of, outcome};
ghost use Rattle.messages.specs.inner.Numbers.{first_pending};
ghost use Rattle.messages.specs.inner.Places.{IsPlace};
ghost use Rattle.clearing.specs.inner.Steps.{Step, same, saying};
ghost use Rattle.crash.specs.inner.Steps.{lot_introductions};

use clearing::freeing::{free_seats, in_set};
use graph::Side;
use messages::meet_place;
use record::lots::{is_clearing, is_seated, link, no_links};
use record::refusals::Refusal;
use record::{LEVELS, Record, SEATS};
use soundness::look;

// Whether seat s is in the set, and no lot sits on it: it is free or only reserved.
fn is_empty_in(rec: &Record, set: u64, s: usize) -> bool
    requires { s < seats }
    ensures { result ≡ has_bit set s && empty (seats_in rec.now) s }
{
    in_set(set, s) && !is_seated(rec, s)
}

// Whether some seat of the set is so.
fn names_empty(rec: &Record, set: u64) -> bool
    ensures { result ≡ names_empty seats (seats_in rec.now) set }
{
    (0..SEATS).any(|s| is_empty_in(rec, set, s))
}

// Sends MEET at level 0 to each end of the link of x at level k on side d, if there is one, about the other end.
fn introduce(rec: &mut Record, x: usize, k: usize, d: Side)
    requires { (x < seats) × (k < levels) }
    ensures { Step same (λ M. saying M (introduced M.link x k (as_side d))) rec.old rec.new }
{
    if let Some(y) = link(rec, x, k, d) {
        record::send(rec, meet_place(x, y, 0));
        record::send(rec, meet_place(y, x, 0));
    }
}

// The same for every link of x above level 0.
fn introduce_links(rec: &mut Record, x: usize)
    requires { x < seats }
    ensures { Step same (λ M. saying M (lot_introductions M.link x)) rec.old rec.new }
{
    for k in 1..LEVELS {
        introduce(rec, x, k, Side::Left);
        introduce(rec, x, k, Side::Right);
    }
}

// The same; a seat without links, as every free one is, is passed over at once.
fn introduce_seat(rec: &mut Record, x: usize)
    requires { x < seats }
    ensures { Step same (λ M. saying M (lot_introductions M.link x)) rec.old rec.new }
{
    if !no_links(rec, x) {
        introduce_links(rec, x);
    }
}

// And of every lot.
fn introduce_all(rec: &mut Record)
    ensures { Step same (λ M. saying M (introductions seats width M.link)) rec.old rec.new }
{
    for x in 0..SEATS {
        introduce_seat(rec, x);
    }
}

// What an accepted crash does.
fn carry_out(rec: &mut Record, set: u64)
    ensures { Step same (λ M. accept seats width M (crashing set)) rec.old rec.new }
{
    if set == 0 {
        return;
    }
    free_seats(rec, set);
    introduce_all(rec);
}

// The first row of the table that applies to a crash, where the first pending message has the place `first`.
fn crash_row(rec: &Record, set: u64, first: Option<usize>) -> Result<(), Refusal>
    requires { IsPlace first (first_pending rec.now 0) }
    ensures { number_of result ≡ refusal seats width (meaning rec.now).seats (meaning rec.now).pending (crashing set) }
{
    if is_clearing(rec) {
        return Err(Refusal::InClearing);
    }
    if names_empty(rec, set) {
        return Err(Refusal::EmptySeat);
    }
    if first.is_some() {
        return Err(Refusal::MessagesLeft);
    }
    Ok(())
}

// The refusal of a crash, if it is refused. The pending bytes are looked at once.
fn crash_refusal(rec: &Record, set: u64) -> Result<(), Refusal>
    ensures { number_of result ≡ call_refusal rec.now (crashing set) }
{
    let first = look(rec)?;
    crash_row(rec, set, first)
}

// The lots on the seats of the set are gone: the seats become free as opened, links to them become none, and every link that remains above level 0,
// in all of the record, sends MEET at level 0 to each of its ends about the other. The set 0 changes and sends nothing. Lots that leave may be in the
// set. Refused by 1, 2, 7, 8, 11, in this order.
pub fn crash(rec: &mut [u8], set: u64) -> Result<(), Refusal>
    ensures { outcome result rec.new ≡ called rec.old (crashing set) }
{
    let Some(rec) = rec.as_mut_array() else {
        return Err(Refusal::WrongSize);
    };
    crash_refusal(rec, set)?;
    carry_out(rec, set);
    Ok(())
}
