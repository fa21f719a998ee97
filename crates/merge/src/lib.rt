// Two halves find each other (document 02, #107): of two seated lots the first gets MEET about the second at level 0. The answer and the bytes left are
// those of record's specs/Call.antt.
#![tactic(auto)]

ghost use Rattle.std.specs.Prelude.{◌≡◌, ◌||◌, ◌<◌};
ghost use Rattle.graph.specs.Vector.{width};
ghost use Rattle.protocol.specs.State.{no_seat, empty};
ghost use Rattle.protocol.specs.Calls.{merge as merging, refusal};
ghost use Rattle.record.specs.Layout.{seats};
ghost use Rattle.record.specs.Meaning.{seats_in, meaning};
ghost use Rattle.record.specs.Call.{call_refusal, called};
ghost use Rattle.record.specs.Answer.{number_of, outcome};

use messages::meet_place;
use record::lots::{is_clearing, is_seated};
use record::refusals::Refusal;
use record::{Record, SEATS};
use soundness::look;

// Whether one of two seats does not exist.
fn lacks_seat(first: usize, second: usize) -> bool
    ensures { result ≡ no_seat seats first || no_seat seats second }
{
    first >= SEATS || second >= SEATS
}

// Whether one of two seats has no lot: it is free or only reserved.
fn lacks_lot(rec: &Record, first: usize, second: usize) -> bool
    requires { (first < seats) × (second < seats) }
    ensures { result ≡ empty (seats_in rec.now) first || empty (seats_in rec.now) second }
{
    !is_seated(rec, first) || !is_seated(rec, second)
}

// The first row of the table that applies to a merge.
fn merge_row(rec: &Record, first: usize, second: usize) -> Result<(), Refusal>
    ensures { number_of result ≡ refusal seats width (meaning rec.now).seats (meaning rec.now).pending (merging first second) }
{
    if lacks_seat(first, second) {
        return Err(Refusal::NoSuchSeat);
    }
    if is_clearing(rec) {
        return Err(Refusal::InClearing);
    }
    if lacks_lot(rec, first, second) {
        return Err(Refusal::EmptySeat);
    }
    if first == second {
        return Err(Refusal::SameLot);
    }
    Ok(())
}

// The refusal of a merge, if it is refused.
fn merge_refusal(rec: &Record, first: usize, second: usize) -> Result<(), Refusal>
    ensures { number_of result ≡ call_refusal rec.now (merging first second) }
{
    look(rec)?;
    merge_row(rec, first, second)
}

// Sends the lot on the first seat MEET about the lot on the second at level 0, whatever else is pending. The two may be in one component, and may be
// leaving. Refused by 1, 2, 3, 7, 8, 15, in this order.
pub fn merge(rec: &mut [u8], first: u8, second: u8) -> Result<(), Refusal>
    ensures { outcome result rec.new ≡ called rec.old (merging first second) }
{
    let Some(rec) = rec.as_mut_array() else {
        return Err(Refusal::WrongSize);
    };
    let a = first as usize;
    let b = second as usize;
    merge_refusal(rec, a, b)?;
    record::send(rec, meet_place(a, b, 0));
    Ok(())
}
