// Join and leave over a lent record (document 01, "Calls" and "Refused calls"). The answer and the bytes left are those of record's
// specs/Call.antt.
#![tactic(auto)]

ghost use Rattle.std.specs.Prelude.{◌≡◌, ℕ};
ghost use Rattle.graph.specs.Vector.{width};
ghost use Rattle.protocol.specs.Calls.{join as joining, leave as leaving, refusal};
ghost use Rattle.record.specs.Layout.{seats};
ghost use Rattle.record.specs.Meaning.{meaning};
ghost use Rattle.record.specs.Call.{call_refusal, called};
ghost use Rattle.record.specs.Answer.{number_of, outcome};

pub mod newcomer;

use newcomer::{greet, lacks_contact, lacks_seat, reserve_row};
use record::lots::{is_clearing, is_leaving, is_seated};
use record::refusals::Refusal;
use record::states::State;
use record::{Record, SEATS, fill};
use soundness::look;

// The first row of the table that applies to a join. None asks for the vector.
fn join_row(rec: &Record, seat: usize, number: u64, contact: usize) -> Result<(), Refusal>
    ensures { (v : ℕ) → number_of result ≡ refusal seats width (meaning rec.now).seats (meaning rec.now).pending
        (joining seat number v contact) }
{
    if lacks_seat(seat, contact) {
        return Err(Refusal::NoSuchSeat);
    }
    reserve_row(rec, seat, number)?;
    if lacks_contact(rec, contact) {
        return Err(Refusal::NoContact);
    }
    Ok(())
}

// The first row of the table that applies to a leave.
fn leave_row(rec: &Record, seat: usize) -> Result<(), Refusal>
    ensures { number_of result ≡ refusal seats width (meaning rec.now).seats (meaning rec.now).pending (leaving seat) }
{
    if seat >= SEATS {
        return Err(Refusal::NoSuchSeat);
    }
    if is_clearing(rec) {
        return Err(Refusal::InClearing);
    }
    if !is_seated(rec, seat) {
        return Err(Refusal::EmptySeat);
    }
    if is_leaving(rec, seat) {
        return Err(Refusal::AlreadyLeaving);
    }
    Ok(())
}

// The refusal of a join, if it is refused. No row asks for the vector.
fn join_refusal(rec: &Record, seat: usize, number: u64, contact: usize) -> Result<(), Refusal>
    ensures { (v : ℕ) → number_of result ≡ call_refusal rec.now (joining seat number v contact) }
{
    look(rec)?;
    join_row(rec, seat, number, contact)
}

// The refusal of a leave, if it is refused.
fn leave_refusal(rec: &Record, seat: usize) -> Result<(), Refusal>
    ensures { number_of result ≡ call_refusal rec.now (leaving seat) }
{
    look(rec)?;
    leave_row(rec, seat)
}

// Seats a lot with that number and vector on a free seat, staying and without links, and sends the contact MEET about it; in a record
// without seated lots the contact is 255. Refused by 1, 2, 3, 7, 4, 5, 6, in this order.
pub fn join(rec: &mut [u8], seat: u8, number: u64, vector: u8, contact: u8) -> Result<(), Refusal>
    ensures { outcome result rec.new ≡ called rec.old (joining seat number vector contact) }
{
    let Some(rec) = rec.as_mut_array() else {
        return Err(Refusal::WrongSize);
    };
    let s = seat as usize;
    let c = contact as usize;
    join_refusal(rec, s, number, c)?;
    fill(rec, s, State::Staying as u8, number, vector);
    greet(rec, s, c);
    Ok(())
}

// Marks a staying lot as leaving. Refused by 1, 2, 3, 7, 8, 9, in this order.
pub fn leave(rec: &mut [u8], seat: u8) -> Result<(), Refusal>
    ensures { outcome result rec.new ≡ called rec.old (leaving seat) }
{
    let Some(rec) = rec.as_mut_array() else {
        return Err(Refusal::WrongSize);
    };
    let s = seat as usize;
    leave_refusal(rec, s)?;
    record::set_state(rec, s, State::Leaving);
    Ok(())
}
