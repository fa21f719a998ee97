// Reserving, confirming and giving back over a lent record (document 02, #105). The answer and the bytes left are those of record's specs/Call.antt.
#![tactic(auto)]

ghost use Rattle.std.specs.Prelude.{◌≡◌, ℕ};
ghost use Rattle.graph.specs.Vector.{width};
ghost use Rattle.protocol.specs.Calls.{reserve as reserving, confirm as confirming, give_back as giving_back, refusal};
ghost use Rattle.record.specs.Layout.{seats};
ghost use Rattle.record.specs.Meaning.{meaning};
ghost use Rattle.record.specs.Call.{call_refusal, called};
ghost use Rattle.record.specs.Answer.{number_of, outcome};

use joining::newcomer::{greet, lacks_contact, lacks_seat, reserve_row};
use record::lots::{is_clearing, is_reserved};
use record::refusals::Refusal;
use record::states::State;
use record::{Record, SEATS, fill};
use soundness::look;

// The first row of the table that applies to confirming.
fn confirm_row(rec: &Record, seat: usize, contact: usize) -> Result<(), Refusal>
    ensures { number_of result ≡ refusal seats width (meaning rec.now).seats (meaning rec.now).pending (confirming seat contact) }
{
    if lacks_seat(seat, contact) {
        return Err(Refusal::NoSuchSeat);
    }
    if is_clearing(rec) {
        return Err(Refusal::InClearing);
    }
    if !is_reserved(rec, seat) {
        return Err(Refusal::NotReserved);
    }
    if lacks_contact(rec, contact) {
        return Err(Refusal::NoContact);
    }
    Ok(())
}

// The first row of the table that applies to giving back.
fn give_back_row(rec: &Record, seat: usize) -> Result<(), Refusal>
    ensures { number_of result ≡ refusal seats width (meaning rec.now).seats (meaning rec.now).pending (giving_back seat) }
{
    if seat >= SEATS {
        return Err(Refusal::NoSuchSeat);
    }
    if !is_reserved(rec, seat) {
        return Err(Refusal::NotReserved);
    }
    Ok(())
}

// The refusal of reserving, if it is refused. No row asks for the vector.
fn reserve_refusal(rec: &Record, seat: usize, number: u64) -> Result<(), Refusal>
    ensures { (v : ℕ) → number_of result ≡ call_refusal rec.now (reserving seat number v) }
{
    look(rec)?;
    reserve_row(rec, seat, number)
}

// The refusal of confirming, if it is refused.
fn confirm_refusal(rec: &Record, seat: usize, contact: usize) -> Result<(), Refusal>
    ensures { number_of result ≡ call_refusal rec.now (confirming seat contact) }
{
    look(rec)?;
    confirm_row(rec, seat, contact)
}

// The refusal of giving back, if it is refused.
fn give_back_refusal(rec: &Record, seat: usize) -> Result<(), Refusal>
    ensures { number_of result ≡ call_refusal rec.now (giving_back seat) }
{
    look(rec)?;
    give_back_row(rec, seat)
}

// Holds a free seat for a lot with that number and vector. Nothing is sent. Refused by 1, 2, 3, 7, 4, 5, in this order.
pub fn reserve(rec: &mut [u8], seat: u8, number: u64, vector: u8) -> Result<(), Refusal>
    ensures { outcome result rec.new ≡ called rec.old (reserving seat number vector) }
{
    let Some(rec) = rec.as_mut_array() else {
        return Err(Refusal::WrongSize);
    };
    let s = seat as usize;
    reserve_refusal(rec, s, number)?;
    fill(rec, s, State::Reserved as u8, number, vector);
    Ok(())
}

// Does the rest of the join for a reserved seat: the lot stays, and the contact is sent MEET about it; in a record without seated lots the contact is
// 255. Refused by 1, 2, 3, 7, 14, 6, in this order.
pub fn confirm(rec: &mut [u8], seat: u8, contact: u8) -> Result<(), Refusal>
    ensures { outcome result rec.new ≡ called rec.old (confirming seat contact) }
{
    let Some(rec) = rec.as_mut_array() else {
        return Err(Refusal::WrongSize);
    };
    let s = seat as usize;
    let c = contact as usize;
    confirm_refusal(rec, s, c)?;
    record::set_state(rec, s, State::Staying);
    greet(rec, s, c);
    Ok(())
}

// Frees a reserved seat: its entry is as opened. Refused by 1, 2, 3, 14, in this order.
pub fn give_back(rec: &mut [u8], seat: u8) -> Result<(), Refusal>
    ensures { outcome result rec.new ≡ called rec.old (giving_back seat) }
{
    let Some(rec) = rec.as_mut_array() else {
        return Err(Refusal::WrongSize);
    };
    let s = seat as usize;
    give_back_refusal(rec, s)?;
    fill(rec, s, State::Free as u8, 0, 0);
    Ok(())
}
