// What a join, a reservation and its confirmation have in common: the rows of the table, and the MEET to the contact.
ghost use Rattle.std.specs.Prelude.{◌≡◌, ◌&&◌, ◌||◌, ℕ, ◌<◌, eqb};
ghost use Rattle.base.specs.Loops.{any};
ghost use Rattle.graph.specs.Vector.{width};
ghost use Rattle.protocol.specs.State.{taken, seated, no_seat};
ghost use Rattle.protocol.specs.Calls.{reserve, refusal};
ghost use Rattle.protocol.specs.pages.Join.{no_such_contact, in_use, lacks_contact};
ghost use Rattle.record.specs.Layout.{seats};
ghost use Rattle.record.specs.Meaning.{seats_in, meaning};
ghost use Rattle.record.specs.Answer.{number_of};
ghost use Rattle.joining.specs.inner.Newcomer.{greeted};

use messages::meet_place;
use record::lots::{is_clearing, is_seated, is_taken};
use record::refusals::Refusal;
use record::{NONE, Record, SEATS};

// Whether some lot is seated.
fn any_seated(rec: &Record) -> bool
    ensures { result ≡ any seats (seated (seats_in rec.now)) }
{
    (0..SEATS).any(|s| is_seated(rec, s))
}

// Whether seat s is taken, with the number n.
fn is_numbered(rec: &Record, s: usize, n: u64) -> bool
    requires { s < seats }
    ensures { result ≡ taken (seats_in rec.now) s && eqb ((seats_in rec.now).number s) n }
{
    is_taken(rec, s) && record::number(rec, s) == n
}

// Whether some taken seat has the number n.
fn has_number(rec: &Record, n: u64) -> bool
    ensures { result ≡ in_use seats (seats_in rec.now) n }
{
    (0..SEATS).any(|s| is_numbered(rec, s, n))
}

// The first row of the table that applies to reserving: 3, 7, 4 or 5, which a join meets, too. None asks for the vector.
pub fn reserve_row(rec: &Record, seat: usize, number: u64) -> Result<(), Refusal>
    ensures { (v : ℕ) → number_of result ≡ refusal seats width (meaning rec.now).seats (meaning rec.now).pending
        (reserve seat number v) }
{
    if seat >= SEATS {
        return Err(Refusal::NoSuchSeat);
    }
    if is_clearing(rec) {
        return Err(Refusal::InClearing);
    }
    if is_taken(rec, seat) {
        return Err(Refusal::SeatTaken);
    }
    if has_number(rec, number) {
        return Err(Refusal::NumberInUse);
    }
    Ok(())
}

// Whether a contact is a seat without a lot, or none while lots are seated.
pub fn lacks_contact(rec: &Record, contact: usize) -> bool
    ensures { result ≡ lacks_contact seats (seats_in rec.now) contact }
{
    if contact < SEATS {
        !is_seated(rec, contact)
    } else {
        any_seated(rec)
    }
}

// Whether a call names a seat or a contact that does not exist. The contact is the call's number and no Option: 255 is none, and the others that are no
// seat are refused.
pub fn lacks_seat(seat: usize, contact: usize) -> bool
    ensures { result ≡ no_seat seats seat || no_such_contact seats contact }
{
    seat >= SEATS || (contact >= SEATS && contact != NONE as usize)
}

// Lets the contact know of the newcomer on seat s: it is sent MEET at level 0. A contact that is no seat is none.
pub fn greet(rec: &mut Record, s: usize, contact: usize)
    requires { s < seats }
    ensures { rec.new ≡ greeted rec.old s contact }
{
    if contact < SEATS {
        record::send(rec, meet_place(contact, s, 0));
    }
}
