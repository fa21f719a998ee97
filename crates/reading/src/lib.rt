// Opening a record, and reading its lots, links, messages and counts (document 01, "Calls"). Any bytes and any numbers are taken. A refused
// call gives the first row of the table that applies; readings change no byte.
#![tactic(auto)]

ghost use Rattle.std.specs.Prelude.{◌≡◌, [], ◌∷◌, IfOk};
ghost use Rattle.protocol.specs.Refusals.{first};
ghost use Rattle.base.specs.Loops.{count};
ghost use Rattle.protocol.specs.State.{seated};
ghost use Rattle.record.specs.Layout.{seats};
ghost use Rattle.record.specs.Meaning.{seats_in};
ghost use Rattle.record.specs.Answer.{number_of};
ghost use Rattle.record.specs.Reading.{size_row, sound_row, seat_row};
ghost use Rattle.record.specs.Reading.{lot_refusal, link_refusal, open_refusal, open_bytes, read_lot, read_link, read_message, read_counts};
ghost use Rattle.messages.specs.Numbers.{numbers};
ghost use Rattle.reading.specs.Answer.{lot_numbers, link_numbers, LinkNumbered, message_numbers, count_numbers};

pub mod next;
mod opening;

use graph::Side;
use messages::{Message, message_place};
use opening::no_links;
use record::lots::{is_seated, is_taken, link};
use record::refusals::Refusal;
use record::states::{Phase, State};
use record::{LEVELS, MESSAGES, PENDING, Record, SEATS};
use soundness::{sized_refusal, sound_record};

// What a taken seat holds: a lot, or a reservation.
#[derive(Clone, Copy, Debug, PartialEq, Eq)]
pub struct Lot {
    pub state: State,
    pub number: u64,
    pub vector: u8,
}

// Seated lots, phase and pending messages.
#[derive(Clone, Copy, Debug, PartialEq, Eq)]
pub struct Counts {
    pub lots: u8,
    pub phase: Phase,
    pub pending: u32,
}

// The record, if it has the seat. Refused: 1, 2, 3.
fn seat_record(rec: &[u8], seat: u8) -> Result<&Record, Refusal>
    ensures refused { number_of result ≡ first (size_row rec.now ∷ sound_row rec.now ∷ seat_row seat ∷ []) }
    ensures same { IfOk result (λ r. r.now ≡ rec.now) }
{
    let rec = sound_record(rec)?;
    if (seat as usize) < SEATS {
        Ok(rec)
    } else {
        Err(Refusal::NoSuchSeat)
    }
}

// The record, if a lot or a reservation is on a seat of it. Refused: 1, 2, 3, 8.
pub fn lot_record(rec: &[u8], seat: u8) -> Result<&Record, Refusal>
    ensures refused { number_of result ≡ lot_refusal rec.now seat }
    ensures same { IfOk result (λ r. r.now ≡ rec.now) }
{
    let rec = seat_record(rec, seat)?;
    if !is_taken(rec, seat as usize) {
        return Err(Refusal::EmptySeat);
    }
    Ok(rec)
}

// The record, if it has a link of a lot. Refused: 1, 2, 3, 12, 8.
pub fn link_record(rec: &[u8], seat: u8, level: u8, side: u8) -> Result<&Record, Refusal>
    ensures refused { number_of result ≡ link_refusal rec.now seat level side }
    ensures same { IfOk result (λ r. r.now ≡ rec.now) }
{
    let rec = seat_record(rec, seat)?;
    if level as usize >= LEVELS || side >= 2 {
        return Err(Refusal::NoSuchLevel);
    }
    if is_seated(rec, seat as usize) {
        Ok(rec)
    } else {
        Err(Refusal::EmptySeat)
    }
}

// Writes the empty record in phase open. Refused: 1.
pub fn open(rec: &mut [u8]) -> Result<(), Refusal>
    ensures { (number_of result ≡ open_refusal rec.old) × (rec.new ≡ open_bytes rec.old) }
{
    let Some(rec) = rec.as_mut_array() else {
        return Err(Refusal::WrongSize);
    };
    rec.fill(0);
    no_links(rec);
    Ok(())
}

// The lot on a seat, or its reservation. Refused: 1, 2, 3, 8.
pub fn read_lot(rec: &[u8], seat: u8) -> Result<Lot, Refusal>
    ensures { lot_numbers result ≡ read_lot rec.now seat }
{
    let rec = lot_record(rec, seat)?;
    let s = seat as usize;
    Ok(Lot {
        state: record::state(rec, s),
        number: record::number(rec, s),
        vector: record::vector(rec, s),
    })
}

// The seat that a link of a lot names, if it names one: at a level, on side 0 left or 1 right. Refused: 1, 2, 3, 12, 8.
pub fn read_link(rec: &[u8], seat: u8, level: u8, side: u8) -> Result<Option<u8>, Refusal>
    ensures { (link_numbers result ≡ read_link rec.now seat level side) × LinkNumbered result }
{
    let rec = link_record(rec, seat, level, side)?;
    let d = Side::of_number(side as usize);
    Ok(link(rec, seat as usize, level as usize, d).map(|s| s as u8))
}

// Whether five numbers are a pending message. Refused: 1, 2.
pub fn read_message(rec: &[u8], message: Message) -> Result<bool, Refusal>
    ensures { message_numbers result ≡ read_message rec.now (numbers message) }
{
    let rec = sound_record(rec)?;
    Ok(message_place(message).is_some_and(|i| record::is_pending(rec, i)))
}

// How many lots are seated.
fn seated_lots(rec: &Record) -> u8
    ensures { result ≡ count seats (seated (seats_in rec.now)) }
{
    (0..SEATS).filter(|s| is_seated(rec, *s)).count() as u8
}

// Seated lots, phase and pending messages. Refused: 1, 2.
pub fn read_counts(rec: &[u8]) -> Result<Counts, Refusal>
    ensures { count_numbers result ≡ read_counts rec.now }
{
    let Some(rec) = rec.as_array() else {
        return Err(Refusal::WrongSize);
    };
    let pending = memory::count_bits(rec, PENDING, MESSAGES);
    sized_refusal(rec, if pending == 0 { MESSAGES } else { 0 })?;
    Ok(Counts {
        lots: seated_lots(rec),
        phase: record::phase(rec),
        pending: pending as u32,
    })
}
