// Whether bytes of a record's size are a sound record (document 01, "Sound"): a function for each clause of record's specs/Sound.antt, the
// clause of the messages in pending.rt. Any bytes are read without fault.
#![tactic(auto)]

ghost use Rattle.std.specs.Prelude.{◌≡◌, ◌&&◌, IfOk};
ghost use Rattle.base.specs.Loops.{all};
ghost use Rattle.record.specs.Layout.{seats};
ghost use Rattle.record.specs.Answer.{number_of};
ghost use Rattle.record.specs.Reading.{record_refusal};
ghost use Rattle.messages.specs.inner.Numbers.{first_pending, NoneBefore};
ghost use Rattle.messages.specs.inner.Places.{IsPlace};
ghost use Rattle.soundness.specs.inner.Parts.{seat_fits, entries_fit};
ghost use Rattle.record.specs.Sound.{numbers_differ, links_fit};

mod entries;
mod links;
mod pending;

use entries::Buckets;
use links::Lots;
use messages::first_pending;
use record::refusals::Refusal;
use record::{MESSAGES, Record};

// The clauses on seats, numbers and links.
fn lots_fit(rec: &Record) -> bool
    ensures { let l = rec.now in result ≡ all seats (seat_fits l) && (numbers_differ l && links_fit l) }
{
    let mut kept = Buckets::new();
    match entries::seats_fit(rec, &mut kept) {
        Some(top) => {
            let lots = Lots {
                rec,
                numbers: &kept.numbers,
            };
            lots.links_fit(top)
        }
        None => false,
    }
}

// All clauses but that of the messages.
fn entries_fit(rec: &Record) -> bool
    ensures { result ≡ entries_fit rec.now }
{
    record::phase_fits(rec) && lots_fit(rec)
}

// The refusal of a record of the right size, if it is unsound. The caller knows that nothing is pending before place `from`: the messages are looked
// at from there on.
pub fn sized_refusal(rec: &Record, from: usize) -> Result<(), Refusal>
    requires { NoneBefore rec.now from }
    ensures { number_of result ≡ record_refusal rec.now }
{
    if entries_fit(rec) && pending::messages_fit(rec, from) {
        Ok(())
    } else {
        Err(Refusal::Unsound)
    }
}

// The look in front of a changing call and of a scan: the refusal of an unsound record, else its first pending place, for those that ask whether
// something is pending. The pending bits are gone through once.
pub fn look(rec: &[u8]) -> Result<Option<usize>, Refusal>
    ensures refused { number_of result ≡ record_refusal rec.now }
    ensures first { IfOk result (λ first. IsPlace first (first_pending rec.now 0)) }
{
    let Some(rec) = rec.as_array() else {
        return Err(Refusal::WrongSize);
    };
    let first = first_pending(rec, 0);
    sized_refusal(rec, first.unwrap_or(MESSAGES))?;
    Ok(first)
}

// The bytes as a sound record, in front of the readings and the check: refused as of another size, or as unsound.
pub fn sound_record(rec: &[u8]) -> Result<&Record, Refusal>
    ensures refused { number_of result ≡ record_refusal rec.now }
    ensures same { IfOk result (λ r. r.now ≡ rec.now) }
{
    let Some(rec) = rec.as_array() else {
        return Err(Refusal::WrongSize);
    };
    look(rec)?;
    Ok(rec)
}
