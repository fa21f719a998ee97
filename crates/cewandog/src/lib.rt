// What other languages call, by the static library over this crate (crates/cewandog_c): one function for each public call, over lent bytes and
// numbers. Each gives the refusal number, 0 if the call is accepted, and writes every value of the answer, 0 where the call is refused. The
// contracts cite the definitions that the public calls' own contracts cite.
// By numbers, where the public calls answer by results, structs and options: the C interface has numbers alone.
#![tactic(auto)]

ghost use Rattle.std.specs.Prelude.{◌≡◌};
ghost use Rattle.protocol.specs.Message.{name};
ghost use Rattle.protocol.specs.Calls.{join as joining, reserve as reserving, confirm as confirming, give_back as giving_back};
ghost use Rattle.protocol.specs.Calls.{leave as leaving, deliver as delivering, turn as turning, crash as crashing, merge as merging};
ghost use Rattle.record.specs.Reading.{record_refusal, open_refusal, open_bytes, read_lot, read_link, read_message, read_counts};
ghost use Rattle.record.specs.Call.{called};
ghost use Rattle.record.specs.Bundle.{bundled};
ghost use Rattle.record.specs.Answer.{number_of};
ghost use Rattle.find.specs.Find.{find_in};
ghost use Rattle.check_links.specs.Check.{check_in};
ghost use Rattle.cewandog.specs.Numbers.{find_numbers, check_numbers};

pub mod next;

use messages::Message;
use record::NONE;
use record::refusals::Refusal;

// The number of an answer: 0 done, else the refusal's.
#[tactic(auto, unfolding(record::specs::Answer::number_of))]
fn number_of<T: Drop>(answer: Result<T, Refusal>) -> u8
    ensures { result ≡ number_of answer }
{
    match answer {
        Ok(_) => 0,
        Err(refusal) => u8::from(refusal),
    }
}

// Writes the empty record in phase open. Refused: 1.
pub fn lots_open(rec: &mut [u8]) -> u8
    ensures { (result ≡ open_refusal rec.old) × (rec.new ≡ open_bytes rec.old) }
{
    number_of(reading::open(rec))
}

// Seats a lot. Refused: 1, 2, 3, 7, 4, 5, 6.
pub fn lots_join(rec: &mut [u8], seat: u8, number: u64, vector: u8, contact: u8) -> u8
    ensures { record { refused = result; after = rec.new } ≡ called rec.old (joining seat number vector contact) }
{
    number_of(joining::join(rec, seat, number, vector, contact))
}

// Holds a free seat for a lot with a number and a vector. Refused: 1, 2, 3, 7, 4, 5.
pub fn lots_reserve(rec: &mut [u8], seat: u8, number: u64, vector: u8) -> u8
    ensures { record { refused = result; after = rec.new } ≡ called rec.old (reserving seat number vector) }
{
    number_of(reserving::reserve(rec, seat, number, vector))
}

// Seats the lot of a reserved seat. Refused: 1, 2, 3, 7, 14, 6.
pub fn lots_confirm(rec: &mut [u8], seat: u8, contact: u8) -> u8
    ensures { record { refused = result; after = rec.new } ≡ called rec.old (confirming seat contact) }
{
    number_of(reserving::confirm(rec, seat, contact))
}

// Frees a reserved seat. Refused: 1, 2, 3, 14.
pub fn lots_give_back(rec: &mut [u8], seat: u8) -> u8
    ensures { record { refused = result; after = rec.new } ≡ called rec.old (giving_back seat) }
{
    number_of(reserving::give_back(rec, seat))
}

// Marks a lot as leaving. Refused: 1, 2, 3, 7, 8, 9.
pub fn lots_leave(rec: &mut [u8], seat: u8) -> u8
    ensures { record { refused = result; after = rec.new } ≡ called rec.old (leaving seat) }
{
    number_of(joining::leave(rec, seat))
}

// Delivers the message that five numbers name. Refused: 1, 2, 10.
pub fn lots_deliver(rec: &mut [u8], kind: u8, to: u8, about: u8, level: u8, side: u8) -> u8
    ensures { record { refused = result; after = rec.new } ≡ called rec.old (delivering (name kind to about level side)) }
{
    let message = Message {
        kind,
        to,
        about,
        level,
        side,
    };
    number_of(delivery::deliver(rec, message))
}

// Delivers the smallest pending message by its five numbers, again and again, until none is pending or the limit is reached, and says how many it
// delivered. Refused: 1, 2.
pub fn lots_bundle(rec: &mut [u8], limit: u16, delivered: &mut u16) -> u8
    ensures { record { refused = result; delivered = delivered.new; after = rec.new } ≡ bundled rec.old limit }
{
    let refused;
    (refused, *delivered) = match bundle::bundle(rec, limit) {
        Ok(n) => (0, n),
        Err(refusal) => (u8::from(refusal), 0),
    };
    refused
}

// Goes on from open with leavers to clearing, and from clearing to open. Refused: 1, 2, 11.
pub fn lots_turn(rec: &mut [u8]) -> u8
    ensures { record { refused = result; after = rec.new } ≡ called rec.old turning }
{
    number_of(clearing::turn(rec))
}

// Frees the seats of a set, whose lots are gone, and makes the ends of each link that remains above level 0 known to each other. Refused: 1, 2, 7, 8, 11.
pub fn lots_crash(rec: &mut [u8], seats: u64) -> u8
    ensures { record { refused = result; after = rec.new } ≡ called rec.old (crashing seats) }
{
    number_of(crash::crash(rec, seats))
}

// Sends the lot on one seat MEET about the lot on another at level 0, so that their components become one. Refused: 1, 2, 3, 7, 8, 15.
pub fn lots_merge(rec: &mut [u8], first: u8, second: u8) -> u8
    ensures { record { refused = result; after = rec.new } ≡ called rec.old (merging first second) }
{
    number_of(merge::merge(rec, first, second))
}

// The staying lot that a scanned number belongs to, searched from the lot on a seat among those of its component: its seat, or 255 for none, and the
// hops. Refused: 1, 2, 3, 8, 13.
#[tactic(auto, using(crate::proofs::Numbers::refused_numbers), unfolding(crate::specs::Numbers::find_numbers))]
pub fn lots_find(rec: &[u8], seat: u8, number: u64, holder: &mut u8, hops: &mut u64) -> u8
    ensures { record { refused = result; holder = holder.new; hops = hops.new }
        ≡ find_numbers (find_in rec.now seat number) }
{
    let refused;
    (refused, *holder, *hops) = match find::find(rec, seat, number) {
        Ok(found) => (0, found.holder.unwrap_or(NONE), found.hops),
        Err(refusal) => (u8::from(refusal), 0, 0),
    };
    refused
}

// Whether every component of the links is the skip graph of its own lots: 1 yes, 0 no. Refused: 1, 2.
#[tactic(auto, unfolding(crate::specs::Numbers::check_numbers))]
pub fn lots_check(rec: &[u8], yes: &mut u8) -> u8
    ensures { record { refused = result; yes = yes.new } ≡ check_numbers (check_in rec.now) }
{
    let refused;
    (refused, *yes) = match check_links::check(rec) {
        Ok(y) => (0, y as u8),
        Err(refusal) => (u8::from(refusal), 0),
    };
    refused
}

// State, number and vector of a seat with a lot or a reservation. Refused: 1, 2, 3, 8.
pub fn lots_read_lot(rec: &[u8], seat: u8, state: &mut u8, number: &mut u64, vector: &mut u8) -> u8
    ensures { record { refused = result; state = state.new; number = number.new; vector = vector.new }
        ≡ read_lot rec.now seat }
{
    let refused;
    (refused, *state, *number, *vector) = match reading::read_lot(rec, seat) {
        Ok(lot) => (0, u8::from(lot.state), lot.number, lot.vector),
        Err(refusal) => (u8::from(refusal), 0, 0, 0),
    };
    refused
}

// The link of a lot at a level, on side 0 left or 1 right: a seat, or 255 for none. Refused: 1, 2, 3, 12, 8.
pub fn lots_read_link(rec: &[u8], seat: u8, level: u8, side: u8, link: &mut u8) -> u8
    ensures { record { refused = result; seat = link.new } ≡ read_link rec.now seat level side }
{
    let refused;
    (refused, *link) = match reading::read_link(rec, seat, level, side) {
        Ok(named) => (0, named.unwrap_or(NONE)),
        Err(refusal) => (u8::from(refusal), 0),
    };
    refused
}

// Whether five numbers are a pending message: 1 or 0. Refused: 1, 2.
pub fn lots_read_message(
    rec: &[u8],
    kind: u8,
    to: u8,
    about: u8,
    level: u8,
    side: u8,
    pending: &mut u8,
) -> u8
    ensures { record { refused = result; pending = pending.new } ≡ read_message rec.now (name kind to about level side) }
{
    let message = Message {
        kind,
        to,
        about,
        level,
        side,
    };
    let refused;
    (refused, *pending) = match reading::read_message(rec, message) {
        Ok(p) => (0, p as u8),
        Err(refusal) => (u8::from(refusal), 0),
    };
    refused
}

// Seated lots, phase and pending messages. Refused: 1, 2.
pub fn lots_read_counts(rec: &[u8], lots: &mut u8, phase: &mut u8, pending: &mut u32) -> u8
    ensures { record { refused = result; lots = lots.new; phase = phase.new; pending = pending.new }
        ≡ read_counts rec.now }
{
    let refused;
    (refused, *lots, *phase, *pending) = match reading::read_counts(rec) {
        Ok(counts) => (0, counts.lots, u8::from(counts.phase), counts.pending),
        Err(refusal) => (u8::from(refusal), 0, 0, 0),
    };
    refused
}

// 1 wrong size, 2 unsound, or 0: the test in front of every call but open.
pub fn lots_validate(rec: &[u8]) -> u8
    ensures { result ≡ record_refusal rec.now }
{
    number_of(soundness::sound_record(rec))
}
