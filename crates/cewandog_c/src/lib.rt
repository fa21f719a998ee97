// The static library that programs in C and in other languages link: each function of crate cewandog under its own name, by the calling convention
// of C, in which a slice is a pointer and then a length. embed/lots.h declares them. Each has the clauses of the function that it calls.
#![tactic(auto)]

ghost use Rattle.std.specs.Prelude.{◌≡◌};
ghost use Rattle.protocol.specs.Message.{name};
ghost use Rattle.protocol.specs.Calls.{join as joining, reserve as reserving, confirm as confirming, give_back as giving_back};
ghost use Rattle.protocol.specs.Calls.{leave as leaving, deliver as delivering, turn as turning, crash as crashing, merge as merging};
ghost use Rattle.record.specs.Reading.{record_refusal, open_refusal, open_bytes, read_lot, read_link, read_message, read_counts, read_next};
ghost use Rattle.record.specs.Call.{called};
ghost use Rattle.record.specs.Bundle.{bundled};
ghost use Rattle.find.specs.Find.{find_in};
ghost use Rattle.check_links.specs.Check.{check_in};
ghost use Rattle.cewandog.specs.Numbers.{find_numbers, check_numbers};

// Writes the empty record in phase open. Refused: 1.
#[unsafe(no_mangle)]
pub extern "C" fn lots_open(rec: &mut [u8]) -> u8
    ensures { (result ≡ open_refusal rec.old) × (rec.new ≡ open_bytes rec.old) }
{
    cewandog::lots_open(rec)
}

// Seats a lot. Refused: 1, 2, 3, 7, 4, 5, 6.
#[unsafe(no_mangle)]
pub extern "C" fn lots_join(rec: &mut [u8], seat: u8, number: u64, vector: u8, contact: u8) -> u8
    ensures { record { refused = result; after = rec.new } ≡ called rec.old (joining seat number vector contact) }
{
    cewandog::lots_join(rec, seat, number, vector, contact)
}

// Holds a free seat for a lot with a number and a vector. Refused: 1, 2, 3, 7, 4, 5.
#[unsafe(no_mangle)]
pub extern "C" fn lots_reserve(rec: &mut [u8], seat: u8, number: u64, vector: u8) -> u8
    ensures { record { refused = result; after = rec.new } ≡ called rec.old (reserving seat number vector) }
{
    cewandog::lots_reserve(rec, seat, number, vector)
}

// Seats the lot of a reserved seat. Refused: 1, 2, 3, 7, 14, 6.
#[unsafe(no_mangle)]
pub extern "C" fn lots_confirm(rec: &mut [u8], seat: u8, contact: u8) -> u8
    ensures { record { refused = result; after = rec.new } ≡ called rec.old (confirming seat contact) }
{
    cewandog::lots_confirm(rec, seat, contact)
}

// Frees a reserved seat. Refused: 1, 2, 3, 14.
#[unsafe(no_mangle)]
pub extern "C" fn lots_give_back(rec: &mut [u8], seat: u8) -> u8
    ensures { record { refused = result; after = rec.new } ≡ called rec.old (giving_back seat) }
{
    cewandog::lots_give_back(rec, seat)
}

// Marks a lot as leaving. Refused: 1, 2, 3, 7, 8, 9.
#[unsafe(no_mangle)]
pub extern "C" fn lots_leave(rec: &mut [u8], seat: u8) -> u8
    ensures { record { refused = result; after = rec.new } ≡ called rec.old (leaving seat) }
{
    cewandog::lots_leave(rec, seat)
}

// Delivers the message that five numbers name. Refused: 1, 2, 10.
#[unsafe(no_mangle)]
pub extern "C" fn lots_deliver(
    rec: &mut [u8],
    kind: u8,
    to: u8,
    about: u8,
    level: u8,
    side: u8,
) -> u8
    ensures { record { refused = result; after = rec.new } ≡ called rec.old (delivering (name kind to about level side)) }
{
    cewandog::lots_deliver(rec, kind, to, about, level, side)
}

// Delivers the smallest pending message by its five numbers, again and again, until none is pending or the limit is reached, and says how many it
// delivered. Refused: 1, 2.
#[unsafe(no_mangle)]
pub extern "C" fn lots_bundle(rec: &mut [u8], limit: u16, delivered: &mut u16) -> u8
    ensures { record { refused = result; delivered = delivered.new; after = rec.new } ≡ bundled rec.old limit }
{
    cewandog::lots_bundle(rec, limit, delivered)
}

// Goes on from open with leavers to clearing, and from clearing to open. Refused: 1, 2, 11.
#[unsafe(no_mangle)]
pub extern "C" fn lots_turn(rec: &mut [u8]) -> u8
    ensures { record { refused = result; after = rec.new } ≡ called rec.old turning }
{
    cewandog::lots_turn(rec)
}

// Frees the seats of a set, whose lots are gone, and makes the ends of each link that remains above level 0 known to each other. Refused: 1, 2, 7, 8, 11.
#[unsafe(no_mangle)]
pub extern "C" fn lots_crash(rec: &mut [u8], seats: u64) -> u8
    ensures { record { refused = result; after = rec.new } ≡ called rec.old (crashing seats) }
{
    cewandog::lots_crash(rec, seats)
}

// Sends the lot on one seat MEET about the lot on another at level 0, so that their components become one. Refused: 1, 2, 3, 7, 8, 15.
#[unsafe(no_mangle)]
pub extern "C" fn lots_merge(rec: &mut [u8], first: u8, second: u8) -> u8
    ensures { record { refused = result; after = rec.new } ≡ called rec.old (merging first second) }
{
    cewandog::lots_merge(rec, first, second)
}

// The staying lot that a scanned number belongs to, searched from the lot on a seat among those of its component: its seat, or 255 for none, and the
// hops. Refused: 1, 2, 3, 8, 13.
#[unsafe(no_mangle)]
pub extern "C" fn lots_find(
    rec: &[u8],
    seat: u8,
    number: u64,
    holder: &mut u8,
    hops: &mut u64,
) -> u8
    ensures { record { refused = result; holder = holder.new; hops = hops.new }
        ≡ find_numbers (find_in rec.now seat number) }
{
    cewandog::lots_find(rec, seat, number, holder, hops)
}

// Whether every component of the links is the skip graph of its own lots: 1 yes, 0 no. Refused: 1, 2.
#[unsafe(no_mangle)]
pub extern "C" fn lots_check(rec: &[u8], yes: &mut u8) -> u8
    ensures { record { refused = result; yes = yes.new } ≡ check_numbers (check_in rec.now) }
{
    cewandog::lots_check(rec, yes)
}

// State, number and vector of a seat with a lot or a reservation. Refused: 1, 2, 3, 8.
#[unsafe(no_mangle)]
pub extern "C" fn lots_read_lot(
    rec: &[u8],
    seat: u8,
    state: &mut u8,
    number: &mut u64,
    vector: &mut u8,
) -> u8
    ensures { record { refused = result; state = state.new; number = number.new; vector = vector.new }
        ≡ read_lot rec.now seat }
{
    cewandog::lots_read_lot(rec, seat, state, number, vector)
}

// The link of a lot at a level, on side 0 left or 1 right: a seat, or 255 for none. Refused: 1, 2, 3, 12, 8.
#[unsafe(no_mangle)]
pub extern "C" fn lots_read_link(rec: &[u8], seat: u8, level: u8, side: u8, link: &mut u8) -> u8
    ensures { record { refused = result; seat = link.new } ≡ read_link rec.now seat level side }
{
    cewandog::lots_read_link(rec, seat, level, side, link)
}

// Whether five numbers are a pending message: 1 or 0. Refused: 1, 2.
#[unsafe(no_mangle)]
pub extern "C" fn lots_read_message(
    rec: &[u8],
    kind: u8,
    to: u8,
    about: u8,
    level: u8,
    side: u8,
    pending: &mut u8,
) -> u8
    ensures { record { refused = result; pending = pending.new } ≡ read_message rec.now (name kind to about level side) }
{
    cewandog::lots_read_message(rec, kind, to, about, level, side, pending)
}

// Seated lots, phase and pending messages. Refused: 1, 2.
#[unsafe(no_mangle)]
pub extern "C" fn lots_read_counts(
    rec: &[u8],
    lots: &mut u8,
    phase: &mut u8,
    pending: &mut u32,
) -> u8
    ensures { record { refused = result; lots = lots.new; phase = phase.new; pending = pending.new }
        ≡ read_counts rec.now }
{
    cewandog::lots_read_counts(rec, lots, phase, pending)
}

// 1 wrong size, 2 unsound, or 0: the test in front of every call but open.
#[unsafe(no_mangle)]
pub extern "C" fn lots_validate(rec: &[u8]) -> u8
    ensures { result ≡ record_refusal rec.now }
{
    cewandog::lots_validate(rec)
}

// The smallest pending message, by its five numbers in order, that is not smaller than five given numbers; kind 0 if there is none. Refused: 1, 2.
#[unsafe(no_mangle)]
pub extern "C" fn lots_next_message(
    rec: &[u8],
    kind: u8,
    to: u8,
    about: u8,
    level: u8,
    side: u8,
    next_kind: &mut u8,
    next_to: &mut u8,
    next_about: &mut u8,
    next_level: &mut u8,
    next_side: &mut u8,
) -> u8
    ensures { record {
      refused = result;
      kind = next_kind.new;
      to = next_to.new;
      about = next_about.new;
      level = next_level.new;
      side = next_side.new;
    } ≡ read_next rec.now (name kind to about level side) }
{
    cewandog::next::lots_next_message(
        rec, kind, to, about, level, side, next_kind, next_to, next_about, next_level, next_side,
    )
}
