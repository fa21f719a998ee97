// Pending messages: each names seated lots, fits its kind and stands in its kind's phase. Only the set bits are looked at.
ghost use Rattle.std.specs.Prelude.{◌≡◌, Bool, ◌*◌, ◌≤◌, ◌<◌};
ghost use Rattle.graph.specs.Side.{Side};
ghost use Rattle.graph.specs.Vector.{width};
ghost use Rattle.protocol.specs.Message.{meet, probe, pull, going, seek, found, none_found};
ghost use Rattle.protocol.specs.Sound.{message_ok};
ghost use Rattle.record.specs.Layout.{seats, messages};
ghost use Rattle.record.specs.Meaning.{seats_in};
ghost use Rattle.record.specs.Sound.{messages_fit};
ghost use Rattle.messages.specs.inner.Numbers.{NoneBefore};
ghost use Rattle.soundness.specs.inner.Pending.{fits, places_pass};

use messages::{first_pending, message_at};
use record::lots::{is_clearing, is_seated, is_staying, pair_fits};
use record::{PENDING, Record};

// How many messages are looked at together: the bits of a word, and its bytes.
const WORD: usize = 64;

const WORD_BYTES: usize = WORD / 8;

// A MEET, and a PROBE.
fn pair_message_fits(rec: &Record, to: usize, about: usize, level: usize) -> bool
    requires { (to < seats) × (about < seats) }
    ensures meet { result ≡ message_ok width (seats_in rec.now) (meet to about level) }
    ensures probe { level < width → result ≡ message_ok width (seats_in rec.now) (probe to about level) }
{
    !is_clearing(rec) && pair_fits(rec, level, to, about)
}

// Whatever the wanted bit and the side.
fn pull_fits(rec: &Record, to: usize, level: usize) -> bool
    requires { (to < seats) × (level < width) }
    ensures { (b : Bool) (d : Side) → result ≡ message_ok width (seats_in rec.now) (pull to b level d) }
{
    !is_clearing(rec) && is_seated(rec, to)
}

// Whatever the side.
fn going_fits(rec: &Record, to: usize, level: usize) -> bool
    requires { (to < seats) × (level ≤ width) }
    ensures { (d : Side) → result ≡ message_ok width (seats_in rec.now) (going to level d) }
{
    is_clearing(rec) && is_seated(rec, to)
}

fn seek_fits(rec: &Record, to: usize, about: usize, level: usize) -> bool
    requires { (to < seats) × (about < seats) }
    ensures { result ≡ message_ok width (seats_in rec.now) (seek to about level) }
{
    is_clearing(rec) && (pair_fits(rec, level, to, about) && is_staying(rec, about))
}

fn found_fits(rec: &Record, to: usize, about: usize, level: usize) -> bool
    requires { (to < seats) × (about < seats) }
    ensures { result ≡ message_ok width (seats_in rec.now) (found to about level) }
{
    is_clearing(rec)
        && (pair_fits(rec, level, to, about) && (is_staying(rec, to) && is_staying(rec, about)))
}

// Whatever the side.
fn none_fits(rec: &Record, to: usize, level: usize) -> bool
    requires { (to < seats) × (level ≤ width) }
    ensures { (d : Side) → result ≡ message_ok width (seats_in rec.now) (none_found to level d) }
{
    is_clearing(rec) && is_staying(rec, to)
}

// The message at place i.
fn message_fits(rec: &Record, i: usize) -> bool
    requires { i < messages }
    ensures { result ≡ fits rec.now i }
{
    let m = message_at(i);
    let kind = m.kind;
    let to = m.to as usize;
    let about = m.about as usize;
    let level = m.level as usize;
    match kind {
        1 => pair_message_fits(rec, to, about, level),
        2 => pair_message_fits(rec, to, about, level),
        3 => pull_fits(rec, to, level),
        4 => going_fits(rec, to, level),
        5 => seek_fits(rec, to, about, level),
        6 => found_fits(rec, to, about, level),
        7 => none_fits(rec, to, level),
        _ => false,
    }
}

// Whether the pending messages among the 64 from place 64 * w on fit. Their bits are read once.
fn word_fits(rec: &Record, w: usize) -> bool
    requires { 64 * w < messages }
    ensures { result ≡ places_pass rec.now (64 * w) 64 }
{
    let mut rest = memory::word(rec, PENDING + WORD_BYTES * w);
    let mut i = WORD * w;
    while rest != 0 {
        let z = u64::trailing_zeros(rest) as usize;
        if !message_fits(rec, i + z) {
            return false;
        }
        i += z + 1;
        rest = (rest >> z) >> 1;
    }
    true
}

// Whether every pending message fits, where none is pending before place `from`. Words with none are skipped.
pub fn messages_fit(rec: &Record, from: usize) -> bool
    requires { NoneBefore rec.now from }
    ensures { result ≡ messages_fit rec.now }
{
    let mut next = first_pending(rec, from);
    while let Some(i) = next {
        let w = i / WORD;
        if !word_fits(rec, w) {
            return false;
        }
        next = first_pending(rec, WORD * w + WORD);
    }
    true
}
