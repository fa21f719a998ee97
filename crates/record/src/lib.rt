// The record in lent bytes (docs/RECORD.md): its sizes and places, as in specs/Layout.antt, and one accessor for each field. Each asks
// that the bytes are a record's, and that seat, level, side and place are in range.
#![tactic(auto)]

ghost use Rattle.std.specs.Prelude.{◌≡◌, ◌<◌, ltb, get_or, set};
ghost use Rattle.memory.specs.Bytes.{number_at, put_number};
ghost use Rattle.memory.specs.Bits.{bit_set, set_bit, clear_bit};
ghost use Rattle.graph.specs.inner.Code.{as_side};
ghost use Rattle.record.specs.Layout.{seats, levels, messages, states, number_size, vector_size};
ghost use Rattle.record.specs.Meaning.{phase_byte, state_byte, seats_in};
ghost use Rattle.record.specs.Sound.{phase_fits};
ghost use Rattle.record.specs.Code.{as_phase, as_state};
ghost use Rattle.record.specs.Layout.{phase_at, state_at, number_from, vector_from, link_at, pending_from};
ghost use Rattle.record.specs.inner.Entry.{filled, written};

pub mod fields;
pub mod lots;
pub mod refusals;
pub mod states;

use graph::Side;
use states::{PHASES, Phase, STATES, State};

// The seats, the width of a vector, and the levels that it gives. A level is a number: what it is below differs from call to call (the levels, the
// width, the width and one), and a probe goes from one bound to the next, so that a type for each would be no plainer.
pub const SEATS: usize = 64;

pub const WIDTH: usize = graph::WIDTH as usize;

pub const LEVELS: usize = WIDTH + 1;

// The bits of a byte and of a number.
const BYTE_BITS: usize = 8;

const NUMBER_BITS: usize = 64;

// The bytes of each field.
const PHASE_SIZE: usize = 1;

const STATE_SIZE: usize = 1;

const NUMBER_SIZE: usize = NUMBER_BITS / BYTE_BITS;

const VECTOR_SIZE: usize = WIDTH / BYTE_BITS;

// The links of an entry, a byte each: a left and a right one for each level.
pub const LINKS: usize = 2 * LEVELS;

// Where the fields begin in an entry, and its bytes.
const STATE_AT: usize = 0;

pub const NUMBER_AT: usize = STATE_AT + STATE_SIZE;

const VECTOR_AT: usize = NUMBER_AT + NUMBER_SIZE;

pub const LINKS_AT: usize = VECTOR_AT + VECTOR_SIZE;

pub const ENTRY: usize = LINKS_AT + LINKS;

// Where the phase stands, the first entry, and the pending bits; and the size.
const PHASE: usize = 0;

pub const ENTRIES: usize = PHASE + PHASE_SIZE;

pub const PENDING: usize = ENTRIES + ENTRY * SEATS;

pub const SIZE: usize = PENDING + PENDING_SIZE;

// The bytes of a record.
pub type Record = [u8; SIZE];

// How many messages name two lots and a level, two lots and a level with a bit, a lot, a bit, such a level and a side, or a lot, a level
// and a side: `pairs`, `pulls` and `sides` of protocol's specs/Numbering.antt.
const PAIRS: usize = SEATS * SEATS * LEVELS;

const BIT_PAIRS: usize = SEATS * SEATS * WIDTH;

const PULLS: usize = SEATS * 2 * WIDTH * 2;

const SIDES: usize = SEATS * LEVELS * 2;

// How many messages exist, a bit for each.
pub const MESSAGES: usize = PAIRS + (BIT_PAIRS + (PULLS + (SIDES + (PAIRS + (PAIRS + SIDES)))));

pub const PENDING_SIZE: usize = MESSAGES / BYTE_BITS;

// The byte of a link that is none.
pub const NONE: u8 = 255;

// The byte of the phase, whether or not it is that of a phase.
pub fn byte_of_phase(rec: &Record) -> u8
    ensures { result ≡ get_or rec.now phase_at 0 }
{
    rec[PHASE]
}

// The phase.
pub fn phase(rec: &Record) -> Phase
    ensures { as_phase result ≡ (seats_in rec.now).phase }
{
    Phase::of_byte(rec[PHASE])
}

pub fn set_phase(rec: &mut Record, phase: Phase)
    ensures { rec.new ≡ set rec.old phase_at (phase_byte (as_phase phase)) }
{
    rec[PHASE] = u8::from(phase);
}

// Whether the byte of the phase is that of a phase.
pub fn phase_fits(rec: &Record) -> bool
    ensures { result ≡ phase_fits rec.now }
{
    byte_of_phase(rec) < PHASES
}

// The byte of the state of seat s, whether or not it is that of a state.
pub fn byte_of_state(rec: &Record, s: usize) -> u8
    requires { s < seats }
    ensures { result ≡ get_or rec.now (state_at s) 0 }
{
    rec[ENTRIES + ENTRY * s + STATE_AT]
}

// The state of seat s.
pub fn state(rec: &Record, s: usize) -> State
    requires { s < seats }
    ensures { as_state result ≡ (seats_in rec.now).state s }
{
    State::of_byte(rec[ENTRIES + ENTRY * s + STATE_AT])
}

pub fn set_state(rec: &mut Record, s: usize, state: State)
    requires { s < seats }
    ensures { rec.new ≡ set rec.old (state_at s) (state_byte (as_state state)) }
{
    rec[ENTRIES + ENTRY * s + STATE_AT] = u8::from(state);
}

// Whether the byte of the state of seat s is that of a state.
pub fn state_fits(rec: &Record, s: usize) -> bool
    requires { s < seats }
    ensures { result ≡ ltb (get_or rec.now (state_at s) 0) states }
{
    byte_of_state(rec, s) < STATES
}

// The number of the lot on seat s.
pub fn number(rec: &Record, s: usize) -> u64
    requires { s < seats }
    ensures { result ≡ number_at rec.now (number_from s) number_size }
{
    memory::number(rec, ENTRIES + ENTRY * s + NUMBER_AT)
}

fn set_number(rec: &mut Record, s: usize, n: u64)
    requires { s < seats }
    ensures { rec.new ≡ put_number rec.old (number_from s) number_size n }
{
    memory::put_number(rec, ENTRIES + ENTRY * s + NUMBER_AT, n);
}

// The vector of the lot on seat s.
pub fn vector(rec: &Record, s: usize) -> u8
    requires { s < seats }
    ensures { result ≡ number_at rec.now (vector_from s) vector_size }
{
    rec[ENTRIES + ENTRY * s + VECTOR_AT]
}

fn set_vector(rec: &mut Record, s: usize, v: u8)
    requires { s < seats }
    ensures { rec.new ≡ put_number rec.old (vector_from s) vector_size v }
{
    rec[ENTRIES + ENTRY * s + VECTOR_AT] = v;
}

// Writes state, number and vector of seat s, the state as its byte.
pub fn fill(rec: &mut Record, s: usize, state: u8, number: u64, vector: u8)
    requires { s < seats }
    ensures { rec.new ≡ filled rec.old s state number vector }
{
    rec[ENTRIES + ENTRY * s + STATE_AT] = state;
    set_number(rec, s, number);
    set_vector(rec, s, vector);
}

// The link of seat s at level k on side d: a seat or NONE.
pub fn link(rec: &Record, s: usize, k: usize, d: Side) -> u8
    requires { (s < seats) × (k < levels) }
    ensures { result ≡ get_or rec.now (link_at s k (as_side d)) 0 }
{
    rec[ENTRIES + ENTRY * s + LINKS_AT + 2 * k + usize::from(d)]
}

// A change of that link: it is set to a seat or NONE, or it stays. The entry of s is lent for it, and no other.
pub fn write_link(rec: &mut Record, s: usize, k: usize, d: Side, change: Option<u8>)
    requires { (s < seats) × (k < levels) }
    ensures { rec.new ≡ written rec.old s k (as_side d) change }
{
    let a = ENTRIES + ENTRY * s;
    let e = a + ENTRY;
    fields::write_link(&mut rec[a..e], k, d, change);
}

// Whether the message at place i is pending.
pub fn is_pending(rec: &Record, i: usize) -> bool
    requires { i < messages }
    ensures { result ≡ bit_set rec.now pending_from i }
{
    memory::test_bit(rec, PENDING, i)
}

// Makes the message at place i pending.
pub fn send(rec: &mut Record, i: usize)
    requires { i < messages }
    ensures { rec.new ≡ set_bit rec.old pending_from i }
{
    memory::set_bit(rec, PENDING, i);
}

// Takes the message at place i away.
pub fn take(rec: &mut Record, i: usize)
    requires { i < messages }
    ensures { rec.new ≡ clear_bit rec.old pending_from i }
{
    memory::clear_bit(rec, PENDING, i);
}
