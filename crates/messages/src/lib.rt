// The place of each message in the numbering of all messages (protocol's specs/Numbering.antt), the message at each place, and the first
// place whose message is pending; module next has the smallest pending message at or after a given one. A message's place is the bit of the
// record that it has.
#![tactic(auto)]

ghost use Rattle.std.specs.Prelude.{◌≡◌, ◌&&◌, ◌+◌, ◌*◌, ◌/◌, ◌%◌, ◌≤◌, ◌<◌, eqb, ltb};
ghost use Rattle.graph.specs.Vector.{width};
ghost use Rattle.protocol.specs.Message.{name, named, meet, probe, pull, going, seek, found, none_found};
ghost use Rattle.protocol.specs.Numbering.{place, pulls, sides};
ghost use Rattle.record.specs.Layout.{seats, levels, messages};
ghost use Rattle.graph.specs.Side.{side_number};
ghost use Rattle.graph.specs.inner.Code.{as_side};
ghost use Rattle.messages.specs.inner.Places.{place_of, IsPlace};
ghost use Rattle.messages.specs.Numbers.{numbers};
ghost use Rattle.messages.specs.inner.Numbers.{Stands, first_pending};

pub mod next;

use graph::Side;
use record::{LEVELS, MESSAGES, PENDING, Record, SEATS, WIDTH};

// How many messages of a kind name two lots and a level, or a lot, a level and a side.
const PAIRS: usize = SEATS * SEATS * LEVELS;

const SIDES: usize = SEATS * LEVELS * 2;

// Where each kind begins.
pub const PROBES: usize = PAIRS;

pub const PULLS: usize = PROBES + SEATS * SEATS * WIDTH;

pub const GOINGS: usize = PULLS + SEATS * 2 * WIDTH * 2;

pub const SEEKS: usize = GOINGS + SIDES;

pub const FOUNDS: usize = SEEKS + PAIRS;

pub const NONES: usize = FOUNDS + PAIRS;

// The five numbers of a message, or any five numbers. A kind is a number here, and not an enum: any number may be asked for, and document 01 has a
// delivery decide over the kind number.
#[derive(Clone, Copy, Debug, PartialEq, Eq)]
pub struct Message {
    pub kind: u8,
    pub to: u8,
    pub about: u8,
    pub level: u8,
    pub side: u8,
}

// A place in a block whose messages name two lots and a level.
fn pair_place(block: usize, levels: usize, to: usize, about: usize, level: usize) -> usize
    requires { (block ≤ messages) × (levels ≤ seats) × (to < seats) × (about < seats) × (level < levels) }
    ensures { result ≡ block + ((to * seats + about) * levels + level) }
{
    block + ((to * SEATS + about) * levels + level)
}

// A place in a block whose messages name a lot, a level and a side.
fn side_place(block: usize, to: usize, level: usize, side: Side) -> usize
    requires { (block ≤ messages) × (to < seats) × (level < levels) }
    ensures { result ≡ block + ((to * levels + level) * 2 + side_number (as_side side)) }
{
    block + ((to * LEVELS + level) * 2 + usize::from(side))
}

pub fn meet_place(to: usize, about: usize, level: usize) -> usize
    requires { (to < seats) × (about < seats) × (level < levels) }
    ensures { (result ≡ place seats width (meet to about level)) × (result < messages) }
{
    pair_place(0, LEVELS, to, about, level)
}

pub fn probe_place(to: usize, about: usize, level: usize) -> usize
    requires { (to < seats) × (about < seats) × (level < width) }
    ensures { (result ≡ place seats width (probe to about level)) × (result < messages) }
{
    pair_place(PROBES, WIDTH, to, about, level)
}

pub fn pull_place(to: usize, want: usize, level: usize, side: Side) -> usize
    requires { (to < seats) × (want < 2) × (level < width) }
    ensures { (result ≡ place seats width (pull to (eqb want 1) level (as_side side))) × (result < messages) }
{
    PULLS + (((to * 2 + want) * WIDTH + level) * 2 + usize::from(side))
}

pub fn going_place(to: usize, level: usize, side: Side) -> usize
    requires { (to < seats) × (level < levels) }
    ensures { (result ≡ place seats width (going to level (as_side side))) × (result < messages) }
{
    side_place(GOINGS, to, level, side)
}

pub fn seek_place(to: usize, about: usize, level: usize) -> usize
    requires { (to < seats) × (about < seats) × (level < levels) }
    ensures { (result ≡ place seats width (seek to about level)) × (result < messages) }
{
    pair_place(SEEKS, LEVELS, to, about, level)
}

pub fn found_place(to: usize, about: usize, level: usize) -> usize
    requires { (to < seats) × (about < seats) × (level < levels) }
    ensures { (result ≡ place seats width (found to about level)) × (result < messages) }
{
    pair_place(FOUNDS, LEVELS, to, about, level)
}

pub fn none_place(to: usize, level: usize, side: Side) -> usize
    requires { (to < seats) × (level < levels) }
    ensures { (result ≡ place seats width (none_found to level (as_side side))) × (result < messages) }
{
    side_place(NONES, to, level, side)
}

// Whether the numbers fit a kind that names two lots and a level below the bound.
fn pair_fits(to: usize, about: usize, level: usize, side: usize, bound: usize) -> bool
    ensures { result ≡ eqb side 0 && (ltb to seats && (ltb about seats && ltb level bound)) }
{
    side == 0 && (to < SEATS && (about < SEATS && level < bound))
}

// Whether the numbers fit PULL.
fn pull_fits(to: usize, about: usize, level: usize, side: usize) -> bool
    ensures { result ≡ ltb about 2 && (ltb side 2 && (ltb to seats && ltb level width)) }
{
    about < 2 && (side < 2 && (to < SEATS && level < WIDTH))
}

// Whether the numbers fit a kind that names a lot, a level and a side.
fn side_fits(to: usize, about: usize, level: usize, side: usize) -> bool
    ensures { result ≡ eqb about 0 && (ltb side 2 && (ltb to seats && ltb level levels)) }
{
    about == 0 && (side < 2 && (to < SEATS && level < LEVELS))
}

// The place of the message that five numbers name, if they name one.
pub fn place_of(kind: u8, to: usize, about: usize, level: usize, side: usize) -> Option<usize>
    ensures { IsPlace result (place_of (named (name kind to about level side))) }
{
    match kind {
        1 => if pair_fits(to, about, level, side, LEVELS) {
            Some(meet_place(to, about, level))
        } else {
            None
        },
        2 => if pair_fits(to, about, level, side, WIDTH) {
            Some(probe_place(to, about, level))
        } else {
            None
        },
        3 => if pull_fits(to, about, level, side) {
            Some(pull_place(to, about, level, Side::of_number(side)))
        } else {
            None
        },
        4 => if side_fits(to, about, level, side) {
            Some(going_place(to, level, Side::of_number(side)))
        } else {
            None
        },
        5 => if pair_fits(to, about, level, side, LEVELS) {
            Some(seek_place(to, about, level))
        } else {
            None
        },
        6 => if pair_fits(to, about, level, side, LEVELS) {
            Some(found_place(to, about, level))
        } else {
            None
        },
        7 => if side_fits(to, about, level, side) {
            Some(none_place(to, level, Side::of_number(side)))
        } else {
            None
        },
        0 | 8..=255 => None,
    }
}

// The same of a message.
pub fn message_place(m: Message) -> Option<usize>
    ensures { IsPlace result (place_of (named (numbers m))) }
{
    place_of(
        m.kind,
        m.to as usize,
        m.about as usize,
        m.level as usize,
        m.side as usize,
    )
}

// A message that names two lots and a level, by its pair of lots and its level.
fn pair_at(kind: u8, pair: usize, level: usize) -> Message
    requires { (pair < seats * seats) × (level < levels) }
    ensures { numbers result ≡ name kind (pair / seats) (pair % seats) level 0 }
{
    Message {
        kind,
        to: (pair / SEATS) as u8,
        about: (pair % SEATS) as u8,
        level: level as u8,
        side: 0,
    }
}

// A PULL, by its place among them.
fn pull_at(i: usize) -> Message
    requires { i < pulls seats width }
    ensures { numbers result ≡ name 3 (i / 2 / width / 2) (i / 2 / width % 2) (i / 2 % width) (i % 2) }
{
    Message {
        kind: 3,
        to: (i / 2 / WIDTH / 2) as u8,
        about: (i / 2 / WIDTH % 2) as u8,
        level: (i / 2 % WIDTH) as u8,
        side: (i % 2) as u8,
    }
}

// A message that names a lot, a level and a side, by its place among those of its kind.
fn side_at(kind: u8, i: usize) -> Message
    requires { i < sides seats width }
    ensures { numbers result ≡ name kind (i / 2 / levels) 0 (i / 2 % levels) (i % 2) }
{
    Message {
        kind,
        to: (i / 2 / LEVELS) as u8,
        about: 0,
        level: (i / 2 % LEVELS) as u8,
        side: (i % 2) as u8,
    }
}

// The message at place i: its kind by the block that holds i, its numbers by the digits of its place there.
pub fn message_at(i: usize) -> Message
    requires { i < messages }
    ensures { Stands i result }
{
    if i < PROBES {
        return pair_at(1, i / LEVELS, i % LEVELS);
    }
    if i < PULLS {
        let j = i - PROBES;
        return pair_at(2, j / WIDTH, j % WIDTH);
    }
    if i < GOINGS {
        return pull_at(i - PULLS);
    }
    if i < SEEKS {
        return side_at(4, i - GOINGS);
    }
    if i < FOUNDS {
        let j = i - SEEKS;
        return pair_at(5, j / LEVELS, j % LEVELS);
    }
    if i < NONES {
        let j = i - FOUNDS;
        return pair_at(6, j / LEVELS, j % LEVELS);
    }
    side_at(7, i - NONES)
}

// The first place at or after `from` whose message is pending, if there is one.
pub fn first_pending(rec: &Record, from: usize) -> Option<usize>
    requires { from ≤ messages }
    ensures { IsPlace result (first_pending rec.now from) }
{
    let i = memory::first_bit(rec, PENDING, from, MESSAGES);
    if i < MESSAGES { Some(i) } else { None }
}
