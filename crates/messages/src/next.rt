// The smallest pending message at or after five given numbers: those that come before them have the first places.
ghost use Rattle.std.specs.Prelude.{◌≡◌, ◌*◌, ◌≤◌};
ghost use Rattle.graph.specs.Vector.{width};
ghost use Rattle.protocol.specs.Order.{smallest_from};
ghost use Rattle.protocol.specs.inner.PlaceFrom.{below as first_below, digits_from, place_from};
ghost use Rattle.record.specs.Layout.{seats, levels, messages};
ghost use Rattle.record.specs.Meaning.{meaning};
ghost use Rattle.messages.specs.Numbers.{numbers};
ghost use Rattle.messages.specs.inner.Numbers.{IsNamed};

use super::{FOUNDS, GOINGS, Message, NONES, PROBES, PULLS, SEEKS, first_pending, message_at};
use record::{LEVELS, MESSAGES, Record, SEATS, WIDTH};

// How many numbers of a digit below the bound and a rest below the size come before a digit x and a rest.
fn below(x: usize, bound: usize, size: usize, rest: usize) -> usize
    requires { (bound ≤ seats) × (size ≤ seats * levels) × (rest ≤ size) }
    ensures { (result ≡ first_below x bound size rest) × (result ≤ bound * size) }
{
    if x < bound {
        x * size + rest
    } else {
        bound * size
    }
}

// How many messages of a kind come before the numbers after the kind, where `about`, `level` and `side` have so many values.
fn digits_from(m: Message, abouts: usize, bound: usize, sides: usize) -> usize
    requires { (abouts ≤ seats) × (bound ≤ levels) × (sides ≤ 2) × (abouts * (bound * sides) ≤ seats * levels) }
    ensures { (result ≡ digits_from seats width abouts bound sides (numbers m)) × (result ≤ seats * (abouts * (bound * sides))) }
{
    let in_level = below(m.side as usize, sides, 1, 0);
    let in_about = below(m.level as usize, bound, sides, in_level);
    let size = bound * sides;
    let in_to = below(m.about as usize, abouts, size, in_about);
    below(m.to as usize, SEATS, abouts * size, in_to)
}

// How many messages come before five numbers: the place of the first that does not.
pub fn place_from(m: Message) -> usize
    ensures { (result ≡ place_from seats width (numbers m)) × (result ≤ messages) }
{
    match m.kind {
        0 => 0,
        1 => digits_from(m, SEATS, LEVELS, 1),
        2 => PROBES + digits_from(m, SEATS, WIDTH, 1),
        3 => PULLS + digits_from(m, 2, WIDTH, 2),
        4 => GOINGS + digits_from(m, 1, LEVELS, 2),
        5 => SEEKS + digits_from(m, SEATS, LEVELS, 1),
        6 => FOUNDS + digits_from(m, SEATS, LEVELS, 1),
        7 => NONES + digits_from(m, 1, LEVELS, 2),
        8..=255 => MESSAGES,
    }
}

// The smallest pending message at or after five numbers, if there is one.
pub fn next_pending(rec: &Record, from: Message) -> Option<Message>
    ensures { IsNamed result (smallest_from seats width (meaning rec.now).pending (numbers from)) }
{
    let first = place_from(from);
    Some(message_at(first_pending(rec, first)?))
}
