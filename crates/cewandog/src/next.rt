// The pending messages one after the other.
ghost use Rattle.std.specs.Prelude.{◌≡◌};
ghost use Rattle.protocol.specs.Message.{name};
ghost use Rattle.record.specs.Reading.{read_next};

use messages::Message;

// The five numbers where there is no message.
const NOTHING: Message = Message {
    kind: 0,
    to: 0,
    about: 0,
    level: 0,
    side: 0,
};

// The smallest pending message, by its five numbers in order, that is not smaller than five given numbers; kind 0 if there is none. Refused: 1, 2.
pub fn lots_next_message(
    rec: &[u8],
    kind: u8,
    to: u8,
    about: u8,
    level: u8,
    side: u8,
    next_kind: &mut u8,
    next_to: &mut u8,
    next_about: &mut u8,
    next_level: &mut u8,
    next_side: &mut u8,
) -> u8
    ensures { record {
      refused = result;
      kind = next_kind.new;
      to = next_to.new;
      about = next_about.new;
      level = next_level.new;
      side = next_side.new;
    } ≡ read_next rec.now (name kind to about level side) }
{
    let from = Message {
        kind,
        to,
        about,
        level,
        side,
    };
    let (refused, m) = match reading::next::read_next(rec, from) {
        Ok(next) => (0, next.unwrap_or(NOTHING)),
        Err(refusal) => (u8::from(refusal), NOTHING),
    };
    *next_kind = m.kind;
    *next_to = m.to;
    *next_about = m.about;
    *next_level = m.level;
    *next_side = m.side;
    refused
}
