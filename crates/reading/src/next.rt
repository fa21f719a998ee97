// Reading the pending messages one after the other (document 01, "Calls" and "The program"): the smallest at or after five numbers.
ghost use Rattle.std.specs.Prelude.{◌≡◌};
ghost use Rattle.record.specs.Reading.{read_next};
ghost use Rattle.messages.specs.Numbers.{numbers};
ghost use Rattle.reading.specs.Answer.{next_numbers, NextNumbered};

use messages::Message;
use messages::next::next_pending;
use record::refusals::Refusal;
use soundness::sound_record;

// The smallest pending message, by its five numbers in order, that is not smaller than five given numbers. Refused: 1, 2.
pub fn read_next(rec: &[u8], from: Message) -> Result<Option<Message>, Refusal>
    ensures { (next_numbers result ≡ read_next rec.now (numbers from)) × NextNumbered result }
{
    let rec = sound_record(rec)?;
    Ok(next_pending(rec, from))
}
