// Delivery over a lent record (document 01, "Messages", "Calls" and "Refused calls"). The answer and the bytes left are those of record's
// specs/Call.antt.
#![tactic(auto)]

ghost use Rattle.std.specs.Prelude.{◌≡◌, cond, is_ok, IfErr};
ghost use Rattle.memory.specs.Bits.{clear_bit};
ghost use Rattle.protocol.specs.Message.{name, named};
ghost use Rattle.protocol.specs.State.{is_pending};
ghost use Rattle.protocol.specs.Calls.{deliver as delivering};
ghost use Rattle.record.specs.Layout.{pending_from};
ghost use Rattle.record.specs.Meaning.{meaning};
ghost use Rattle.record.specs.Reading.{record_refusal};
ghost use Rattle.record.specs.Call.{called};
ghost use Rattle.record.specs.Answer.{outcome};
ghost use Rattle.record.specs.declared.refusals.Refusal.TheVariants.{NoSuchMessage};
ghost use Rattle.messages.specs.Numbers.{numbers};
ghost use Rattle.messages.specs.inner.Places.{place_of};

use graph::Side;
use index::Index;
use messages::{Message, message_place};
use record::Record;
use record::refusals::Refusal;
use rules::{found, going, meet, none, probe, pull, seek};
use soundness::look;

// Takes the message that five numbers name away; refused, and nothing is taken, if it is not pending.
fn take_named(rec: &mut Record, m: Message) -> Result<(), Refusal>
    requires { record_refusal rec.old ≡ 0 }
    ensures taken { let n = named (numbers m) in let l = rec.old in
        (is_ok result ≡ is_pending (meaning l).pending n) × (rec.new ≡ cond (is_ok result) (clear_bit l pending_from (place_of n)) l) }
    ensures refused { IfErr result (λ r. r ≡ NoSuchMessage) }
{
    match message_place(m) {
        Some(i) if record::is_pending(rec, i) => {
            record::take(rec, i);
            Ok(())
        }
        _ => Err(Refusal::NoSuchMessage),
    }
}

// The kinds, a small handler for each as document 01 asks, on a record that is not refused: the message with that kind and the other four
// numbers of m is taken away, and its rule is done; or it is refused. What a rule notes in an index is not used here.
fn deliver_meet(rec: &mut Record, m: Message) -> Result<(), Refusal>
    requires { record_refusal rec.old ≡ 0 }
    ensures { outcome result rec.new ≡ called rec.old (delivering (name 1 m.to m.about m.level m.side)) }
{
    take_named(rec, Message { kind: 1, ..m })?;
    let (to, about, level) = (m.to as usize, m.about as usize, m.level as usize);
    meet(rec, &mut Index::new(), to, about, level);
    Ok(())
}

fn deliver_probe(rec: &mut Record, m: Message) -> Result<(), Refusal>
    requires { record_refusal rec.old ≡ 0 }
    ensures { outcome result rec.new ≡ called rec.old (delivering (name 2 m.to m.about m.level m.side)) }
{
    take_named(rec, Message { kind: 2, ..m })?;
    let (to, about, level) = (m.to as usize, m.about as usize, m.level as usize);
    probe(rec, &mut Index::new(), to, about, level);
    Ok(())
}

fn deliver_pull(rec: &mut Record, m: Message) -> Result<(), Refusal>
    requires { record_refusal rec.old ≡ 0 }
    ensures { outcome result rec.new ≡ called rec.old (delivering (name 3 m.to m.about m.level m.side)) }
{
    take_named(rec, Message { kind: 3, ..m })?;
    let (to, about, level) = (m.to as usize, m.about as usize, m.level as usize);
    let side = Side::of_number(m.side as usize);
    pull(rec, &mut Index::new(), to, about, level, side);
    Ok(())
}

fn deliver_going(rec: &mut Record, m: Message) -> Result<(), Refusal>
    requires { record_refusal rec.old ≡ 0 }
    ensures { outcome result rec.new ≡ called rec.old (delivering (name 4 m.to m.about m.level m.side)) }
{
    take_named(rec, Message { kind: 4, ..m })?;
    let (to, level) = (m.to as usize, m.level as usize);
    let side = Side::of_number(m.side as usize);
    going(rec, &mut Index::new(), to, level, side);
    Ok(())
}

fn deliver_seek(rec: &mut Record, m: Message) -> Result<(), Refusal>
    requires { record_refusal rec.old ≡ 0 }
    ensures { outcome result rec.new ≡ called rec.old (delivering (name 5 m.to m.about m.level m.side)) }
{
    take_named(rec, Message { kind: 5, ..m })?;
    let (to, about, level) = (m.to as usize, m.about as usize, m.level as usize);
    seek(rec, &mut Index::new(), to, about, level);
    Ok(())
}

fn deliver_found(rec: &mut Record, m: Message) -> Result<(), Refusal>
    requires { record_refusal rec.old ≡ 0 }
    ensures { outcome result rec.new ≡ called rec.old (delivering (name 6 m.to m.about m.level m.side)) }
{
    take_named(rec, Message { kind: 6, ..m })?;
    let (to, about, level) = (m.to as usize, m.about as usize, m.level as usize);
    found(rec, to, about, level);
    Ok(())
}

fn deliver_none(rec: &mut Record, m: Message) -> Result<(), Refusal>
    requires { record_refusal rec.old ≡ 0 }
    ensures { outcome result rec.new ≡ called rec.old (delivering (name 7 m.to m.about m.level m.side)) }
{
    take_named(rec, Message { kind: 7, ..m })?;
    let (to, level) = (m.to as usize, m.level as usize);
    let side = Side::of_number(m.side as usize);
    none(rec, to, level, side);
    Ok(())
}

// Delivers the message that five numbers name: it is taken away, and its rule is done. Refused: 1 wrong size, 2 unsound, 10 no such
// message.
pub fn deliver(rec: &mut [u8], m: Message) -> Result<(), Refusal>
    ensures { outcome result rec.new ≡ called rec.old (delivering (numbers m)) }
{
    let Some(rec) = rec.as_mut_array() else {
        return Err(Refusal::WrongSize);
    };
    look(rec)?;
    match m.kind {
        1 => deliver_meet(rec, m),
        2 => deliver_probe(rec, m),
        3 => deliver_pull(rec, m),
        4 => deliver_going(rec, m),
        5 => deliver_seek(rec, m),
        6 => deliver_found(rec, m),
        7 => deliver_none(rec, m),
        0 | 8..=255 => Err(Refusal::NoSuchMessage),
    }
}
