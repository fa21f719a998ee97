// Turn (document 01, "Calls"): into phase clearing, or out of it.
#![tactic(auto)]

ghost use Rattle.std.specs.Prelude.{◌≡◌, ℕ, ◌<◌};
ghost use Rattle.graph.specs.Vector.{width};
ghost use Rattle.graph.specs.inner.Code.{as_side};
ghost use Rattle.memory.specs.Bits.{has_bit};
ghost use Rattle.base.specs.Loops.{any};
ghost use Rattle.protocol.specs.Calls.{turn as turning, accept};
ghost use Rattle.protocol.specs.State.{leaves};
ghost use Rattle.protocol.specs.pages.Turn.{farewell, farewells};
ghost use Rattle.record.specs.Layout.{seats, levels};
ghost use Rattle.record.specs.Meaning.{seats_in};
ghost use Rattle.record.specs.Call.{call_refusal, called};
ghost use Rattle.record.specs.Answer.{number_of, outcome};
ghost use Rattle.clearing.specs.inner.Steps.{Step, same, saying, lot_farewells, farewells_from, begun, ended};

pub mod freeing;

use graph::Side;
use messages::going_place;
use record::lots::{is_clearing, is_leaving, link};
use record::refusals::Refusal;
use record::states::Phase;
use record::{LEVELS, Record, SEATS};
use soundness::look;

// The set of leavers: bit s, the lowest is 0, is 1 exactly if the lot on seat s leaves.
fn leavers(rec: &Record) -> u64
    ensures { (x : ℕ) → has_bit result x ≡ leaves (seats_in rec.now) x }
{
    let mut set = 0;
    for s in 0..SEATS {
        if is_leaving(rec, s) {
            set |= 1 << s;
        }
    }
    set
}

// Whether a lot leaves.
fn has_leaver(rec: &Record) -> bool
    ensures { result ≡ any seats (leaves (seats_in rec.now)) }
{
    (0..SEATS).any(|s| is_leaving(rec, s))
}

// Sends GOING from y to its link at level k on side d, if there is one, with the side on which the receiver has y.
fn tell(rec: &mut Record, y: usize, k: usize, d: Side)
    requires { (y < seats) × (k < levels) }
    ensures { Step same (λ M. saying M (farewell M.link y k (as_side d))) rec.old rec.new }
{
    if let Some(to) = link(rec, y, k, d) {
        record::send(rec, going_place(to, k, d.opposite()));
    }
}

fn tell_links(rec: &mut Record, y: usize)
    requires { y < seats }
    ensures { Step same (λ M. saying M (lot_farewells M.link y)) rec.old rec.new }
{
    for k in 0..LEVELS {
        tell(rec, y, k, Side::Left);
        tell(rec, y, k, Side::Right);
    }
}

fn tell_if_leaving(rec: &mut Record, y: usize)
    requires { y < seats }
    ensures { Step same (λ M. saying M (farewells_from M y)) rec.old rec.new }
{
    if is_leaving(rec, y) {
        tell_links(rec, y);
    }
}

// Every leaver sends GOING to each of its links.
fn tell_all(rec: &mut Record)
    ensures { Step same (λ M. saying M (farewells seats width M.seats M.link)) rec.old rec.new }
{
    for y in 0..SEATS {
        tell_if_leaving(rec, y);
    }
}

// Into phase clearing: GOING to the links of the leavers.
fn begin_clearing(rec: &mut Record)
    ensures { Step same begun rec.old rec.new }
{
    tell_all(rec);
    record::set_phase(rec, Phase::Clearing);
}

// Out of it: the leavers' seats become free.
fn end_clearing(rec: &mut Record)
    ensures { Step same ended rec.old rec.new }
{
    let set = leavers(rec);
    freeing::free_seats(rec, set);
    record::set_phase(rec, Phase::Open);
}

// What an accepted turn does.
fn carry_out(rec: &mut Record)
    ensures { Step same (λ M. accept seats width M turning) rec.old rec.new }
{
    if is_clearing(rec) {
        end_clearing(rec);
    } else if has_leaver(rec) {
        begin_clearing(rec);
    }
}

// The refusal of a turn, if it is refused. The pending bytes are looked at once.
fn turn_refusal(rec: &Record) -> Result<(), Refusal>
    ensures { number_of result ≡ call_refusal rec.now turning }
{
    match look(rec)? {
        Some(_) => Err(Refusal::MessagesLeft),
        None => Ok(()),
    }
}

// In phase open with leavers: phase clearing, and every leaver sends GOING to each of its links; without leavers nothing changes. In phase
// clearing: the leavers' seats become free, a link to one becomes none, phase open. Refused by 1, 2, 11, in this order.
pub fn turn(rec: &mut [u8]) -> Result<(), Refusal>
    ensures { outcome result rec.new ≡ called rec.old turning }
{
    let Some(rec) = rec.as_mut_array() else {
        return Err(Refusal::WrongSize);
    };
    turn_refusal(rec)?;
    carry_out(rec);
    Ok(())
}
