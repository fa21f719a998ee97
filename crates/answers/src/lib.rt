// The text of an answer of `lots`, put over the start of a lent buffer; nothing here reads or writes anything else. Each public function gives the
// position after its text. A buffer of ROOM bytes has room for every answer.
#![tactic(auto)]

ghost use Rattle.std.proofs.Math.Option.{none, some};
ghost use Rattle.std.specs.Prelude.{◌≡◌, ◌≤◌, ◌++◌, true, cond, length, Ok};
ghost use Rattle.graph.specs.Vector.{width};
ghost use Rattle.record.specs.Layout.{seats, size};
ghost use Rattle.record.specs.Meaning.{meaning, phase_byte};
ghost use Rattle.record.specs.Sound.{sound};
ghost use Rattle.record.specs.Answer.{number_of};
ghost use Rattle.record.specs.Code.{as_phase};
ghost use Rattle.reading.specs.Answer.{count_numbers};
ghost use Rattle.check_links.specs.Check.{members_in, check_in};
ghost use Rattle.find.specs.Answer.{found_numbers};
ghost use Rattle.listing.specs.Text.{lists_text};
ghost use Rattle.text.specs.inner.Written.{written};
ghost use Rattle.program.specs.Text.{bad_text, refused_text, done_text, holder_text, hops_text, found_text};
ghost use Rattle.program.specs.Text.{phase_text, counts_text};
ghost use Rattle.program.specs.Print.{print_text};
ghost use Rattle.program.specs.inner.Room.{room};
ghost use Rattle.answers.specs.inner.Whole.{Whole};

mod lists;

use find::Found;
use reading::Counts;
use record::refusals::Refusal;
use record::states::Phase;
use text::Writer;

// The largest number of digits of a lot's number, and the space before it.
const NUMBER: usize = 21;

// Room for the text of every answer (`room`, crates/program/specs/inner/Room.antt).
pub const ROOM: usize = 64 + record::LEVELS * ((NUMBER + (record::WIDTH + 6)) * record::SEATS);

// A line of another form.
#[tactic(auto, using(crate::proofs::Words::words), unfolding(program::specs::Text::bad_text))]
pub fn bad(out: &mut [u8]) -> usize
    ensures { Whole out.old bad_text out.new result }
{
    let mut w = Writer::new(out);
    w.bytes(b"bad\n");
    w.position()
}

// `no N`
#[tactic(auto, using(crate::proofs::Words::words), unfolding(program::specs::Text::refused_text))]
fn refused(n: u8, w: &mut Writer<'_>)
    ensures text { w.new ≡ written w.old (refused_text n) }
    ensures fits { length (refused_text n) ≤ room }
{
    w.bytes(b"no ");
    w.decimal(u64::from(n));
    w.bytes(b"\n");
}

// `ok`, or a refusal.
pub fn changed(answer: Result<(), Refusal>, out: &mut [u8]) -> usize
    ensures { Whole out.old (done_text (number_of answer)) out.new result }
{
    let mut w = Writer::new(out);
    match answer {
        Ok(()) => w.bytes(b"ok\n"),
        Err(refusal) => refused(u8::from(refusal), &mut w),
    }
    w.position()
}

// The hops, after the holder.
#[tactic(auto, using(crate::proofs::Words::words), unfolding(program::specs::Text::hops_text))]
fn hops(h: u64, w: &mut Writer<'_>)
    ensures { w.new ≡ written w.old (hops_text h) }
{
    w.bytes(b" hops ");
    w.decimal(h);
    w.bytes(b"\n");
}

// `holder S hops H`
#[tactic(auto, using(crate::proofs::Words::words), unfolding(program::specs::Text::holder_text))]
fn holder(seat: u8, h: u64, w: &mut Writer<'_>)
    ensures text { w.new ≡ written w.old (holder_text (some seat) ++ hops_text h) }
    ensures fits { length (holder_text (some seat) ++ hops_text h) ≤ room }
{
    w.bytes(b"holder ");
    w.decimal(u64::from(seat));
    hops(h, w);
}

// `none hops H`
#[tactic(auto, using(crate::proofs::Words::words), unfolding(program::specs::Text::holder_text))]
fn nobody(h: u64, w: &mut Writer<'_>)
    ensures text { w.new ≡ written w.old (holder_text none ++ hops_text h) }
    ensures fits { length (holder_text none ++ hops_text h) ≤ room }
{
    w.bytes(b"none");
    hops(h, w);
}

// A holder, nobody, or a refusal.
pub fn searched(answer: Result<Found, Refusal>, out: &mut [u8]) -> usize
    ensures { Whole out.old (found_text (found_numbers answer)) out.new result }
{
    let mut w = Writer::new(out);
    match answer {
        Err(refusal) => refused(u8::from(refusal), &mut w),
        Ok(found) => match found.holder {
            Some(seat) => holder(seat, found.hops, &mut w),
            None => nobody(found.hops, &mut w),
        },
    }
    w.position()
}

// The phase by its name.
#[tactic(auto, using(crate::proofs::Words::words), unfolding(program::specs::Text::phase_text))]
fn phase_name(phase: Phase, w: &mut Writer<'_>)
    ensures { w.new ≡ written w.old (phase_text (phase_byte (as_phase phase))) }
{
    w.bytes(match phase {
        Phase::Open => b"open",
        Phase::Clearing => b"clearing",
    });
}

// The first line of P.
#[tactic(auto, using(crate::proofs::Words::words), unfolding(program::specs::Text::counts_text))]
fn counts(counts: Counts, w: &mut Writer<'_>)
    ensures { w.new ≡ written w.old (counts_text (count_numbers (Ok counts))) }
{
    w.bytes(b"lots ");
    w.decimal(u64::from(counts.lots));
    w.bytes(b" phase ");
    phase_name(counts.phase, w);
    w.bytes(b" pending ");
    w.decimal(u64::from(counts.pending));
    w.bytes(b"\n");
}

// The lists of a sound record, if its links are right.
fn fit_lists(rec: &[u8], w: &mut Writer<'_>)
    requires { (length rec.now ≡ size) × (sound rec.now ≡ true) }
    ensures { let l = rec.now in w.new ≡ cond (check_in l).yes
        (written w.old (lists_text seats width (members_in l) (meaning l).link)) w.old }
{
    if let Some(rec) = rec.as_array() {
        if check_links::links_fit(rec) {
            lists::lists(rec, w);
        }
    }
}

// The text of P: the counts, and with nothing pending the lists, or a refusal.
pub fn print(rec: &[u8], out: &mut [u8]) -> usize
    ensures { Whole out.old (print_text rec.now) out.new result }
{
    let mut w = Writer::new(out);
    match reading::read_counts(rec) {
        Err(refusal) => refused(u8::from(refusal), &mut w),
        Ok(read) => {
            counts(read, &mut w);
            if read.pending == 0 {
                fit_lists(rec, &mut w);
            }
        }
    }
    w.position()
}
