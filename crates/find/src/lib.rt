// The search for the lot of a scanned number over a lent record that is settled (document 01, "Find"; document 02, #102, #104 and #106): from the top
// level toward the number, a level down where the link is none or lies beyond it, and at the end to the left, to a staying lot that is not above it.
// Links stay within a component, so it finds lots of its start's component alone.
#![tactic(auto)]

ghost use Rattle.std.specs.Prelude.{◌≡◌, true, ◌<◌, T, Ok};
ghost use Rattle.protocol.specs.State.{seated};
ghost use Rattle.record.specs.Answer.{number_of};
ghost use Rattle.record.specs.Layout.{seats, levels};
ghost use Rattle.record.specs.Sound.{sound};
ghost use Rattle.record.specs.Meaning.{seats_in, meaning};
ghost use Rattle.graph.specs.inner.Code.{as_side};
ghost use Rattle.search.specs.Walk.{along as along_of, step_at, drop};
ghost use Rattle.messages.specs.inner.Numbers.{first_pending};
ghost use Rattle.messages.specs.inner.Places.{IsPlace};
ghost use Rattle.check_links.specs.Settled.{settled};
ghost use Rattle.find.specs.Find.{searched, scan_of, find_refusal, find_in};
ghost use Rattle.find.specs.Answer.{found_numbers};
ghost use Rattle.find.specs.Way.{left_from};
ghost use Rattle.find.specs.inner.Steps.{as_step, Fit, Ready, Walked, Went, ReadyLeft, WentLeft, prints};

use check_links::links_fit;
use graph::{Side, on_side, side_of};
use record::lots::{is_clearing, is_seated, is_staying, link};
use record::refusals::Refusal;
use record::{Record, SEATS};
use soundness::look;

// What a scan finds: the seat of the holder, if there is one, and the hops to where the search ended.
#[derive(Clone, Copy, Debug, PartialEq, Eq)]
pub struct Found {
    pub holder: Option<u8>,
    pub hops: u64,
}

// Where a walk stands, and its moves so far.
#[derive(Clone, Copy)]
pub struct Walk {
    pub seat: usize,
    pub level: usize,
    pub hops: u64,
}

// The link of seat s at level k on side d, unless it lies beyond x.
fn along(rec: &Record, s: usize, k: usize, d: Side, x: u64) -> Option<usize>
    requires { (s < seats) × (k < levels) }
    ensures { along_of (seats_in rec.now).number (meaning rec.now).link x (as_side d) ((meaning rec.now).link s k (as_side d)) ≡ as_step result }
{
    let y = link(rec, s, k, d)?;
    if on_side(d, x, record::number(rec, y)) {
        return None;
    }
    Some(y)
}

// Where the walk goes from seat s at level k, if the number there is not x.
fn step(rec: &Record, s: usize, k: usize, x: u64) -> Option<usize>
    requires { (s < seats) × (k < levels) × ((seats_in rec.now).number s ≡ x → ⊥) }
    ensures { step_at (seats_in rec.now).number (meaning rec.now).link x s k ≡ as_step result }
{
    let d = side_of(record::number(rec, s), x);
    along(rec, s, k, d, x)
}

// Whether the lot on seat s may be printed on a label for x: it stays, and its number is not above x.
fn is_printable(rec: &Record, s: usize, x: u64) -> bool
    requires { s < seats }
    ensures { result ≡ prints rec.now x s }
{
    is_staying(rec, s) && record::number(rec, s) <= x
}

impl Walk {
    // On along the level, until the number is x or the way is barred.
    #[cycle(advance_descend)]
    fn advance(self, rec: &Record, x: u64) -> Walk
        requires { Ready rec.now x self }
        ensures { Walked rec.now x self result }
    {
        if record::number(rec, self.seat) == x {
            return self;
        }
        match step(rec, self.seat, self.level, x) {
            Some(y) => {
                let w = Walk {
                    seat: y,
                    level: self.level,
                    hops: self.hops + 1,
                };
                w.advance(rec, x)
            }
            None => self.descend(rec, x),
        }
    }

    // A level down, or at level 0 the end.
    #[cycle(advance_descend)]
    fn descend(self, rec: &Record, x: u64) -> Walk
        requires { Ready rec.now x self × (step_at (seats_in rec.now).number (meaning rec.now).link x self.seat self.level ≡ drop) }
        ensures { Walked rec.now x self result }
    {
        if self.level == 0 {
            return self;
        }
        let w = Walk {
            seat: self.seat,
            level: self.level - 1,
            hops: self.hops,
        };
        w.advance(rec, x)
    }

    // Onto the level-0 left link and on along these, to the first staying lot or as far as they lead.
    fn leftward(mut self, rec: &Record) -> Walk
        requires { ReadyLeft rec.now self }
        ensures { WentLeft rec.now self result }
    {
        while let Some(y) = link(rec, self.seat, 0, Side::Left) {
            self.seat = y;
            self.hops += 1;
            if is_staying(rec, y) {
                return self;
            }
        }
        self
    }

    // From the end of the walk to where the holder of x is: no step if the lot may be printed.
    fn to_holder(self, rec: &Record, x: u64) -> Walk
        requires { ReadyLeft rec.now self }
        ensures { Went (left_from rec.now x self.seat) self result }
    {
        if is_printable(rec, self.seat, x) {
            return self;
        }
        self.leftward(rec)
    }
}

// The search from the lot on seat s.
fn search(rec: &Record, s: usize, x: u64) -> Found
    requires { Fit rec.now × T (seated (seats_in rec.now) s) }
    ensures { found_numbers (Ok result) ≡ searched (scan_of rec.now s x) }
{
    let w = Walk {
        seat: s,
        level: record::LEVELS - 1,
        hops: 0,
    };
    let e = w.advance(rec, x);
    let r = e.to_holder(rec, x);
    let holder = is_printable(rec, r.seat, x).then_some(r.seat as u8);
    Found {
        holder,
        hops: r.hops,
    }
}

// Whether a sound record is settled, where `first` is the place of its first pending message.
fn is_settled(rec: &Record, first: Option<usize>) -> bool
    requires { (sound rec.now ≡ true) × IsPlace first (first_pending rec.now 0) }
    ensures { result ≡ settled rec.now }
{
    !is_clearing(rec) && (first.is_none() && links_fit(rec))
}

// The refusal of a scan from a seat, if it is refused: 2, 3, 8, 13. Soundness and the pending bits are looked at once.
fn find_refusal(rec: &Record, s: usize) -> Result<(), Refusal>
    ensures { number_of result ≡ find_refusal rec.now s }
{
    let first = look(rec)?;
    if s >= SEATS {
        return Err(Refusal::NoSuchSeat);
    }
    if !is_seated(rec, s) {
        return Err(Refusal::EmptySeat);
    }
    if !is_settled(rec, first) {
        return Err(Refusal::Unsettled);
    }
    Ok(())
}

// The staying lot that a scanned number belongs to among those of the component of the lot on a seat, where the search starts; leaving lots are
// passed, each step onto a lot one hop.
// Refused: 1, 2, 3, 8, 13.
pub fn find(rec: &[u8], seat: u8, number: u64) -> Result<Found, Refusal>
    ensures { found_numbers result ≡ find_in rec.now seat number }
{
    let Some(rec) = rec.as_array() else {
        return Err(Refusal::WrongSize);
    };
    let s = seat as usize;
    find_refusal(rec, s)?;
    Ok(search(rec, s, number))
}
