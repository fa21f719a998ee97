// Deliveries by the bundle (document 02, #101): the smallest pending message by its five numbers, again and again. The record is tested once, in
// front: deliveries keep it sound. The next smallest is in the first word of the pending bits that has a set bit; an index says which words have
// one, and what a rule sends is noted there. The answer and the bytes left are those of record's specs/Bundle.antt.
#![tactic(auto)]

ghost use Rattle.std.specs.Prelude.{◌≡◌, true, ◌≤◌, ◌<◌, length, MatchOption};
ghost use Rattle.std.proofs.Math.Option.{none};
ghost use Rattle.graph.specs.Vector.{width};
ghost use Rattle.protocol.specs.Message.{name_of};
ghost use Rattle.protocol.specs.Numbering.{message_at};
ghost use Rattle.protocol.specs.Order.{smallest};
ghost use Rattle.protocol.specs.pages.Deliver.{rule};
ghost use Rattle.record.specs.Layout.{seats, messages};
ghost use Rattle.record.specs.Meaning.{meaning};
ghost use Rattle.record.specs.Reading.{record_refusal};
ghost use Rattle.record.specs.Bundle.{bundled};
ghost use Rattle.index.specs.inner.Index.{words, is_noted, Exact};
ghost use Rattle.rules.specs.inner.Done.{indexed, carried};
ghost use Rattle.bundle.specs.Answer.{bundle_outcome};
ghost use Rattle.bundle.specs.inner.Steps.{first_word, Tracks, IsStruck, IsReady, IsDelivered};

use graph::Side;
use index::{Index, WORD};
use messages::{FOUNDS, GOINGS, NONES, PROBES, PULLS, SEEKS, first_pending};
use record::refusals::Refusal;
use record::{LEVELS, PENDING, Record, SEATS, WIDTH};
use rules::{found, going, meet, none, probe, pull, seek};
use soundness::look;

// Does the rule of the message at place i: its kind by the block that holds i, its numbers by the digits of its place there. An `if` for each block, since
// each takes away where its own block starts.
fn carry_out(rec: &mut Record, index: &mut Index, i: usize)
    requires { i < messages }
    ensures { let m = message_at seats width i in indexed rec.new index.new.numbers index.new.top
        ≡ carried (name_of m).to (rule width (meaning rec.old) m) (indexed rec.old index.old.numbers index.old.top) }
{
    if i < PROBES {
        let pair = i / LEVELS;
        return meet(rec, index, pair / SEATS, pair % SEATS, i % LEVELS);
    }
    if i < PULLS {
        let j = i - PROBES;
        let pair = j / WIDTH;
        return probe(rec, index, pair / SEATS, pair % SEATS, j % WIDTH);
    }
    if i < GOINGS {
        let j = i - PULLS;
        let level = j / 2;
        let bit = level / WIDTH;
        return pull(
            rec,
            index,
            bit / 2,
            bit % 2,
            level % WIDTH,
            Side::of_number(j % 2),
        );
    }
    if i < SEEKS {
        let j = i - GOINGS;
        let level = j / 2;
        return going(
            rec,
            index,
            level / LEVELS,
            level % LEVELS,
            Side::of_number(j % 2),
        );
    }
    if i < FOUNDS {
        let j = i - SEEKS;
        let pair = j / LEVELS;
        return seek(rec, index, pair / SEATS, pair % SEATS, j % LEVELS);
    }
    if i < NONES {
        let j = i - FOUNDS;
        let pair = j / LEVELS;
        return found(rec, pair / SEATS, pair % SEATS, j % LEVELS);
    }
    let j = i - NONES;
    let level = j / 2;
    none(rec, level / LEVELS, level % LEVELS, Side::of_number(j % 2));
}

// Strikes word w out of the index if its last message is taken.
fn strike_last(index: &mut Index, w: usize, last: bool)
    requires { Exact index.old.numbers index.old.top × (w < words) × (is_noted index.old.numbers w ≡ true) }
    ensures { IsStruck index.old.numbers w last index.new.numbers index.new.top }
{
    if last {
        index.strike(w);
    }
}

// Delivers the smallest message: the first of word w, which is the first that has one.
fn deliver_first(rec: &mut Record, index: &mut Index, w: usize)
    requires { (record_refusal rec.old ≡ 0) × Exact index.old.numbers index.old.top × IsReady rec.old index.old.numbers w }
    ensures { IsDelivered rec.old index.old.numbers index.old.top rec.new index.new.numbers index.new.top }
{
    let cleared = memory::clear_first(rec, PENDING, w);
    strike_last(index, w, cleared.last);
    carry_out(rec, index, w * WORD + cleared.bit);
}

// The first word that has a pending message, if there is one. Up to `reach` all words that have one are noted; the next one is sought there, and
// noted, only if none of these is left.
fn next_word(rec: &Record, index: &mut Index, reach: &mut usize) -> Option<usize>
    requires { Tracks rec.now index.old.numbers index.old.top reach.old }
    ensures { MatchOption result (smallest seats width (meaning rec.now).pending ≡ none)
        (λ w. Tracks rec.now index.new.numbers index.new.top reach.new × IsReady rec.now index.new.numbers w) }
{
    let noted = index.first_by_top();
    if noted.is_some_and(|w| w < *reach) {
        return noted;
    }
    let i = first_pending(rec, *reach * WORD)?;
    index.note(i);
    *reach = i / WORD + 1;
    Some(i / WORD)
}

// Delivers the smallest message until none is pending or the limit is reached, and counts. No word below `from` has a pending message.
fn deliver_smallest(rec: &mut Record, limit: u16, from: usize) -> u16
    requires { (record_refusal rec.old ≡ 0) × (from ≤ first_word rec.old) }
    ensures { record { refused = 0; delivered = result; after = rec.new } ≡ bundled rec.old limit }
{
    let mut index = Index::new();
    let mut reach = from;
    for n in 0..limit {
        let Some(w) = next_word(rec, &mut index, &mut reach) else {
            return n;
        };
        deliver_first(rec, &mut index, w);
    }
    limit
}

// Delivers the smallest pending message by its five numbers, again and again, until none is pending or the limit is reached, and says how many it
// delivered. Limit 0 changes nothing. Refused: 1 wrong size, 2 unsound.
pub fn bundle(rec: &mut [u8], limit: u16) -> Result<u16, Refusal>
    ensures { bundle_outcome result rec.new ≡ bundled rec.old limit }
{
    let Some(rec) = rec.as_mut_array() else {
        return Err(Refusal::WrongSize);
    };
    match look(rec)? {
        Some(first) => Ok(deliver_smallest(rec, limit, first / WORD)),
        None => Ok(0),
    }
}
