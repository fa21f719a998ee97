// The rules of the seven kinds, one handler for each (document 01, "Messages"). MEET, FOUND and NONE change a link of `to`: its entry alone is lent
// to the one function that writes links (record's src/fields.rt); the others read and send. They leave the bytes that the protocol's rule gives:
// specs/inner/Done.antt, of `rule` in protocol's specs/pages/Deliver.antt. Those that send note the words of what they send in an index. No handler
// asks that the record is sound.
#![tactic(auto)]

ghost use Rattle.std.specs.Prelude.{◌≡◌, not, cond, is_some, IfSome, MatchOption, [], ◌∷◌, ◌<◌, eqb, ltb};
ghost use Rattle.graph.specs.Vector.{width, bit as bit_at};
ghost use Rattle.protocol.specs.Message.{
  meet as meet_of,
  probe as probe_of,
  pull as pull_of,
  going as going_of,
  seek as seek_of,
  found as found_of,
  none_found,
};
ghost use Rattle.protocol.specs.Rules.{to_link};
ghost use Rattle.protocol.specs.pages.Deliver.{rule};
ghost use Rattle.record.specs.Layout.{seats, levels, messages};
ghost use Rattle.record.specs.Meaning.{meaning};
ghost use Rattle.graph.specs.Side.{on_side};
ghost use Rattle.graph.specs.inner.Code.{as_side};
ghost use Rattle.record.specs.Code.{as_link};
ghost use Rattle.rules.specs.inner.Done.{done, indexed, send_at, send_all, carried};
ghost use Rattle.rules.specs.inner.Told.{told};

use graph::{Side, bit};
use index::Index;
use messages::{found_place, meet_place, none_place, probe_place, pull_place, seek_place};
use record::lots::{beyond, is_staying, link, share, side_of};
use record::{NONE, Record, WIDTH, write_link};

// Sends the message at place i, and notes its word.
fn send(rec: &mut Record, index: &mut Index, i: usize)
    requires { i < messages }
    ensures { indexed rec.new index.new.numbers index.new.top ≡ send_at i (indexed rec.old index.old.numbers index.old.top) }
{
    record::send(rec, i);
    index.note(i);
}

// 1 MEET, after a set below the highest level: PROBE to `about`, and PULL to the link on the other side, along that side, for the opposite
// of the bit of `to`.
fn spread(
    rec: &mut Record,
    index: &mut Index,
    to: usize,
    about: usize,
    level: usize,
    vector: u8,
    other: Option<usize>,
    side: Side,
)
    requires { (to < seats) × (about < seats) × IfSome other (λ z. z < seats) }
    ensures { indexed rec.new index.new.numbers index.new.top ≡ send_all (cond (ltb level width)
        (probe_of about to level ∷ to_link (as_link other) (λ z. pull_of z (not (bit_at width level vector)) level (as_side side))) [])
        (indexed rec.old index.old.numbers index.old.top) }
{
    if level < WIDTH {
        send(rec, index, probe_place(about, to, level));
        if let Some(z) = other {
            let want = 1 - bit(vector, level);
            send(rec, index, pull_place(z, want, level, side));
        }
    }
}

// 1 MEET: the link on side d if it is nearer than `about`.
fn nearer(rec: &Record, old: Option<usize>, about: usize, d: Side) -> Option<usize>
    requires { (about < seats) × IfSome old (λ z. z < seats) }
    ensures { MatchOption old (result ≡ None)
        (λ z. result ≡ cond (on_side (as_side d) ((meaning rec.now).seats.number z) ((meaning rec.now).seats.number about)) (Some z) None) }
{
    old.filter(|z| beyond(rec, *z, about, d))
}

// 1 MEET: what becomes of a link that is not `about`: it stays, or is set to it.
fn change_to(about: usize, stays: bool) -> Option<u8>
    requires { about < seats }
    ensures { result ≡ cond stays None (Some about) }
{
    if stays { None } else { Some(about as u8) }
}

// 1 MEET, the link was `old` and is set to `about`: what is sent. The rest of the entry is as it was.
fn tell(
    rec: &mut Record,
    index: &mut Index,
    to: usize,
    about: usize,
    level: usize,
    d: Side,
    old: Option<usize>,
)
    requires { (to < seats) × (about < seats) × (level < levels) × IfSome old (λ z. z < seats) }
    ensures { indexed rec.new index.new.numbers index.new.top
        ≡ send_all (told (meaning rec.old) to about level (as_side d) (as_link old))
        (indexed rec.old index.old.numbers index.old.top) }
{
    let away = d.opposite();
    let other = link(rec, to, level, away);
    let vector = record::vector(rec, to);
    send(rec, index, meet_place(about, to, level));
    if let Some(z) = old {
        send(rec, index, meet_place(about, z, level));
    }
    spread(rec, index, to, about, level, vector, other, away);
}

// 1 MEET: the link is `about`, nothing; it is nearer, it gets the MEET; otherwise it is set.
pub fn meet(rec: &mut Record, index: &mut Index, to: usize, about: usize, level: usize)
    requires { (to < seats) × (about < seats) × (level < levels) }
    ensures { indexed rec.new index.new.numbers index.new.top ≡ carried to (rule width (meaning rec.old) (meet_of to about level))
        (indexed rec.old index.old.numbers index.old.top) }
{
    let d = side_of(rec, to, about);
    let old = link(rec, to, level, d);
    if old == Some(about) {
        return;
    }
    let near = nearer(rec, old, about, d);
    let stays = near.is_some();
    write_link(rec, to, level, d, change_to(about, stays));
    match near {
        Some(z) => send(rec, index, meet_place(z, about, level)),
        None => tell(rec, index, to, about, level, d, old),
    }
}

// 2 PROBE: more bits shared than the level, MEET one level up; otherwise on to the link away from `about`.
pub fn probe(rec: &mut Record, index: &mut Index, to: usize, about: usize, level: usize)
    requires { (to < seats) × (about < seats) × (level < width) }
    ensures { indexed rec.new index.new.numbers index.new.top ≡ carried to (rule width (meaning rec.old) (probe_of to about level))
        (indexed rec.old index.old.numbers index.old.top) }
{
    if level < share(rec, to, about) {
        return send(rec, index, meet_place(to, about, level + 1));
    }
    let d = side_of(rec, to, about);
    if let Some(away) = link(rec, to, level, d.opposite()) {
        send(rec, index, probe_place(away, about, level));
    }
}

// 3 PULL: the bit is the wanted one, PROBE about itself to the link on the opposite side; otherwise on along the side.
pub fn pull(rec: &mut Record, index: &mut Index, to: usize, want: usize, level: usize, side: Side)
    requires { (to < seats) × (want < 2) × (level < width) }
    ensures { indexed rec.new index.new.numbers index.new.top ≡ carried to
        (rule width (meaning rec.old) (pull_of to (eqb want 1) level (as_side side)))
        (indexed rec.old index.old.numbers index.old.top) }
{
    if bit(record::vector(rec, to), level) == want {
        if let Some(behind) = link(rec, to, level, side.opposite()) {
            send(rec, index, probe_place(behind, to, level));
        }
    } else if let Some(ahead) = link(rec, to, level, side) {
        send(rec, index, pull_place(ahead, want, level, side));
    }
}

// 4 GOING: a staying lot sends its link on that side SEEK about itself.
pub fn going(rec: &mut Record, index: &mut Index, to: usize, level: usize, side: Side)
    requires { (to < seats) × (level < levels) }
    ensures { indexed rec.new index.new.numbers index.new.top ≡ carried to
        (rule width (meaning rec.old) (going_of to level (as_side side)))
        (indexed rec.old index.old.numbers index.old.top) }
{
    if is_staying(rec, to) {
        if let Some(leaver) = link(rec, to, level, side) {
            send(rec, index, seek_place(leaver, to, level));
        }
    }
}

// 5 SEEK: a staying lot sends `about` FOUND about itself. A leaving lot passes it on to the link away from `about`, or with none sends
// `about` NONE with the side that faces the leaver.
pub fn seek(rec: &mut Record, index: &mut Index, to: usize, about: usize, level: usize)
    requires { (to < seats) × (about < seats) × (level < levels) }
    ensures { indexed rec.new index.new.numbers index.new.top ≡ carried to (rule width (meaning rec.old) (seek_of to about level))
        (indexed rec.old index.old.numbers index.old.top) }
{
    if is_staying(rec, to) {
        return send(rec, index, found_place(about, to, level));
    }
    let d = side_of(rec, about, to);
    match link(rec, to, level, d) {
        Some(away) => send(rec, index, seek_place(away, about, level)),
        None => send(rec, index, none_place(about, level, d)),
    }
}

// 6 FOUND: the link on the side of `about` is set to it.
pub fn found(rec: &mut Record, to: usize, about: usize, level: usize)
    requires { (to < seats) × (about < seats) × (level < levels) }
    ensures { rec.new ≡ done to (rule width (meaning rec.old) (found_of to about level)) rec.old }
{
    let d = side_of(rec, to, about);
    write_link(rec, to, level, d, Some(about as u8));
}

// 7 NONE: the link on the side is set to none.
pub fn none(rec: &mut Record, to: usize, level: usize, side: Side)
    requires { (to < seats) × (level < levels) }
    ensures { rec.new ≡ done to (rule width (meaning rec.old) (none_found to level (as_side side))) rec.old }
{
    write_link(rec, to, level, side, Some(NONE));
}
