// An entry that is lent alone, a part of the record that begins in its middle: its links are written here and nowhere else. Who is lent an entry
// can write no other.
ghost use Rattle.std.specs.Prelude.{◌≡◌, ◌<◌, length};
ghost use Rattle.graph.specs.inner.Code.{as_side};
ghost use Rattle.record.specs.Layout.{levels, entry_size};
ghost use Rattle.record.specs.inner.Entry.{Written};

use graph::Side;

// A change of its link at level k on side d: it is set to a seat or NONE, or it stays.
pub fn write_link(entry: &mut [u8], k: usize, d: Side, change: Option<u8>)
    requires { (length entry.old ≡ entry_size) × (k < levels) }
    ensures { Written entry.old entry.new k (as_side d) change }
{
    if let Some(v) = change {
        entry[crate::LINKS_AT + 2 * k + usize::from(d)] = v;
    }
}
