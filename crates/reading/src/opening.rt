// The bytes that open writes: 0 everywhere, then none into every link.
ghost use Rattle.std.specs.Prelude.{◌≡◌, ℕ, get_or};
ghost use Rattle.record.specs.inner.Opened.{IsOpened};

use record::{ENTRIES, ENTRY, LINKS, LINKS_AT, NONE, Record, SEATS};

// Writes none into every link of bytes that are 0.
pub fn no_links(rec: &mut Record)
    requires { (i : ℕ) → get_or rec.old i 0 ≡ 0 }
    ensures { IsOpened rec.new }
{
    // by seats: once the parts of chunks_exact_mut are given back, a proof knows the record's length and not its bytes
    for s in 0..SEATS {
        let a = ENTRIES + ENTRY * s + LINKS_AT;
        rec[a..a + LINKS].fill(NONE);
    }
}
