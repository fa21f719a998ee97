// Line A: bundles of deliveries, until none is pending.
ghost use Rattle.std.specs.Prelude.{◌≡◌, eqb};
ghost use Rattle.record.specs.Bundle.{bundled};
ghost use Rattle.record.specs.Answer.{number_of};
ghost use Rattle.program.specs.Line.{settled};

use bundle::bundle;
use record::refusals::Refusal;

// The largest limit of a bundle.
const LIMIT: u16 = u16::MAX;

// Delivers a bundle. Whether messages may be left: it was as large as its limit.
fn deliver_bundle(rec: &mut [u8]) -> bool
    ensures { let o = bundled rec.old 65535 in (result ≡ eqb o.delivered 65535) × (rec.new ≡ o.after) }
{
    match bundle(rec, LIMIT) {
        Ok(n) => n == LIMIT,
        Err(_) => false,
    }
}

// Delivers until none is pending, if messages may be left.
fn deliver_rest(rec: &mut [u8])
    ensures { rec.new ≡ (settled rec.old).after }
{
    while deliver_bundle(rec) {}
}

// Delivers all messages. Refused: 1, 2.
pub fn settle(rec: &mut [u8]) -> Result<(), Refusal>
    ensures { (number_of result ≡ (settled rec.old).refused) × (rec.new ≡ (settled rec.old).after) }
{
    let n = bundle(rec, LIMIT)?;
    if n == LIMIT {
        deliver_rest(rec);
    }
    Ok(())
}
