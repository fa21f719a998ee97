// The two sides of a number and the bits of membership vectors, as plain numbers.
#![tactic(auto)]

ghost use Rattle.std.specs.Prelude.{◌≡◌, ◌<◌, eqb};
ghost use Rattle.graph.specs.Side.{opp, on_side, side_of, side_number, side_of_number};
ghost use Rattle.graph.specs.inner.Code.{as_side};
ghost use Rattle.graph.specs.Vector.{width, bit as bit_at, shared};

// The sides of a lot in a list, by their numbers: `side_number` of specs/Side.antt.
#[derive(Clone, Copy, Debug, PartialEq, Eq)]
pub enum Side {
    Left = 0,
    Right = 1,
}

// The width of a membership vector in bits: `width` of specs/Vector.antt.
pub const WIDTH: u8 = 8;

// The last bit of a vector; bit 0 is the highest.
const LAST_BIT: usize = WIDTH as usize - 1;

impl Side {
    // The other side.
    pub fn opposite(self) -> Side
        ensures { as_side result ≡ opp (as_side self) }
    {
        match self {
            Side::Left => Side::Right,
            Side::Right => Side::Left,
        }
    }

    // The side of a number: 1 is right, any other left.
    pub fn of_number(n: usize) -> Side
        ensures { as_side result ≡ side_of_number n }
    {
        if n == 1 { Side::Right } else { Side::Left }
    }
}

impl From<Side> for usize {
    ghost from_gives = { λ side number. number ≡ side_number (as_side side) };

    fn from(side: Side) -> usize {
        side as usize
    }
}

// The side of number a on which number b lies.
pub fn side_of(a: u64, b: u64) -> Side
    ensures { as_side result ≡ side_of a b }
{
    if a < b { Side::Right } else { Side::Left }
}

// Whether number b lies on side d of number a.
pub fn on_side(d: Side, a: u64, b: u64) -> bool
    ensures { result ≡ on_side (as_side d) a b }
{
    match d {
        Side::Left => b < a,
        Side::Right => a < b,
    }
}

// Bit k of a vector.
pub fn bit(vector: u8, k: usize) -> usize
    requires { k < width }
    ensures { (eqb result 1 ≡ bit_at width k vector) × (result < 2) }
{
    usize::from((vector >> (LAST_BIT - k)) % 2)
}

// The count of equal bits from the highest on, up to the width.
pub fn share(a: u8, b: u8) -> u8
    ensures { result ≡ shared width a b }
{
    let zeros = (a ^ b).leading_zeros() as u8;
    zeros.min(WIDTH)
}
