// Text put together in a lent buffer. Each method puts its text at the writer's position and moves it past the text; a byte past the end of the
// buffer is left out, and the position stays there.
#![tactic(auto, using(crate::proofs::Written::texts))]

ghost use Rattle.std.specs.Prelude.{◌≡◌, [], ◌∷◌};
ghost use Rattle.command.specs.Text.{shown};
ghost use Rattle.text.specs.inner.Written.{written};

const BASE: u64 = 10;

// A lent buffer, and the position in it where the next text goes.
#[derive(Drop)]
pub struct Writer<'a> {
    out: &'a mut [u8],
    at: usize,
}

impl<'a> Writer<'a> {
    // From the start of the buffer on.
    pub fn new(out: &'a mut [u8]) -> Writer<'a>
        ensures { result ≡ record { out = out.entry; at = 0 } }
    {
        Writer { out, at: 0 }
    }

    // The position after the texts so far.
    pub fn position(&self) -> usize
        ensures { result ≡ self.now.at }
    {
        self.at
    }

    // One byte.
    #[tactic(auto, unfolding(crate::specs::inner::Written::bytes_after, crate::specs::inner::Written::place_after))]
    pub fn byte(&mut self, b: u8)
        ensures { self.new ≡ written self.old (b ∷ []) }
    {
        if self.at < self.out.len() {
            self.out[self.at] = b;
            self.at += 1;
        }
    }

    // Some bytes.
    pub fn bytes(&mut self, some: &[u8])
        ensures { self.new ≡ written self.old some.now }
    {
        for b in some {
            self.byte(*b);
        }
    }

    // A number in decimal. By hand: the library's printing promises its text on `Ok` alone, and here nothing can fail.
    pub fn decimal(&mut self, x: u64)
        ensures { self.new ≡ written self.old (shown x) }
    {
        if x >= BASE {
            self.decimal(x / BASE);
        }
        self.byte(b'0' + (x % BASE) as u8);
    }
}
