// The parser of a line of `lots`: any bytes, of any length, without the newline. A command is a letter and its numbers, with one space
// before each number.
#![tactic(auto, using(crate::proofs::Steps::steps))]

ghost use Rattle.std.specs.Prelude.{◌≡◌, ◌==◌, [], ◌∷◌, MatchOption, position};
ghost use Rattle.command.specs.Command.{parsed, command_of, byte_field, vector_field, number_field};
ghost use Rattle.command.specs.Answer.{as_command, command_as};
ghost use Rattle.command.specs.inner.Reading.{read, with_rest, only, as_number, digits_field};

use std::marker::Model;

const SPACE: u8 = b' ';

const ZERO: u8 = b'0';

const BASE: u64 = 10;

// The bytes of the longest command, `J` with four numbers: no more of a line is looked at.
const LONGEST: usize = 34;

// The largest vector.
const VECTOR_MAX: u64 = (1 << graph::WIDTH) - 1;

// A command with its numbers.
#[derive(Clone, Copy, Debug, PartialEq, Eq)]
pub enum Command {
    Join {
        seat: u8,
        number: u64,
        vector: u8,
        contact: u8,
    },
    Leave {
        seat: u8,
    },
    Deliver {
        kind: u8,
        to: u8,
        about: u8,
        level: u8,
        side: u8,
    },
    Turn,
    Settle,
    Find {
        start: u8,
        number: u64,
    },
    Print,
}

// The number of a field: at least one digit, no leading zero but in 0 itself, and at most 64 bits.
fn number(field: &[u8]) -> Option<u64>
    ensures { as_number result ≡ number_field field.now }
{
    let (lead, others) = field.split_first()?;
    if *lead == ZERO && !others.is_empty() {
        return None;
    }
    digits(field)
}

// The number that digits are, none or with zeros in front too, if it fits 64 bits.
fn digits(field: &[u8]) -> Option<u64>
    ensures { as_number result ≡ digits_field 0 field.now }
{
    let mut n: u64 = 0;
    for b in field {
        if !b.is_ascii_digit() {
            return None;
        }
        n = n.checked_mul(BASE)?.checked_add(u64::from(*b - ZERO))?;
    }
    Some(n)
}

// The place of the first space.
fn space(text: &[u8]) -> Option<usize>
    ensures { result ≡ position (λ b. b == 32) text.now }
{
    text.iter().position(|b| *b == SPACE)
}

// The fields of a line that are not read yet, split at each space: those of `rest`, or none.
#[derive(Drop)]
struct Fields<'a> {
    rest: Option<&'a [u8]>,
}

impl<'a> Model for Fields<'a> {
    ghost use Rattle.std.specs.Prelude.{ℕ, List};
    ghost use Rattle.command.specs.inner.Reading.{fields_left};

    ghost Value = { List (List ℕ) };

    ghost view = { λ f. fields_left f.rest };
}

impl<'a> Fields<'a> {
    // The next field.
    fn take(&mut self) -> Option<&'a [u8]>
        ensures { MatchOption result (self.old ≡ []) (λ f. self.old ≡ f.now ∷ self.new) }
    {
        let rest = self.rest?;
        match space(rest) {
            Some(end) => {
                self.rest = Some(&rest[end + 1..]);
                Some(&rest[..end])
            }
            None => {
                self.rest = None;
                Some(rest)
            }
        }
    }

    // The next field as a number of 64 bits.
    fn number(&mut self) -> Option<u64>
        ensures { with_rest (as_number result) self.new ≡ read number_field self.old }
    {
        number(self.take()?)
    }

    // The next field as a number of 8 bits.
    fn byte(&mut self) -> Option<u8>
        ensures { with_rest (as_number result) self.new ≡ read byte_field self.old }
    {
        u8::try_from(self.number()?).ok()
    }

    // The next field as a vector. Its bound is that of `graph::WIDTH` bits, whatever the type has, so it is no `try_from`.
    fn vector(&mut self) -> Option<u8>
        ensures { with_rest (as_number result) self.new ≡ read vector_field self.old }
    {
        let vector = self.number()?;
        if vector > VECTOR_MAX {
            return None;
        }
        Some(vector as u8)
    }

    // The command, if no field is left.
    fn end(&self, command: Command) -> Option<Command>
        ensures { as_command result ≡ only self.now (command_as command) }
    {
        self.rest.is_none().then_some(command)
    }
}

// `J seat number vector contact`
fn join(fields: &mut Fields) -> Option<Command>
    ensures { as_command result ≡ command_of ((74 ∷ []) ∷ fields.old) }
{
    let seat = fields.byte()?;
    let number = fields.number()?;
    let vector = fields.vector()?;
    let contact = fields.byte()?;
    fields.end(Command::Join {
        seat,
        number,
        vector,
        contact,
    })
}

// `L seat`
fn leave(fields: &mut Fields) -> Option<Command>
    ensures { as_command result ≡ command_of ((76 ∷ []) ∷ fields.old) }
{
    let seat = fields.byte()?;
    fields.end(Command::Leave { seat })
}

// `D kind to about level side`
fn deliver(fields: &mut Fields) -> Option<Command>
    ensures { as_command result ≡ command_of ((68 ∷ []) ∷ fields.old) }
{
    let kind = fields.byte()?;
    let to = fields.byte()?;
    let about = fields.byte()?;
    let level = fields.byte()?;
    let side = fields.byte()?;
    fields.end(Command::Deliver {
        kind,
        to,
        about,
        level,
        side,
    })
}

// `F start number`
fn find(fields: &mut Fields) -> Option<Command>
    ensures { as_command result ≡ command_of ((70 ∷ []) ∷ fields.old) }
{
    let start = fields.byte()?;
    let number = fields.number()?;
    fields.end(Command::Find { start, number })
}

// The command that a line is: `J 0 100 0 255` is the join of lot 100 on seat 0. A line of another form, or with a number too wide, is none: an
// empty line too, one with two spaces together or with a space at an end, and any line of more than `longest` bytes (proofs/Text.antt, `long-bad`).
pub fn parse(line: &[u8]) -> Option<Command>
    ensures { as_command result ≡ parsed line.now }
{
    if line.len() > LONGEST {
        return None;
    }
    if line.len() > 1 && line[1] != SPACE {
        return None;
    }
    let mut fields = Fields { rest: Some(line) };
    let [letter] = fields.take()? else {
        return None;
    };
    match *letter {
        b'J' => join(&mut fields),
        b'L' => leave(&mut fields),
        b'D' => deliver(&mut fields),
        b'F' => find(&mut fields),
        b'T' => fields.end(Command::Turn),
        b'A' => fields.end(Command::Settle),
        b'P' => fields.end(Command::Print),
        _ => None,
    }
}
