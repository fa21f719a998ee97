// The lines of `lots`: what a line answers and does, and lines as they arrive in pieces of input. Nothing here reads or writes anything but the lent bytes.
#![tactic(auto)]

ghost use Rattle.std.specs.Prelude.{length, take};
ghost use Rattle.program.specs.Line.{Gives, answered};
ghost use Rattle.program.specs.Pieces.{Takes, fed_byte, ended};

mod settle;

use command::Command;
use messages::Message;

// Room for the text of every answer.
pub const ROOM: usize = answers::ROOM;

const NEWLINE: u8 = b'\n';

// Carries out a line, puts the text of its answer over the start of a lent buffer and gives its length. Of the buffer every other byte stays.
pub fn answer(rec: &mut [u8], line: &[u8], out: &mut [u8; ROOM]) -> usize
    ensures { Gives (answered rec.old line.now) rec.new out.old out.new result }
{
    let Some(command) = command::parse(line) else {
        return answers::bad(out);
    };
    match command {
        Command::Join {
            seat,
            number,
            vector,
            contact,
        } => {
            let a = joining::join(rec, seat, number, vector, contact);
            answers::changed(a, out)
        }
        Command::Leave { seat } => {
            let a = joining::leave(rec, seat);
            answers::changed(a, out)
        }
        Command::Deliver {
            kind,
            to,
            about,
            level,
            side,
        } => {
            let a = delivery::deliver(
                rec,
                Message {
                    kind,
                    to,
                    about,
                    level,
                    side,
                },
            );
            answers::changed(a, out)
        }
        Command::Turn => {
            let a = clearing::turn(rec);
            answers::changed(a, out)
        }
        Command::Settle => {
            let a = settle::settle(rec);
            answers::changed(a, out)
        }
        Command::Find { start, number } => {
            let a = find::find(rec, start, number);
            answers::searched(a, out)
        }
        Command::Print => answers::print(rec, out),
    }
}

// The answer to the line of the first n bytes that were kept; more than there are mean all.
fn answer_kept(rec: &mut [u8], line: &[u8], n: usize, out: &mut [u8; ROOM]) -> usize
    ensures { Gives (answered rec.old (take n line.now)) rec.new out.old out.new result }
{
    if n < line.len() {
        return answer(rec, &line[..n], out);
    }
    answer(rec, line, out)
}

// How many bytes of an unfinished line are kept, and how many bytes the answer to the line has that ended: 0 if none did, for no answer is empty.
#[derive(Clone, Copy, Debug, PartialEq, Eq)]
pub struct Taken {
    pub kept: usize,
    pub answer: usize,
}

// Takes a byte of input. `line` has the bytes that are kept of an unfinished line, n of them. A newline carries it out; any other byte is kept while
// there is room.
pub fn take_byte(rec: &mut [u8], line: &mut [u8], n: usize, byte: u8, out: &mut [u8; ROOM]) -> Taken
    ensures { Takes (fed_byte (length line.old) rec.old (take n line.old) byte)
        rec.new (take result.kept line.new) out.old out.new result.answer }
{
    if byte == NEWLINE {
        return Taken {
            kept: 0,
            answer: answer_kept(rec, line, n, out),
        };
    }
    if n < line.len() {
        line[n] = byte;
        return Taken {
            kept: n + 1,
            answer: 0,
        };
    }
    Taken { kept: n, answer: 0 }
}

// At the end of input: the answer to the last line if it lacks its newline, 0 bytes if there is none.
pub fn take_end(rec: &mut [u8], line: &[u8], n: usize, out: &mut [u8; ROOM]) -> usize
    ensures { Gives (ended rec.old (take n line.now)) rec.new out.old out.new result }
{
    if n == 0 {
        return 0;
    }
    if line.len() == 0 {
        return 0;
    }
    answer_kept(rec, line, n, out)
}
