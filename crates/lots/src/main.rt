// `lots`: a record of lots, opened and then changed and asked by the lines of standard input (document 01, "The program"). What a line answers and
// does is proved of crate lines; here input is read and answers are written.
//
// An answer is put together whole and written by one call. After a write that fails, or a read that does, nothing more is written or carried
// out, so that standard output has a beginning of the right answers; a line on standard error says so, and the exit status is 1.
#![tactic(auto)]

ghost use Rattle.std.specs.Prelude.{◌≡◌, length, take, OnOk};
ghost use Rattle.program.specs.Pieces.{fed};

use lines::ROOM;
use std::fmt;
use std::io::Read;
use std::process::ExitCode;

// Room for an unfinished line: no command fills it (`cut_line` in the proofs of crate command).
const LINE: usize = 64;

// Why a run ends before its input does.
#[derive(Clone, Copy, Debug, PartialEq, Eq)]
enum Stop {
    ReadFailed,
    WriteFailed,
}

// The whole line that standard error gets, in one piece: what is put together of pieces goes through a buffer on the stack.
impl fmt::Display for Stop {
    fn fmt<W: fmt::Write>(&self, f: &mut fmt::Formatter<W>) -> fmt::Result {
        f.write_str(match self {
            Stop::ReadFailed => "lots: read failed\n",
            Stop::WriteFailed => "lots: write failed\n",
        })
    }
}

// A record, the bytes of an unfinished line, of which the first `kept` are kept, and room for an answer.
#[derive(Drop)]
struct Session {
    rec: [u8; record::SIZE],
    line: [u8; LINE],
    kept: usize,
    out: [u8; ROOM],
}

impl Session {
    // Writes the first n bytes of the answer.
    fn write(&self, rt: &HostRuntime, n: usize) -> Result<(), Stop> {
        let answer = self.out.get(..n).ok_or(Stop::WriteFailed)?;
        rt.write_all(answer).map_err(|_| Stop::WriteFailed)
    }

    // Takes the bytes of a piece of input and writes the answers to the lines that end in it.
    fn take_piece(&mut self, rt: &HostRuntime, piece: &[u8]) -> Result<(), Stop>
        ensures { OnOk result (let f = fed (length self.old.line) self.old.rec (take self.old.kept self.old.line) piece.now in
            (self.new.rec ≡ f.after) × (take self.new.kept self.new.line ≡ f.line)) }
    {
        for byte in piece {
            let taken = lines::take_byte(
                &mut self.rec,
                &mut self.line,
                self.kept,
                *byte,
                &mut self.out,
            );
            self.kept = taken.kept;
            self.write(rt, taken.answer)?;
        }
        Ok(())
    }

    // At the end of input, where the last line may lack its newline.
    fn take_end(&mut self, rt: &HostRuntime) -> Result<(), Stop> {
        let answer = lines::take_end(&mut self.rec, &self.line, self.kept, &mut self.out);
        self.write(rt, answer)
    }

    // Reads to the end of input. A proved loop has to end, and nothing says that input does: the turns are counted up to a number that no run
    // comes to.
    fn run(&mut self, rt: &HostRuntime) -> Result<(), Stop> {
        let mut piece = [0u8; 4096];
        for _ in 0..u64::MAX {
            let count = rt.stdin().read(&mut piece).map_err(|_| Stop::ReadFailed)?;
            if count == 0 {
                return self.take_end(rt);
            }
            self.take_piece(rt, &piece[..count])?;
        }
        Ok(())
    }
}

fn main(rt: HostRuntime) -> ExitCode {
    // built where it stays: a function that gave it back would have it copied, and the stack would hold it twice
    let mut session = Session {
        rec: [0; record::SIZE],
        line: [0; LINE],
        kept: 0,
        out: [0; ROOM],
    };
    let _ = reading::open(&mut session.rec);
    match session.run(&rt) {
        Ok(()) => ExitCode::SUCCESS,
        Err(stop) => {
            let _ = rt.eprint(stop);
            ExitCode::FAILURE
        }
    }
}
