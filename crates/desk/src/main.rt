// The desk: the session's calls, and previews of them, from standard input; for each line the answer and the record of the train that it names.
// For people and for tests: it keeps nothing, and need not be quick. Thin: everything that matters is in `desk_line` and `desk_line_code`. What
// is written is what `write_line` requires of the bytes that it is given: nothing else writes to standard output.
#![tactic(auto)]

ghost use Rattle.std.specs.Prelude.{◌≡◌, ◌≤◌};
ghost use Rattle.stream.specs.Input.{kept_width};
ghost use Rattle.desk_line.specs.Desk.{desk_answered};
ghost use Rattle.desk_line.specs.Columns.{desk_line};
ghost use Rattle.desk.specs.Program.{DeskTurn};

use desk_line_code::DESK_WIDTH;
use std::fmt;
use std::io::{Print, Read};
use stream::{Session, Stream};

// Why the desk stops before all is answered.
#[derive(Clone, Copy)]
enum Stop {
    NotRead,
    NotWritten,
}

impl fmt::Display for Stop {
    fn fmt<W: fmt::Write>(&self, f: &mut fmt::Formatter<W>) -> fmt::Result {
        let what = match self {
            Stop::NotRead => "standard input cannot be read",
            Stop::NotWritten => "standard output cannot be written",
        };
        write!(f, "desk: {what}; nothing more is answered")
    }
}

// Writes the output line of a line. The state and the line are for the contract.
fn write_line(rt: HostRuntime, s: Session, line: &[u8], bytes: &[u8]) -> Result<(), Stop>
    requires { bytes.now ≡ desk_line (desk_answered s line.now).shown }
{
    rt.write_all(bytes).map_err(|_| Stop::NotWritten)
}

// Answers a line, given without its line feed, and leaves the state after it. `out` is an output line. It is written where all before it were: no
// line may be missing between two that are.
fn take_line(
    rt: HostRuntime,
    s: &mut Session,
    line: &[u8],
    out: &mut [u8; DESK_WIDTH],
    so_far: Result<(), Stop>,
) -> Result<(), Stop>
    ensures { s.new ≡ (desk_answered s.old line.now).session }
{
    let before = *s;
    let r = desk_line_code::answer(before, line);
    *s = r.session;
    so_far?;
    desk_line_code::render(r.shown, out);
    write_line(rt, before, line, out)
}

// Answers the lines that a piece ends, each in the state that the one before it left.
fn take_piece(
    rt: HostRuntime,
    x: &mut Stream,
    piece: &[u8],
    out: &mut [u8; DESK_WIDTH],
) -> Result<(), Stop>
    requires { x.old.count ≤ kept_width }
    ensures { DeskTurn x.old piece.now x.new }
{
    let mut so_far = Ok(());
    let mut rest = piece;
    while let Some((part, next)) = stream_line_code::split_line(rest) {
        let n = stream_line_code::push_all(&mut x.bytes, x.count, part);
        so_far = take_line(rt, &mut x.session, &x.bytes[..n], out, so_far);
        x.count = 0;
        rest = next;
    }
    x.count = stream_line_code::push_all(&mut x.bytes, x.count, rest);
    so_far
}

// At the end of the input: a last line without its line feed is answered as an empty one is, with 1.
fn close(rt: HostRuntime, x: &mut Stream, out: &mut [u8; DESK_WIDTH]) -> Result<(), Stop> {
    if x.count == 0 {
        return Ok(());
    }
    take_line(rt, &mut x.session, b"", out, Ok(()))
}

// The bytes of one read at most.
const PIECE: usize = 4096;

// Reads until the input ends, a read fails or answers cannot be written. A proved loop has to end, and nothing says that an input does. So the
// loop counts the reads, up to a number that no run reaches.
fn run(rt: HostRuntime, piece: &mut [u8; PIECE], out: &mut [u8; DESK_WIDTH]) -> Result<(), Stop> {
    let mut x = stream_code::start();
    for _ in 0..u64::MAX {
        let n = rt.stdin().read(piece).map_err(|_| Stop::NotRead)?;
        if n == 0 {
            return close(rt, &mut x, out);
        }
        take_piece(rt, &mut x, &piece[..n], out)?;
    }
    Ok(())
}

// Why it stops is told on standard error alone: the exit status is 0. Where that cannot be written either, nobody can be told.
fn main(rt: HostRuntime) {
    let mut piece = [0u8; PIECE];
    let mut out = [0u8; DESK_WIDTH];
    if let Err(stop) = run(rt, &mut piece, &mut out) {
        let _ = rt.eprintln(stop);
    }
}
