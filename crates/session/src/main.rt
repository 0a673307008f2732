// The session program: reads calls from standard input and writes one output line for each input line. Thin: everything that matters
// is in `stream` and `stream_code`. No contract can say which bytes `read` and `write` move. So what is read here is what stands in the
// buffer after a read, and what is written is what `write_answers` and `write_last` require of the bytes that they are given: nothing else
// writes to standard output.
#![tactic(auto)]

ghost use Rattle.std.specs.Prelude.{◌≡◌, ◌<◌, take, option_map};
ghost use Rattle.stream.specs.Input.{last_answer, begun, answers_to};
ghost use Rattle.session.specs.Program.{ReadOnce, TookIn, Stopped, Whole, next_after, stop_after_last};

use std::io::{Print, Read};
use stream::Stream;

// How a session stops: at the end of its input; at a read that failed; where answers could not be written; or where the count of bytes has
// no room for a piece more, which no run reaches.
#[derive(Clone, Copy)]
enum Stop {
    Ended,
    NotRead,
    NotWritten,
    Full,
}

// What comes of a read: how many bytes were read, or nothing where it failed; and how many bytes of answers stand at the front of `out`.
#[derive(Clone, Copy)]
struct Took {
    read: Option<usize>,
    answered: usize,
}

// What comes of all turns: how many bytes were read, and how they stopped.
#[derive(Clone, Copy)]
struct Ran {
    read: usize,
    how: Stop,
}

// What comes of the end of the input: how many bytes the last answer has, and whether it could be written.
#[derive(Clone, Copy)]
struct Closed {
    last: usize,
    written: bool,
}

// What comes of a session: how many bytes were read, how it stopped, and, where the input ended, how many bytes its last answer has. The
// input may have ended though the last answer could not be written.
#[derive(Clone, Copy)]
struct Served {
    read: usize,
    how: Stop,
    last: Option<usize>,
}

// The bytes of one read at most.
const PIECE: usize = 4096;

// An output line for each byte of a piece: each may be a line feed.
const OUT: usize = PIECE * stream_line_code::OUTPUT_WIDTH;

// Writes the answers to the lines that a piece ends. The stream and the piece are for the contract.
fn write_answers(rt: HostRuntime, x: Stream, piece: &[u8], bytes: &[u8]) -> bool
    requires { bytes.now ≡ answers_to x piece.now }
{
    rt.write_all(bytes).is_ok()
}

// Writes the answer to a last line without its line feed. How reading stopped and the stream are for the contract: a line that has begun is
// the last one only at the end of the input.
fn write_last(rt: HostRuntime, how: Stop, x: &Stream, bytes: &[u8]) -> bool
    requires { (how ≡ Stop.Ended) × (bytes.now ≡ last_answer (begun x.now)) }
{
    rt.write_all(bytes).is_ok()
}

// Reads once, and answers all lines that are whole by then. `out` has room for every piece, so that each is taken. At the end of the input,
// and where the read failed, the piece is empty.
fn take_in(rt: HostRuntime, x: &mut Stream, piece: &mut [u8; PIECE], out: &mut [u8; OUT]) -> Took
    ensures { ReadOnce x.old result.read result.answered x.new piece.new out.new }
{
    let read = rt.stdin().read(piece).ok();
    let n = read.unwrap_or(0);
    let answered = stream_code::feed(x, &piece[..n], out).unwrap_or(0);
    Took { read, answered }
}

// What follows a turn: a stop, or one more. A read that failed is not the end of the input. Apart from the loop, so that a contract says
// when it stops.
fn after_turn(read: Option<usize>, written: bool) -> Option<Stop>
    ensures { result ≡ next_after read written }
{
    match read {
        None => Some(Stop::NotRead),
        Some(0) => Some(Stop::Ended),
        Some(_) if !written => Some(Stop::NotWritten),
        Some(_) => None,
    }
}

// Reads until the input ends, a read fails or the answers cannot be written. After each read they are written: a train waits at the other
// end. The stream of before is for the contract of that: no code reads it, and the compiler does not copy it. A proved loop has to end, and
// nothing says that an input does. So the loop counts the bytes, up to a number that no run reaches.
fn run(rt: HostRuntime, x: &mut Stream, piece: &mut [u8; PIECE], out: &mut [u8; OUT]) -> Ran
    ensures { TookIn x.old result.read x.new × Stopped result.how result.read }
{
    let mut read: usize = 0;
    while read <= usize::MAX - PIECE {
        let before = *x;
        let t = take_in(rt, x, piece, out);
        let n = t.read.unwrap_or(0);
        let written = write_answers(rt, before, &piece[..n], &out[..t.answered]);
        read += n;
        if let Some(how) = after_turn(t.read, written) {
            return Ran { read, how };
        }
    }
    Ran {
        read,
        how: Stop::Full,
    }
}

// At the end of the input: writes the answer to a last line without its line feed. How reading stopped is for the contract.
fn close(rt: HostRuntime, how: Stop, x: &Stream, out: &mut [u8; OUT]) -> Closed
    requires { how ≡ Stop.Ended }
    ensures { take result.last out.new ≡ last_answer (begun x.now) }
{
    let last = stream_code::finish(x, out).unwrap_or(0);
    let written = write_last(rt, how, x, &out[..last]);
    Closed { last, written }
}

// How a session stops whose input ended: its last answer may be left unwritten.
fn after_last(written: bool) -> Stop
    ensures { result ≡ stop_after_last written }
{
    if written {
        Stop::Ended
    } else {
        Stop::NotWritten
    }
}

// A whole session. Where a read failed, the line that has begun is not answered: its rest may still come. An empty piece would never show
// more than the end of the input.
fn serve(rt: HostRuntime, piece: &mut [u8; PIECE], out: &mut [u8; OUT]) -> Served
    requires { 0 < PIECE }
    ensures { Whole result.read result.how (option_map (λ n. take n out.new) result.last) × Stopped result.how result.read }
{
    let mut x = stream_code::start();
    let Ran { read, how } = run(rt, &mut x, piece, out);
    let Stop::Ended = how else {
        return Served {
            read,
            how,
            last: None,
        };
    };
    let Closed { last, written } = close(rt, how, &x, out);
    Served {
        read,
        how: after_last(written),
        last: Some(last),
    }
}

// Says on standard error why the session stopped before all was answered. Nothing else tells it: the exit status is 0. Where standard error
// cannot be written either, nobody can be told.
fn tell(rt: HostRuntime, how: Stop) {
    let why = match how {
        Stop::Ended => return,
        Stop::NotRead => "standard input cannot be read",
        Stop::NotWritten => "standard output cannot be written",
        Stop::Full => "no more bytes can be counted",
    };
    let _ = eprintln!(rt; "session: {why}; nothing more is answered");
}

fn main(rt: HostRuntime) {
    let mut piece = [0; PIECE];
    let mut out = [0; OUT];
    let served = serve(rt, &mut piece, &mut out);
    tell(rt, served.how);
}
