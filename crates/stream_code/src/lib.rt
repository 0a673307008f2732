// Runs a session: answers lines, whole or in pieces, each in the state that the one before it left. Document 01, "The session program".
#![tactic(auto)]

ghost use Rattle.std.specs.Prelude.{◌≡◌, []};
ghost use Rattle.stream.specs.Session.{closed, answered};
ghost use Rattle.stream.specs.Input.{begun, FeedPromise, FinishPromise};

use calls::Refusal;
use stream::{KEPT_WIDTH, Reply, Session, Stream};
use stream_line_code::OUTPUT_WIDTH;

// ---- one line

// Answers a line, given without its line feed.
pub fn answer(mut s: Session, line: &[u8]) -> Reply
    ensures { result ≡ answered s line.now }
{
    let answer = stream_line_code::answer_line(&mut s, wire_code::read_line(line));
    Reply { answer, session: s }
}

// ---- the input in pieces

// A stream at the start of its input.
pub fn start() -> Stream
    ensures { (result.session ≡ closed) × (begun result ≡ []) }
{
    Stream {
        session: Session {
            opened: false,
            table: line_decide_code::no_table(),
        },
        bytes: [0; KEPT_WIDTH],
        count: 0,
    }
}

// Takes the next piece of the input in, writes the answers to the lines that it ends into out, and tells how many bytes these are. A piece
// is not taken where out has no room for the answers that it might need: then stream and out stay.
pub fn feed(x: &mut Stream, piece: &[u8], out: &mut [u8]) -> Option<usize>
    ensures { FeedPromise x.old piece.now out.old result x.new out.new }
{
    if out.len() / OUTPUT_WIDTH < piece.len() {
        return None;
    }
    Some(stream_piece_code::feed_all(x, piece, out))
}

// At the end of the input: writes the answer to a last line without its line feed into out, and tells how many bytes that is. Without room
// for it nothing is written.
pub fn finish(x: &Stream, out: &mut [u8]) -> Option<usize>
    ensures { FinishPromise x.now out.old result out.new }
{
    if x.count == 0 {
        return Some(0);
    }
    if out.len() < OUTPUT_WIDTH {
        return None;
    }
    stream_line_code::put_line(out, 0, calls_code::numbers_of(Err(Refusal::BadLine)));
    Some(OUTPUT_WIDTH)
}
