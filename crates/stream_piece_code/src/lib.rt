// A piece of a session's input: its lines are answered, each in the state that the one before it left. Document 01, "The session program".
#![tactic(auto)]

ghost use Rattle.std.specs.Prelude.{◌*◌, ◌≤◌, length};
ghost use Rattle.stream.specs.Input.{output_width, Taken};

use stream::{KEPT_WIDTH, Stream};
use stream_line_code::OUTPUT_WIDTH;

// The whole piece, and how many bytes are written. One answer for a line feed, so that an output line for each byte is room enough. The
// stream is lent: its table is searched and changed where it stands, and no line copies it.
pub fn feed_all(x: &mut Stream, piece: &[u8], out: &mut [u8]) -> usize
    requires { output_width * length piece.now ≤ length out.old }
    ensures { Taken x.old piece.now out.old result x.new out.new }
{
    let mut at: usize = 0;
    let mut rest = piece;
    x.count = x.count.min(KEPT_WIDTH);
    while let Some((part, next)) = stream_line_code::split_line(rest) {
        let q = stream_line_code::read_on(&mut x.bytes, x.count, part);
        let a = stream_line_code::answer_line(&mut x.session, q);
        stream_line_code::put_line(out, at, a);
        x.count = 0;
        at += OUTPUT_WIDTH;
        rest = next;
    }
    x.count = stream_line_code::push_all(&mut x.bytes, x.count, rest);
    at
}
