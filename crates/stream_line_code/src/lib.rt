// One line of a session's input: where it ends in its piece, which of its bytes are kept, what it asks, what is decided of it, and its output
// line. Document 01, "The session program".
#![tactic(auto)]

ghost use Rattle.std.specs.List.{list_any};
ghost use Rattle.std.specs.Prelude.{◌≡◌, ◌==◌, ◌++◌, ◌+◌, ◌≤◌, length, take, MatchOption};
ghost use Rattle.std.proofs.Math.Seq.{paste};
ghost use Rattle.wire.specs.Format.{line_read};
ghost use Rattle.table.specs.Table.{changed};
ghost use Rattle.stream.specs.Session.{session, line_decision, replied};
ghost use Rattle.stream.specs.Input.{output_line, kept_width, kept, output_width};
ghost use Rattle.stream_line_code.specs.Feeds.{NoFeed, LineEnd, Split};

use calls::{Answer, Numbers, Refusal, Request};
use stream::{KEPT_WIDTH, Session};
use table::{PLACES, Table};

// An output line with its line feed.
pub const OUTPUT_WIDTH: usize = wire_code::ANSWER_WIDTH + 1;

// ---- where a line ends

// So many bytes are looked at in one go.
const BLOCK: usize = 16;

// Whether a line feed is among the bytes of a block. All are looked at, without a way out between them: so the compiler takes them in a few
// instructions.
fn has_feed(block: &[u8; BLOCK]) -> bool
    ensures { result ≡ list_any (λ b. b == 10) block.now }
{
    let mut any = false;
    for b in block {
        any |= *b == b'\n';
    }
    any
}

// How many bytes are in the blocks at the front that have no line feed.
fn past_blocks(piece: &[u8]) -> usize
    ensures { (result ≤ length piece.now) × NoFeed piece.now 0 result }
{
    let (blocks, _) = piece.as_chunks::<BLOCK>();
    let past = blocks.iter().position(has_feed).unwrap_or(blocks.len());
    past * BLOCK
}

// The place of the first line feed from a place on, or the end of the piece.
pub fn line_end(piece: &[u8], from: usize) -> usize
    requires { from ≤ length piece.now }
    ensures { LineEnd piece.now from result }
{
    let past = from + past_blocks(&piece[from..]);
    let rest = &piece[past..];
    past + rest.iter().position(|b| *b == b'\n').unwrap_or(rest.len())
}

// The line that ends first, without its line feed, and the bytes after it: nothing where no line ends.
pub fn split_line(piece: &[u8]) -> Option<(&[u8], &[u8])>
    ensures { MatchOption result (NoFeed piece.now 0 (length piece.now)) (λ s. Split piece.now s.0.now s.1.now) }
{
    let end = line_end(piece, 0);
    if end == piece.len() {
        return None;
    }
    Some((&piece[..end], &piece[end + 1..]))
}

// ---- its bytes

// More bytes of a line, as far as they are kept.
pub fn push_all(bytes: &mut [u8; KEPT_WIDTH], count: usize, part: &[u8]) -> usize
    requires { count ≤ kept_width }
    ensures { (take result bytes.new ≡ kept (take count bytes.old ++ part.now)) × (result ≤ kept_width) }
{
    let n = part.len().min(KEPT_WIDTH - count);
    bytes[count..count + n].copy_from_slice(&part[..n]);
    count + n
}

// What a line asks, given its bytes in this piece. A line that lies whole in its piece is read there; the rest of a line that has begun
// before is put to its first bytes.
pub fn read_on(bytes: &mut [u8; KEPT_WIDTH], count: usize, part: &[u8]) -> Option<Request>
    requires { count ≤ kept_width }
    ensures { result ≡ line_read (take count bytes.old ++ part.now) }
{
    if count == 0 {
        return wire_code::read_line(part);
    }
    let n = push_all(bytes, count, part);
    wire_code::read_line(&bytes[..n])
}

// ---- its answer

// What is decided of a line that was read, and carried out: the table is lent, and searched and changed where it stands. An unreadable line
// changes nothing.
#[tactic(auto, unfolding(stream::specs::Session::line_decision))]
fn carry_out_line(opened: bool, t: &mut Table, q: Option<Request>) -> Answer
    ensures answer { result ≡ (line_decision (session opened t.old) q).answer }
    ensures table { t.new ≡ changed t.old (line_decision (session opened t.old) q).change }
{
    let Some(r) = q else {
        return Err(Refusal::BadLine);
    };
    let d = line_decide_code::decide(opened, t, r);
    // The table has its places, so that it has the one that the change needs.
    prove!(t.trains[..].len() == PLACES);
    table_code::carry_out(t, d.change);
    d.answer
}

// Answers a line that was read, in the session, which is lent. Answer 0 is acceptance: from then on the session is open.
pub fn answer_line(s: &mut Session, q: Option<Request>) -> Numbers
    ensures answer { result ≡ (replied s.old (line_decision s.old q)).answer }
    ensures session { s.new ≡ (replied s.old (line_decision s.old q)).session }
{
    let answer = calls_code::numbers_of(carry_out_line(s.opened, &mut s.table, q));
    s.opened |= answer.number == 0;
    answer
}

// ---- its output line

// Writes the output line of an answer into out, from place `at` on.
pub fn put_line(out: &mut [u8], at: usize, a: Numbers)
    requires { at + output_width ≤ length out.old }
    ensures { out.new ≡ paste out.old at (output_line a) output_width }
{
    wire_code::render(a, out, at);
    out[at + wire_code::ANSWER_WIDTH] = b'\n';
}
