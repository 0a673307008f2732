// Reads a session's input lines, and writes its answers: document 01, "The session program".
#![tactic(auto)]

ghost use Rattle.std.specs.Prelude.{◌≡◌, ◌+◌, ◌≤◌, ◌<◌, length};
ghost use Rattle.std.proofs.Math.Seq.{paste};
ghost use Rattle.wire.specs.Format.{digit as digit_after, column as column_after, so_far, field_of, call_columns, call_width, numbers_in, row_in, line_read, text, room_at, rendered};

use calls::{Numbers, ROW, Request};
use wire::{CALL_COLUMNS, CALL_WIDTH, Scan};

// The columns of an output line: the answer, and each of its three numbers.
const CODE: usize = 2;

pub const NUMBER: usize = 14;

// Where these three begin.
const FIRST: usize = CODE;

const SECOND: usize = FIRST + NUMBER;

const THIRD: usize = SECOND + NUMBER;

pub const ANSWER_WIDTH: usize = THIRD + NUMBER;

// ---- reading

// A digit after the number n. A field has 14 columns at most, so that n is below 10^13.
#[tactic(auto, unfolding(wire::specs::Format::digit))]
fn digit(n: u64, b: u8) -> Scan
    requires { n < 10000000000000 }
    ensures { result ≡ digit_after n b }
{
    match b {
        b'0'..=b'9' => Scan::Digits(10 * n + u64::from(b - b'0')),
        _ => Scan::Bad,
    }
}

// One column more. No leading zeros: after a 0 nothing may follow.
#[tactic(auto, unfolding(wire::specs::Format::column))]
fn column(s: Scan, b: u8) -> Scan
    requires { so_far s < 10000000000000 }
    ensures { result ≡ column_after s b }
{
    match s {
        Scan::Blank if b == b' ' => Scan::Blank,
        Scan::Blank => digit(0, b),
        Scan::Digits(0) | Scan::Bad => Scan::Bad,
        Scan::Digits(n) => digit(n, b),
    }
}

// The number that these columns show.
fn field_in(field: &[u8]) -> Option<u64>
    requires { length field.now ≤ 14 }
    ensures { result ≡ field_of field.now }
{
    let mut s = Scan::Blank;
    for b in field {
        s = column(s, *b);
    }
    match s {
        Scan::Digits(n) => Some(n),
        Scan::Blank | Scan::Bad => None,
    }
}

// The numbers of a line, its code first and its caller last.
fn numbers_in(line: &[u8]) -> Option<[u64; ROW]>
    requires { length line.now ≡ call_width }
    ensures { result ≡ numbers_in call_columns line.now }
{
    let mut numbers = [0; ROW];
    let mut rest = line;
    for (i, width) in CALL_COLUMNS.iter().enumerate() {
        let (field, after) = rest.split_at(*width);
        numbers[i] = field_in(field)?;
        rest = after;
    }
    Some(numbers)
}

// The numbers of an input line, given without its line feed.
pub fn read_row(line: &[u8]) -> Option<[u64; ROW]>
    ensures { result ≡ row_in line.now }
{
    if line.len() == CALL_WIDTH {
        numbers_in(line)
    } else {
        None
    }
}

// What an input line asks, given without its line feed.
#[tactic(auto, unfolding(wire::specs::Format::line_read))]
pub fn read_line(line: &[u8]) -> Option<Request>
    ensures { result ≡ line_read line.now }
{
    read_row(line).and_then(calls_code::request_of)
}

// ---- writing

// n right-justified in so many columns of out, from place `at` on: spaces in all of them, and then its digits from the right.
// Of a number that has more digits the last are written, where `{n:>14}` would take more columns.
pub fn put(out: &mut [u8], at: usize, width: usize, n: u64)
    requires { (0 < width) × (at + width ≤ length out.old) }
    ensures { out.new ≡ paste out.old at (text width n) width }
{
    let field = &mut out[at..at + width];
    field.fill(b' ');
    let mut rest = n;
    for i in (0..width).rev() {
        field[i] = b'0' + (rest % 10) as u8;
        rest /= 10;
        if rest == 0 {
            return;
        }
    }
}

// Writes the output line of an answer, without its line feed, into out from place `at` on, and tells whether there was room. Without
// room nothing is written.
pub fn render(a: Numbers, out: &mut [u8], at: usize) -> bool
    ensures { (result ≡ room_at out.old at) × (out.new ≡ rendered a out.old at) }
{
    let room = out
        .len()
        .checked_sub(ANSWER_WIDTH)
        .is_some_and(|last| at <= last);
    if room {
        put(out, at, CODE, a.number);
        put(out, at + FIRST, NUMBER, a.first);
        put(out, at + SECOND, NUMBER, a.second);
        put(out, at + THIRD, NUMBER, a.third);
    }
    room
}
