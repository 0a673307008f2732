// What is done for a line at the desk: it is read, made or tried, and what is shown of it is written. The state goes in and comes back by
// value: nothing here has to be quick.
#![tactic(auto)]

ghost use Rattle.std.specs.Prelude.{◌≡◌, ◌≤◌, Some, length};
ghost use Rattle.std.proofs.Math.Seq.{paste};
ghost use Rattle.wire.specs.Format.{text_of};
ghost use Rattle.desk_line.specs.Desk.{desk_ask, desk_read, shown_at, left_at, desk_answered};
ghost use Rattle.desk_line.specs.Columns.{record_numbers, record_columns, desk_room, desk_written};

use calls::{ROW, Refusal, Request};
use desk_line::{DeskAsk, DeskReply, RECORD};
use line::Shown;
use stream::Session;
use train::Train;
use wire_code::{ANSWER_WIDTH, NUMBER};

// ---- what a line asks

// Code 50 + c previews call c.
const PREVIEW: u64 = 50;

// What the numbers of a line ask.
#[tactic(auto, unfolding(desk_line::specs::Desk::desk_ask))]
fn ask_of(mut row: [u64; ROW]) -> Option<DeskAsk>
    ensures { result ≡ desk_ask row }
{
    match row[0].checked_sub(PREVIEW) {
        Some(code) => {
            row[0] = code;
            calls_code::request_of(row).map(DeskAsk::Tried)
        }
        None => calls_code::request_of(row).map(DeskAsk::Made),
    }
}

// What a line asks, given without its line feed.
#[tactic(auto, unfolding(desk_line::specs::Desk::desk_read))]
fn read(line: &[u8]) -> Option<DeskAsk>
    ensures { result ≡ desk_read line.now }
{
    wire_code::read_row(line).and_then(ask_of)
}

// ---- what it comes to

// A request that is made: answer 0 is acceptance, and from then on the session is open.
#[tactic(auto, unfolding(desk_line::specs::Desk::shown_at, desk_line::specs::Desk::left_at))]
fn make(s: Session, r: Request) -> DeskReply
    ensures { result ≡ record { shown = shown_at s (Some (DeskAsk.Made r)); session = left_at s (Some (DeskAsk.Made r)) } }
{
    let d = line_decide_code::decide(s.opened, &s.table, r);
    let mut table = s.table;
    table_code::carry_out(&mut table, d.change);
    let n = calls_code::numbers_of(d.answer);
    DeskReply {
        shown: line_code::show(d),
        session: Session {
            opened: s.opened || n.number == 0,
            table,
        },
    }
}

// A request that is tried. Before an accepted opening there is no table to try a call on.
#[tactic(auto, unfolding(desk_line::specs::Desk::shown_at))]
fn try_out(s: Session, r: Request) -> Shown
    ensures { result ≡ shown_at s (Some (DeskAsk.Tried r)) }
{
    if !s.opened && line_code::needs_opening(r.ask) {
        line_code::show(line_decide_code::refuse(Refusal::OutOfTurn))
    } else {
        line_code::preview(s.table, r)
    }
}

// Answers a line, given without its line feed.
#[tactic(auto, unfolding(desk_line::specs::Desk::shown_at, desk_line::specs::Desk::left_at))]
pub fn answer(s: Session, line: &[u8]) -> DeskReply
    ensures { result ≡ desk_answered s line.now }
{
    match read(line) {
        Some(DeskAsk::Made(r)) => make(s, r),
        Some(DeskAsk::Tried(r)) => DeskReply {
            shown: try_out(s, r),
            session: s,
        },
        None => DeskReply {
            shown: line_code::show(line_decide_code::refuse(Refusal::BadLine)),
            session: s,
        },
    }
}

// ---- its output line

// An output line with its line feed.
pub const DESK_WIDTH: usize = ANSWER_WIDTH + RECORD * NUMBER + 1;

// A record as it is shown.
fn record_numbers(x: Train) -> [u64; RECORD]
    ensures { result ≡ record_numbers x }
{
    [
        x.id,
        u64::from(x.length),
        x.figures.full,
        x.figures.growth,
        x.motion.head,
        x.motion.speed,
        x.motion.level,
        motion_code::order_number(x.order),
        motion_code::order_cap(x.order),
        x.authority.end,
        x.authority.start,
        x.authority.number,
        x.authority.length,
        u64::from(x.marks.held),
        u64::from(x.marks.penalty),
        x.authority.goal,
    ]
}

// The numbers of a record in their columns, after those of the answer.
fn put_record(out: &mut [u8], numbers: [u64; RECORD])
    requires { 268 ≤ length out.old }
    ensures { out.new ≡ paste out.old 44 (text_of record_columns numbers) 224 }
{
    for (i, n) in numbers.iter().enumerate() {
        wire_code::put(out, ANSWER_WIDTH + NUMBER * i, NUMBER, *n);
    }
}

// Writes the output line of what is shown over the first bytes of out, and tells whether there was room. Without room nothing is written.
pub fn render(w: Shown, out: &mut [u8]) -> bool
    ensures { (result ≡ desk_room out.old) × (out.new ≡ desk_written w out.old) }
{
    if out.len() < DESK_WIDTH {
        return false;
    }
    wire_code::render(calls_code::numbers_of(w.answer), out, 0);
    put_record(out, record_numbers(w.train));
    out[DESK_WIDTH - 1] = b'\n';
    true
}
