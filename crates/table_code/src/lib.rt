// Finds trains in the table, and changes it. The table is lent: it is searched and changed where it stands.
#![tactic(auto)]

ghost use Rattle.std.specs.Prelude.{◌≡◌, ◌≤◌, ◌<◌, IfSome, length};
ghost use Rattle.train.specs.Ranges.{settings_of};
ghost use Rattle.table.specs.Table.{places, blank_train, empty_table, on_line, place_of, limit_at, changed, Fits};

use brake::Figures;
use calls::Opening;
use motion::{Motion, Order};
use table::{Change, PLACES, Table};
use train::{Limit, Train};

// What stands in a place without a train. No call reads it.
pub fn blank_train() -> Train
    ensures { result ≡ blank_train }
{
    Train {
        id: 0,
        length: 0,
        figures: Figures { full: 0, growth: 0 },
        motion: Motion {
            head: 0,
            speed: 0,
            level: 0,
        },
        order: Order::Drive(0),
        authority: train_code::fresh_authority(0, 0),
        marks: train_code::fresh_marks(),
    }
}

// A table as it was opened, with no train.
pub fn new_table(o: Opening) -> Table
    ensures { result ≡ empty_table (settings_of o) }
{
    Table {
        trains: [blank_train(); PLACES],
        settings: train_code::settings_of(o),
        count: 0,
    }
}

// ---- the search

// The trains on the line. Whatever the count, none past the last place.
fn on_line(t: &Table) -> &[Train]
    ensures trains { result.now ≡ on_line t.now }
    ensures few { length result.now ≤ places }
{
    t.trains.get(..t.count).unwrap_or(&t.trains)
}

// The place of the train with this id.
pub fn place_of(t: &Table, id: u64) -> Option<usize>
    ensures place { result ≡ place_of t.now id }
    ensures within { IfSome result (λ i. i < places) }
{
    on_line(t).iter().position(|x| x.id == id)
}

// The limit at place i: the line end for the first train, and for any other what the train ahead leaves it.
#[tactic(auto, unfolding(table::specs::Table::ahead_of, train::specs::Track::limit_behind))]
pub fn limit_at(t: &Table, i: usize) -> Limit
    requires { i ≤ places }
    ensures { result ≡ limit_at t.now i }
{
    match i.checked_sub(1) {
        None => Some(t.settings.end),
        Some(ahead) => train_code::limit_behind(t.settings, t.trains[ahead]),
    }
}

// ---- changes

// The first train gone: the others move up, and the place of the last is blank.
fn drop_first(t: &mut Table)
    requires { 0 < t.old.count }
    ensures { t.new ≡ changed t.old Change.DropFirst }
{
    let taken = t.count.min(PLACES);
    t.trains.copy_within(1..taken, 0);
    t.trains[taken - 1] = blank_train();
    t.count -= 1;
}

// A change, made in the table where it stands.
pub fn carry_out(t: &mut Table, c: Change)
    requires { Fits t.old c }
    ensures { t.new ≡ changed t.old c }
{
    match c {
        Change::Stay => {}
        Change::Put(i, x) => t.trains[i] = x,
        Change::Add(x) => {
            t.trains[t.count] = x;
            t.count += 1;
        }
        Change::DropFirst => drop_first(t),
        Change::Anew(o) => *t = new_table(o),
    }
}
