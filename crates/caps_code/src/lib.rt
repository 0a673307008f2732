// Works out the order of one train: the greatest cap that fits, or brake. Document 01, "Orders"; document 02, (iv).
#![tactic(auto)]

ghost use Rattle.std.specs.Prelude.{true, ◌≡◌, ◌≤◌, length};
ghost use Rattle.ranges.specs.Ranges.{greatest_traction};
ghost use Rattle.brake.specs.Consist.{Sound};
ghost use Rattle.motion.specs.Orders.{reach, order_for};
ghost use Rattle.motion_code.specs.Offers.{offer};
ghost use Rattle.motion.specs.declared.Order.TheVariants.{Drive};
ghost use Rattle.motion.specs.Bounds.{Braking};
ghost use Rattle.caps.specs.Levels.{level_entry, level_list, stop_read};
ghost use Rattle.caps_code.specs.Search.{CapsAllowed, caps_up_to, short_list, longest_list, Room, Listed, ListedTo, Beyond, Closing, Apart, Next, driven, best_within};

use brake::Figures;
use motion::{Maxima, Order};
use motion_code::{Offer, Vehicle};

// No consist's list of levels has more entries.
const LONGEST_LIST: usize = 1991;

// A short array costs less to clear.
const SHORT_LIST: usize = 240;

// From this speed on down, no consist's run has more cycles than the short array has places.
const SLOW: u64 = 1250000;

// So many trials guess; from then on each halves.
const GUESSES: u64 = 8;

// The greatest cap that engine and ceiling allow, or none where they allow not even 0. Each is judged with its own gain.
#[tactic(auto, using(motion::proofs::Cycles::drive_speed_gain))]
fn most_allowed(train: Vehicle, l: Maxima) -> Option<u64>
    requires { l.traction ≤ greatest_traction }
    ensures { CapsAllowed train.figures l train.motion.speed (caps_up_to result) }
{
    let least = motion_code::drive_speed(train.figures, train.motion.speed, 0);
    l.ceiling
        .checked_sub(least)
        .map(|gain| gain.min(l.traction))
}

// ---- the list of levels

// Entry i of the list, counted from 0: the lesser of i×j and B.
#[tactic(auto, unfolding(caps::specs::Levels::level_entry))]
fn level_at(k: Figures, i: usize) -> u64
    requires { Sound k × (i ≤ longest_list) }
    ensures { result ≡ level_entry k i }
{
    (i as u64 * k.growth).min(k.full)
}

// Whether the short array has room for what a consist's runs from speed v read: the brake is full by its last entry, or no run is longer.
// With either array the order is the same.
#[tactic(auto, using(crate::proofs::Trials::list_short, caps::proofs::Levels::slow_run))]
fn reads_few(k: Figures, v: u64) -> bool
    requires { Sound k }
    ensures { result ≡ true → Room k v short_list }
{
    k.full <= (SHORT_LIST as u64 - 1) * k.growth || v <= SLOW
}

// Works the list out, and tells how many entries it has. It ends with the first B, or where a train stands that brakes from speed v: a
// slower one stands sooner, so no trial reads further.
#[tactic(auto, using(caps::proofs::Levels::entry_none))]
fn list_levels(k: Figures, v: u64, list: &mut [u64]) -> usize
    requires { Braking k v 0 × Room k v (length list.old) }
    ensures { ListedTo k v list.new result }
{
    let mut speed = v;
    for (at, place) in list.iter_mut().enumerate() {
        let level = level_at(k, at);
        *place = level;
        if level == k.full || motion_code::last_cycle(k, speed, level) {
            return at + 1;
        }
        speed = motion_code::brake_speed(k, speed, level);
    }
    list.len()
}

// Stop travel from speed v and level 0, read from the list. Past its end the run goes on by itself: from the first B on the level stays, and
// a list that is no consist's may end before it.
#[tactic(auto, using(crate::proofs::Rules::reading))]
fn stop_read(k: Figures, list: &[u64], v: u64) -> u64
    requires { Braking k v 0 × Listed k v list.now }
    ensures { result ≡ stop_read k (level_list k) v }
{
    let mut speeds = 0;
    let mut speed = v;
    for &level in list {
        if motion_code::last_cycle(k, speed, level) {
            return motion_code::travelled(v, speeds, speed)
                + motion_code::brake_travel(k, speed, level);
        }
        speeds += speed;
        speed = motion_code::brake_speed(k, speed, level);
    }
    let level = level_at(k, list.len());
    motion_code::travelled(v, speeds, speed) + motion_code::stopping_distance(k, speed, level)
}

// ---- the search

// The caps left to a search lie between two: low, whose reach is kept, keeps the goal, and high, whose reach is beyond, does not.
#[derive(Clone, Copy)]
struct Gap {
    low: u64,
    kept: u64,
    high: u64,
    beyond: u64,
}

impl Gap {
    // The cap to try next. The reach grows nearly in proportion to the cap. So the guess is the cap by proportion, rounded down, and one
    // more: where low is the greatest that fits, that is the next one, and the search is over.
    fn next_cap(self, trials: u64, goal: u64) -> u64
        requires { Apart goal self }
        ensures { Next trials self result }
    {
        let width = self.high - self.low;
        if GUESSES <= trials {
            return self.low + width / 2;
        }
        let step = (self.beyond - self.kept) / width + 1;
        let ahead = (goal - self.kept) / step + 1;
        self.low + ahead.min(width - 1)
    }
}

// One trial: the reach of cap c.
#[tactic(auto, using(crate::proofs::Rules::trying), unfolding(motion::specs::Orders::stopping_place))]
fn trial(train: Vehicle, list: &[u64], c: u64) -> u64
    requires { (c ≤ greatest_traction) × Listed train.figures (driven train c) list.now }
    ensures { result ≡ reach train.figures train.motion (Drive c) }
{
    let worst = train.worst_case(Order::Drive(c));
    worst.head + stop_read(train.figures, list, worst.speed)
}

// The greatest cap below high that keeps the goal, with its reach. Every cap below one that keeps the goal keeps it too, so the two ends of
// the gap close in on it. The reaches of both are kept: none is worked out twice, and the next cap is guessed by them. Whatever is guessed
// is tried. 25 trials at most, at A = 100,000: 8 that guess, and 17 that halve.
#[tactic(auto, using(crate::proofs::Rules::closing))]
fn close_in(train: Vehicle, goal: u64, list: &[u64], start: Gap) -> Offer
    requires { Closing train goal start × Listed train.figures (driven train start.high) list.now }
    ensures { result ≡ best_within train goal start.high }
{
    let mut gap = start;
    let mut trials = 0;
    while gap.low + 1 < gap.high {
        let c = gap.next_cap(trials, goal);
        let tried = trial(train, list, c);
        trials += 1;
        if tried <= goal {
            gap.low = c;
            gap.kept = tried;
        } else {
            gap.high = c;
            gap.beyond = tried;
        }
    }
    Offer {
        order: Order::Drive(gap.low),
        reach: gap.kept,
    }
}

// The same, or brake where no cap below high keeps the goal: then cap 0 does not. The levels are worked out once, in the array lent, as
// far as the run from the cap high reads them.
#[tactic(auto, using(crate::proofs::Trials::none_found, crate::proofs::Trials::drive_speed_fits))]
fn search(train: Vehicle, goal: u64, high: u64, beyond: u64, list: &mut [u64]) -> Offer
    requires { Beyond train goal high beyond × Room train.figures (driven train high) (length list.old) }
    ensures { result ≡ best_within train goal high }
{
    let fastest = motion_code::drive_speed(train.figures, train.motion.speed, high);
    let n = list_levels(train.figures, fastest, list);
    let kept = trial(train, &list[..n], 0);
    if goal < kept {
        return train.offer_of(Order::Brake);
    }
    let gap = Gap {
        low: 0,
        kept,
        high,
        beyond,
    };
    close_in(train, goal, &list[..n], gap)
}

// The greatest cap up to `most` that keeps the goal, with its reach, or brake where none does. The greatest itself is tried first, by a run of
// its own: on free track it keeps the goal, and no list is needed.
#[tactic(auto, using(crate::proofs::Trials::found, crate::proofs::Trials::list_most))]
fn order_up_to(train: Vehicle, goal: u64, most: u64) -> Offer
    requires { most ≤ greatest_traction }
    ensures { result ≡ best_within train goal most }
{
    let reach = train.reach_of(Order::Drive(most));
    if reach <= goal {
        return Offer {
            order: Order::Drive(most),
            reach,
        };
    }
    let fastest = motion_code::drive_speed(train.figures, train.motion.speed, most);
    if reads_few(train.figures, fastest) {
        let mut short = [0u64; SHORT_LIST];
        return search(train, goal, most, reach, &mut short);
    }
    let mut long = [0u64; LONGEST_LIST];
    search(train, goal, most, reach, &mut long)
}

// ---- the order

// The order that the goal allows, with its reach: drive with the greatest cap that fits, or brake where none does. Engine and ceiling say how
// far the search goes.
#[tactic(auto, using(crate::proofs::Trials::none_allowed, crate::proofs::Trials::some_allowed))]
pub fn order_for(train: Vehicle, l: Maxima, goal: u64) -> Offer
    requires { l.traction ≤ greatest_traction }
    ensures { result ≡ offer train.figures train.motion (order_for train.figures l goal train.motion) }
{
    match most_allowed(train, l) {
        Some(most) => order_up_to(train, goal, most),
        None => train.offer_of(Order::Brake),
    }
}
