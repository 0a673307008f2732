// Works out the worst-case motion of one train, and where an order lets it stop: document 01, "Worst-case motion" and "Orders". The order
// itself is worked out in `caps_code`.
#![tactic(auto)]

ghost use Rattle.std.specs.Prelude.{◌≡◌, ◌+◌, ◌*◌, ◌^◌, ◌≤◌, ◌<◌};
ghost use Rattle.motion.specs.Motion.{brake_travel, brake_speed, next_level, drive_travel, drive_speed, stands, stopping_distance};
ghost use Rattle.motion.specs.Orders.{order_number, order_cap, is_brake, worst_case, reach};
ghost use Rattle.motion_code.specs.Offers.{offer};
ghost use Rattle.ranges.specs.Ranges.{greatest_traction};
ghost use Rattle.motion.specs.Bounds.{Level, Braking, Driving, Bounded, in_bounds};

use brake::{Figures, GREATEST_FULL};
use motion::{Motion, Order};
use ranges::{GREATEST_CEILING, GREATEST_LINE_END, GREATEST_TRACTION};

// A train as its motion is worked out: brake figures and motion, within the bounds by which no sum overflows.
#[derive(Clone, Copy)]
pub struct Vehicle {
    pub figures: Figures,
    pub motion: Motion,
    pub ghost bounded: { Bounded figures motion 0 },
}

// An order and its reach.
#[derive(Clone, Copy)]
pub struct Offer {
    pub order: Order,
    pub reach: u64,
}

// No report leaves a higher speed: on flat track the ceiling holds while braking too.
const GREATEST_SPEED: u64 = GREATEST_CEILING;

// An order in numbers: 1 drive or 2 brake, and the cap, 0 with brake.
pub fn order_number(o: Order) -> u64
    ensures { result ≡ order_number o }
{
    match o {
        Order::Drive(_) => 1,
        Order::Brake => 2,
    }
}

pub fn order_cap(o: Order) -> u64
    ensures { result ≡ order_cap o }
{
    match o {
        Order::Drive(c) => c,
        Order::Brake => 0,
    }
}

// Whether an order is brake.
pub fn is_brake(o: Order) -> bool
    ensures { result ≡ is_brake o }
{
    matches!(o, Order::Brake)
}

// Whether a train with these figures and this motion, and a cap, are within the bounds that the functions below require.
#[tactic(auto, unfolding(motion::specs::Bounds::in_bounds))]
pub fn in_bounds(k: Figures, m: Motion, c: u64) -> bool
    ensures { result ≡ in_bounds k m c }
{
    1 <= k.growth
        && k.growth <= k.full
        && k.full <= GREATEST_FULL
        && m.level <= k.full
        && m.head <= GREATEST_LINE_END
        && m.speed <= GREATEST_SPEED
        && c <= GREATEST_TRACTION
}

// Travel in a braked cycle at speed v and level b. The last cycle is rounded up: never shorter than the train rolls.
#[tactic(auto, unfolding(motion::specs::Motion::brake_travel, logic::specs::Rounding::ceil_div))]
pub fn brake_travel(k: Figures, v: u64, b: u64) -> u64
    requires { Braking k v b }
    ensures { result ≡ brake_travel k v b }
{
    if b <= v {
        return 2 * v - b;
    }
    (v * v + (b - 1)) / b
}

// Speed at the end of a braked cycle.
#[tactic(auto, unfolding(motion::specs::Motion::brake_speed))]
pub fn brake_speed(k: Figures, v: u64, b: u64) -> u64
    requires { Braking k v b }
    ensures { result ≡ brake_speed k v b }
{
    v.saturating_sub(b)
}

// Level after a braked cycle at level b: it grows by j, up to B.
#[tactic(auto, unfolding(motion::specs::Motion::next_level))]
fn next_level(k: Figures, b: u64) -> u64
    requires { Level k b }
    ensures { result ≡ next_level k b }
{
    (b + k.growth).min(k.full)
}

// Travel in a driven cycle with cap c.
#[tactic(auto, unfolding(motion::specs::Motion::drive_travel))]
fn drive_travel(k: Figures, v: u64, c: u64) -> u64
    requires { Driving k v c }
    ensures { result ≡ drive_travel k v c }
{
    2 * v + c
}

// Speed at the end of a driven cycle with cap c.
#[tactic(auto, unfolding(motion::specs::Motion::drive_speed))]
pub fn drive_speed(k: Figures, v: u64, c: u64) -> u64
    requires { Driving k v c }
    ensures { result ≡ drive_speed k v c }
{
    v + c
}

// Whether a train stands: no further braked cycle moves it.
#[tactic(auto, unfolding(motion::specs::Motion::stands))]
pub fn standing(k: Figures, v: u64, b: u64) -> bool
    ensures { result ≡ stands k v b }
{
    v == 0
}

// Whether the braked cycle at speed v and level b is the last: the train stands at its end.
#[tactic(auto, using(motion::proofs::Cycles::last_stands))]
pub fn last_cycle(k: Figures, v: u64, b: u64) -> bool
    ensures { result ≡ stands k (brake_speed k v b) (next_level k b) }
{
    v <= b
}

// How far braked cycles went that brought a train from speed v to this speed, none of them the last: each as far as the speeds at its
// start and at its end together. speeds is the sum of the speeds at their starts.
pub fn travelled(v: u64, speeds: u64, speed: u64) -> u64
    requires { (v ≤ 2 * speeds + speed) × (2 * speeds + speed < 2 ^ 64) }
    ensures { result + v ≡ 2 * speeds + speed }
{
    2 * speeds + speed - v
}

// Stopping distance (stop travel) from speed v under full brake, which stays full. The last cycle comes after the loop, so that no
// cycle in it can be the rounded one. From speed 0 the last cycle is the only one, and goes nowhere.
#[tactic(auto, using(crate::proofs::Rules::summing))]
fn full_stop(k: Figures, v: u64) -> u64
    requires { Braking k v k.full }
    ensures { result ≡ stopping_distance k v k.full }
{
    let mut speeds = 0;
    let mut speed = v;
    while !last_cycle(k, speed, k.full) {
        speeds += speed;
        speed = brake_speed(k, speed, k.full);
    }
    travelled(v, speeds, speed) + brake_travel(k, speed, k.full)
}

// Stopping distance (stop travel) from speed v and level b: the level grows by j until the brake is full.
#[tactic(auto, using(crate::proofs::Rules::summing))]
pub fn stopping_distance(k: Figures, v: u64, b: u64) -> u64
    requires { Braking k v b }
    ensures { result ≡ stopping_distance k v b }
{
    let mut speeds = 0;
    let mut speed = v;
    let mut level = b;
    while !last_cycle(k, speed, level) {
        speeds += speed;
        speed = brake_speed(k, speed, level);
        level += k.growth;
        if k.full <= level {
            return travelled(v, speeds, speed) + full_stop(k, speed);
        }
    }
    travelled(v, speeds, speed) + brake_travel(k, speed, level)
}

impl Vehicle {
    // The worst case of an order: head, speed and level at the end of the coming cycle.
    #[tactic(auto, using(motion::proofs::Cycles::travel_le), unfolding(motion::specs::Motion::drive_travel))]
    pub fn worst_case(self, o: Order) -> Motion
        requires { order_cap o ≤ greatest_traction }
        ensures { result ≡ worst_case self.figures self.motion o }
    {
        let (k, m) = (self.figures, self.motion);
        match o {
            Order::Drive(c) => Motion {
                head: m.head + drive_travel(k, m.speed, c),
                speed: drive_speed(k, m.speed, c),
                level: 0,
            },
            Order::Brake => Motion {
                head: m.head + brake_travel(k, m.speed, m.level),
                speed: brake_speed(k, m.speed, m.level),
                level: next_level(k, m.level),
            },
        }
    }

    // Reach of an order: where its worst case stops.
    #[tactic(auto, using(crate::proofs::Rules::reaching), unfolding(motion::specs::Orders::stopping_place))]
    pub fn reach_of(self, o: Order) -> u64
        requires { order_cap o ≤ greatest_traction }
        ensures { result ≡ reach self.figures self.motion o }
    {
        let worst = self.worst_case(o);
        worst.head + stopping_distance(self.figures, worst.speed, worst.level)
    }

    // An order with its reach.
    pub fn offer_of(self, o: Order) -> Offer
        requires { order_cap o ≤ greatest_traction }
        ensures { result ≡ offer self.figures self.motion o }
    {
        Offer {
            order: o,
            reach: self.reach_of(o),
        }
    }
}
