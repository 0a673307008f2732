// No code: one train's worst-case motion, and where an order lets it stop. Document 01, "Worst-case motion" and "Orders". The functions are in
// `motion_code`.
#![tactic(auto)]

// An order: drive with a cap on the traction, or brake.
#[derive(Clone, Copy)]
pub enum Order {
    Drive(u64),
    Brake,
}

// A train at the end of a cycle: its head, its speed, and the level that a brake in the coming cycle has.
#[derive(Clone, Copy)]
pub struct Motion {
    pub head: u64,
    pub speed: u64,
    pub level: u64,
}

// Speed ceiling V and greatest traction A.
#[derive(Clone, Copy)]
pub struct Maxima {
    pub ceiling: u64,
    pub traction: u64,
}
