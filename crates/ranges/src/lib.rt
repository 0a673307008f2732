// Document 01, "Line and consist": the table of ranges, a row to a test. Each end is written once: an upper end as a constant, a lower end
// in its row's test.
#![tactic(auto)]

ghost use Rattle.std.specs.Prelude.{◌≡◌};
ghost use Rattle.ranges.specs.Ranges.{between, line_end_in_range, safety_in_range, ceiling_in_range, traction_in_range, id_in_range, length_in_range, number_in_range, start_in_range};

pub const GREATEST_LINE_END: u64 = 2000000000000;

const GREATEST_SAFETY: u64 = 20000000000;

pub const GREATEST_CEILING: u64 = 40000000;

pub const GREATEST_TRACTION: u64 = 100000;

const GREATEST_ID: u64 = 65535;

const GREATEST_LENGTH: u64 = 10000;

const GREATEST_NUMBER: u64 = 4294967295;

// Both ends are in the range.
#[tactic(auto, unfolding(crate::specs::Ranges::between))]
pub fn in_range(low: u64, high: u64, n: u64) -> bool
    ensures { result ≡ between low high n }
{
    (low..=high).contains(&n)
}

pub fn line_end_in_range(n: u64) -> bool
    ensures { result ≡ line_end_in_range n }
{
    in_range(1, GREATEST_LINE_END, n)
}

pub fn safety_in_range(n: u64) -> bool
    ensures { result ≡ safety_in_range n }
{
    in_range(0, GREATEST_SAFETY, n)
}

pub fn ceiling_in_range(n: u64) -> bool
    ensures { result ≡ ceiling_in_range n }
{
    in_range(1, GREATEST_CEILING, n)
}

pub fn traction_in_range(n: u64) -> bool
    ensures { result ≡ traction_in_range n }
{
    in_range(1, GREATEST_TRACTION, n)
}

pub fn id_in_range(n: u64) -> bool
    ensures { result ≡ id_in_range n }
{
    in_range(1, GREATEST_ID, n)
}

pub fn length_in_range(n: u64) -> bool
    ensures { result ≡ length_in_range n }
{
    in_range(1, GREATEST_LENGTH, n)
}

pub fn number_in_range(n: u64) -> bool
    ensures { result ≡ number_in_range n }
{
    in_range(1, GREATEST_NUMBER, n)
}

// The starting number may be 0: the first request then has number 1.
pub fn start_in_range(n: u64) -> bool
    ensures { result ≡ start_in_range n }
{
    in_range(0, GREATEST_NUMBER, n)
}
