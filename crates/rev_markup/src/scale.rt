//! How numbers lie along a line, and which of them are marked.
ghost use Rattle.std.specs.Prelude.{◌≡◌, ◌≤◌, ◌*◌, ◌/◌, IfSome, max, min};

/// A line along which the numbers from 0 to a last one lie.
#[derive(Clone, Copy)]
pub struct Scale {
    pub last: u64,
    /// In tenths of a point.
    pub length: u32,
}

impl Scale {
    /// How far from the line's beginning a number lies, in tenths of a point. What is beyond the last lies at its end.
    pub fn at(self, value: u64) -> u32
        ensures value { result ≡ min value self.last * self.length / max self.last 1 }
        ensures within { result ≤ self.length }
    {
        let whole = u128::from(self.last.max(1));
        let part = u128::from(value.min(self.last));
        (part * u128::from(self.length) / whole) as u32
    }
}

/// Where a picture's lines stand, in tenths of a point.
#[derive(Clone, Copy)]
pub struct Frame {
    pub left: u32,
    pub bottom: u32,
    pub across: u32,
    pub up: u32,
    /// How high a line of text is.
    pub line: u32,
}

/// What the numbers along a line count.
#[derive(Clone, Copy, Debug, PartialEq, Eq)]
pub enum Unit {
    Things,
    Bytes,
}

/// The marks along a line: every so many from 0 on.
#[derive(Clone, Copy)]
pub struct Marks {
    /// From one mark to the next: at least 1.
    pub step: u64,
    pub count: u64,
}

// The factors by which round steps rise from one unit to the next.
fn factors(unit: Unit) -> &'static [u64] {
    match unit {
        Unit::Things => &[1, 2, 5],
        Unit::Bytes => &[1, 2, 4, 8, 16, 32, 64, 128, 256, 512],
    }
}

fn base(unit: Unit) -> u64 {
    match unit {
        Unit::Things => 10,
        Unit::Bytes => 1024,
    }
}

// The first round step of a unit that reaches the last number in so many steps.
fn round_step(unit: Unit, scale: u64, last: u64, most: u64) -> Option<u64>
    ensures { IfSome result (λ step. last ≤ step * most) }
{
    for factor in factors(unit) {
        let step = scale.saturating_mul(*factor);
        if step.saturating_mul(most) >= last {
            return Some(step);
        }
    }
    None
}

// A round step that reaches the last number in so many steps, where any are allowed.
fn step_to(unit: Unit, last: u64, most: u64) -> u64
    ensures { 1 ≤ most → last ≤ result * most }
{
    let mut scale = 1u64;
    for _ in 0..20 {
        if let Some(step) = round_step(unit, scale, last, most) {
            return step;
        }
        scale = scale.saturating_mul(base(unit));
    }
    last
}

/// At most so many round marks, the last of which is at least the last number.
pub fn marks_over(unit: Unit, last: u64, most: u64) -> Marks
    ensures some { 1 ≤ result.step }
    ensures few { result.count ≤ most }
    ensures over { 1 ≤ most → last ≤ result.step * result.count }
{
    let step = step_to(unit, last, most).max(1);
    let count = last.div_ceil(step).max(1).min(most);
    Marks { step, count }
}

/// At most so many round marks, none of them behind the last number.
pub fn marks_within(unit: Unit, last: u64, most: u64) -> Marks
    ensures some { 1 ≤ result.step }
    ensures few { result.count ≤ most }
    ensures within { result.step * result.count ≤ last }
{
    let step = step_to(unit, last, most).max(1);
    let count = (last / step).min(most);
    Marks { step, count }
}
