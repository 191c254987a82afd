//! A curve through what several values of a setting lead to.
use crate::what_if::{Counts, Varied, axis_name};
use rev_markup::markup::Piece::{Count, Markup, Tenths};
use rev_markup::markup::put;
use rev_markup::scale::{Frame, Marks, Scale, Unit, marks_over, marks_within};
use rev_markup::share::put_per_cent;
use rev_markup::units::put_thousandths;
use std::alloc::AllocError;

const FRAME: Frame = Frame {
    left: 640,
    bottom: 2060,
    across: 4320,
    up: 1960,
    line: 175,
};

/// A value of a setting, and what it led to.
#[derive(Clone, Copy)]
pub struct Point {
    /// The value in thousandths.
    pub at: u64,
    pub counts: Counts,
    /// Whether it is the trace's own.
    pub is_own: bool,
}

/// What a curve shows of a point.
#[derive(Clone, Copy, PartialEq, Eq)]
enum Shown {
    Share,
    Evictions,
}

impl Point {
    // The number that is shown: thousandths of the look-ups, or how many evictions.
    fn shown(&self, shown: Shown) -> u64 {
        match shown {
            Shown::Share => u64::from(self.counts.share().thousandths()),
            Shown::Evictions => self.counts.evictions,
        }
    }
}

/// The numbers along a side of the picture: from a first one on, with marks.
#[derive(Clone, Copy)]
struct Side {
    first: u64,
    scale: Scale,
    marks: Marks,
    /// What a step of a mark is in the numbers that are shown.
    unit: u64,
}

impl Side {
    // How far from the first a number lies.
    fn at(&self, value: u64) -> u32 {
        self.scale.at(value.saturating_sub(self.first))
    }

    // The number of a mark.
    fn mark(&self, i: u64) -> u64 {
        let steps = self.marks.step.saturating_mul(i);
        self.first.saturating_add(steps.saturating_mul(self.unit))
    }
}

// The values of the setting: growth factors from 1 on, others from 0.
fn across(setting: Varied, points: &[Point]) -> Side {
    let (first, unit) = if setting == Varied::Factor {
        (1000, 1)
    } else {
        (0, 1000)
    };
    let mut last = 1000u64;
    for point in points {
        last = last.max(point.at.saturating_sub(first));
    }
    Side {
        first,
        scale: Scale {
            last,
            length: FRAME.across,
        },
        marks: marks_within(Unit::Things, last / unit, 5),
        unit,
    }
}

// Shares in tens of per cent around those that are shown.
fn shares_up(points: &[Point]) -> Side {
    let (mut lowest, mut highest) = (1000u64, 0u64);
    for point in points {
        let share = point.shown(Shown::Share);
        lowest = lowest.min(share);
        highest = highest.max(share);
    }
    let first = lowest.min(900) / 100 * 100;
    let last = highest
        .div_ceil(100)
        .saturating_mul(100)
        .max(first.saturating_add(100));
    let span = last.saturating_sub(first);
    Side {
        first,
        scale: Scale {
            last: span,
            length: FRAME.up,
        },
        marks: marks_within(Unit::Things, span / 10, 5),
        unit: 10,
    }
}

// Evictions from none on.
fn evictions_up(points: &[Point]) -> Side {
    let mut most = 0u64;
    for point in points {
        most = most.max(point.counts.evictions);
    }
    let marks = marks_over(Unit::Things, most, 4);
    Side {
        first: 0,
        scale: Scale {
            last: marks.step.saturating_mul(marks.count),
            length: FRAME.up,
        },
        marks,
        unit: 1,
    }
}

/// A picture of a curve.
#[derive(Clone, Copy)]
struct Curve<'a> {
    setting: Varied,
    shown: Shown,
    points: &'a [Point],
    across: Side,
    up: Side,
}

impl<'a> Curve<'a> {
    fn x(&self, value: u64) -> u32 {
        FRAME.left.saturating_add(self.across.at(value))
    }

    fn y(&self, value: u64) -> u32 {
        FRAME.bottom.saturating_sub(self.up.at(value))
    }

    // Puts a line across at a mark, and its number beside it.
    fn put_level(&self, out: &mut Vec<u8>, i: u64) -> Result<(), AllocError> {
        let value = self.up.mark(i);
        let y = self.y(value);
        put(
            out,
            &[
                Markup("<path class=\""),
                Markup(if i == 0 { "axis" } else { "grid" }),
                Markup("\" d=\"M"),
                Tenths(FRAME.left),
                Markup(" "),
                Tenths(y),
                Markup("H"),
                Tenths(FRAME.left.saturating_add(FRAME.across)),
                Markup("\"/><text text-anchor=\"end\" x=\""),
                Tenths(FRAME.left.saturating_sub(60)),
                Markup("\" y=\""),
                Tenths(y.saturating_add(45)),
                Markup("\">"),
            ],
        )?;
        match self.shown {
            Shown::Share => put_per_cent(out, value.min(1000) as u32)?,
            Shown::Evictions => put(out, &[Count(value)])?,
        }
        put(out, &[Markup("</text>")])
    }

    // Puts a tick below the line at a mark, with its value.
    fn put_tick(&self, out: &mut Vec<u8>, i: u64) -> Result<(), AllocError> {
        let value = self.across.mark(i);
        let x = self.x(value);
        put(
            out,
            &[
                Markup("<path class=\"axis\" d=\"M"),
                Tenths(x),
                Markup(" "),
                Tenths(FRAME.bottom),
                Markup("v4\"/><text text-anchor=\"middle\" x=\""),
                Tenths(x),
                Markup("\" y=\""),
                Tenths(FRAME.bottom.saturating_add(FRAME.line)),
                Markup("\">"),
            ],
        )?;
        put_thousandths(out, value)?;
        put(out, &[Markup("</text>")])
    }

    fn put_marks(&self, out: &mut Vec<u8>) -> Result<(), AllocError> {
        for i in 0..=self.up.marks.count {
            self.put_level(out, i)?;
        }
        for i in 0..=self.across.marks.count {
            self.put_tick(out, i)?;
        }
        put(
            out,
            &[
                Markup("<text text-anchor=\"middle\" x=\""),
                Tenths(FRAME.left.saturating_add(FRAME.across / 2)),
                Markup("\" y=\""),
                Tenths(FRAME.bottom.saturating_add(FRAME.line.saturating_mul(2))),
                Markup("\">"),
                Markup(axis_name(self.setting)),
                Markup("</text>"),
            ],
        )
    }

    // Puts a line through all points.
    fn put_line(&self, out: &mut Vec<u8>) -> Result<(), AllocError> {
        put(out, &[Markup("<path class=\"curve\" d=\"")])?;
        for (i, point) in self.points.iter().enumerate() {
            put(
                out,
                &[
                    Markup(if i == 0 { "M" } else { "L" }),
                    Tenths(self.x(point.at)),
                    Markup(" "),
                    Tenths(self.y(point.shown(self.shown))),
                ],
            )?;
        }
        put(out, &[Markup("\"/>")])
    }

    // Puts the points, each as a disc, the trace's own one as a diamond.
    fn put_points(&self, out: &mut Vec<u8>, is_own: bool) -> Result<(), AllocError> {
        for point in self.points {
            if point.is_own == is_own {
                let (x, y) = (self.x(point.at), self.y(point.shown(self.shown)));
                put_point(out, x, y, is_own)?;
            }
        }
        Ok(())
    }

    fn put(&self, out: &mut Vec<u8>) -> Result<(), AllocError> {
        put(out, &[Markup("<svg viewBox=\"0 0 520 248\" role=\"img\">")])?;
        self.put_marks(out)?;
        self.put_line(out)?;
        self.put_points(out, false)?;
        self.put_points(out, true)?;
        put(out, &[Markup("</svg>")])
    }
}

fn put_point(out: &mut Vec<u8>, x: u32, y: u32, is_own: bool) -> Result<(), AllocError> {
    if is_own {
        put(
            out,
            &[
                Markup("<path class=\"own\" d=\"M"),
                Tenths(x),
                Markup(" "),
                Tenths(y.saturating_sub(70)),
                Markup("l7 7l-7 7l-7 -7z\"/>"),
            ],
        )
    } else {
        put(
            out,
            &[
                Markup("<circle class=\"dot\" cx=\""),
                Tenths(x),
                Markup("\" cy=\""),
                Tenths(y),
                Markup("\" r=\"3.5\"/>"),
            ],
        )
    }
}

// Ends a caption: says which point is the trace's own, if one is.
fn put_own(out: &mut Vec<u8>, points: &[Point]) -> Result<(), AllocError> {
    if points.iter().any(|point| point.is_own) {
        put(out, &[Markup("; the diamond is this trace")])?;
    }
    put(out, &[Markup(".</figcaption></figure>")])
}

/// Puts the curve of the look-ups that hit.
pub fn put_shares(out: &mut Vec<u8>, setting: Varied, points: &[Point]) -> Result<(), AllocError> {
    let curve = Curve {
        setting,
        shown: Shown::Share,
        points,
        across: across(setting, points),
        up: shares_up(points),
    };
    put(out, &[Markup("<figure><h4>Hit share</h4>")])?;
    curve.put(out)?;
    put(
        out,
        &[Markup("<figcaption>How many of a hundred look-ups hit")],
    )?;
    if curve.up.first > 0 {
        put(out, &[Markup(", from ")])?;
        put_per_cent(out, curve.up.first.min(1000) as u32)?;
        put(out, &[Markup(" up")])?;
    }
    put_own(out, points)
}

/// Puts the curve of evictions.
pub fn put_evictions(
    out: &mut Vec<u8>,
    setting: Varied,
    points: &[Point],
) -> Result<(), AllocError> {
    let curve = Curve {
        setting,
        shown: Shown::Evictions,
        points,
        across: across(setting, points),
        up: evictions_up(points),
    };
    put(out, &[Markup("<figure><h4>Evictions</h4>")])?;
    curve.put(out)?;
    put(
        out,
        &[Markup("<figcaption>How many keys were evicted, by a set or by the page mover")],
    )?;
    put_own(out, points)
}
