//! A picture's frame, and what is drawn in it: columns on one another, and marks.

use crate::words::{Clock, put_clock};
use rev_markup::markup::Piece::{Count, Markup, Tenths};
use rev_markup::markup::put;
use rev_markup::scale::{Frame, Marks, Scale, Unit, marks_over, marks_within};
use rev_markup::units::put_round_bytes;
use std::alloc::AllocError;

/// The most numbers that stand on one another.
pub const MOST_SERIES: usize = 8;

/// A part of the trace, and what is drawn of it.
#[derive(Clone, Copy)]
pub struct Column {
    /// How many steps stand before it, and up to its end.
    pub from: u64,
    pub to: u64,
    pub values: [u64; MOST_SERIES],
}

impl Column {
    // How high the first so many numbers stand on one another.
    fn height(&self, series: usize) -> u64 {
        let mut height = 0u64;
        for value in self.values.iter().take(series) {
            height = height.saturating_add(*value);
        }
        height
    }
}

/// A picture of numbers along the steps of a trace.
#[derive(Clone, Copy)]
pub struct Plot {
    frame: Frame,
    across: Scale,
    up: Scale,
    marks: Marks,
    unit: Unit,
}

impl Plot {
    /// A picture for so many steps and numbers of up to so many.
    pub fn new(frame: Frame, steps: u64, most: u64, unit: Unit) -> Plot {
        let marks = marks_over(unit, most, 4);
        Plot {
            frame,
            across: Scale {
                last: steps,
                length: frame.across,
            },
            up: Scale {
                last: marks.step.saturating_mul(marks.count),
                length: frame.up,
            },
            marks,
            unit,
        }
    }

    /// Where so many steps lie.
    pub fn x(&self, steps: u64) -> u32 {
        self.frame.left.saturating_add(self.across.at(steps))
    }

    /// How high a number lies.
    pub fn y(&self, value: u64) -> u32 {
        self.frame.bottom.saturating_sub(self.up.at(value))
    }

    fn right(&self) -> u32 {
        self.frame.left.saturating_add(self.frame.across)
    }

    fn top(&self) -> u32 {
        self.frame.bottom.saturating_sub(self.frame.up)
    }

    // Puts a line across at a number, and the number beside it.
    fn put_level(&self, out: &mut Vec<u8>, value: u64) -> Result<(), AllocError> {
        let y = self.y(value);
        let class = if value == 0 { "axis" } else { "grid" };
        put(
            out,
            &[
                Markup("<path class=\""),
                Markup(class),
                Markup("\" d=\"M"),
                Tenths(self.frame.left),
                Markup(" "),
                Tenths(y),
                Markup("H"),
                Tenths(self.right()),
                Markup("\"/><text text-anchor=\"end\" x=\""),
                Tenths(self.frame.left.saturating_sub(60)),
                Markup("\" y=\""),
                Tenths(y.saturating_add(45)),
                Markup("\">"),
            ],
        )?;
        match self.unit {
            Unit::Things => put(out, &[Count(value)])?,
            Unit::Bytes => put_round_bytes(out, value, self.marks.step)?,
        }
        put(out, &[Markup("</text>")])
    }

    // Puts a tick below the line at so many steps, with their number, and below it the clock where there is one to
    // tell.
    fn put_tick(
        &self,
        out: &mut Vec<u8>,
        steps: u64,
        clock: Option<Clock<'_>>,
    ) -> Result<(), AllocError> {
        let (x, bottom) = (self.x(steps), self.frame.bottom);
        put(
            out,
            &[
                Markup("<path class=\"axis\" d=\"M"),
                Tenths(x),
                Markup(" "),
                Tenths(bottom),
                Markup("v4\"/><text text-anchor=\"middle\" x=\""),
                Tenths(x),
                Markup("\" y=\""),
                Tenths(bottom.saturating_add(self.frame.line)),
                Markup("\">"),
                Count(steps),
                Markup("</text>"),
            ],
        )?;
        let Some(clock) = clock else {
            return Ok(());
        };
        put(
            out,
            &[
                Markup("<text class=\"clock\" text-anchor=\"middle\" x=\""),
                Tenths(x),
                Markup("\" y=\""),
                Tenths(bottom.saturating_add(self.frame.line.saturating_mul(2))),
                Markup("\">"),
            ],
        )?;
        put_clock(out, clock, steps)?;
        put(out, &[Markup("</text>")])
    }

    /// Puts ticks below the line, at most so many beside the first.
    pub fn put_ticks(
        &self,
        out: &mut Vec<u8>,
        most: u64,
        clock: Option<Clock<'_>>,
    ) -> Result<(), AllocError> {
        let marks = marks_within(Unit::Things, self.across.last, most);
        for i in 0..=marks.count {
            self.put_tick(out, marks.step.saturating_mul(i), clock)?;
        }
        Ok(())
    }

    /// Puts the lines across, with their numbers.
    pub fn put_levels(&self, out: &mut Vec<u8>) -> Result<(), AllocError> {
        for i in 0..=self.marks.count {
            self.put_level(out, self.marks.step.saturating_mul(i))?;
        }
        Ok(())
    }

    // Puts the edge of the first so many series, from the first column to the last.
    fn put_upper(
        &self,
        out: &mut Vec<u8>,
        columns: &[Column],
        series: usize,
    ) -> Result<(), AllocError> {
        for column in columns {
            put(
                out,
                &[
                    Markup("V"),
                    Tenths(self.y(column.height(series))),
                    Markup("H"),
                    Tenths(self.x(column.to)),
                ],
            )?;
        }
        Ok(())
    }

    // Puts the edge of the first so many series, from the last column back to the first.
    fn put_lower(
        &self,
        out: &mut Vec<u8>,
        columns: &[Column],
        series: usize,
    ) -> Result<(), AllocError> {
        for column in columns.iter().rev() {
            put(
                out,
                &[
                    Markup("V"),
                    Tenths(self.y(column.height(series))),
                    Markup("H"),
                    Tenths(self.x(column.from)),
                ],
            )?;
        }
        Ok(())
    }

    // Puts the area of a series, on top of those before it.
    fn put_area(
        &self,
        out: &mut Vec<u8>,
        columns: &[Column],
        series: usize,
        fill: &'static str,
    ) -> Result<(), AllocError> {
        put(
            out,
            &[
                Markup("<path fill=\""),
                Markup(fill),
                Markup("\" d=\"M"),
                Tenths(self.frame.left),
                Markup(" "),
                Tenths(self.frame.bottom),
            ],
        )?;
        self.put_upper(out, columns, series.saturating_add(1))?;
        self.put_lower(out, columns, series)?;
        put(out, &[Markup("z\"/>")])
    }

    /// Puts each series that is not all zero, on top of those before it, with its fill.
    pub fn put_columns(
        &self,
        out: &mut Vec<u8>,
        columns: &[Column],
        fills: &[&'static str],
    ) -> Result<(), AllocError> {
        for (series, fill) in fills.iter().enumerate() {
            if has_series(columns, series) {
                self.put_area(out, columns, series, *fill)?;
            }
        }
        Ok(())
    }

    // Puts a line from bottom to top at so many steps.
    fn put_rule(&self, out: &mut Vec<u8>, x: u32) -> Result<(), AllocError> {
        put(
            out,
            &[
                Markup("M"),
                Tenths(x),
                Markup(" "),
                Tenths(self.top()),
                Markup("V"),
                Tenths(self.frame.bottom),
            ],
        )
    }

    /// Puts a line from bottom to top for each of the places, in one path of a class.
    pub fn put_rules(
        &self,
        out: &mut Vec<u8>,
        class: &'static str,
        places: &[u64],
    ) -> Result<(), AllocError> {
        if places.is_empty() {
            return Ok(());
        }
        put(
            out,
            &[Markup("<path class=\""), Markup(class), Markup("\" d=\"")],
        )?;
        let mut last = None;
        for place in places {
            let x = self.x(*place);
            if last != Some(x) {
                self.put_rule(out, x)?;
            }
            last = Some(x);
        }
        put(out, &[Markup("\"/>")])
    }
}

/// Whether a series has a number that is not zero.
pub fn has_series(columns: &[Column], series: usize) -> bool {
    columns.iter().any(|column| column.values.get(series).copied().unwrap_or(0) > 0)
}

/// The highest of the columns.
pub fn highest(columns: &[Column]) -> u64 {
    let mut highest = 0u64;
    for column in columns {
        highest = highest.max(column.height(MOST_SERIES));
    }
    highest
}
