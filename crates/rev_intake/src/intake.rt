//! Logs taken in line by line, and the script that they become sent out piece by piece.
ghost use Rattle.std.specs.Prelude.{◌≡◌, ◌++◌, ◌∷◌, ◌-◌, [], length, IfOk, IfErr, OnOk};
ghost use Rattle.std.specs.Io.KnownBytes.{Appends};
ghost use Rattle.rev_watch.specs.Window.{empty_window, put_of};
ghost use Rattle.rev_intake.specs.Counting.{more, no_counts, counted_put};
ghost use Rattle.rev_intake.specs.Events.{is_asked, given_of, held_in};
ghost use Rattle.rev_intake.specs.Sending.{Sends, Passes, Stops};
ghost use Rattle.rev_intake.specs.Splitting.{start_ended, split_off, lines_of_start};

use crate::counts::{LineCounts, add};
use crate::fault::IntakeFault;
use crate::outlet::{Outlet, is_due};
use rev_choices::{Rhythm, Sample};
use rev_import::figures::Figures;
use rev_import::import::Import;
use rev_import::sample::takes_event;
use rev_import::setup::{Setup, put_setup};
use rev_output::write_all;
use rev_script::source::Source;
use rev_watch::event::{Line, LogLine};
use rev_watch::reader::{LogReader, NextLine};
use rev_watch::window::{Put, Window};
use std::alloc::{AllocError, Allocator};
use std::marker::Model;

/// As soon as so many bytes of the script are at hand, they are sent (this project's own figure).
pub const PIECE: usize = 65536;

/// The events that are asked for: from the first second to the last one, by the Unix clock, of the keys that a sample
/// takes or of none.
#[derive(Clone, Copy, Debug, PartialEq, Eq)]
pub struct Range {
    pub first: u32,
    pub last: u32,
    pub sample: Sample,
}

impl Range {
    // Whether a second is one of them.
    fn has(self, seconds: u32) -> bool
        ensures { result ≡ is_asked self seconds }
    {
        self.first <= seconds && seconds <= self.last
    }
}

/// Logs that become a script. Memory is taken for the events that the window and the import hold back, for the keys
/// that the server holds, and for a piece of the script.
#[derive(Drop)]
pub struct Intake<A: Allocator> {
    alloc: A,
    range: Range,
    window: Window<LogLine<A>, A>,
    import: Import<A>,
    // what is written of the script and not yet sent
    out: Vec<u8, A>,
    counts: LineCounts,
    // the second in front of which the start ends, where it is to end and has not
    split: Option<u32>,
    // the lines of the start, once it has ended
    start_lines: u64,
}

impl<A: Allocator> Model for Intake<A> {
    ghost use Rattle.rev_intake.specs.Intake.{PlainIntake};

    ghost Value = { PlainIntake A };

    ghost view = { λ i. record { range = i.range; window = i.window; waiting = i.import.waiting; waits = i.out.items; counts = i.counts; figures = i.import.figures; split = i.split; start_lines = i.start_lines } };
}

impl<A: Allocator + Copy> Intake<A> {
    ghost use Rattle.rev_intake.specs.Intake.{Rests, Takes, Ends, StopsEnding};
    ghost use Rattle.rev_intake.specs.Logs.{TakesLog, Spoils};

    /// No log was taken in. The script begins with the lines that this setup asks for. With `split` it begins with a
    /// start, which ends in front of this second, by the Unix clock.
    ///
    /// Err: memory was refused.
    pub fn open(
        alloc: A,
        setup: Setup,
        rhythm: Rhythm,
        range: Range,
        split: Option<u32>,
    ) -> Result<Intake<A>, AllocError>
        ensures range { IfOk result (λ intake. intake.range ≡ range) }
        ensures window { IfOk result (λ intake. intake.window ≡ empty_window) }
        ensures waiting { IfOk result (λ intake. intake.waiting ≡ []) }
        ensures counts { IfOk result (λ intake. intake.counts ≡ no_counts) }
        ensures split { IfOk result (λ intake. intake.split ≡ split) }
    {
        let mut out = Vec::new(alloc);
        put_setup(&mut out, &setup)?;
        let Setup { classes, .. } = setup;
        Ok(Intake {
            alloc,
            range,
            window: Window::new(alloc),
            import: Import::new(alloc, classes, rhythm),
            out,
            counts: LineCounts::none(),
            split,
            start_lines: 0,
        })
    }

    /// Sends what is at hand of the script.
    pub(crate) fn send<K: Outlet>(&mut self, sink: &mut K) -> Result<(), IntakeFault>
        ensures sent { OnOk result (Appends (K.contents sink.old) (K.contents sink.new) self.old.waits) }
        ensures none_failed { OnOk result (K.failures sink.new ≡ K.failures sink.old) }
        ensures rest { OnOk result (self.new ≡ record self.old { waits = [] }) }
        ensures err { IfErr result (λ e. Stops (K.failures sink.old) (K.failures sink.new) e) }
    {
        write_all(sink, self.out.as_slice())?;
        self.out.clear();
        Ok(())
    }

    // Sends what is at hand of the script, where it is enough.
    fn send_piece<K: Outlet>(&mut self, sink: &mut K) -> Result<(), IntakeFault>
        ensures sends { OnOk result (Sends self.old.waits self.new.waits [] (K.contents sink.old) (K.contents sink.new) (K.failures sink.old) (K.failures sink.new)) }
        ensures rest { OnOk result (self.new ≡ record self.old { waits = self.new.waits }) }
        ensures err { IfErr result (λ e. Stops (K.failures sink.old) (K.failures sink.new) e) }
    {
        if self.out.len() < PIECE {
            Ok(())
        } else {
            self.send(sink)
        }
    }

    // Sends what is at hand, which is the rest of the start, and ends it.
    fn end_start<K: Outlet>(&mut self, sink: &mut K) -> Result<(), IntakeFault>
        ensures sends { OnOk result (Sends self.old.waits [] [] (K.contents sink.old) (K.contents sink.new) (K.failures sink.old) (K.failures sink.new)) }
        ensures ended { OnOk result (self.new ≡ start_ended self.old) }
        ensures err { IfErr result (λ e. Stops (K.failures sink.old) (K.failures sink.new) e) }
    {
        self.send(sink)?;
        sink.end_start();
        self.split = None;
        self.start_lines = self.import.figures().lines;
        Ok(())
    }

    // Ends the start where it ends in front of the event that waits longest.
    fn split_off<K: Outlet>(&mut self, sink: &mut K) -> Result<(), IntakeFault>
        ensures sends { OnOk result (Sends self.old.waits self.new.waits [] (K.contents sink.old) (K.contents sink.new) (K.failures sink.old) (K.failures sink.new)) }
        ensures split { OnOk result (self.new ≡ split_off self.old) }
        ensures waiting { OnOk result (self.new.waiting ≡ self.old.waiting) }
        ensures rest { OnOk result (Rests self.old self.new) }
        ensures err { IfErr result (λ e. Stops (K.failures sink.old) (K.failures sink.new) e) }
    {
        if is_due(self.split, self.import.first_second()) {
            self.end_start(sink)
        } else {
            Ok(())
        }
    }

    // Takes in an event that the window gave out. The start does not end in front of what is written.
    fn take_behind<K: Outlet>(&mut self, line: LogLine<A>, sink: &mut K) -> Result<(), IntakeFault>
        ensures passes { OnOk result (Passes (self.old.waiting ++ line ∷ []) self.new.waiting self.old.waits self.new.waits (K.contents sink.old) (K.contents sink.new) (K.failures sink.old) (K.failures sink.new)) }
        ensures rest { OnOk result (Rests self.old self.new) }
        ensures err { IfErr result (λ e. Stops (K.failures sink.old) (K.failures sink.new) e) }
    {
        self.import.take(line, &mut self.out)?;
        self.send_piece(sink)
    }

    // Takes in an event that the window gave out.
    fn take<K: Outlet>(&mut self, line: LogLine<A>, sink: &mut K) -> Result<(), IntakeFault>
        ensures passes { OnOk result (Passes (self.old.waiting ++ line ∷ []) self.new.waiting self.old.waits self.new.waits (K.contents sink.old) (K.contents sink.new) (K.failures sink.old) (K.failures sink.new)) }
        ensures rest { OnOk result (Rests self.old self.new) }
        ensures err { IfErr result (λ e. Stops (K.failures sink.old) (K.failures sink.new) e) }
    {
        self.split_off(sink)?;
        self.take_behind(line, sink)
    }

    // Takes in an event that is asked for.
    fn put<K: Outlet>(&mut self, line: LogLine<A>, sink: &mut K) -> Result<(), IntakeFault>
        ensures range { OnOk result (self.new.range ≡ self.old.range) }
        ensures window { OnOk result (self.new.window ≡ (put_of self.old.window line.gid line).0) }
        ensures counts { OnOk result (self.new.counts ≡ counted_put (put_of self.old.window line.gid line).1 (record self.old.counts { asked = more self.old.counts.asked 1 })) }
        ensures passes { OnOk result (Passes (self.old.waiting ++ given_of (put_of self.old.window line.gid line).1) self.new.waiting self.old.waits self.new.waits (K.contents sink.old) (K.contents sink.new) (K.failures sink.old) (K.failures sink.new)) }
        ensures err { IfErr result (λ e. Stops (K.failures sink.old) (K.failures sink.new) e) }
    {
        add(&mut self.counts.asked, 1);
        match self.window.put(line.gid, line)? {
            Put::Held => Ok(()),
            Put::Given(_, line) => self.take(line, sink),
            Put::Late => {
                add(&mut self.counts.late, 1);
                Ok(())
            }
            Put::Repeated => {
                add(&mut self.counts.repeated, 1);
                Ok(())
            }
        }
    }

    // Takes in a line of a log.
    fn take_line<K: Outlet>(&mut self, line: Line<A>, sink: &mut K) -> Result<(), IntakeFault>
        ensures takes { OnOk result (Takes self.old self.new (line ∷ []) (K.contents sink.old) (K.contents sink.new) (K.failures sink.old) (K.failures sink.new)) }
        ensures err { IfErr result (λ e. Stops (K.failures sink.old) (K.failures sink.new) e) }
    {
        add(&mut self.counts.lines, 1);
        match line {
            Line::Log(line) => {
                if self.range.has(line.time.seconds) {
                    if takes_event(self.range.sample, &line.event) {
                        self.put(line, sink)
                    } else {
                        add(&mut self.counts.other_keys, 1);
                        drop(line);
                        Ok(())
                    }
                } else {
                    add(&mut self.counts.left_out, 1);
                    drop(line);
                    Ok(())
                }
            }
            Line::Skipped(lines) => {
                add(&mut self.counts.skipped, lines);
                Ok(())
            }
            Line::Other => {
                add(&mut self.counts.other, 1);
                Ok(())
            }
        }
    }

    /// Takes in the lines of a log, behind those of the logs before it, and sends the script as far as it is known.
    ///
    /// Err: memory was refused; a read or a write failed; a line that begins like one of the log is none; or there are
    /// more lines than can be counted. The intake is no longer of use.
    pub fn take_log<S: Source, K: Outlet>(
        &mut self,
        log: &mut LogReader<S>,
        sink: &mut K,
    ) -> Result<(), IntakeFault>
        ensures ok { OnOk result (TakesLog S.told log.old log.new self.old self.new (K.contents sink.old) (K.contents sink.new) (K.failures sink.old) (K.failures sink.new)) }
        ensures err { IfErr result (λ e. Spoils A S.told log.old log.new (K.failures sink.old) (K.failures sink.new) e) }
    {
        'lines: loop {
            if log.lines() >= u64::MAX {
                return Err(IntakeFault::TooLong);
            }
            match log.next(self.alloc)? {
                None => return Ok(()),
                Some(NextLine::CutOff) => {
                    add(&mut self.counts.lines, 1);
                    add(&mut self.counts.cut_off, 1);
                    return Ok(());
                }
                Some(NextLine::Whole(line)) => self.take_line(line, sink)?,
            }
        }
    }

    // Takes in what the window holds.
    fn empty_window<K: Outlet>(&mut self, sink: &mut K) -> Result<(), IntakeFault>
        ensures passes { OnOk result (Passes (self.old.waiting ++ held_in self.old.window) self.new.waiting self.old.waits self.new.waits (K.contents sink.old) (K.contents sink.new) (K.failures sink.old) (K.failures sink.new)) }
        ensures counts { OnOk result (self.new.counts ≡ self.old.counts) }
        ensures err { IfErr result (λ e. Stops (K.failures sink.old) (K.failures sink.new) e) }
    {
        'held: loop {
            match self.window.pop() {
                None => return Ok(()),
                Some(first) => self.take(first.1, sink)?,
            }
        }
    }

    // Writes the lines of the event that waits longest, where any does.
    fn send_first<K: Outlet>(&mut self, sink: &mut K) -> Result<(), IntakeFault>
        ensures passes { OnOk result (Passes self.old.waiting self.new.waiting self.old.waits self.new.waits (K.contents sink.old) (K.contents sink.new) (K.failures sink.old) (K.failures sink.new)) }
        ensures fewer { OnOk result (length self.new.waiting ≡ length self.old.waiting - 1) }
        ensures counts { OnOk result (self.new.counts ≡ self.old.counts) }
        ensures err { IfErr result (λ e. Stops (K.failures sink.old) (K.failures sink.new) e) }
    {
        self.import.write_first(&mut self.out)?;
        self.send_piece(sink)
    }

    // Writes the lines of the events that wait.
    fn empty_import<K: Outlet>(&mut self, sink: &mut K) -> Result<(), IntakeFault>
        ensures passes { OnOk result (Passes self.old.waiting [] self.old.waits self.new.waits (K.contents sink.old) (K.contents sink.new) (K.failures sink.old) (K.failures sink.new)) }
        ensures counts { OnOk result (self.new.counts ≡ self.old.counts) }
        ensures err { IfErr result (λ e. Stops (K.failures sink.old) (K.failures sink.new) e) }
    {
        for _ in 0..self.import.waiting() {
            self.split_off(sink)?;
            self.send_first(sink)?;
        }
        Ok(())
    }

    /// Sends the rest of the script, behind the last log.
    ///
    /// Err: no event was asked for, and nothing is sent; memory was refused; or a write failed.
    pub fn finish<K: Outlet>(&mut self, sink: &mut K) -> Result<(), IntakeFault>
        ensures ok { OnOk result (Ends self.old self.new (K.contents sink.old) (K.contents sink.new) (K.failures sink.old) (K.failures sink.new)) }
        ensures err { IfErr result (λ e. StopsEnding self.old (K.contents sink.old) (K.contents sink.new) (K.failures sink.old) (K.failures sink.new) e) }
    {
        if self.counts.asked == 0 {
            return Err(IntakeFault::NoEvent);
        }
        self.empty_window(sink)?;
        self.empty_import(sink)?;
        self.send(sink)
    }

    /// Takes in the next line of a log, if there is one, as `take_log` does. The answer is whether there may be more.
    pub(crate) fn take_next<S: Source, K: Outlet>(
        &mut self,
        log: &mut LogReader<S>,
        sink: &mut K,
    ) -> Result<bool, IntakeFault> {
        if log.lines() >= u64::MAX {
            return Err(IntakeFault::TooLong);
        }
        match log.next(self.alloc)? {
            None => Ok(false),
            Some(NextLine::CutOff) => {
                add(&mut self.counts.lines, 1);
                add(&mut self.counts.cut_off, 1);
                Ok(false)
            }
            Some(NextLine::Whole(line)) => {
                self.take_line(line, sink)?;
                Ok(true)
            }
        }
    }

    /// Behind the last log, takes in the next event that is held back, or writes the lines of one that waits, as
    /// `finish` does with all. The answer is whether there may be more.
    pub(crate) fn take_held<K: Outlet>(&mut self, sink: &mut K) -> Result<bool, IntakeFault> {
        let has_asked = self.counts.asked > 0;
        if !has_asked {
            return Err(IntakeFault::NoEvent);
        }
        if let Some(first) = self.window.pop() {
            self.take(first.1, sink)?;
            return Ok(true);
        }
        self.split_off(sink)?;
        self.import.write_first(&mut self.out)?;
        Ok(self.import.waiting() > 0)
    }

    /// The event whose lines are written next, where any waits.
    pub(crate) fn first(&self) -> Option<&LogLine<A>> {
        self.import.first()
    }

    /// What became of the lines so far.
    pub fn counts(&self) -> LineCounts
        ensures { result ≡ self.now.counts }
    {
        self.counts
    }

    /// How many lines of events stand in the start so far, all of them where it has not ended. Each makes one step.
    pub fn start_lines(&self) -> u64
        ensures { result ≡ lines_of_start self.now }
    {
        match self.split {
            Some(_) => self.import.figures().lines,
            None => self.start_lines,
        }
    }

    /// What the import counted so far.
    pub fn figures(&self) -> Figures
        ensures { result ≡ self.now.figures }
    {
        self.import.figures()
    }
}
