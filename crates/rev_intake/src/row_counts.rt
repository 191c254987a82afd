//! What became of the rows of traces.
ghost use Rattle.std.specs.Prelude.{◌≡◌};
ghost use Rattle.rev_intake.specs.Rows.{counted_operation, counted_late, counted_by, no_rows};

use crate::counts::add;
use rev_trace::row::Operation;

/// What became of the rows of traces. Each count stays at the most that 64 bits hold.
#[derive(Clone, Copy, Debug, PartialEq, Eq)]
pub struct RowCounts {
    /// Rows of keys that the sample takes.
    pub asked: u64,
    /// Rows of other keys.
    pub left_out: u64,
    /// Rows that are asked for with an earlier second than one before them: the clock stays where it is.
    pub late: u64,
    /// Rows that are asked for, by their operation.
    pub get: u64,
    pub gets: u64,
    pub set: u64,
    pub add: u64,
    pub replace: u64,
    pub cas: u64,
    pub append: u64,
    pub prepend: u64,
    pub delete: u64,
    pub increment: u64,
    pub decrement: u64,
    /// Rows of an operation that is not known: they make no line.
    pub unknown: u64,
}

impl RowCounts {
    /// No row was read.
    pub fn none() -> RowCounts
        ensures { result ≡ no_rows }
    {
        RowCounts {
            asked: 0,
            left_out: 0,
            late: 0,
            get: 0,
            gets: 0,
            set: 0,
            add: 0,
            replace: 0,
            cas: 0,
            append: 0,
            prepend: 0,
            delete: 0,
            increment: 0,
            decrement: 0,
            unknown: 0,
        }
    }

    fn count_late(&mut self, is_late: bool)
        ensures { self.new ≡ counted_late is_late self.old }
    {
        if is_late {
            add(&mut self.late, 1);
        }
    }

    /// One more row that is asked for.
    pub fn count(&mut self, operation: Operation, is_late: bool)
        ensures { self.new ≡ counted_by is_late operation self.old }
    {
        add(&mut self.asked, 1);
        self.count_late(is_late);
        self.count_operation(operation);
    }

    fn count_operation(&mut self, operation: Operation)
        ensures { self.new ≡ counted_operation operation self.old }
    {
        match operation {
            Operation::Get => add(&mut self.get, 1),
            Operation::Gets => add(&mut self.gets, 1),
            Operation::Set => add(&mut self.set, 1),
            Operation::Add => add(&mut self.add, 1),
            Operation::Replace => add(&mut self.replace, 1),
            Operation::Cas => add(&mut self.cas, 1),
            Operation::Append => add(&mut self.append, 1),
            Operation::Prepend => add(&mut self.prepend, 1),
            Operation::Delete => add(&mut self.delete, 1),
            Operation::Increment => add(&mut self.increment, 1),
            Operation::Decrement => add(&mut self.decrement, 1),
            Operation::Unknown => add(&mut self.unknown, 1),
        }
    }
}
