//! The rows that are told of a table: the names with most evictions, all others in one row, and the total.
ghost use Rattle.std.specs.Prelude.{◌≡◌, ◌++◌, ◌∷◌, [], IfOk, OnOk, drop};
ghost use Rattle.std.specs.List.Sorted.{IsPermutation, IsNonDecreasingBy};
ghost use Rattle.rev_top.specs.Rows as rule;

use crate::figures::Figures;
use crate::lifetimes::Lifetimes;
use crate::table::Table;
use std::alloc::{AllocError, Allocator};

/// What a row is of.
#[derive(Clone, Copy)]
pub enum Name<'a> {
    /// The keys of a prefix; the empty one is of keys without a byte that ends one.
    Prefix(&'a [u8]),
    /// The keys of a slab class; none is of look-ups of which the log tells no class.
    Class(Option<usize>),
    /// The keys of all names that are not told.
    Others,
    /// All keys.
    Total,
}

/// A row, with the median of the microseconds that what was evicted had lived.
#[derive(Clone, Copy)]
pub struct Row<'a> {
    pub name: Name<'a>,
    pub figures: Figures,
    pub lived: Option<u64>,
}

// The class whose number is the only byte of a name.
fn class_in(name: &[u8]) -> Option<usize>
    ensures { result ≡ rule.class_in name.now }
{
    match name.first() {
        Some(0) | None => None,
        Some(class) => Some(*class as usize),
    }
}

// What a name of a table stands for.
fn named(name: &[u8], by_class: bool) -> Name<'_>
    ensures { rule.IsNamed by_class name.now result }
{
    if by_class {
        Name::Class(class_in(name))
    } else {
        Name::Prefix(name)
    }
}

// The rows of all names.
fn all_rows<'a, A: Allocator + Copy>(
    alloc: A,
    table: &'a Table<A>,
    lifetimes: &Lifetimes<A>,
    by_class: bool,
) -> Result<Vec<Row<'a>, A>, AllocError>
    ensures { IfOk result (λ rows. rule.AreRows by_class table.now.rows.entries rows.items) }
{
    let mut rows = Vec::new(alloc);
    for place in 0..table.rows.len() {
        match table.rows.get_index(place) {
            Some((name, figures)) => rows.push(Row {
                name: named(name.as_slice(), by_class),
                figures: *figures,
                lived: lifetimes.of(name.as_slice()),
            })?,
            None => break,
        }
    }
    Ok(rows)
}

// Brings rows into order: those with most evictions first, and of those that have as many, those with most stores.
fn arrange<A: Allocator>(rows: &mut Vec<Row<'_>, A>) -> Result<(), AllocError>
    ensures same { OnOk result (IsPermutation rows.old.items rows.new.items) }
    ensures falling { OnOk result (IsNonDecreasingBy rule.below_most rows.new.items) }
{
    rows.sort_by_key(|row| u64::MAX - row.figures.stores)?;
    rows.sort_by_key(|row| u64::MAX - row.figures.evictions)?;
    Ok(())
}

// The sums of rows, and of these figures.
fn sums(rows: &[Row<'_>], others: Figures) -> Figures
    ensures { result ≡ rule.sums rows.now others }
{
    let mut all = others;
    for row in rows {
        all = all.plus(row.figures);
    }
    all
}

// The rows behind so many.
fn behind<'a, 'b>(rows: &'b [Row<'a>], most: usize) -> &'b [Row<'a>]
    ensures { result.now ≡ drop most rows.now }
{
    if most < rows.len() {
        &rows[most..]
    } else {
        &[]
    }
}

// Puts the row of the others, where anything happened to them.
fn put_others<A: Allocator>(rows: &mut Vec<Row<'_>, A>, others: Figures) -> Result<(), AllocError>
    ensures { OnOk result (rows.new.items ≡ rows.old.items ++ rule.other_rows others) }
{
    if others.is_nothing() {
        return Ok(());
    }
    rows.push(Row {
        name: Name::Others,
        figures: others,
        lived: None,
    })?;
    Ok(())
}

// Puts the row of the total.
fn put_total<A: Allocator>(
    rows: &mut Vec<Row<'_>, A>,
    total: Figures,
    lived: Option<u64>,
) -> Result<(), AllocError>
    ensures { OnOk result (rows.new.items ≡ rows.old.items ++ rule.total_row total lived ∷ []) }
{
    rows.push(Row {
        name: Name::Total,
        figures: total,
        lived,
    })?;
    Ok(())
}

/// Leaves at most so many rows, and puts behind them that of all others, where anything happened to them, with these
/// figures too, and that of the total.
///
/// Err: memory was refused.
pub fn cut<A: Allocator>(
    rows: &mut Vec<Row<'_>, A>,
    most: usize,
    others: Figures,
    total: Figures,
    lived: Option<u64>,
) -> Result<(), AllocError>
    ensures { OnOk result (rows.new.items ≡ rule.cut rows.old.items most others total lived) }
{
    let others = sums(behind(rows.as_slice(), most), others);
    rows.truncate(most);
    put_others(rows, others)?;
    put_total(rows, total, lived)
}

/// The rows that are told of a table: at most so many names, those with most evictions first, and of those that have as
/// many, those with most stores; the others, where there are any; and the total.
///
/// Err: memory was refused.
pub fn rows_of<'a, A: Allocator + Copy>(
    alloc: A,
    table: &'a Table<A>,
    lifetimes: &Lifetimes<A>,
    by_class: bool,
    most: usize,
) -> Result<Vec<Row<'a>, A>, AllocError>
    ensures { IfOk result (λ rows. rule.AreTold by_class table.now.rows.entries table.now.others table.now.total most rows.items) }
{
    let mut rows = all_rows(alloc, table, lifetimes, by_class)?;
    arrange(&mut rows)?;
    cut(
        &mut rows,
        most,
        table.others,
        table.total,
        lifetimes.of_all(),
    )?;
    Ok(rows)
}
