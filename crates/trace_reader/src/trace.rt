//! A whole trace, kept by columns of memory that grows.
use crate::{Header, Row};
use frac128::Memory;
use std::alloc::Global;
use std::marker::Model;

/// A header and its rows.
#[derive(Drop)]
pub struct Trace {
    header: Header,
    times: Vec<u32>,
    values: Vec<i32>,
}

impl Model for Trace {
    ghost use Rattle.stl_syntax.specs.Trace.{Trace as Recorded};

    ghost Value = { Recorded };

    ghost use Rattle.trace_reader.specs.Trace.{trace_of, IsKept};

    ghost view = { trace_of };

    ghost invariant = { IsKept };
}

ghost use Rattle.std.specs.Prelude.{◌≡◌, ◌≤◌, ◌+◌, ◌++◌, length, take, drop, vec_len, vec_capacity};

/// Adds values for which there is room, one by one: rows are short.
#[inline(always)]
fn add_all(values: &mut Vec<i32>, more: &[i32])
    requires { vec_len values.old + length more.now ≤ vec_capacity values.old }
    ensures { values.new.items ≡ values.old.items ++ more.now }
{
    for value in more {
        values.push_reserved(*value);
    }
}

/// The `count` values from the place `from` on.
#[inline(always)]
fn values_at(values: &[i32], from: usize, count: usize) -> &[i32]
    requires { from + count ≤ length values.now }
    ensures { result.now ≡ take count (drop from values.now) }
{
    let rest = &values[from..];
    &rest[..count]
}

/// Lets go of the elements before a place.
#[inline(always)]
fn let_go_before<T: Copy + Drop>(items: &mut Vec<T>, at: usize)
    requires { at ≤ vec_len items.old }
    ensures { items.new.items ≡ drop at items.old.items }
{
    let len = items.len();
    items.copy_within(at..len, 0);
    items.truncate(len - at);
}

impl Trace {
    ghost use Rattle.std.specs.Prelude.{◌≡◌, ◌<◌, ◌≤◌, ◌-◌, ◌++◌, ◌∷◌, [], List, length, drop, nat_abs, slice_index_or, OnOk, OnErr};
    ghost use Rattle.stl_syntax.specs.Trace.{Row as Values, value, last_time, IsTrace};

    /// The trace of a header, before any row.
    pub fn new(alloc: Global, header: Header) -> Trace
        ensures { result ≡ record { header = header; rows = [] } }
    {
        Trace {
            header,
            times: Vec::new(alloc),
            values: Vec::new(alloc),
        }
    }

    /// Adds a row with as many values as the header has columns, later than the rows before it.
    ///
    /// # Errors
    ///
    /// `Memory` where memory is wanting; the rows stay as they were.
    #[inline(always)]
    pub fn push(&mut self, row: &Row) -> Result<(), Memory>
        requires width { length row.now.values ≡ length self.old.header.columns }
        requires later { 0 < length self.old.rows → last_time 0 self.old.rows < row.now.time }
        ensures ok { OnOk result (self.new ≡ record self.old { rows = self.old.rows ++ row.now ∷ [] }) }
        ensures err { OnErr result (self.new ≡ self.old) }
    {
        let values = row.values();
        self.values.try_reserve(values.len())?;
        self.times.push(row.time())?;
        add_all(&mut self.values, values);
        Ok(())
    }

    /// How many rows there are.
    pub fn rows(&self) -> usize
        ensures count { result ≡ length self.now.rows }
        ensures trace { 0 < result → IsTrace self.now }
    {
        self.times.len()
    }

    /// The time of a row; rows are counted from 0.
    pub fn time(&self, r: usize) -> u32
        requires { r < length self.now.rows }
        ensures { (d : Values) → result ≡ (slice_index_or self.now.rows r d).time }
    {
        self.times[r]
    }

    /// The value of a column in a row; both are counted from 0.
    pub fn value(&self, r: usize, c: usize) -> i32
        requires row { r < length self.now.rows }
        requires column { c < length self.now.header.columns }
        ensures at { (d : Values) → result ≡ value (slice_index_or self.now.rows r d) c }
        ensures small { nat_abs result ≤ 16777216 }
    {
        let at = r * self.header.columns() + c;
        self.values[at]
    }

    /// Copies a row over another one of this trace's width; rows are counted from 0.
    pub fn copy_row(&self, r: usize, row: &mut Row)
        requires within { r < length self.now.rows }
        requires width { length row.old.values ≡ length self.now.header.columns }
        ensures row { (d : Values) → row.new ≡ slice_index_or self.now.rows r d }
        ensures trace { IsTrace self.now }
    {
        let columns = self.header.columns();
        let from = r * columns;
        row.replace(self.times[r], values_at(&self.values, from, columns));
    }

    /// Copies the last row of the trace into `row`.
    pub(crate) fn copy_last(&self, row: &mut Row)
        requires some { 0 < length self.now.rows }
        requires narrow { length self.now.header.columns ≤ 64 }
        ensures { (before : List Values) (r : Values) → self.now.rows ≡ before ++ r ∷ [] → row.new ≡ r }
    {
        let last = self.times.len() - 1;
        let from = last * self.header.columns();
        row.set(self.times[last], &self.values[from..]);
    }

    /// Lets go of all rows but the last.
    pub fn keep_last(&mut self)
        ensures { self.new ≡ record self.old { rows = drop (length self.old.rows - 1) self.old.rows } }
    {
        let rows = self.times.len();
        if rows < 2 {
            return;
        }
        let before = rows - 1;
        let_go_before(&mut self.values, before * self.header.columns());
        let_go_before(&mut self.times, before);
    }

    /// The columns of the trace.
    pub fn header(&self) -> &Header
        ensures { result.now ≡ self.now.header }
    {
        &self.header
    }
}
