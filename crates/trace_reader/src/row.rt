//! A row: a time and a value for each column, in ticks.
use frac128::Memory;
use std::marker::Model;

/// The most columns that a trace has beside the time.
pub(crate) const MOST_COLUMNS: usize = 64;

/// The largest size of a value.
pub(crate) const LARGEST: u32 = 16_777_216;

/// A time, and a value for each column, in ticks.
#[derive(Drop)]
pub struct Row {
    time: u32,
    columns: usize,
    values: [i32; 64],
}

impl Model for Row {
    ghost use Rattle.std.specs.Prelude.{◌≤◌, take, nat_abs, All};
    ghost use Rattle.stl_syntax.specs.Trace.{Row as Values};

    ghost Value = { Values };

    ghost view = { λ a. record { time = a.time; values = take a.columns a.values } };

    ghost invariant = { λ a. (a.columns ≤ 64) × All (λ v. nat_abs v ≤ 16777216) (take a.columns a.values) };
}

impl Row {
    ghost use Rattle.std.specs.Prelude.{◌≡◌, ◌<◌, ◌≤◌, ◌++◌, ◌∷◌, [], length, nat_abs, pos, slice_index_or, All, IfOk};

    /// A row at time 0 without values.
    pub(crate) fn new() -> Row
        ensures { result ≡ record { time = 0; values = [] } }
    {
        Row {
            time: 0,
            columns: 0,
            values: [0; 64],
        }
    }

    /// Begins a row at that time, without values.
    pub(crate) fn begin(&mut self, time: u32)
        ensures { self.new ≡ record { time = time; values = [] } }
    {
        self.time = time;
        self.columns = 0;
    }

    /// Adds the value of the next column.
    pub(crate) fn add(&mut self, value: i32)
        requires room { length self.old.values < 64 }
        requires small { nat_abs value ≤ 16777216 }
        ensures { self.new ≡ record self.old { values = self.old.values ++ value ∷ [] } }
    {
        self.values[self.columns] = value;
        self.columns += 1;
    }

    /// The time of the row.
    pub fn time(&self) -> u32
        ensures { result ≡ self.now.time }
    {
        self.time
    }

    /// How many values the row has.
    pub fn columns(&self) -> usize
        ensures { result ≡ length self.now.values }
    {
        self.columns
    }

    /// The value of a column; columns are counted from 0.
    pub fn value(&self, i: usize) -> i32
        requires { i < length self.now.values }
        ensures at { result ≡ slice_index_or self.now.values i (pos 0) }
        ensures small { nat_abs result ≤ 16777216 }
    {
        let values = self.values();
        values[i]
    }

    /// The values, one for each column.
    pub(crate) fn values(&self) -> &[i32]
        ensures value { result.now ≡ self.now.values }
        ensures small { All (λ v. nat_abs v ≤ 16777216) result.now }
    {
        &self.values[..self.columns]
    }

    /// Sets the time and the values.
    pub(crate) fn set(&mut self, time: u32, values: &[i32])
        requires room { length values.now ≤ 64 }
        requires small { All (λ v. nat_abs v ≤ 16777216) values.now }
        ensures { self.new ≡ record { time = time; values = values.now } }
    {
        let columns = values.len();
        self.time = time;
        self.columns = columns;
        self.values[..columns].copy_from_slice(values);
    }

    /// Sets the time and as many values as there are.
    pub(crate) fn replace(&mut self, time: u32, values: &[i32])
        requires width { length values.now ≡ length self.old.values }
        requires small { All (λ v. nat_abs v ≤ 16777216) values.now }
        ensures { self.new ≡ record { time = time; values = values.now } }
    {
        let columns = values.len();
        self.time = time;
        self.columns = columns;
        self.values[..columns].copy_from_slice(values);
    }

    /// Takes over the time and the values of another row.
    pub fn take_over(&mut self, other: &Row)
        ensures { self.new ≡ other.now }
    {
        let columns = other.columns;
        self.time = other.time;
        self.columns = columns;
        self.values[..columns].copy_from_slice(&other.values[..columns]);
    }

    /// A copy of the row, in memory of its own.
    ///
    /// # Errors
    ///
    /// `Memory` where memory is wanting.
    pub fn copy(&self) -> Result<Row, Memory>
        ensures { IfOk result (λ r. r ≡ self.now) }
    {
        Ok(Row {
            time: self.time,
            columns: self.columns,
            values: self.values,
        })
    }
}
