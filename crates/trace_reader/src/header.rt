//! A header: its columns and its ticks.
ghost use Rattle.std.specs.Prelude.{◌≡◌, ◌≤◌, [], length, vec_len, vec_capacity};
ghost use Rattle.std.specs.String.{string_bytes, string_capacity};

use frac128::Memory;
use std::alloc::Global;
use std::marker::Model;
use stl_syntax::Scale;

/// A column's name, and whether its values are steps.
#[derive(Drop)]
pub(crate) struct Label {
    name: String,
    step: bool,
}

/// The columns beside the time, and the ticks in which times and values are counted.
#[derive(Drop)]
pub struct Header {
    alloc: Global,
    labels: Vec<Label>,
    scale: Scale,
}

impl Model for Header {
    ghost use Rattle.stl_syntax.specs.Trace.{Header as Columns};

    ghost Value = { Columns };

    ghost use Rattle.trace_reader.specs.Labels.{columns_of};

    ghost view = { columns_of };
}

impl Label {
    ghost use Rattle.std.specs.Prelude.{◌≡◌, IfOk};
    ghost use Rattle.trace_reader.specs.Labels.{column_of};
    ghost use Rattle.std.specs.Prelude.{bytes_eq};

    /// A column with that name.
    pub(crate) fn new(name: String, step: bool) -> Label
        ensures { column_of result ≡ record { name = string_bytes name; step = step } }
    {
        Label { name, step }
    }

    /// Whether the column has that name.
    pub(crate) fn is_named(&self, name: &[u8]) -> bool
        ensures { result ≡ bytes_eq name.now (column_of self.now).name }
    {
        self.name.as_bytes() == name
    }

    fn copy(&self, alloc: Global) -> Result<Label, Memory>
        ensures { IfOk result (λ l. column_of l ≡ column_of self.now) }
    {
        Ok(Label {
            name: String::from_str(alloc, self.name.as_str())?,
            step: self.step,
        })
    }
}

impl Header {
    ghost use Rattle.std.specs.Prelude.{◌≡◌, ◌<◌, length, map, IfOk, slice_index_or};
    ghost use Rattle.stl_syntax.specs.Trace.{Column};
    ghost use Rattle.trace_reader.specs.Labels.{column_of};

    /// A header of these columns.
    pub(crate) fn of(alloc: Global, labels: Vec<Label>, scale: Scale) -> Header
        ensures { result ≡ record { columns = map column_of labels.items; scale = scale } }
    {
        Header {
            alloc,
            labels,
            scale,
        }
    }

    /// How many columns there are beside the time.
    pub fn columns(&self) -> usize
        ensures { result ≡ length self.now.columns }
    {
        self.labels.len()
    }

    /// The name of a column; columns are counted from 0.
    pub fn name(&self, i: usize) -> &str
        requires { i < length self.now.columns }
        ensures { (d : Column) → result.now ≡ (slice_index_or self.now.columns i d).name }
    {
        let label = &self.labels[i];
        label.name.as_str()
    }

    /// Whether a column's values are steps; else they are ramps.
    pub fn step(&self, i: usize) -> bool
        requires { i < length self.now.columns }
        ensures { (d : Column) → result ≡ (slice_index_or self.now.columns i d).step }
    {
        let label = &self.labels[i];
        label.step
    }

    /// The ticks in which times and values are counted.
    pub fn scale(&self) -> Scale
        ensures { result ≡ self.now.scale }
    {
        self.scale
    }

    /// A copy of the header, in memory of its own.
    ///
    /// # Errors
    ///
    /// `Memory` where memory is wanting.
    pub fn copy(&self) -> Result<Header, Memory>
        ensures { IfOk result (λ h. h ≡ self.now) }
    {
        let mut labels = Vec::with_capacity(self.alloc, self.labels.len())?;
        for label in &self.labels {
            labels.push(label.copy(self.alloc)?)?;
        }
        Ok(Header {
            alloc: self.alloc,
            labels,
            scale: self.scale,
        })
    }
}
