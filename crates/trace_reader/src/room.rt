//! Memory that is reserved for a header before it is read.
ghost use Rattle.std.specs.Prelude.{◌≡◌, ◌≤◌, [], vec_len};
ghost use Rattle.std.specs.String.{string_bytes, string_capacity};

use crate::Header;
use crate::header::Label;
use crate::name::LONGEST_NAME;
use crate::row::MOST_COLUMNS;
use frac128::Memory;
use std::alloc::Global;
use std::marker::Model;
use stl_syntax::Scale;

/// Memory for the name of a column.
#[derive(Drop)]
struct NameRoom {
    text: String,
    ghost room: { 64 ≤ string_capacity text },
    ghost empty: { string_bytes text ≡ [] },
}

impl NameRoom {
    ghost use Rattle.std.specs.Prelude.{length};
    ghost use Rattle.std.specs.Str.{IsAscii};

    fn new(alloc: Global) -> Result<NameRoom, Memory> {
        Ok(NameRoom {
            text: String::with_capacity(alloc, LONGEST_NAME)?,
        })
    }

    /// The name, without taking memory.
    fn fill(self, name: &[u8]) -> String
        requires short { length name.now ≤ 64 }
        requires ascii { IsAscii name.now }
        ensures { string_bytes result ≡ name.now }
    {
        let NameRoom { mut text } = self;
        match std::str::from_utf8(name) {
            Ok(name) => match text.push_str(name) {
                Ok(()) => {}
                Err(_) => unreachable!(),
            },
            Err(_) => unreachable!(),
        }
        text
    }
}

/// Memory for a heading of up to 64 columns, and the columns that were read of one.
#[derive(Drop)]
pub(crate) struct HeadingRoom {
    alloc: Global,
    spare: Vec<NameRoom>,
    labels: Vec<Label>,
    digits: Vec<u8>,
}

impl Model for HeadingRoom {
    ghost use Rattle.trace_reader.specs.Headings.{Opened, opened_of, IsRoom};

    ghost Value = { Opened };

    ghost view = { opened_of };

    ghost invariant = { IsRoom };
}

impl HeadingRoom {
    ghost use Rattle.std.specs.Prelude.{◌<◌, ◌++◌, ◌∷◌, length, map, IfOk};
    ghost use Rattle.stl_syntax.specs.Characters.{is_among};
    ghost use Rattle.stl_syntax.specs.Trace.{Column};
    ghost use Rattle.trace_reader.specs.TraceText.{IsName, scale_of};

    /// No column yet; all memory is reserved.
    pub(crate) fn new(alloc: Global) -> Result<HeadingRoom, Memory>
        ensures { IfOk result (λ r. r ≡ record { columns = []; digits = [] }) }
    {
        let mut spare = Vec::with_capacity(alloc, MOST_COLUMNS)?;
        for _name in 0..MOST_COLUMNS {
            spare.push(NameRoom::new(alloc)?)?;
        }
        Ok(HeadingRoom {
            alloc,
            spare,
            labels: Vec::with_capacity(alloc, MOST_COLUMNS)?,
            digits: Vec::with_capacity(alloc, MOST_COLUMNS)?,
        })
    }

    /// Whether a column has the name.
    pub(crate) fn has(&self, name: &[u8]) -> bool
        ensures { result ≡ is_among name.now (map (λ (k : Column). k.name) self.now.columns) }
    {
        for label in &self.labels {
            if label.is_named(name) {
                return true;
            }
        }
        false
    }

    /// Adds a column, without taking memory.
    pub(crate) fn add(&mut self, name: &[u8], step: bool, digits: u8)
        requires some { length self.old.columns < 64 }
        requires name { IsName name.now }
        requires digits { digits ≤ 6 }
        ensures { self.new ≡ record {
          columns = self.old.columns ++ record { name = name.now; step = step } ∷ [];
          digits = self.old.digits ++ digits ∷ [];
        } }
    {
        let Some(room) = self.spare.pop() else {
            unreachable!()
        };
        match self.labels.push(Label::new(room.fill(name), step)) {
            Ok(()) => {}
            Err(_) => unreachable!(),
        }
        match self.digits.push(digits) {
            Ok(()) => {}
            Err(_) => unreachable!(),
        }
    }

    /// The heading of these columns with so many decimals of time, in ticks that have them all and those of `least`.
    pub(crate) fn heading(self, time: u8, least: Scale) -> Heading
        requires time { time ≤ 6 }
        requires least { (least.time ≤ 6) × (least.value ≤ 6) }
        ensures heading { result.heading ≡ record { time_digits = time; columns = self.columns; digits = self.digits } }
        ensures scale { result.scale ≡ scale_of least result.heading }
    {
        let HeadingRoom {
            alloc,
            spare: _spare,
            labels,
            digits,
        } = self;
        let value = greatest(least.value, digits.as_slice());
        let scale = Scale {
            time: time.max(least.time),
            value,
        };
        Heading {
            header: Header::of(alloc, labels, scale),
            time,
            digits,
        }
    }
}

ghost use Rattle.std.specs.Prelude.{◌∷◌, All};
ghost use Rattle.trace_reader.specs.TraceText.{greatest as greatest_of};

/// The greatest of the numbers and `least`.
fn greatest(least: u8, numbers: &[u8]) -> u8
    requires least { least ≤ 6 }
    requires numbers { All (λ n. n ≤ 6) numbers.now }
    ensures value { result ≡ greatest_of least numbers.now }
    ensures small { result ≤ 6 }
    ensures all { All (λ n. n ≤ result) numbers.now }
{
    let mut most = least;
    for n in numbers {
        most = most.max(*n);
    }
    most
}

/// A header, and how many decimals the numbers of each of its fields may have.
#[derive(Drop)]
pub(crate) struct Heading {
    header: Header,
    time: u8,
    digits: Vec<u8>,
}

impl Model for Heading {
    ghost use Rattle.trace_reader.specs.Headings.{Scaled, scaled_of, IsScaled};

    ghost Value = { Scaled };

    ghost view = { scaled_of };

    ghost invariant = { IsScaled };
}

impl Heading {
    ghost use Rattle.std.specs.Prelude.{length};

    /// How many columns there are beside the time.
    pub(crate) fn columns(&self) -> usize
        ensures value { result ≡ length self.now.heading.columns }
        ensures most { result ≤ 64 }
    {
        self.digits.len()
    }

    /// The ticks in which times and values are counted.
    pub(crate) fn scale(&self) -> Scale
        ensures value { result ≡ self.now.scale }
        ensures small { (result.time ≤ 6) × (result.value ≤ 6) }
    {
        self.header.scale()
    }

    /// How many decimals a time may have.
    pub(crate) fn time_digits(&self) -> u8
        ensures value { result ≡ self.now.heading.time_digits }
        ensures most { result ≤ self.now.scale.time }
    {
        self.time
    }

    /// How many decimals the values of each column may have.
    pub(crate) fn digits(&self) -> &[u8]
        ensures value { result.now ≡ self.now.heading.digits }
        ensures most { All (λ n. n ≤ self.now.scale.value) result.now }
        ensures width { length result.now ≡ length self.now.heading.columns }
        ensures few { length result.now ≤ 64 }
    {
        self.digits.as_slice()
    }

    /// The header that the heading is of.
    pub(crate) fn header(&self) -> &Header
        ensures { result.now ≡ record { columns = self.now.heading.columns; scale = self.now.scale } }
    {
        &self.header
    }
}
