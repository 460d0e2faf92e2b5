//! How truths and margins go over gaps and rows, as values.
ghost use Rattle.std.specs.Prelude.{◌<◌};

use value_laws::Margin;

/// A time in ticks, `floor + rest / den`, in no lowest terms.
#[derive(Clone, Copy)]
pub struct Crossing {
    /// The whole ticks of the time: the last tick that is not after it.
    pub floor: u32,
    /// How many parts of a tick the time lies above them.
    pub rest: u32,
    /// How many parts a tick has.
    pub den: u32,
    pub ghost below: { rest < den },
}

/// How an atom's truth goes over the open gap between two rows.
#[derive(Clone, Copy)]
pub enum Passage {
    /// One truth on the whole gap.
    Steady(bool),
    /// The truth is `before` up to the time `at`, and the other one from there on. At that time it is `before` where `after` is true.
    Turns {
        before: bool,
        at: Crossing,
        after: bool,
    },
}

/// How an atom's truth goes from a row of a trace to a later one: it stays what it is at the first up to the row before the last, and
/// then takes the last gap.
#[derive(Clone, Copy)]
pub struct Way {
    /// The row at which the way ends.
    pub row: usize,
    /// How far the atom's sum lies above its constant there.
    pub sum: i64,
    /// How its truth goes over the gap before that row.
    pub passage: Passage,
    /// The atom's truth at that row.
    pub last: bool,
}

/// A place at which a truth turns.
#[derive(Clone, Copy)]
pub struct Turning {
    /// The time just before or just after which the truth turns.
    pub at: Crossing,
    /// Whether it turns just after that time, and not just before it.
    pub after: bool,
}

/// How an atom's truth goes from a row of a trace to a later one, by where it turns: it stays what it is at the first up to the row before
/// the last, may turn once on the gap behind that row, and may turn once more at the last.
#[derive(Clone, Copy)]
pub struct Leg {
    /// The row at which the leg ends.
    pub row: usize,
    /// How far the atom's sum lies above its constant there.
    pub sum: i64,
    /// Where its truth turns on the gap before that row, if it does: no earlier than right behind the gap's begin.
    pub turn: Option<Turning>,
    /// Whether its truth at that row is another one than just before it.
    pub jumps: bool,
}

/// How an atom's margin goes from a row of a trace to a later one: along one line, or as one constant.
#[derive(Clone, Copy)]
pub struct MarginWay {
    /// The row at which the way ends.
    pub row: usize,
    /// How far the atom's sum lies above its constant there.
    pub sum: i64,
    /// The atom's margin from the first row on, up to just before the last.
    pub margin: Margin,
}
