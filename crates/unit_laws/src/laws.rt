//! Laws of units. Each is the contract of a call that does nothing, so that the gate proves it.
ghost use Rattle.unit_laws.specs.Origins.{TruthMoves, RobustnessMoves, VerdictsMove, KnotsMove, TextsMove, ExplanationsMove};
ghost use Rattle.unit_laws.specs.StreamOrigins.{StreamsMove};
ghost use Rattle.unit_laws.specs.Streams.{StreamsAreKept, StreamsOweOneText, EarlyIsOfUnits, MarginsAreOfUnits, WatchIsOfUnits, ReadStreamsAreOfUnits};
ghost use Rattle.unit_laws.specs.Units.{TruthIsOfUnits, RobustnessIsOfUnits, RobustIsOfUnits, TableIsOfUnits, TextsAreKept};
ghost use Rattle.unit_laws.specs.Units.{TruthTurnsAtFractions, LawOfUnits, ExplainIsOfUnits, JsonIsOfUnits, ReadTextsAreOfUnits, CheckWritesOneText};

use stl_syntax::Formula;

/// The truth of a formula at a time does not depend on the ticks in which times and values are counted.
pub fn truth_is_of_units()
    ensures { TruthIsOfUnits }
{}

/// The robustness of a formula at a time is, in smaller ticks, as many times larger as a value is.
pub fn robustness_is_of_units()
    ensures { RobustnessIsOfUnits }
{}

/// Smaller ticks change no text of `robust`.
pub fn robust_is_of_units()
    ensures { RobustIsOfUnits }
{}

/// Smaller ticks change no text of `table`.
pub fn table_is_of_units()
    ensures { TableIsOfUnits }
{}

/// What `check`, `robust`, `explain`, `json` and `table` write they write in smaller ticks too.
pub fn texts_are_kept()
    ensures { TextsAreKept }
{}

/// What `watch`, `early` and `rwatch` owe for the rows of a trace, and for its end, they owe in smaller ticks too.
pub fn streams_are_kept()
    ensures { StreamsAreKept }
{}

/// Where `watch`, `early` or `rwatch` owes something in both ticks it is one text.
pub fn streams_owe_one_text()
    ensures { StreamsOweOneText }
{}

/// Smaller ticks change no text that `early` owes.
pub fn early_is_of_units()
    ensures { EarlyIsOfUnits }
{}

/// Smaller ticks change no text that `rwatch` owes.
pub fn margins_are_of_units()
    ensures { MarginsAreOfUnits }
{}

/// Smaller ticks change no text that `watch` owes, for a formula and rows within the limits.
pub fn watch_is_of_units()
    ensures { WatchIsOfUnits }
{}

/// For every formula and each trace that is read for it what `watch`, `early` and `rwatch` owe is the same in all ticks.
pub fn read_streams_are_of_units(formula: &Formula)
    ensures { ReadStreamsAreOfUnits formula.now }
{
    let _count = formula.len();
}

/// The truth of a formula over rows within the limits turns only at times that are fractions with a denominator of at most 2^31: the
/// crossings of its atoms, moved by whole ticks.
pub fn truth_turns_at_fractions()
    ensures { TruthTurnsAtFractions }
{}

/// Smaller ticks change no text of `check` and of `robust`, for a formula and rows within the limits.
pub fn texts_are_of_units()
    ensures { LawOfUnits }
{}

/// Smaller ticks change no text of `explain`, for a formula and rows within the limits.
pub fn explain_is_of_units()
    ensures { ExplainIsOfUnits }
{}

/// Smaller ticks change no text of `json`, for a formula and rows within the limits.
pub fn json_is_of_units()
    ensures { JsonIsOfUnits }
{}

/// For every formula and each trace that is read for it, whatever its bytes, each command that holds the whole trace writes the same in all
/// ticks.
pub fn read_texts_are_of_units(formula: &Formula)
    ensures { ReadTextsAreOfUnits formula.now }
{
    let _count = formula.len();
}

/// Where `check` writes something in both ticks it is one text, whatever the formula and the trace.
pub fn check_writes_one_text()
    ensures { CheckWritesOneText }
{}

/// Where all times of a trace are so many ticks later, a formula holds as many ticks later.
pub fn truth_moves()
    ensures { TruthMoves }
{}

/// Where all times of a trace are so many ticks later, a formula has the same robustness as many ticks later.
pub fn robustness_moves()
    ensures { RobustnessMoves }
{}

/// The verdicts of the later trace are those of the trace, with both ends of each as many ticks later.
pub fn verdicts_move()
    ensures { VerdictsMove }
{}

/// The knots of the later trace are those of the trace, as many ticks later with the same values.
pub fn knots_move()
    ensures { KnotsMove }
{}

/// What explains the formula on the later trace is what explains it on the trace, as many ticks later.
pub fn explanations_move()
    ensures { ExplanationsMove }
{}

/// What `check`, `robust`, `explain`, `json` and `table` write of the later trace is what they tell of the trace, with each time as many
/// ticks later.
pub fn texts_move()
    ensures { TextsMove }
{}

/// What `watch`, `early` and `rwatch` owe for the rows of the later trace is what they owe for those of the trace, with each time as
/// many ticks later.
pub fn streams_move()
    ensures { StreamsMove }
{}
