//! What the words ask for.
ghost use Rattle.std.specs.Prelude.{◌≡◌, ◌≤◌, ℕ, map, string_bytes, MatchOption};
ghost use Rattle.command_line.specs.Commands.{on_formula, generate, verb_word};
ghost use Rattle.command_line.specs.Numerals.{IsNumberWord};
ghost use Rattle.command_line.specs.Words.{AreOfNoFormula, IsAsked, verb_of};

/// The commands that hold the whole trace.
#[derive(Clone, Copy)]
pub enum Command {
    Check,
    Robust,
    Explain,
    Json,
    Table,
}

/// How a formula is answered: over the whole trace, row by row, or for several sessions in one input.
#[derive(Clone, Copy)]
pub enum Mode {
    Whole(Command),
    Watch,
    Early,
    Mux,
    Margins,
}

/// How to answer, and the text of the formula.
#[derive(Clone, Copy)]
pub struct Task<'a> {
    pub mode: Mode,
    pub text: &'a str,
}

/// A trace to be generated: its number, and how many rows it has.
#[derive(Clone, Copy)]
pub struct Workload {
    pub number: u64,
    pub rows: u32,
}

/// What the word of a command asks for.
fn named(word: &str) -> Option<Mode>
    ensures { MatchOption result ((m : Mode) → word.now ≡ verb_word (verb_of m) → ⊥)
        (λ m. word.now ≡ verb_word (verb_of m)) }
{
    match word {
        "check" => Some(Mode::Whole(Command::Check)),
        "watch" => Some(Mode::Watch),
        "early" => Some(Mode::Early),
        "rwatch" => Some(Mode::Margins),
        "robust" => Some(Mode::Whole(Command::Robust)),
        "explain" => Some(Mode::Whole(Command::Explain)),
        "json" => Some(Mode::Whole(Command::Json)),
        "table" => Some(Mode::Whole(Command::Table)),
        "mux" => Some(Mode::Mux),
        _ => None,
    }
}

/// What the words ask for, exactly where they are of the form of a formula.
pub fn asked(words: &[String]) -> Option<Task<'_>>
    ensures { MatchOption result (AreOfNoFormula (map string_bytes words.now))
        (λ a. IsAsked (map string_bytes words.now) (on_formula (verb_of a.mode) a.text.now)) }
{
    match words {
        [form, formula] => match named(form.as_str()) {
            Some(mode) => Some(Task {
                mode,
                text: formula.as_str(),
            }),
            None => None,
        },
        _ => None,
    }
}

/// The number that the bytes are, digits alone, where it is at most `most`.
fn numeral(bytes: &[u8], most: u64) -> Option<u64>
    ensures { MatchOption result ((n : ℕ) → ¬ IsNumberWord most bytes.now n) (IsNumberWord most bytes.now) }
{
    if bytes.is_empty() {
        return None;
    }
    let mut value = 0u64;
    for i in 0..bytes.len() {
        let byte = bytes[i];
        if byte < b'0' || byte > b'9' {
            return None;
        }
        let longer = u128::from(value) * 10 + u128::from(byte - b'0');
        if longer > u128::from(most) {
            return None;
        }
        value = longer as u64;
    }
    Some(value)
}

/// The trace that the words ask to generate, exactly where they are of that form.
pub fn workload_of(words: &[String]) -> Option<Workload>
    ensures { MatchOption result ((number rows : ℕ) → ¬ IsAsked (map string_bytes words.now) (generate number rows))
        (λ w. IsAsked (map string_bytes words.now) (generate w.number w.rows) × (1 ≤ w.rows) × (w.rows ≤ 200000)) }
{
    match words {
        [form, number, rows] if form.as_str() == "gen" => {
            let number = numeral(number.as_bytes(), u64::MAX)?;
            let rows = numeral(rows.as_bytes(), 200_000)?;
            if rows == 0 {
                return None;
            }
            Some(Workload {
                number,
                rows: rows as u32,
            })
        }
        _ => None,
    }
}
