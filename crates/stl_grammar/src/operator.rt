//! The operators of a formula: how tightly they bind, and what bound they take.
ghost use Rattle.std.specs.Prelude.{◌≡◌, ◌<◌};
ghost use Rattle.stl_grammar.specs.Operators.{binds, left_binds, is_beside as stands_beside, looks_back as turns_back, may_be_open as may_be_out};

/// An operator between two operands that has no bound.
#[derive(Clone, Copy)]
pub(crate) enum Connective {
    And,
    Or,
    Implies,
}

/// An operator that has a bound: `until` and `since` stand beside an operand, the others before one.
#[derive(Clone, Copy)]
pub(crate) enum Timed {
    Until,
    Since,
    Eventually,
    Always,
    Once,
    Historically,
}

impl Connective {
    /// How tightly the connective binds: one of a higher rank takes its operands first.
    pub(crate) fn rank(self) -> u8
        ensures { result ≡ binds self }
    {
        match self {
            Connective::Implies => 1,
            Connective::Or => 2,
            Connective::And => 3,
        }
    }

    /// How tightly what stands on its left binds at least; `implies` groups to the right.
    pub(crate) fn left_rank(self) -> u8
        ensures value { result ≡ left_binds self }
        ensures some { 0 < result }
    {
        match self {
            Connective::Implies | Connective::Or => 2,
            Connective::And => 3,
        }
    }
}

impl Timed {
    /// Whether it stands beside an operand.
    pub(crate) fn is_beside(self) -> bool
        ensures { result ≡ stands_beside self }
    {
        match self {
            Timed::Until | Timed::Since => true,
            _ => false,
        }
    }

    /// Whether it looks back: its bound may be left out, and may have no upper end.
    pub(crate) fn looks_back(self) -> bool
        ensures { result ≡ turns_back self }
    {
        match self {
            Timed::Since | Timed::Once | Timed::Historically => true,
            _ => false,
        }
    }

    /// Whether the ends of its bound may be out.
    pub(crate) fn may_be_open(self) -> bool
        ensures { result ≡ may_be_out self }
    {
        match self {
            Timed::Until | Timed::Since => false,
            _ => true,
        }
    }
}
