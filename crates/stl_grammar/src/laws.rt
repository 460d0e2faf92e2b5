//! Laws of the grammar. Each is the contract of a call that does nothing, so that the gate proves it.
ghost use Rattle.stl_grammar.specs.Laws.{OneFormula, OneRefusal, PrintedTextsAreFormulas, PrintedTextsAreRead, ReadScalesAreLeast};

/// A text is that of at most one formula.
pub fn one_formula()
    ensures { OneFormula }
{}

/// A text has at most one first refusal.
pub fn one_refusal()
    ensures { OneRefusal }
{}

/// The ticks of a formula that was read are as coarse as its numbers allow.
pub fn read_scales_are_least()
    ensures { ReadScalesAreLeast }
{}

/// The printed text of a formula, in ticks that are as coarse as its numbers allow, is a text of that formula; by the law of
/// one formula, of no other.
pub fn printed_texts_are_read()
    ensures { PrintedTextsAreRead }
{}

/// The printed text of a formula, in ticks that are as coarse as its numbers allow, is refused only as too long (more than 8192
/// bytes) or too deep (more than 64 parentheses and operators pending). So `parse` gives that formula back, or says that its text
/// passes one of these two limits.
pub fn printed_texts_are_formulas()
    ensures { PrintedTextsAreFormulas }
{}
