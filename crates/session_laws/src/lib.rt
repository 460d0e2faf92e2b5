//! Laws of several sessions in one input: what each is told is what it would be told alone, its bench hears it, and one text is owed.
#![tactic(auto)]

pub mod laws;
