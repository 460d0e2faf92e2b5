//! How an atom compares.
/// How an atom compares its sum with its constant.
#[derive(Clone, Copy, Debug, PartialEq, Eq)]
pub enum Rel {
    AtLeast,
    Above,
    AtMost,
    Below,
}
