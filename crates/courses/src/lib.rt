//! What a since is on a gap on which both of its sides are affine: its course, for whatever goes from gap to gap.
#![tactic(auto)]

mod course;

pub use course::{Course, Gap, Meet, course_over, is_under, limit_of, point, turning};
