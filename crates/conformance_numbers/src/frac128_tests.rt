//! Values that were worked out elsewhere, at the limits above all.
mod fractions;
mod ramps;
mod spans;
mod times;
