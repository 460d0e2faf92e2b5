//! Tests of the program over devices that fail or have too little room, and over inputs that end after each byte, used from outside through
//! its contracts alone. What each command answers stands in `conformance`.
#![tactic(auto)]

#[cfg(test)]
mod device_tests;
#[cfg(test)]
mod expecting;
