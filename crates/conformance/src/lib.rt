//! Tests of the program in worked cases: what the commands answer, its refusals and its limits, used from outside through its contracts
//! alone. Those of answers that come row by row or line by line stand in `conformance_rows`, of devices that fail in `conformance_devices`, and
//! those of calls that the program does not run in `conformance_numbers`, `conformance_texts` and `conformance_streams`; the built program
//! stands beside a plain model in `tools/tests/test_commands.py`.
#![tactic(auto)]

#[cfg(test)]
mod expecting;
#[cfg(test)]
mod gen_tests;
#[cfg(test)]
mod limit_tests;
#[cfg(test)]
mod margin_tests;
#[cfg(test)]
mod reason_tests;
#[cfg(test)]
mod refusal_tests;
#[cfg(test)]
mod run_tests;
