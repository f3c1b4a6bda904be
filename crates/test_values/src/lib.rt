//! Tests of values that cross crates below the program, through public items alone, and of a log that nobody has read yet.
#![tactic(auto)]

#[cfg(test)]
mod log_queue;
#[cfg(test)]
mod values;
