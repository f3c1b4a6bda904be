//! Tests that cross crates, through public items alone.
#![tactic(auto)]

#[cfg(test)]
mod fault_texts;
#[cfg(test)]
mod faults;
#[cfg(test)]
mod kit;
#[cfg(test)]
mod word_rows;
#[cfg(test)]
mod words;
#[cfg(test)]
mod worlds;
