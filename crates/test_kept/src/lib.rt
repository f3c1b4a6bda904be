//! Tests of jobs that are kept in a folder of the system's, fail, are sent again and removed, through public items alone.
#![tactic(auto)]

#[cfg(test)]
mod ends;
#[cfg(test)]
mod folder;
