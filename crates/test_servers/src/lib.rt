//! A server over sockets beside its clients, by rows, each a scene.
#![tactic(auto)]

#[cfg(test)]
mod scene_rows;
#[cfg(test)]
mod scenes;
#[cfg(test)]
mod servers;
#[cfg(test)]
mod serving;
