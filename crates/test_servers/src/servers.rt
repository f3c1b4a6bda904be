//! Servers over sockets, by the rows of `scene_rows`.

use crate::scene_rows::{FAILING, HALTING, PRINTING};
use crate::scenes::play;

#[test]
fn jobs_are_printed(rt: HostRuntime) {
    for scene in PRINTING.split("====\n") {
        play(&rt, scene);
    }
}

#[test]
fn peers_halt(rt: HostRuntime) {
    for scene in HALTING.split("====\n") {
        play(&rt, scene);
    }
}

#[test]
fn servers_fail(rt: HostRuntime) {
    for scene in FAILING.split("====\n") {
        play(&rt, scene);
    }
}
