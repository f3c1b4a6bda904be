//! What the edge of a server alone knows.

use standings::EdgeNotes;
use std::net::SocketAddr;

/// A session that serves a connection.
#[derive(Clone, Copy, Debug)]
pub struct SeenSession {
    /// The address of its peer.
    pub peer: SocketAddr,
    /// For how many seconds nothing came from the peer.
    pub silent: u64,
}

/// What is in the folder that keeps a server's jobs.
#[derive(Clone, Copy, Debug, PartialEq, Eq)]
pub struct KeptJobs {
    /// How many jobs wait in it for the spool to take them.
    pub waiting: u64,
    /// How many jobs that have failed are in it.
    pub failed: u64,
}

/// What the edge of a server alone knows at one moment.
#[derive(Clone, Copy)]
pub struct Outside<'a> {
    /// For how many seconds the server runs.
    pub uptime: u64,
    /// Whether the server was asked to stop.
    pub stops: bool,
    /// The number of the account's segment.
    pub segment: u64,
    /// How many connections wait in the lobby.
    pub lobby: usize,
    /// What is in the folder that keeps the jobs, where there is one.
    pub kept: Option<KeptJobs>,
    /// How many jobs of each queue wait in that folder, in the order of the configuration; none where there is no folder.
    pub parked: &'a [u64],
    /// The sessions that serve a connection.
    pub sessions: &'a [SeenSession],
    /// What is noted of its queues, printers and jobs.
    pub noted: EdgeNotes<'a>,
}
