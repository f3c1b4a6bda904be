//! A host's connection: what arrived on it, its reader, and the page that it has for its job.

ghost use Rattle.std.specs.Prelude.{◌≡◌, None};
ghost use Rattle.std.specs.Option.{ForSome};
ghost use Rattle.receiver.specs.Reading.{Progress};

use bytes::BytesMut;
use page_pool::PageTicket;
use receiver::Receiver;
use request_calls::spend;

/// A host's connection. Its reader and its page have to be spent.
pub struct Connection {
    /// The number that stands for its host.
    pub sender: u32,
    /// The reader of its octets; None once the session is over.
    pub reader: Option<Receiver>,
    /// The number of the job that it opened last, or 0.
    pub job: u64,
    /// A page of its job that the spool didn't take.
    pub kept: Option<PageTicket>,
    /// The octets that arrived and were not read.
    pub unread: BytesMut,
    // Between turns no request waits for its answer.
    ghost answered: { ForSome reader (λ (r : Progress). r.owed ≡ None) },
}

impl Connection {
    /// Spends its reader and its page.
    pub fn surrender(self) {
        let Connection {
            sender: _,
            reader,
            job: _,
            kept,
            unread: _,
        } = self;
        spend(kept);
        if let Some(reader) = reader {
            spend(reader.into_ticket());
        }
    }
}
