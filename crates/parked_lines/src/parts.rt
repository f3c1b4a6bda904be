//! How much of a spool one queue may have, so that a printer that stands fills its own part alone.

ghost use Rattle.std.specs.Prelude.{◌≡◌, ◌-◌};
ghost use Rattle.parked_lines.specs.Parts.{has_room, page_part, row_part};

/// What a spool has for all its queues.
#[derive(Clone, Copy, Debug, PartialEq, Eq)]
pub struct SpoolShape {
    /// How many jobs its table holds.
    pub max_jobs: u32,
    /// How many pages its pool has.
    pub pages: u32,
    /// How many queues it has.
    pub queues: u32,
}

/// What one queue may have of a spool.
#[derive(Clone, Copy, Debug, PartialEq, Eq)]
pub struct QueuePart {
    /// Rows of the table: jobs that come, and whole ones.
    pub rows: u64,
    /// Pages of the pool: what its jobs hold, and may still claim.
    pub pages: u32,
}

/// What the jobs of one queue have of a spool.
#[derive(Clone, Copy, Debug, PartialEq, Eq)]
pub struct PartUse {
    /// Rows of the table: jobs that come, and whole ones.
    pub rows: u64,
    /// Pages of the pool: what they hold, and may still claim.
    pub pages: u64,
}

/// What is free of a queue's part, or of the spool itself where that is less. Nothing, where the queue stands.
#[derive(Clone, Copy, Debug, PartialEq, Eq)]
pub struct FreePart {
    /// Rows of the table.
    pub rows: u64,
    /// Pages of the pool.
    pub pages: u32,
}

impl SpoolShape {
    /// The part of a queue with this many printers and this limit in pages, where so many queues have jobs.
    ///
    /// Of the table a row for each printer and one more, or its share of half the table, where that is more. Of the pool its
    /// limit, or its share of half the pool among the queues that have jobs, where that is more.
    pub fn part_of(&self, printers: u32, limit: u32, busy_queues: u32) -> QueuePart
        ensures rows { result.rows ≡ row_part self.now printers }
        ensures pages { result.pages ≡ page_part self.now limit busy_queues }
    {
        let share = u64::from(self.max_jobs) / (2 * u64::from(self.queues.max(1)));
        QueuePart {
            rows: share.max(u64::from(printers) + 1),
            pages: limit.max(self.pages / 2 / busy_queues.max(1)),
        }
    }
}

impl QueuePart {
    /// What is free of it beside this.
    pub fn free(&self, used: &PartUse) -> FreePart
        ensures rows { result.rows ≡ self.now.rows - used.now.rows }
        ensures pages { result.pages ≡ self.now.pages - used.now.pages }
    {
        FreePart {
            rows: self.rows.saturating_sub(used.rows),
            pages: u64::from(self.pages).saturating_sub(used.pages) as u32,
        }
    }
}

impl FreePart {
    /// Nothing is free: no job of the queue is given to the spool.
    pub const NOTHING: FreePart = FreePart { rows: 0, pages: 0 };

    /// Whether one job more has room that may come to so many pages.
    pub fn has_room(&self, pages: u32) -> bool
        ensures { result ≡ has_room self.now pages }
    {
        self.rows > 0 && pages <= self.pages
    }
}
