//! What holds of every run of a sink.

ghost use Rattle.std.specs.Prelude.{◌≡◌, ◌<◌, ℕ, Bool, true, List, [], Option, length};
ghost use Rattle.printer_sinks.specs.Files.{File, Shelf};
ghost use Rattle.printer_sinks.specs.Connections.{Connection, Desk};
ghost use Rattle.printer_sinks.specs.Published.{IsPublished, OnlyWhole, PrintsAll, all_ok, idle};
ghost use Rattle.printer_sinks.specs.Runs.{AreApart, Runs, Visit, jobs_of, visited};
ghost use Rattle.printer_sinks.specs.Visits.{AddsOne, Given, Visits, at_rest};

/// From a job's first page until it is left, at most one connection takes an octet. It takes the pages of that job that are
/// told Ok, joined in order, and then at most a beginning of one that isn't.
pub fn one_connection_a_job()
    ensures { (job : ℕ) (pages : List Given) (connections : List Connection) (new : Desk)
        → Visits job pages (at_rest connections) new
        → AddsOne job pages connections new.connections }
{}

/// Where a sink visits each job once, no job has two connections that took an octet.
pub fn no_job_has_two()
    ensures { (visits : List Visit) (new : List Connection)
        → Runs visits [] new → AreApart (visited visits) → AreApart (jobs_of new) }
{}

/// What is published of a job is all its pages, joined in order, and only where the job was done and all of them were told Ok;
/// no file is written over, and the others stay.
pub fn published_is_whole()
    ensures only { (job : ℕ) (pages : List Given) (done ok : Bool) (draft : Option (List ℕ))
        (files : List File) (new : Shelf)
        → PrintsAll job pages done ok (idle draft files) new
        → OnlyWhole pages done files new.files }
    // Where a job was done and leaving it is told Ok, it is published.
    ensures there { (job : ℕ) (pages : List Given) (draft : Option (List ℕ)) (files : List File)
        (new : Shelf) → PrintsAll job pages true true (idle draft files) new
        → all_ok pages ≡ true → 0 < length pages → IsPublished pages files new.files }
{}
