//! How long a session waits for a page, and a printer for work.

ghost use Rattle.spool_laws.specs.PutOff.{PutOffStays};
ghost use Rattle.spool_laws.specs.Served.{NothingStays};

/// Where no page may be lent to a job, none may until a page comes back, or a job becomes whole or ends: neither a page that
/// is lent to another job, nor one that is handed to a printer, nor a job that is accepted makes that one may.
pub fn put_off_stays<C>()
    ensures { PutOffStays C }
{}

/// Where a printer has nothing to do, because nothing is next for it or it is stopped, it has nothing until a job of its queue
/// becomes whole, ends or goes, its queue is started, or the spool closes: neither what happens to jobs of other queues, nor
/// a job that is accepted, a page that is lent, put or handed, nor a file that begins changes that.
pub fn nothing_stays<C>()
    ensures { NothingStays C }
{}
