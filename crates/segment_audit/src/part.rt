//! How far a segment is read, and what is before it.

ghost use Rattle.std.specs.Prelude.{◌≡◌, ◌<◌, ◌≤◌, ◌+◌, ◌^◌, ◌↔◌, ◌⊎◌, ◌∷◌, [], ℕ, IfOk, IsTrue, List, MatchOption, MatchResult, None, Option, Some};
ghost use Rattle.segment_text.specs.Items.{item_seen, Item};
ghost use Rattle.segment_text.specs.Seen.{head_seen};
ghost use Rattle.segment_audit.specs.Audited as A;
ghost use Rattle.segment_audit.specs.Read.{ComesNext, entries_before, entries_in, IsBefore, IsBegun, IsBehind, IsCourse, IsHeaded, IsPart, HasEntries, Refuses};

use crate::copies::{copy_origin, copy_printer, copy_start};
use crate::course::Course;
use crate::fault::AuditFault;
use crate::follow::{Before, begin_first};
use config_values::Config;
use segment_text::{Head, HeadPrinter, Last, Origin, SegmentLine, Version};
use std::alloc::{AllocError, Global};

/// How far a segment is read. Before its entries what is before it is kept, if anything is.
pub(crate) enum Part {
    /// No line of it was.
    Between(Option<Before>),
    /// Its first line.
    Begun(Option<Before>, Origin),
    /// Its configuration, and these of its printers.
    Headed(Option<Before>, Origin, Config, Vec<HeadPrinter>),
    /// Its head, and what its run has come to with its entries so far; and the digest that the segment before it ends in.
    Entries(Option<[u8; 32]>, Head, Course),
}

// Written out: each place that lets a part go is then one call, and not the drops of all that it may hold.
impl Drop for Part {
    fn drop(self) {
        match self {
            Part::Between(_) => {}
            Part::Begun(_, _) => {}
            Part::Headed(_, _, _, _) => {}
            Part::Entries(_, _, _) => {}
        }
    }
}

/// The configuration of the segment that was over last.
pub(crate) fn config_before(before: &Option<Before>) -> Option<&Config>
    ensures { (was : Option A.Past) (c : A.Course) → IsBefore before.now was c → MatchOption result
        (A.past_config was ≡ None) (λ config. A.past_config was ≡ Some config.now) }
{
    match before {
        Some(before) => Some(&before.head.config),
        None => None,
    }
}

/// The digest that the segment ends in that was over last.
pub(crate) fn digest_before(before: &Option<Before>) -> Option<[u8; 32]>
    ensures { (was : Option A.Past) (c : A.Course) → IsBefore before.now was c
        → result ≡ A.past_digest was }
{
    match before {
        Some(before) => Some(before.digest),
        None => None,
    }
}

/// The first line of a segment.
fn begin(before: Option<Before>, alloc: Global, got: &SegmentLine) -> Result<Part, AuditFault>
    ensures read { (after : Option (List ℕ)) (is : List Item) → A.present is ≡ []
        → IsBefore before (A.past_of is) (A.course_of is)
        → ComesNext is (item_seen got.now) → MatchResult result
        (λ part. A.Meets after is (item_seen got.now) × IsPart part (item_seen got.now ∷ is))
        (λ f. Refuses f after is (item_seen got.now)) }
    ensures few { IfOk result (λ part. entries_in part ≡ entries_before before) }
{
    match got {
        SegmentLine::Origin(origin) => {
            let origin = copy_origin(alloc, origin)?;
            Ok(Part::Begun(before, origin))
        }
        _ => Err(AuditFault::Line),
    }
}

/// The line behind the first one.
fn add_config(
    before: Option<Before>,
    origin: Origin,
    alloc: Global,
    got: &SegmentLine,
) -> Result<Part, AuditFault>
    ensures read { (after : Option (List ℕ)) (is : List Item) → IsBegun origin (A.present is)
        → IsBefore before (A.past_of is) (A.course_of is)
        → ComesNext is (item_seen got.now) → MatchResult result
        (λ part. A.Meets after is (item_seen got.now) × IsPart part (item_seen got.now ∷ is))
        (λ f. Refuses f after is (item_seen got.now)) }
    ensures few { IfOk result (λ part. entries_in part ≡ entries_before before) }
{
    match got {
        SegmentLine::Config(config) => {
            let config = Config::copy_of(alloc, config)?;
            Ok(Part::Headed(before, origin, config, Vec::new(alloc)))
        }
        _ => Err(AuditFault::Line),
    }
}

/// What a run has come to where a segment of this head begins.
fn follow(
    before: Option<Before>,
    after: &Option<[u8; 32]>,
    next: &Head,
    alloc: Global,
) -> Result<Course, AuditFault>
    ensures read { (was : Option A.Past) (c : A.Course) → IsBefore before was c → MatchResult result
        (λ k. A.MayFollow after.now was c (head_seen next.now)
        × IsCourse k (A.course_from (head_seen next.now).start.begin next.now.config
        (head_seen next.now).start c))
        (λ f. (f ≡ AuditFault.Memory) ⊎ ((f ≡ AuditFault.Follow)
        × (A.MayFollow after.now was c (head_seen next.now) → ⊥))) }
    ensures few { IfOk result (λ k. k.audit.entries ≤ entries_before before) }
{
    match before {
        Some(before) => before.go_on(next, alloc),
        None => begin_first(after, next, alloc),
    }
}

/// The line behind those of the printers.
fn begin_entries(
    before: Option<Before>,
    after: &Option<[u8; 32]>,
    head: Head,
    alloc: Global,
) -> Result<Part, AuditFault>
    ensures read { (was : Option A.Past) (c : A.Course) → IsBefore before was c → MatchResult result
        (λ part. A.MayFollow after.now was c (head_seen head)
        × ((is : List Item) → HasEntries head (A.present is)
        → A.course_from (head_seen head).start.begin head.config (head_seen head).start c ≡ A.course_of is
        → A.past_of is ≡ was → IsPart part is))
        (λ f. (f ≡ AuditFault.Memory) ⊎ ((f ≡ AuditFault.Follow)
        × (A.MayFollow after.now was c (head_seen head) → ⊥))) }
    ensures few { IfOk result (λ part. entries_in part ≤ entries_before before) }
{
    let digest = digest_before(&before);
    let course = follow(before, after, &head, alloc)?;
    Ok(Part::Entries(digest, head, course))
}

/// A printer's line, or the one behind those.
fn add_to_head(
    before: Option<Before>,
    headed: (Origin, Config, Vec<HeadPrinter>),
    after: &Option<[u8; 32]>,
    alloc: Global,
    got: &SegmentLine,
) -> Result<Part, AuditFault>
    ensures read { (is : List Item) → IsHeaded headed.0 headed.1 headed.2.items (A.present is)
        → IsBefore before (A.past_of is) (A.course_of is)
        → ComesNext is (item_seen got.now) → MatchResult result
        (λ part. A.Meets after.now is (item_seen got.now) × IsPart part (item_seen got.now ∷ is))
        (λ f. Refuses f after.now is (item_seen got.now)) }
    ensures few { IfOk result (λ part. entries_in part ≤ entries_before before) }
{
    let (origin, config, mut printers) = headed;
    match got {
        SegmentLine::Printer(printer) => {
            let printer = copy_printer(alloc, printer)?;
            printers.push(printer)?;
            Ok(Part::Headed(before, origin, config, printers))
        }
        SegmentLine::Start(start) => {
            let start = copy_start(alloc, start)?;
            let head = Head {
                origin,
                config,
                printers,
                start,
            };
            begin_entries(before, after, head, alloc)
        }
        _ => Err(AuditFault::Line),
    }
}

/// Whether a segment of a version may end where its run has come to this. By version 1 no job may be held there, since such servers ended
/// segments only where none was. By version 2 the audit goes on with what it knows of the held jobs.
///
/// AllocError where memory is refused.
fn may_end(version: Version, course: &Course, alloc: Global) -> Result<bool, AllocError>
    ensures { IfOk result (λ b. (c : A.Course) → IsCourse course.now c
        → (IsTrue b ↔ A.MayEnd version (A.state_at c))) }
{
    match version {
        Version::One => course.is_at_rest(alloc),
        Version::Two => Ok(true),
    }
}

/// Ends a segment.
fn end(head: Head, course: Course, alloc: Global, last: &Last) -> Result<Part, AuditFault>
    ensures read { (is : List Item) (c : A.Course) → HasEntries head is → IsCourse course c
        → MatchResult result
        (λ part. A.MayEnd (A.head_of is).origin.version (A.state_at c)
        × ((js : List Item) → A.present js ≡ [] → A.course_of js ≡ c
        → A.past_of js ≡ Some (record { head = A.head_of is; digest = last.now.digest })
        → IsPart part js))
        (λ f. (f ≡ AuditFault.Memory) ⊎ ((f ≡ AuditFault.Entry)
        × (A.MayEnd (A.head_of is).origin.version (A.state_at c) → ⊥))) }
    ensures few { IfOk result (λ part. entries_in part ≡ course.audit.entries) }
{
    if !may_end(head.origin.version, &course, alloc)? {
        return Err(AuditFault::Entry);
    }
    Ok(Part::Between(Some(Before {
        head,
        digest: last.digest,
        course,
    })))
}

/// A line where an entry may stand.
fn read_body(
    digest: Option<[u8; 32]>,
    head: Head,
    course: Course,
    alloc: Global,
    got: &SegmentLine,
) -> Result<Part, AuditFault>
    requires { course.audit.entries < 2 ^ 63 }
    ensures read { (after : Option (List ℕ)) (is : List Item)
        → IsPart (Part.Entries digest head course) is
        → ComesNext is (item_seen got.now) → MatchResult result
        (λ part. A.Meets after is (item_seen got.now) × IsPart part (item_seen got.now ∷ is))
        (λ f. Refuses f after is (item_seen got.now)) }
    ensures few { IfOk result (λ part. entries_in part ≤ course.audit.entries + 1) }
{
    match got {
        SegmentLine::Entry(entry) => match course.step(alloc, entry)? {
            Some(course) => Ok(Part::Entries(digest, head, course)),
            None => Err(AuditFault::Entry),
        },
        SegmentLine::Last(last) => end(head, course, alloc, last),
        _ => Err(AuditFault::Line),
    }
}

impl Part {
    /// Where no line was read.
    pub(crate) fn begin() -> Part
        ensures part { IsPart result [] }
        ensures few { entries_in result ≡ 0 }
    {
        Part::Between(None)
    }

    /// Reads one line more, which comes next in its segment.
    pub(crate) fn read(
        self,
        after: &Option<[u8; 32]>,
        alloc: Global,
        got: &SegmentLine,
    ) -> Result<Part, AuditFault>
        requires { entries_in self < 2 ^ 63 }
        ensures read { (is : List Item) → IsPart self is
            → ComesNext is (item_seen got.now) → MatchResult result
            (λ part. A.Meets after.now is (item_seen got.now)
            × IsPart part (item_seen got.now ∷ is))
            (λ f. Refuses f after.now is (item_seen got.now)) }
        ensures few { IfOk result (λ part. entries_in part ≤ entries_in self + 1) }
    {
        match self {
            Part::Between(before) => begin(before, alloc, got),
            Part::Begun(before, origin) => add_config(before, origin, alloc, got),
            Part::Headed(before, origin, config, printers) => {
                add_to_head(before, (origin, config, printers), after, alloc, got)
            }
            Part::Entries(digest, head, course) => read_body(digest, head, course, alloc, got),
        }
    }
}
