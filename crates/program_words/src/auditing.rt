//! The words of `audit` and `usage`: as `clap` is told them, and what they say.

ghost use Rattle.std.specs.Prelude.{◌≡◌, [], IfErr, IfOk, codes, map, option_map, unwrap_or};
ghost use Rattle.clap.specs.Words.{all_of, found_of, rows_of};
ghost use Rattle.program_words.specs.Auditing.{IsAuditRequest, IsDigest, IsGrouping, IsTime, IsUsageRequest};
ghost use Rattle.program_words.specs.Refused.{HasNoDigest, HasNoGrouping, HasNoTime, LacksAudit, LacksUsage};

use crate::values::{flag_of, text_if, text_or, texts_of};
use crate::word_fault::WordFault;
use account_usage::{AuditRequest, Grouping, UsageRequest};
use clap::ArgMatches;
use command_tables::{CommandTable, Shape, Word};
use segment_text::is_time;
use std::alloc::{AllocError, Global};

/// What usage is told by where the words don't say it.
const BY: &str = "user";

const MORE_OF_AUDIT: &str = "\
Each FILE is a segment of an account, as `serve --account DIR` writes it; they are read in the order given, each line checked:
that it can be read, that a legal account may have it there, and that each segment follows on the one before it. Prints
  legal segments 2 entries 26 jobs 2 done 2 removed 0 failed 0 aborted 0
  ends DIGEST
The first segment begins from a moment without held jobs; where others came before it that is told, but with --after it is taken
only where it names DIGEST, in which the one before it ended.
With --printed what printers wrote is compared with the pages that the account says they printed, by length and SHA-256.
PLACE is the DIR of `serve --out`, for each printer that prints to a file there, or K=PATH, the file or folder of printer K;
or where it printed to several places, K@file:/srv/a=PATH, that of one of them.
Then a line for each of these printers, and one for each part of a file that nothing is said of:
  printed 1 octets 40961
  not judged 1: 2047 octets between two runs
In a folder each job that was printed has its file, by its number. One that isn't there is a fault, but with --taken K a line.
Whoever can write the account can write all of it anew: compare its end with a digest that was kept elsewhere (--ends).

Faults, each with the file and its line, exit status 6: 80 Line, one that can't be read; 81 Entry, one that may not come there;
82 Follow, a segment that doesn't follow, or an end that isn't DIGEST; 83 Printed, octets that aren't those of a page, or a file
that isn't there.

Examples:
  lpd_server audit /var/lib/hurgwaye/account/segment-*
  lpd_server audit segment-* --ends 6a09e667..
  lpd_server audit segment-* --printed pages --printed 3=/srv/archive";

const MORE_OF_USAGE: &str = "\
Each FILE is a segment of an account, as `serve --account DIR` writes it. Prints a line for each user, host or queue:
  ann jobs 2 sent 2048 printed 4096
Octets are sent once and printed as often as they were, but a job that was put back, since its printer wasn't reached or its queue was
held, counts as sent each time that the spool took it. Jobs that came without a control file stand under -.
With --since and --until segments are passed over that ended before, or began after, TIME, as 2026-11-26T22:00:00Z:
an account has times for its segments, and none for each job. With --csv the lines are user,jobs,sent,printed below a
line that says so.
Nothing is checked but that each line can be read: `audit` does that.

Examples:
  lpd_server usage /var/lib/hurgwaye/account/segment-*
  lpd_server usage segment-* --by queue --since 2026-11-01T00:00:00Z --csv";

/// The word for the files of segments.
const SEGMENT_FILES: Word = Word {
    id: "file",
    shape: Shape::Words("FILE", 65_536),
    help: "The files of segments, in order",
};

/// The command that checks an account.
pub(crate) const AUDIT: CommandTable = CommandTable {
    name: "audit",
    about: "Checks an account, entry by entry",
    more: MORE_OF_AUDIT,
    words: &[
        SEGMENT_FILES,
        Word {
            id: "after",
            shape: Shape::Option("DIGEST"),
            help: "Takes the first segment only where it follows on the one that ends in DIGEST",
        },
        Word {
            id: "ends",
            shape: Shape::Option("DIGEST"),
            help: "Asks whether the last segment ends in DIGEST, which was kept elsewhere",
        },
        Word {
            id: "printed",
            shape: Shape::Repeated("PLACE"),
            help: "Compares what printers wrote with it: PLACE is a directory, K=PATH or K@PLACE=PATH",
        },
        Word {
            id: "taken",
            shape: Shape::Counts("K"),
            help: "Says that somebody takes files away from the folder of printer K",
        },
        Word {
            id: "progress",
            shape: Shape::Flag,
            help: "Tells on standard error how far it is, where that is no terminal too",
        },
    ],
};

/// The command that tells what was used.
pub(crate) const USAGE: CommandTable = CommandTable {
    name: "usage",
    about: "Tells of an account who sent and printed how much",
    more: MORE_OF_USAGE,
    words: &[
        SEGMENT_FILES,
        Word {
            id: "by",
            shape: Shape::Option("GROUPING"),
            help: "What it is told by: user, host or queue [default: user]",
        },
        Word {
            id: "since",
            shape: Shape::Option("TIME"),
            help: "Passes segments over that ended before TIME",
        },
        Word {
            id: "until",
            shape: Shape::Option("TIME"),
            help: "Passes segments over that began after TIME",
        },
        Word {
            id: "csv",
            shape: Shape::Flag,
            help: "Tells it with commas between, for other programs",
        },
    ],
};

/// The digest that an option gives, if it is there. `Digest` with a text that is none, and `Memory`.
fn digest_of(alloc: Global, matches: &ArgMatches, id: &str) -> Result<Option<[u8; 32]>, WordFault>
    ensures digest { IfOk result (IsDigest id.now (rows_of (found_of matches.now))) }
    ensures fault { IfErr result (HasNoDigest id.now (rows_of (found_of matches.now))) }
{
    let Some(text) = text_if(matches, id) else {
        return Ok(None);
    };
    match account_text::digest(text.as_bytes()) {
        Some(digest) => Ok(Some(digest)),
        None => Err(WordFault::Digest(String::from_str(alloc, text)?)),
    }
}

/// The time that an option gives, if it is there. `Time` with a text that is none, and `Memory`.
fn time_of<'a>(
    alloc: Global,
    matches: &ArgMatches<'a>,
    id: &str,
) -> Result<Option<&'a str>, WordFault>
    ensures time { IfOk result (λ time.
        IsTime id.now (rows_of (found_of matches.now)) (option_map (λ text. text.now) time)) }
    ensures fault { IfErr result (HasNoTime id.now (rows_of (found_of matches.now))) }
{
    let Some(text) = text_if(matches, id) else {
        return Ok(None);
    };
    if !is_time(text.as_bytes()) {
        return Err(WordFault::Time(String::from_str(alloc, text)?));
    }
    Ok(Some(text))
}

/// What usage is told by. `Grouping` with a text that names nothing, and `Memory`.
fn grouping_of(alloc: Global, matches: &ArgMatches) -> Result<Grouping, WordFault>
    ensures by { IfOk result (IsGrouping (rows_of (found_of matches.now))) }
    ensures fault { IfErr result (HasNoGrouping (rows_of (found_of matches.now))) }
{
    let text = text_or(matches, "by", BY);
    match text {
        "user" => Ok(Grouping::User),
        "host" => Ok(Grouping::Host),
        "queue" => Ok(Grouping::Queue),
        _ => Err(WordFault::Grouping(String::from_str(alloc, text)?)),
    }
}

/// Where printers wrote, as the words tell it. AllocError where memory is refused.
fn printed_of<'a>(alloc: Global, matches: &ArgMatches<'a>) -> Result<Vec<&'a str>, AllocError>
    ensures { IfOk result (λ places. map (λ place. place.now) places.items
        ≡ unwrap_or (all_of (codes "printed") (rows_of (found_of matches.now))) []) }
{
    match texts_of(matches, "printed") {
        Ok(places) => Vec::from_slice(alloc, places),
        Err(_) => Ok(Vec::new(alloc)),
    }
}

/// From which printers' folders files are taken away, as the words tell it. AllocError where memory is refused.
fn taken_of<'a>(alloc: Global, matches: &ArgMatches<'a>) -> Result<Vec<&'a str>, AllocError>
    ensures { IfOk result (λ taken. map (λ printer. printer.now) taken.items
        ≡ unwrap_or (all_of (codes "taken") (rows_of (found_of matches.now))) []) }
{
    match texts_of(matches, "taken") {
        Ok(taken) => Vec::from_slice(alloc, taken),
        Err(_) => Ok(Vec::new(alloc)),
    }
}

/// What words say of an audit.
pub(crate) fn audit_of<'a>(
    alloc: Global,
    matches: &ArgMatches<'a>,
) -> Result<AuditRequest<'a>, WordFault>
    ensures request { IfOk result (IsAuditRequest (rows_of (found_of matches.now))) }
    ensures fault { IfErr result (LacksAudit (rows_of (found_of matches.now))) }
{
    let files = texts_of(matches, "file")?;
    Ok(AuditRequest {
        files: Vec::from_slice(alloc, files)?,
        after: digest_of(alloc, matches, "after")?,
        ends: digest_of(alloc, matches, "ends")?,
        printed: printed_of(alloc, matches)?,
        taken: taken_of(alloc, matches)?,
        progress: flag_of(matches, "progress"),
    })
}

/// What words say of what is asked of use.
pub(crate) fn usage_of<'a>(
    alloc: Global,
    matches: &ArgMatches<'a>,
) -> Result<UsageRequest<'a>, WordFault>
    ensures request { IfOk result (IsUsageRequest (rows_of (found_of matches.now))) }
    ensures fault { IfErr result (LacksUsage (rows_of (found_of matches.now))) }
{
    let files = texts_of(matches, "file")?;
    Ok(UsageRequest {
        files: Vec::from_slice(alloc, files)?,
        by: grouping_of(alloc, matches)?,
        since: time_of(alloc, matches, "since")?,
        until: time_of(alloc, matches, "until")?,
        csv: flag_of(matches, "csv"),
    })
}
