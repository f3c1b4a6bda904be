//! The job in hand.

ghost use Rattle.std.specs.Prelude.{◌≡◌, ◌≤◌, ◌<◌, ℕ, List, OnOk, Option, Some, None, IfSome, IsTrue, false};
ghost use Rattle.std.specs.List.{list_all, list_any};
ghost use Rattle.lpd_values.specs.Kinds.{is_space, is_word_octet};
ghost use Rattle.lpd_values.specs.Name.{is_control_name, number_of};
ghost use Rattle.lpd_commands.specs.Written.{command_has_line};
ghost use Rattle.lpd_commands.specs.declared.command.Command.TheVariants.{Receive};
ghost use Rattle.control_file.specs.View.{contents};
ghost use Rattle.kept_jobs.specs.Folder.{EmptiesOrFails, GoesOn, IsNever, OldOrNone, OrNone, SamePassed};
ghost use Rattle.kept_jobs.specs.Kept.{Leaves, Passes};
ghost use Rattle.job_streams.specs.Stream.{Coming, control_name, is_whole, stream};
ghost use Rattle.job_streams.specs.Coming.{new_job, with_control, with_end, with_file, with_octets};
ghost use Rattle.job_hand.specs.Known.{Knows};
ghost use Rattle.job_hand.specs.Hand.{Blames, Follows, HasFailed, Holds, IsDecided, LeavesAt, MayLeave, Settles, Stands, at_job, settled};
ghost use Rattle.job_hand.specs.declared.cause.Cause.{Cause};
ghost use Rattle.job_hand.specs.declared.hand.HandStage.TheVariants as stage;

use crate::cause::Cause;
use crate::known::Known;
use control_file::Control;
use job_heads::write_head;
use kept_jobs::{Folder, append, begin, keep};
use lpd_commands::{Command, Sub, write_command, write_sub};
use lpd_values::{FileName, MAX_CONTROL_TEXT, MAX_LINE, Octets, all_text, is_space};
use std::alloc::Global;

/// How far the job in hand has come.
///
/// ```text
///         begin           keep_whole          settle, leave
///   Idle --------> Coming ------------> Kept ---------------> Idle
///                    |                    |
///       can't be kept|                    |more comes of it
///                    v                    v
///                  Broken               Broken
/// ```
///
/// From each stage `begin` leads to `Coming`, or to `Broken` where the new job can't be kept; `fail` leads to `Broken`, and
/// `let_go` to `Idle`. From `Broken` only these three lead on.
#[derive(Clone, Copy, Debug, PartialEq, Eq)]
pub enum HandStage {
    /// None is in hand.
    Idle,
    /// Its octets so far are in the folder.
    Coming,
    /// It is whole, and kept.
    Kept,
    /// It isn't kept, for this cause.
    Broken(Cause),
}

/// The job in hand, in a folder.
#[derive(Drop)]
pub struct Hand<F: Folder> {
    /// Where its lines are written.
    pub alloc: Global,
    /// The session's hand at the folder.
    pub folder: F,
    /// How far the job has come.
    pub stage: HandStage,
    /// What is known of it.
    pub known: Known,
}

/// Whether some octet is a space.
fn has_space(octets: &[u8]) -> bool
    ensures { result ≡ list_any is_space octets.now }
{
    octets.iter().any(|octet| is_space(*octet))
}

/// Whether all octets are ones of a word.
fn all_word_octets(octets: &[u8]) -> bool
    ensures { result ≡ list_all is_word_octet octets.now }
{
    all_text(octets) && !has_space(octets)
}

/// Whether a line can ask to send jobs to a queue of this name.
fn is_queue_word(queue: &[u8]) -> bool
    ensures { result ≡ command_has_line (Receive queue.now) }
{
    !queue.is_empty() && queue.len() < MAX_LINE && all_word_octets(queue)
}

/// The name under which a control file with this number is kept.
fn name_of(number: u16) -> Option<FileName>
    requires { number ≤ 999 }
    ensures name { IfSome result (λ name. name ≡ control_name number) }
    ensures named { IfSome result (λ name. IsTrue (is_control_name name)) }
    ensures number { IfSome result (λ name. number_of name ≡ number) }
{
    let hundreds = b'0' + (number / 100) as u8;
    let tens = b'0' + (number / 10 % 10) as u8;
    let ones = b'0' + (number % 10) as u8;
    let Ok(name) = FileName::read(&[b'c', b'f', b'A', hundreds, tens, ones]) else {
        return None;
    };
    if name.is_control() && name.number() == number {
        Some(name)
    } else {
        None
    }
}

impl<F: Folder> Hand<F> {
    /// No job in hand.
    pub fn new(alloc: Global, folder: F) -> Hand<F>
        ensures folder { result.folder ≡ folder }
        ensures idle { Follows F.seen F.may_leave result None }
    {
        Hand {
            alloc,
            folder,
            stage: HandStage::Idle,
            known: Known::new(alloc),
        }
    }

    /// Takes a new job of a sender for this queue in hand. An error where it can't be kept.
    fn start(&mut self, sender: u32, queue: &[u8]) -> Result<(), Cause>
        requires { Knows self.old.known (new_job sender queue.now) }
        ensures stands { OnOk result (Stands F.seen F.may_leave self.new
            (new_job sender queue.now)) }
        ensures cause { HasFailed (F.faults self.old.folder) (F.faults self.new.folder) result }
        ensures crash { OrNone (F.may_leave self.old.folder) (F.may_leave self.new.folder) }
        ensures moments { GoesOn F.moment F.left_since F.may_lack self.old.folder self.new.folder
            (OldOrNone (F.may_leave self.old.folder)) }
        ensures passed { SamePassed (F.seen self.old.folder) (F.seen self.new.folder) }
    {
        if !is_queue_word(queue) {
            return Err(Cause::Unfit);
        }
        let queue = Octets::copy_of(self.alloc, queue)?;
        let line = write_command(self.alloc, &Command::Receive { queue })?;
        begin(&mut self.folder)?;
        append(&mut self.folder, &write_head(sender), None)?;
        append(&mut self.folder, line.as_slice(), None)?;
        Ok(())
    }

    /// A job of a sender for this queue begins, in the place of one that was in hand.
    pub fn begin(&mut self, sender: u32, queue: &[u8])
        ensures follows { Follows F.seen F.may_leave self.new (Some (new_job sender queue.now)) }
        ensures blame { Blames F.faults self.old self.new }
        ensures crash { OrNone (F.may_leave self.old.folder) (F.may_leave self.new.folder) }
        ensures moments { GoesOn F.moment F.left_since F.may_lack self.old.folder self.new.folder
            (OldOrNone (F.may_leave self.old.folder)) }
        ensures passed { SamePassed (F.seen self.old.folder) (F.seen self.new.folder) }
    {
        self.known = Known::new(self.alloc);
        self.stage = match self.start(sender, queue) {
            Ok(()) => HandStage::Coming,
            Err(cause) => HandStage::Broken(cause),
        };
    }

    /// Writes the line of a data file. An error where it can't be kept.
    fn announce(&mut self, name: FileName, count: u64) -> Result<(), Cause>
        requires { 0 < count }
        ensures stands { OnOk result ((job : Coming) → Stands F.seen F.may_leave self.old job
            → Stands F.seen F.may_leave self.new (with_file name count job)) }
        ensures stage { self.new.stage ≡ self.old.stage }
        ensures cause { HasFailed (F.faults self.old.folder) (F.faults self.new.folder) result }
        ensures crash { OrNone (F.may_leave self.old.folder) (F.may_leave self.new.folder) }
        ensures moments { GoesOn F.moment F.left_since F.may_lack self.old.folder self.new.folder
            (OldOrNone (F.may_leave self.old.folder)) }
        ensures passed { SamePassed (F.seen self.old.folder) (F.seen self.new.folder) }
    {
        self.known.begin_file(name, count)?;
        let line = write_sub(self.alloc, &Sub::DataFile { count, name })?;
        append(&mut self.folder, line.as_slice(), None)?;
        Ok(())
    }

    /// A data file of so many octets begins.
    pub fn begin_file(&mut self, name: FileName, count: u64)
        requires { 0 < count }
        ensures follows { (job : Option Coming) → Follows F.seen F.may_leave self.old job
            → Follows F.seen F.may_leave self.new (at_job (with_file name count) job) }
        ensures blame { Blames F.faults self.old self.new }
        ensures crash { OrNone (F.may_leave self.old.folder) (F.may_leave self.new.folder) }
        ensures moments { GoesOn F.moment F.left_since F.may_lack self.old.folder self.new.folder
            (OldOrNone (F.may_leave self.old.folder)) }
        ensures passed { SamePassed (F.seen self.old.folder) (F.seen self.new.folder) }
    {
        match self.stage {
            HandStage::Idle => {}
            HandStage::Coming => {
                if let Err(cause) = self.announce(name, count) {
                    self.stage = HandStage::Broken(cause);
                }
            }
            HandStage::Kept => self.stage = HandStage::Broken(Cause::Unfit),
            HandStage::Broken(_) => {}
        }
    }

    /// Writes octets of the data file. An error where they can't be kept.
    fn put_octets(&mut self, octets: &[u8], digest: Option<[u8; 32]>) -> Result<(), Cause>
        ensures stands { OnOk result ((job : Coming) → Stands F.seen F.may_leave self.old job
            → Stands F.seen F.may_leave self.new (with_octets octets.now job)) }
        ensures stage { self.new.stage ≡ self.old.stage }
        ensures cause { HasFailed (F.faults self.old.folder) (F.faults self.new.folder) result }
        ensures crash { OrNone (F.may_leave self.old.folder) (F.may_leave self.new.folder) }
        ensures moments { GoesOn F.moment F.left_since F.may_lack self.old.folder self.new.folder
            (OldOrNone (F.may_leave self.old.folder)) }
        ensures passed { SamePassed (F.seen self.old.folder) (F.seen self.new.folder) }
    {
        self.known.put(octets.len() as u64)?;
        append(&mut self.folder, octets, digest)?;
        Ok(())
    }

    /// Octets of the data file have come, with their SHA-256 where they are a page.
    pub fn put(&mut self, octets: &[u8], digest: Option<[u8; 32]>)
        ensures follows { (job : Option Coming) → Follows F.seen F.may_leave self.old job
            → Follows F.seen F.may_leave self.new (at_job (with_octets octets.now) job) }
        ensures blame { Blames F.faults self.old self.new }
        ensures crash { OrNone (F.may_leave self.old.folder) (F.may_leave self.new.folder) }
        ensures moments { GoesOn F.moment F.left_since F.may_lack self.old.folder self.new.folder
            (OldOrNone (F.may_leave self.old.folder)) }
        ensures passed { SamePassed (F.seen self.old.folder) (F.seen self.new.folder) }
    {
        match self.stage {
            HandStage::Idle => {}
            HandStage::Coming => {
                if let Err(cause) = self.put_octets(octets, digest) {
                    self.stage = HandStage::Broken(cause);
                }
            }
            HandStage::Kept => self.stage = HandStage::Broken(Cause::Unfit),
            HandStage::Broken(_) => {}
        }
    }

    /// Writes the octet behind a data file. An error where it can't be kept.
    fn close(&mut self) -> Result<(), Cause>
        ensures stands { OnOk result ((job : Coming) → Stands F.seen F.may_leave self.old job
            → Stands F.seen F.may_leave self.new (with_end job)) }
        ensures stage { self.new.stage ≡ self.old.stage }
        ensures cause { HasFailed (F.faults self.old.folder) (F.faults self.new.folder) result }
        ensures crash { OrNone (F.may_leave self.old.folder) (F.may_leave self.new.folder) }
        ensures moments { GoesOn F.moment F.left_since F.may_lack self.old.folder self.new.folder
            (OldOrNone (F.may_leave self.old.folder)) }
        ensures passed { SamePassed (F.seen self.old.folder) (F.seen self.new.folder) }
    {
        self.known.end_file()?;
        append(&mut self.folder, &[0], None)?;
        Ok(())
    }

    /// The data file has come whole.
    pub fn end_file(&mut self)
        ensures follows { (job : Option Coming) → Follows F.seen F.may_leave self.old job
            → Follows F.seen F.may_leave self.new (at_job with_end job) }
        ensures blame { Blames F.faults self.old self.new }
        ensures crash { OrNone (F.may_leave self.old.folder) (F.may_leave self.new.folder) }
        ensures moments { GoesOn F.moment F.left_since F.may_lack self.old.folder self.new.folder
            (OldOrNone (F.may_leave self.old.folder)) }
        ensures passed { SamePassed (F.seen self.old.folder) (F.seen self.new.folder) }
    {
        match self.stage {
            HandStage::Idle => {}
            HandStage::Coming => {
                if let Err(cause) = self.close() {
                    self.stage = HandStage::Broken(cause);
                }
            }
            HandStage::Kept => self.stage = HandStage::Broken(Cause::Unfit),
            HandStage::Broken(_) => {}
        }
    }

    /// Writes the control file. An error where it can't be kept.
    fn put_control(&mut self, control: &Control) -> Result<(), Cause>
        ensures stands { OnOk result ((job : Coming) → Stands F.seen F.may_leave self.old job
            → Stands F.seen F.may_leave self.new (with_control (contents control.now) job)) }
        ensures stage { self.new.stage ≡ self.old.stage }
        ensures cause { HasFailed (F.faults self.old.folder) (F.faults self.new.folder) result }
        ensures crash { OrNone (F.may_leave self.old.folder) (F.may_leave self.new.folder) }
        ensures moments { GoesOn F.moment F.left_since F.may_lack self.old.folder self.new.folder
            (OldOrNone (F.may_leave self.old.folder)) }
        ensures passed { SamePassed (F.seen self.old.folder) (F.seen self.new.folder) }
    {
        let Some(name) = name_of(control.number) else {
            return Err(Cause::Unfit);
        };
        let text = control.write(self.alloc)?;
        let count = text.as_slice().len();
        if count > MAX_CONTROL_TEXT {
            return Err(Cause::Unfit);
        }
        self.known.control(self.alloc, control)?;
        let count = count as u64;
        let line = write_sub(self.alloc, &Sub::ControlFile { count, name })?;
        append(&mut self.folder, line.as_slice(), None)?;
        append(&mut self.folder, text.as_slice(), None)?;
        append(&mut self.folder, &[0], None)?;
        Ok(())
    }

    /// The control file has come.
    pub fn control(&mut self, control: &Control)
        ensures follows { (job : Option Coming) → Follows F.seen F.may_leave self.old job
            → Follows F.seen F.may_leave self.new (at_job (with_control
            (contents control.now)) job) }
        ensures blame { Blames F.faults self.old self.new }
        ensures crash { OrNone (F.may_leave self.old.folder) (F.may_leave self.new.folder) }
        ensures moments { GoesOn F.moment F.left_since F.may_lack self.old.folder self.new.folder
            (OldOrNone (F.may_leave self.old.folder)) }
        ensures passed { SamePassed (F.seen self.old.folder) (F.seen self.new.folder) }
    {
        match self.stage {
            HandStage::Idle => {}
            HandStage::Coming => {
                if let Err(cause) = self.put_control(control) {
                    self.stage = HandStage::Broken(cause);
                }
            }
            HandStage::Kept => self.stage = HandStage::Broken(Cause::Unfit),
            HandStage::Broken(_) => {}
        }
    }

    /// Keeps the job in hand, if it is whole.
    pub fn keep_whole(&mut self)
        ensures follows { (job : Option Coming) → Follows F.seen F.may_leave self.old job
            → Follows F.seen F.may_leave self.new job }
        ensures decided { (job : Option Coming) → Follows F.seen F.may_leave self.old job
            → IsDecided F.seen F.may_leave self.new job }
        ensures blame { Blames F.faults self.old self.new }
        ensures crash { (job : Option Coming) → Follows F.seen F.may_leave self.old job
            → MayLeave F.seen F.may_leave self.old.folder self.new.folder job }
        ensures moments { (job : Option Coming) → Follows F.seen F.may_leave self.old job
            → GoesOn F.moment F.left_since F.may_lack self.old.folder self.new.folder
            (LeavesAt F.seen F.may_leave self.old.folder job) }
        ensures passed { SamePassed (F.seen self.old.folder) (F.seen self.new.folder) }
    {
        let HandStage::Coming = self.stage else {
            return;
        };
        if !self.known.is_whole() {
            return;
        }
        self.stage = match keep(&mut self.folder) {
            Ok(()) => HandStage::Kept,
            Err(error) => HandStage::Broken(Cause::Folder(error)),
        };
    }

    /// Passes the job in hand, which is kept, on to whoever lets it go once the job of this number has
    /// ended. None is in hand then.
    pub fn pass(&mut self, number: u64)
        ensures passes { (job : Coming) → Holds F.seen F.may_leave self.old job
            → Passes number (stream job) (F.seen self.old.folder) (F.seen self.new.folder) }
        ensures never { IsNever (F.may_leave self.new.folder) }
        ensures idle { self.new.stage ≡ stage.Idle }
        ensures moments { (job : Coming) → Holds F.seen F.may_leave self.old job
            → GoesOn F.moment F.left_since F.may_lack self.old.folder self.new.folder
            (OldOrNone (F.may_leave self.old.folder)) }
    {
        self.folder.pass(number);
        self.stage = HandStage::Idle;
    }

    /// Passes a job on that was kept. The number is that of the job.
    pub fn settle(&mut self, number: u64)
        requires { (cause : Cause) → self.old.stage ≡ stage.Broken cause → ⊥ }
        ensures follows { (job : Option Coming) → Follows F.seen F.may_leave self.old job
            → IsDecided F.seen F.may_leave self.old job
            → Follows F.seen F.may_leave self.new (settled job) }
        ensures settles { (job : Option Coming) → Follows F.seen F.may_leave self.old job
            → IsDecided F.seen F.may_leave self.old job
            → Settles (Some number) job (F.seen self.old.folder) (F.seen self.new.folder) }
        ensures crash { OrNone (F.may_leave self.old.folder) (F.may_leave self.new.folder) }
        ensures moments { (job : Option Coming) → Follows F.seen F.may_leave self.old job
            → GoesOn F.moment F.left_since F.may_lack self.old.folder self.new.folder
            (OldOrNone (F.may_leave self.old.folder)) }
    {
        if let HandStage::Kept = self.stage {
            self.pass(number);
        }
    }

    /// Leaves the job in hand, which is kept, in the folder. None is in hand then.
    fn let_lie(&mut self)
        ensures leaves { (job : Coming) → Holds F.seen F.may_leave self.old job
            → Leaves (stream job) (F.seen self.old.folder) (F.seen self.new.folder) }
        ensures never { IsNever (F.may_leave self.new.folder) }
        ensures idle { self.new.stage ≡ stage.Idle }
        ensures moments { (job : Coming) → Holds F.seen F.may_leave self.old job
            → GoesOn F.moment F.left_since F.may_lack self.old.folder self.new.folder
            (OldOrNone (F.may_leave self.old.folder)) }
    {
        self.folder.leave();
        self.stage = HandStage::Idle;
    }

    /// Leaves a job that was kept in the folder, and nobody is told it. None is in hand then; one that is still coming stays in hand.
    pub fn leave(&mut self)
        requires { (cause : Cause) → self.old.stage ≡ stage.Broken cause → ⊥ }
        ensures follows { (job : Option Coming) → Follows F.seen F.may_leave self.old job
            → IsDecided F.seen F.may_leave self.old job
            → Follows F.seen F.may_leave self.new (settled job) }
        ensures settles { (job : Option Coming) → Follows F.seen F.may_leave self.old job
            → IsDecided F.seen F.may_leave self.old job
            → Settles None job (F.seen self.old.folder) (F.seen self.new.folder) }
        ensures crash { OrNone (F.may_leave self.old.folder) (F.may_leave self.new.folder) }
        ensures moments { (job : Option Coming) → Follows F.seen F.may_leave self.old job
            → GoesOn F.moment F.left_since F.may_lack self.old.folder self.new.folder
            (OldOrNone (F.may_leave self.old.folder)) }
    {
        match self.stage {
            HandStage::Kept => self.let_lie(),
            _ => {}
        }
    }

    /// Takes away what is in the folder of the job in hand, which isn't to be kept for this cause.
    pub fn fail(&mut self, cause: Cause)
        ensures broken { self.new.stage ≡ stage.Broken cause }
        ensures emptied { EmptiesOrFails (F.faults self.old.folder) (F.faults self.new.folder)
            (F.seen self.old.folder) (F.seen self.new.folder) }
        ensures crash { OrNone (F.may_leave self.old.folder) (F.may_leave self.new.folder) }
        ensures moments { GoesOn F.moment F.left_since F.may_lack self.old.folder self.new.folder
            (OldOrNone (F.may_leave self.old.folder)) }
        ensures passed { SamePassed (F.seen self.old.folder) (F.seen self.new.folder) }
    {
        self.folder.discard();
        self.stage = HandStage::Broken(cause);
    }

    /// The job in hand has ended before it was whole.
    pub fn let_go(&mut self)
        ensures idle { self.new.stage ≡ stage.Idle }
        ensures emptied { EmptiesOrFails (F.faults self.old.folder) (F.faults self.new.folder)
            (F.seen self.old.folder) (F.seen self.new.folder) }
        ensures crash { OrNone (F.may_leave self.old.folder) (F.may_leave self.new.folder) }
        ensures moments { GoesOn F.moment F.left_since F.may_lack self.old.folder self.new.folder
            (OldOrNone (F.may_leave self.old.folder)) }
        ensures passed { SamePassed (F.seen self.old.folder) (F.seen self.new.folder) }
    {
        self.folder.discard();
        self.stage = HandStage::Idle;
    }
}
