//! What the words ask for is done; a job is sent to a server.

ghost use Rattle.std.specs.Prelude.{◌≡◌, ◌≢◌, ◌≤◌, ◌<◌, ◌⊎◌, [], Err, IfErr, IfOk, IsErr, IsTrue};
ghost use Rattle.std.specs.Prelude.{OnOk, Some, length, map, string_bytes, take};
ghost use Rattle.std.specs.List.{list_all};
ghost use Rattle.clap.specs.Words.{fault_of, subcommand_of};
ghost use Rattle.lpd_commands.specs.Ends.{Writes};
ghost use Rattle.lpd_script.specs.Streams.{HasGivenAll, IsUnread, IsUntouched};
ghost use Rattle.lpd_script.specs.declared.fault.Fault.TheVariants.{ReadFile};
ghost use Rattle.lpd_values.specs.Name.{is_data_name};
ghost use Rattle.program_words.specs.Asked.{ChecksPrinters, IsAsked};
ghost use Rattle.word_actions.specs.Causes.{IsFileFault, IsNetworkFault, IsRunFault};
ghost use Rattle.program_words.specs.CommandLine.{command_line};
ghost use Rattle.word_actions.specs.DataFiles.{AreRead};
ghost use Rattle.word_actions.specs.Sending.{sent_line};
ghost use Rattle.word_actions.specs.Order.{IsUnchecked, write_faults};
ghost use Rattle.word_actions.specs.Outcome.{IfControls, IfEnded, IfReports, IfServes};
ghost use Rattle.word_actions.specs.Status.{end_status, status_of};
ghost use Rattle.program_words.specs.Refused.{AsksOfPrinters, IsRefused, IsTaken};
ghost use Rattle.word_actions.specs.Unread.{IsUnreadStatus};
ghost use Rattle.word_actions.specs.declared.fault.ActionFault.TheVariants.{Run};
ghost use Rattle.word_actions.specs.declared.running.RunOutcome.TheVariants.{Ended};
ghost use Rattle.program_words.specs.declared.words.Ask.TheVariants.{Control, Serve};
ghost use Rattle.lpr_client.specs.Sendable.{is_sendable, is_sendable_file};
ghost use Rattle.lpr_client.specs.declared.file.DataFile.{DataFile};

use crate::asking::{ask_question, connect, socket_of};
use crate::fault::ActionFault;
use crate::files::{ReadSpool, check, check_sizes, print, replay};
use crate::folders::{check_account, check_folder, check_out};
use crate::places::printers_of;
use crate::progress::ProgressWriter;
use crate::readers::OpenReaders;
use crate::reasons::tell_reason;
use crate::remarks::remark_on;
use crate::sockets::check_socket;
use log::{Log, info};
use lpd_commands::{OctetRead, OctetWrite, write_all};
use lpd_script::{read_all, run_input};
use lpr_client::{DataFile, FileName, Octets, SendFault, job_length, send_job};
use printer_devices::shared_folder;
use program_edge::{StreamReader, StreamWriter, tell, tell_cause};
use program_words::{
    Ask, AuditRequest, Checking, ControlRequest, Envelope, Sending, ServeRequest, Server, Unread,
    UsageRequest, read_words, three_digits,
};
use std::alloc::{AllocError, Global};
use std::fs::{File, Files};
use std::io::Error;
use std::net::Net;

/// The part of the program that tells which file of a script can't be read, as the log names it.
const SCRIPTS: &str = "lpd_words::scripts";

/// The exit status where the words can't be read.
const UNREAD: u8 = 1;

/// What comes of words.
#[derive(Debug, Drop)]
pub enum RunOutcome<'a> {
    /// It was done, or a fault was told: the exit status.
    Ended(u8),
    /// They ask to serve the queues of the configuration at this path.
    Serve {
        config: &'a str,
        request: ServeRequest<'a>,
    },
    /// They ask to send a command to a server's control socket.
    Control(ControlRequest<'a>),
    /// They ask to check an account.
    Audit(AuditRequest<'a>),
    /// They ask what was used.
    Usage(UsageRequest<'a>),
}

/// The line that says that the job of this number was sent.
fn sent_line(alloc: Global, number: u16) -> Result<Vec<u8>, AllocError>
    requires { number ≤ 999 }
    ensures { IfOk result (λ line. line.items ≡ sent_line number) }
{
    let mut line = Vec::from_slice(alloc, b"sent ")?;
    line.extend_from_slice(&three_digits(number))?;
    line.push(b'\n')?;
    Ok(line)
}

/// Reads a data file of this name to its end. Answers `ReadFile` where it can't be read or has no octets, since a server refuses a count
/// of 0, and `Memory`.
pub fn data_file<F: OctetRead>(
    alloc: Global,
    name: FileName,
    file: &mut F,
) -> Result<DataFile, ActionFault>
    ensures ok { IfOk result (λ read. (read.name ≡ name)
        × HasGivenAll (F.left file.old) (F.left file.new) read.octets × (0 < length read.octets)) }
    ensures read_fault { F.faults file.new ≢ F.faults file.old → result ≡ Err (Run ReadFile) }
    ensures empty { F.left file.old ≡ Some [] → IsErr result }
    // A file is refused only where reading it failed, or it has no octets.
    ensures cause { result ≡ Err (Run ReadFile) →
        IsUnread (F.faults file.old) (F.faults file.new) (F.left file.old) (F.left file.new)
        ⊎ HasGivenAll (F.left file.old) (F.left file.new) [] }
    ensures fault { IfErr result IsFileFault }
{
    let octets = read_all(alloc, file)?;
    if octets.is_empty() {
        return Err(ActionFault::Run(lpd_script::Fault::ReadFile));
    }
    Ok(DataFile {
        name,
        octets: Octets::from_vec(octets),
    })
}

/// Reads the data file of this name, as `data_file` does. The log is told why the file at this path is
/// none to be sent.
fn data_file_at<R: OpenReaders>(
    alloc: Global,
    files: &R,
    name: FileName,
    path: &str,
    file: &mut R::Reader,
) -> Result<DataFile, ActionFault>
    ensures ok { IfOk result (λ read. (read.name ≡ name)
        × HasGivenAll (R.Reader.left file.old) (R.Reader.left file.new) read.octets
        × (0 < length read.octets)) }
    ensures read_fault { R.Reader.faults file.new ≢ R.Reader.faults file.old
        → result ≡ Err (Run ReadFile) }
    ensures empty { R.Reader.left file.old ≡ Some [] → IsErr result }
    // A file is refused only where reading it failed, or it has no octets.
    ensures cause { result ≡ Err (Run ReadFile) →
        IsUnread (R.Reader.faults file.old) (R.Reader.faults file.new) (R.Reader.left file.old)
        (R.Reader.left file.new)
        ⊎ HasGivenAll (R.Reader.left file.old) (R.Reader.left file.new) [] }
    ensures fault { IfErr result IsFileFault }
{
    let read = data_file(alloc, name, file);
    if let Err(ActionFault::Run(lpd_script::Fault::ReadFile)) = &read {
        files.tell_why(path, file);
    }
    read
}

/// The data files of these names, read from the files at these paths, in order. Answers as
/// `data_file_at` does.
fn data_files<R: OpenReaders>(
    alloc: Global,
    files: &R,
    names: &[FileName],
    paths: &[&str],
) -> Result<Vec<DataFile>, ActionFault>
    requires { IsTrue (list_all is_data_name names.now) }
    ensures ok { IfOk result (λ read. IsTrue (list_all is_sendable_file read.items)
        × (length read.items ≤ length names.now)) }
    ensures named { IfOk result (λ read. map (λ (file : DataFile). file.name) read.items
        ≡ take (length paths.now) names.now) }
    ensures whole { IfOk result (λ read. AreRead (R.contents files.now)
        (map (λ path. path.now) paths.now) read.items) }
    ensures fault { IfErr result IsFileFault }
{
    let mut read = Vec::new(alloc);
    for (name, path) in names.iter().zip(paths.iter()) {
        let mut file = files.open_reader(path);
        if read
            .push(data_file_at(alloc, files, *name, path, &mut file)?)
            .is_err()
        {
            return Err(ActionFault::Memory);
        }
    }
    Ok(read)
}

/// Sends a job of these files to the server that is named. Answers `Network` where it can't be reached, and the faults of `send_job`. The
/// log is told why the connection failed, and how far the job is, by `PROGRESS` where that is asked for.
pub fn send<R: Net + Log>(
    alloc: Global,
    rt: &R,
    sending: &Sending,
    envelope: &Envelope,
    files: &[DataFile],
) -> Result<(), ActionFault>
    requires { IsTrue (is_sendable envelope.now.queue envelope.now.name envelope.now.control
        files.now) }
    ensures { IfErr result IsNetworkFault }
{
    let address = socket_of(sending.server);
    let (queue, name, control) = (&envelope.queue, &envelope.name, &envelope.control);
    let Ok(octets) = job_length(alloc, queue, name, control, files) else {
        return Err(ActionFault::Send(SendFault::Memory));
    };
    let (reader, writer) = connect(rt, address)?;
    let mut reader = StreamReader::new(reader);
    let mut writer = ProgressWriter::new(rt, StreamWriter::new(writer), octets, sending.progress);
    let sent = send_job(alloc, &mut reader, &mut writer, queue, name, control, files);
    tell_cause(rt, &address, reader.cause().or(writer.writer().cause()));
    if let Err(fault) = &sent {
        tell_reason(rt, address, fault);
    }
    sent.map_err(ActionFault::Send)
}

/// Reads a job's files, sends it, and says so. All files are read before the server is called, so a job is never left half sent for want
/// of a file.
fn send_files<R: Files + Net + Log, W: OctetWrite>(
    alloc: Global,
    rt: &R,
    sending: &Sending,
    envelope: &Envelope,
    output: &mut W,
) -> Result<(), ActionFault>
    ensures write_fault { W.faults output.new ≡ write_faults (W.faults output.old) result }
    ensures sent { OnOk result (Writes (W.written output.old) (W.written output.new)
        (sent_line envelope.now.control.number)) }
    ensures fault { IfErr result (λ fault. status_of fault ≢ 1) }
{
    let names = envelope.control.prints.as_slice();
    let files = data_files(alloc, rt, names, sending.files.as_slice())?;
    let line = sent_line(alloc, envelope.control.number)?;
    send(alloc, rt, sending, envelope, files.as_slice())?;
    print(output, line.as_slice())
}

/// Checks a configuration at its path, and answers it. The log is told why it can't be read, and what is remarked of it.
fn check_file<R: Files + Log + Alloc<A = Global>, W: OctetWrite>(
    rt: &R,
    checking: &Checking,
    output: &mut W,
) -> Result<ReadSpool, ActionFault>
    ensures write_fault { W.faults output.new ≡ write_faults (W.faults output.old) result }
    ensures missing { IfErr result
        (IsUnchecked checking.now (W.written output.old) (W.written output.new)) }
{
    let mut file = StreamReader::open(rt, checking.config);
    let end = check(rt.alloc(), &mut file, checking, output);
    tell_cause(rt, &checking.config, file.cause());
    remark_on(rt, rt.alloc(), checking.config, end.as_ref().err());
    end
}

/// The folder that two printers of a spool would print to. AllocError where memory is refused.
fn shared_path<R: Files + Log>(
    rt: &R,
    alloc: Global,
    spool: &ReadSpool,
    checking: &Checking,
) -> Result<Option<String>, AllocError> {
    // What they print to was told before: memory alone can be wanting.
    let (told, said) = (spool.told.as_slice(), checking.printers.as_slice());
    let Ok(printers) = printers_of(alloc, &spool.config, told, said) else {
        return Err(AllocError);
    };
    match shared_folder(rt, printers.as_slice()) {
        Some(shared) => Ok(Some(String::from_str(alloc, shared.path)?)),
        None => Ok(None),
    }
}

/// Looks at the directory of printers' files, at the control socket, and at the folders of jobs and of the account, as far as it is
/// asked for.
fn check_places<R: Files<File = File> + Log + Alloc<A = Global>, N: Net, W: OctetWrite>(
    rt: &R,
    host: &N,
    checking: &Checking,
    spool: &ReadSpool,
    output: &mut W,
) -> Result<(), ActionFault>
    ensures write_fault { W.faults output.new ≡ write_faults (W.faults output.old) result }
    ensures fault { IfErr result (λ fault. status_of fault ≢ 1) }
{
    let alloc = rt.alloc();
    if let Some(path) = shared_path(rt, alloc, spool, checking)? {
        return Err(ActionFault::Folder(path));
    }
    if let Some(path) = checking.out {
        check_out(alloc, rt, path, output)?;
    }
    if let Some(path) = checking.control {
        check_socket(alloc, rt, host, path, output)?;
    }
    if let Some(path) = checking.spool {
        check_folder(alloc, rt, path, output)?;
    }
    match checking.account {
        Some(path) => check_account(alloc, rt, path, output),
        None => Ok(()),
    }
}

/// Tells the log which file of a script can't be read, and why. Not by the part that tells the causes of all other faults: where standard error
/// is no terminal a script's fault is one line.
fn tell_unread_file<R: Log>(rt: &R, path: &str, cause: Option<Error>) {
    if let Some(cause) = cause {
        info!(rt; target: SCRIPTS, "{path}: {cause}");
    }
}

/// Runs the script at a path on the spool that the configuration at a path gives. The log is told
/// which of the two can't be read first, and why.
fn replay_files<R: Files + Log, W: OctetWrite>(
    alloc: Global,
    rt: &R,
    config: &str,
    script: &str,
    output: &mut W,
) -> Result<(), ActionFault>
    ensures write_fault { W.faults output.new ≡ write_faults (W.faults output.old) result }
    ensures fault { IfErr result IsRunFault }
{
    let mut config_file = StreamReader::open(rt, config);
    let mut script_file = StreamReader::open(rt, script);
    let end = replay(alloc, &mut config_file, &mut script_file, output);
    if let Err(ActionFault::Run(lpd_script::Fault::ReadFile)) = &end {
        // The configuration is read first: where that failed the script wasn't read.
        match config_file.cause() {
            None => tell_unread_file(rt, script, script_file.cause()),
            cause => tell_unread_file(rt, config, cause),
        }
    }
    end
}

/// Does what is asked for, but for what the standard input asks, for serving, for commands to a server, and for what is asked
/// of an account.
fn run_asked<R: Files<File = File> + Net + Log + Alloc<A = Global>, N: Net, W: OctetWrite>(
    alloc: Global,
    rt: &R,
    host: &N,
    ask: &Ask,
    output: &mut W,
) -> Result<(), ActionFault>
    ensures write_fault { W.faults output.new ≡ write_faults (W.faults output.old) result }
    ensures missing { IfErr result (λ fault. status_of fault ≡ 1 →
        ChecksPrinters ask.now × (W.written output.new ≡ W.written output.old)) }
{
    match ask {
        Ask::Input | Ask::Serve { .. } | Ask::Control(_) => Ok(()),
        Ask::Audit(_) | Ask::Usage(_) => Ok(()),
        Ask::Check(checking) => {
            let spool = check_file(rt, checking, output)?;
            check_places(rt, host, checking, &spool, output)?;
            check_sizes(&spool.config, checking.sizes)
        }
        Ask::Replay { config, script } => replay_files(alloc, rt, config, script, output),
        Ask::Send { sending, envelope } => send_files(alloc, rt, sending, envelope, output),
        Ask::Question(question) => ask_question(alloc, rt, question, output),
    }
}

/// The exit status of an end. A fault is told, but for one of sizes, which were told before.
fn ended<E: OctetWrite>(alloc: Global, end: Result<(), ActionFault>, faults: &mut E) -> u8
    ensures status { result ≡ end_status end }
    ensures quiet { OnOk end (IsUntouched (E.written faults.old) (E.faults faults.old)
        (E.written faults.new) (E.faults faults.new)) }
{
    let Err(fault) = end else {
        return 0;
    };
    // There is nowhere else to tell of a fault here: the exit status says that there was one. Of sizes it is all that says it.
    if !matches!(fault, ActionFault::NoJobFits) {
        let _ = tell(alloc, &fault, faults);
    }
    fault.status()
}

/// What the program is lent of the system: files, addresses and the log by one, and Unix sockets by the other, since a logger hands
/// none on.
#[derive(Drop)]
pub struct System<'r, R, N> {
    pub rt: &'r R,
    pub host: &'r N,
}

/// Does what the words ask for, of which the first is the program's name: without others, what the
/// input asks (see `lpd_script::run_input`). Where they ask to serve, `Serve` says how, and where they
/// ask to send a command to a server, `Control` says which; where they ask something of an account, `Audit` and `Usage` say
/// what; nothing is done for these yet. Otherwise `Ended` has the exit status: 0 where it was done, or help or the version
/// was asked for and printed; 1 where the words can't be read, which `faults` is told; otherwise
/// that of the fault, which is told there in one line, 1 too where it is a printer that isn't there. Faults are looked for in this order: the
/// words, files read, the configuration, the network. Before a fault for a file or the network the
/// log is told at INFO which file or address it is about, and why.
pub fn run<
    'a,
    R: Files<File = File> + Net + Log + Alloc<A = Global>,
    N: Net,
    I: OctetRead,
    W: OctetWrite,
    E: OctetWrite,
>(
    system: System<'_, R, N>,
    words: &'a [String],
    input: &mut I,
    output: &mut W,
    faults: &mut E,
) -> RunOutcome<'a>
    ensures status { IfEnded result (λ status. status ≤ 5) }
    ensures taken { result ≡ Ended 0 → IsTaken (map string_bytes words.entry.now) }
    // Where words can be read, one alone ends so: `check`, for a printer that isn't there.
    ensures refused { result ≡ Ended 1 → IsRefused (map string_bytes words.entry.now)
        ⊎ AsksOfPrinters (map string_bytes words.entry.now) }
    ensures write_fault { W.faults output.new ≢ W.faults output.old → result ≡ Ended 4 }
    ensures read_fault { I.faults input.new ≢ I.faults input.old → result ≡ Ended 4 }
    ensures quiet { result ≡ Ended 0 → IsUntouched (E.written faults.old) (E.faults faults.old)
        (E.written faults.new) (E.faults faults.new) }
    // Where the words can't be read, or a printer isn't there, the input isn't read and nothing is printed.
    ensures unread { result ≡ Ended 1 → (W.written output.new ≡ W.written output.old)
        × (I.left input.new ≡ I.left input.old) }
    // Words that ask to serve are taken, and nothing is read, printed or told.
    ensures serve { IfServes result (λ config request.
        IsAsked (subcommand_of command_line (map string_bytes words.entry.now))
        (Serve config request)
        × (fault_of command_line (map string_bytes words.entry.now) ≡ [])) }
    ensures serve_output { IfServes result (λ _ _. IsUntouched
        (W.written output.old) (W.faults output.old) (W.written output.new) (W.faults output.new)) }
    ensures serve_input { IfServes result (λ _ _. IsUntouched
        (I.left input.old) (I.faults input.old) (I.left input.new) (I.faults input.new)) }
    ensures serve_faults { IfServes result (λ _ _. IsUntouched
        (E.written faults.old) (E.faults faults.old) (E.written faults.new) (E.faults faults.new)) }
    // Words that ask to send a command are taken, and nothing is read, printed or told.
    ensures control { IfControls result (λ request.
        IsAsked (subcommand_of command_line (map string_bytes words.entry.now)) (Control request)
        × (fault_of command_line (map string_bytes words.entry.now) ≡ [])
        × IsUntouched (W.written output.old) (W.faults output.old) (W.written output.new)
        (W.faults output.new)
        × IsUntouched (I.left input.old) (I.faults input.old) (I.left input.new)
        (I.faults input.new)
        × IsUntouched (E.written faults.old) (E.faults faults.old) (E.written faults.new)
        (E.faults faults.new)) }
    // Nor is it where words ask something of an account.
    ensures reports { IfReports result (λ ask.
        IsAsked (subcommand_of command_line (map string_bytes words.entry.now)) ask
        × (fault_of command_line (map string_bytes words.entry.now) ≡ [])
        × IsUntouched (W.written output.old) (W.faults output.old) (W.written output.new)
        (W.faults output.new)
        × IsUntouched (I.left input.old) (I.faults input.old) (I.left input.new)
        (I.faults input.new)
        × IsUntouched (E.written faults.old) (E.faults faults.old) (E.written faults.new)
        (E.faults faults.new)) }
{
    let System { rt, host } = system;
    let alloc = rt.alloc();
    match read_words(alloc, words) {
        Ok(Ask::Input) => RunOutcome::Ended(run_input(alloc, input, output, faults)),
        Ok(Ask::Serve { config, request }) => RunOutcome::Serve { config, request },
        Ok(Ask::Control(request)) => RunOutcome::Control(request),
        Ok(Ask::Audit(request)) => RunOutcome::Audit(request),
        Ok(Ask::Usage(request)) => RunOutcome::Usage(request),
        Ok(ask) => {
            let end = run_asked(alloc, rt, host, &ask, output);
            RunOutcome::Ended(ended(alloc, end, faults))
        }
        Err(unread) => RunOutcome::Ended(tell_unread(alloc, unread, output, faults)),
    }
}

/// Prints the text that words asked for, or tells why they can't be read. Answers the exit status:
/// 0, 1, or 4 for memory and where the text can't be written.
pub fn tell_unread<W: OctetWrite, E: OctetWrite>(
    alloc: Global,
    unread: Unread,
    output: &mut W,
    faults: &mut E,
) -> u8
    ensures status { IsUnreadStatus unread result }
    ensures write_fault { W.faults output.new ≢ W.faults output.old → result ≡ 4 }
    ensures quiet { result ≡ 0 → IsUntouched (E.written faults.old) (E.faults faults.old)
        (E.written faults.new) (E.faults faults.new) }
    ensures refused { result ≡ 1 → W.written output.new ≡ W.written output.old }
{
    match unread {
        Unread::Shown(text) => ended(alloc, print(output, text.as_bytes()), faults),
        Unread::Memory => ended(alloc, Err(ActionFault::Memory), faults),
        Unread::Refused(text) => {
            // As for a fault: the exit status says it too.
            let _ = write_all(faults, text.as_bytes());
            UNREAD
        }
    }
}
