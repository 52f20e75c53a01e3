//! Ends a command: its line on standard error, and its status.

ghost use Rattle.std.specs.Prelude.{◌≡◌, ◌≤◌, ◌∷◌, ◌++◌, [], List, ℕ, IsTrue, IfOk, OnErr, Err, Ok, false, true, codes, decimal};
ghost use Rattle.std.specs.Prelude.{None, Some, if◌then◌else◌};
ghost use Rattle.aria_host.specs.declared.fault.Fault.TheVariants as faults;
ghost use Rattle.aria_host.specs.FileText.{file_text};
ghost use Rattle.aria_tools.specs.declared.stop.Stop.TheVariants as why;
ghost use Rattle.aria_tools.specs.Endings.{IsEnd, IsEndText, TellsErr, TellsText};
ghost use Rattle.aria_tools.specs.Statuses.{NamesFault, code_of, fault_text, is_named, status_at, status_text};

use crate::status::Status;
use crate::stop::Stop;
use aria_host::{Fault, FileName, Host, Stream};
use aria_model::Met;
use aria_page::{Bytes, List as Seq};
use itoa::Buffer;
use std::alloc::{AllocError, Global};

/// How a command ended: its status (docs/LANGUAGE.md, "Statuses"), and the statements that met an exception.
#[derive(Drop)]
pub struct Ended {
    pub status: u8,
    pub met: Seq<Met>,
}

// These words and a file's name, as one line.
fn file_line(alloc: Global, words: &[u8], file: &FileName) -> Result<Bytes, AllocError>
    ensures { IfOk result (λ line. line ≡ words.now ++ (file_text file.now ++ 10 ∷ [])) }
{
    let mut line = Bytes::from_slice(alloc, words)?;
    let name = file.text(alloc)?;
    line.extend_from_slice(name.as_slice())?;
    line.push(b'\n')?;
    Ok(line)
}

// These words, a file's name and the number of a page in it, as one line.
fn page_line(alloc: Global, words: &[u8], file: &FileName, page: u32) -> Result<Bytes, AllocError>
    ensures { IfOk result (λ line. line ≡ words.now ++ (file_text file.now ++ (codes " page " ++ (decimal page ++ 10 ∷ [])))) }
{
    let mut line = Bytes::from_slice(alloc, words)?;
    let name = file.text(alloc)?;
    line.extend_from_slice(name.as_slice())?;
    line.extend_from_slice(b" page ")?;
    let mut buffer = Buffer::new();
    line.extend_from_slice(buffer.format(page).as_bytes())?;
    line.push(b'\n')?;
    Ok(line)
}

fn log_spent_line(alloc: Global, file: u32) -> Result<Bytes, AllocError>
    ensures { IfOk result (λ line. line ≡ fault_text (faults.LogSpent file)) }
{
    let mut line = Bytes::from_slice(alloc, b"aria: log spent ")?;
    let mut buffer = Buffer::new();
    line.extend_from_slice(buffer.format(file).as_bytes())?;
    line.push(b'\n')?;
    Ok(line)
}

// The line that names a fault, where the line of its status does.
fn fault_text(alloc: Global, fault: &Fault) -> Result<Option<Bytes>, AllocError>
    ensures text { IfOk result (λ text. text ≡ (if is_named fault.now then Some (fault_text fault.now) else None)) }
    ensures memory { OnErr result (NamesFault (code_of (status_at fault.now))) }
{
    Ok(Some(match fault {
        Fault::LogDamaged { file, page } => {
            page_line(alloc, b"aria: damaged log ", &FileName::Log(*file), *page)?
        }
        Fault::PageDamaged { file, page } => page_line(alloc, b"aria: damaged page ", file, *page)?,
        Fault::ControlDamaged => Bytes::from_slice(alloc, b"aria: damaged control\n")?,
        Fault::FileMissing { file } => file_line(alloc, b"aria: missing ", file)?,
        Fault::NotOurs { file } => file_line(alloc, b"aria: not ours ", file)?,
        Fault::LogSpent { file } => log_spent_line(alloc, *file)?,
        _ => return Ok(None),
    }))
}

// Tells a line on standard error. A fault while it is told changes nothing more.
fn tell_line<H: Host>(host: &mut H, text: &[u8])
    ensures told { IsTrue H.tells → TellsText text.now (H.state host.old) (H.state host.new) }
    ensures only { IsTrue H.tells → TellsErr (H.state host.old) (H.state host.new) }
    ensures later { (H.state host.old).tell_faults ≤ (H.state host.new).tell_faults }
    ensures disk { (H.state host.new).disk_faults ≡ (H.state host.old).disk_faults }
{
    let _ = host.tell(Stream::Err, text);
}

/// Ends a command with this status: tells its line on standard error, and gives its code.
pub fn end_with<H: Host>(host: &mut H, status: Status) -> u8
    ensures code { result ≡ code_of status }
    ensures told { IsTrue H.tells → TellsText (status_text (code_of status)) (H.state host.old) (H.state host.new) }
    ensures only { IsTrue H.tells → TellsErr (H.state host.old) (H.state host.new) }
    ensures later { (H.state host.old).tell_faults ≤ (H.state host.new).tell_faults }
    ensures disk { (H.state host.new).disk_faults ≡ (H.state host.old).disk_faults }
{
    tell_line(host, status.line().as_bytes());
    status.code()
}

// Ends a command at a fault. Without memory for a line that names it, it ends with want of memory.
fn end_at<H: Host>(alloc: Global, host: &mut H, fault: &Fault) -> u8
    ensures status { IsEnd (Err (why.Fault fault.now)) result }
    ensures told { IsTrue H.tells → (text : List ℕ) × IsEndText (Err (why.Fault fault.now)) result text × TellsText text (H.state host.old) (H.state host.new) }
    ensures only { IsTrue H.tells → TellsErr (H.state host.old) (H.state host.new) }
    ensures later { (H.state host.old).tell_faults ≤ (H.state host.new).tell_faults }
    ensures disk { (H.state host.new).disk_faults ≡ (H.state host.old).disk_faults }
{
    match fault_text(alloc, fault) {
        Ok(Some(text)) => {
            tell_line(host, text.as_slice());
            Status::at(fault).code()
        }
        Ok(None) => end_with(host, Status::at(fault)),
        Err(_) => end_with(host, Status::Memory),
    }
}

/// Ends a run: tells the line of its status on standard error, and gives the status. Without memory for a line that
/// names a fault it ends with want of memory.
pub fn end<H: Host>(alloc: Global, host: &mut H, outcome: &Result<bool, Stop>) -> u8
    ensures status { IsEnd outcome.now result }
    ensures told { IsTrue H.tells → (text : List ℕ) × IsEndText outcome.now result text × TellsText text (H.state host.old) (H.state host.new) }
    ensures only { IsTrue H.tells → TellsErr (H.state host.old) (H.state host.new) }
    ensures later { (H.state host.old).tell_faults ≤ (H.state host.new).tell_faults }
    ensures disk { (H.state host.new).disk_faults ≡ (H.state host.old).disk_faults }
    ensures calm { result ≤ 1 → host.new ≡ host.old }
{
    match outcome {
        Ok(false) => Status::Done.code(),
        Ok(true) => Status::Refused.code(),
        Err(Stop::TooLong) => end_with(host, Status::TooLong),
        Err(Stop::Fault(fault)) => end_at(alloc, host, fault),
    }
}
