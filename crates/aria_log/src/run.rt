//! Reads the bytes of a run, page after page.

ghost use Rattle.std.specs.Prelude.{◌≡◌, ◌⊎◌, ◌≤◌, ◌<◌, ◌+◌, ◌*◌, ◌/◌, ◌%◌, ◌^◌, ◌++◌, true, List, ℕ, Some, length, take, drop, IsTrue, IsSome, OnOk, IfOk, IfSome};
ghost use Rattle.aria_host.specs.Calls.{Unchanged};
ghost use Rattle.aria_host.specs.declared.fault.Fault.TheVariants.{LogDamaged as Damaged};
ghost use Rattle.aria_record.specs.Groups.{IsGroup};
ghost use Rattle.aria_record.specs.Reading.{Decodes};
ghost use Rattle.aria_log.specs.Pieces.{Piece, log_files};
ghost use Rattle.aria_log.specs.Log.{place};
ghost use Rattle.aria_log.specs.Reading.{IsReader, seen};
ghost use Rattle.aria_log.specs.Stepping.{shown, IsLeft, EndsRun, GoesOn, ReadsOn, are_enough, HasPageCause, HasNextCause};

use crate::log::Log;
use crate::log_page::{BODY_AT, PLACES, file_of, page_of};
use crate::reader::Reader;
use aria_host::{Fault, Host};
use aria_page::{Bytes, counted_u32_at};
use aria_record::{Group, decode_group};
use std::alloc::{AllocError, Global};

/// The log is damaged at the page of this number.
pub(crate) fn damaged(number: u64) -> Fault
    requires { number < 2 ^ 34 }
    ensures { result ≡ Damaged (number / 1024) (number % 1024) }
{
    Fault::LogDamaged {
        file: file_of(number),
        page: page_of(number),
    }
}

// Whether the bytes tell the length of the group in front, and are as many.
fn are_enough(bytes: &[u8]) -> bool
    ensures { result ≡ are_enough bytes.now }
{
    counted_u32_at(bytes).is_some()
}

/// The group in front of the bytes, and how many bytes it takes; `None` where none stands there.
pub(crate) fn group_of(alloc: Global, bytes: &[u8]) -> Result<Option<(Group, usize)>, AllocError>
    ensures decodes { IfOk result (Decodes bytes.now) }
    ensures group { IfOk result (λ found. IfSome found (λ x. IsGroup x.0)) }
{
    decode_group(alloc, bytes)
}

impl Log {
    /// Reads the page of this number, which has bytes of the log. The reader holds it then, unless it is the one that is
    /// filled.
    pub(crate) fn load<H: Host>(
        &self,
        host: &mut H,
        reader: &mut Reader,
        number: u64,
    ) -> Result<(), Fault>
        requires here { 8176 * number < place self.now }
        requires reader { IsTrue H.tells → IsReader reader.old (log_files (H.state host.old).folder) }
        requires valid { IsTrue H.tells → (piece : Piece) × (seen self.now (log_files (H.state host.old).folder) number ≡ Some piece) }
        ensures loaded { IsTrue H.tells → OnOk result (shown self.now reader.new number ≡ seen self.now (log_files (H.state host.old).folder) number) }
        ensures some { OnOk result (IsSome (shown self.now reader.new number)) }
        ensures reader { IsTrue H.tells → IsReader reader.new (log_files (H.state host.old).folder) }
        ensures same { IsTrue H.tells → Unchanged (H.state host.old) (H.state host.new) }
        ensures cause { HasPageCause H.tells self.now.number (H.state host.old) (H.state host.new) result }
    {
        if number == self.number {
            return Ok(());
        }
        if reader.load(host, number)? {
            Ok(())
        } else {
            Err(damaged(number))
        }
    }

    /// The used bytes of the page of this number, which was loaded.
    pub(crate) fn bytes_of<'a>(&'a self, reader: &'a Reader, number: u64) -> &'a [u8]
        ensures shown { (piece : Piece) → shown self.now reader.now number ≡ Some piece → result.now ≡ piece.1 }
        ensures some { IsSome (shown self.now reader.now number) → 1 ≤ length result.now }
        ensures fits { length result.now ≤ 8176 }
        ensures last { number ≡ self.now.number → length result.now ≡ self.now.used }
    {
        if number == self.number {
            &self.page.bytes()[BODY_AT..BODY_AT + self.used as usize]
        } else {
            reader.body()
        }
    }

    /// Whether the page of this number, which was loaded, begins a run.
    pub(crate) fn begins(&self, reader: &Reader, number: u64) -> bool
        ensures { (piece : Piece) → shown self.now reader.now number ≡ Some piece → result ≡ piece.0 }
    {
        if number == self.number {
            number == self.first
        } else {
            reader.begins
        }
    }

    // Whether the run goes on behind this place, up to which its pages were read. The next page is loaded then.
    fn goes_on<H: Host>(&self, host: &mut H, reader: &mut Reader, read: u64) -> Result<bool, Fault>
        requires read { read ≤ place self.now }
        requires reader { IsTrue H.tells → IsReader reader.old (log_files (H.state host.old).folder) }
        requires left { IsTrue H.tells → (rest : List Piece) × IsLeft self.now (log_files (H.state host.old).folder) read rest }
        ensures goes { IsTrue H.tells → (rest : List Piece) → IsLeft self.now (log_files (H.state host.old).folder) read rest
            → IfOk result (GoesOn (shown self.now reader.new (read / 8176)) rest) }
        ensures some { IfOk result (λ goes. goes ≡ true → (8176 * (read / 8176) ≡ read) × (read < place self.now) × IsSome (shown self.now reader.new (read / 8176))) }
        ensures reader { IsTrue H.tells → IsReader reader.new (log_files (H.state host.old).folder) }
        ensures same { IsTrue H.tells → Unchanged (H.state host.old) (H.state host.new) }
        ensures cause { HasPageCause H.tells self.now.number (H.state host.old) (H.state host.new) result }
    {
        if read >= self.place() || read % PLACES != 0 {
            return Ok(false);
        }
        self.load(host, reader, read / PLACES)?;
        Ok(!self.begins(reader, read / PLACES))
    }

    /// Adds bytes of the run to those from this place on, which reach up to the end of a page, until they are enough for
    /// the group in front or the run ends.
    pub(crate) fn gather<H: Host>(
        &self,
        host: &mut H,
        reader: &mut Reader,
        from: u64,
        bytes: &mut Bytes,
    ) -> Result<(), Fault>
        requires read { from + length bytes.old ≤ place self.now }
        requires reader { IsTrue H.tells → IsReader reader.old (log_files (H.state host.old).folder) }
        requires left { IsTrue H.tells → (rest : List Piece) × IsLeft self.now (log_files (H.state host.old).folder) (from + length bytes.old) rest }
        ensures gathered { IsTrue H.tells → (rest : List Piece) → IsLeft self.now (log_files (H.state host.old).folder) (from + length bytes.old) rest
            → OnOk result ((last : List Piece) × (more : List ℕ) × (bytes.new ≡ bytes.old ++ more)
            × ReadsOn self.now (log_files (H.state host.old).folder) (from + length bytes.old) (from + length bytes.new) rest last more × ((are_enough bytes.new ≡ true) ⊎ EndsRun last)) }
        ensures read { OnOk result (from + length bytes.new ≤ place self.now) }
        ensures some { OnOk result (length bytes.old ≤ length bytes.new) }
        ensures reader { IsTrue H.tells → IsReader reader.new (log_files (H.state host.old).folder) }
        ensures same { IsTrue H.tells → Unchanged (H.state host.old) (H.state host.new) }
        ensures cause { HasNextCause H.tells self.now.number (H.state host.old) (H.state host.new) result }
    {
        while !are_enough(bytes.as_slice()) {
            let read = from + bytes.len() as u64;
            if !self.goes_on(host, reader, read)? {
                return Ok(());
            }
            bytes.extend_from_slice(self.bytes_of(reader, read / PLACES))?;
        }
        Ok(())
    }

    /// The place behind the run, whose pages were read up to a place.
    pub(crate) fn run_end<H: Host>(
        &self,
        host: &mut H,
        reader: &mut Reader,
        read: u64,
    ) -> Result<u64, Fault>
        requires read { read ≤ place self.now }
        requires reader { IsTrue H.tells → IsReader reader.old (log_files (H.state host.old).folder) }
        requires left { IsTrue H.tells → (rest : List Piece) × IsLeft self.now (log_files (H.state host.old).folder) read rest }
        ensures end { IsTrue H.tells → (rest : List Piece) → IsLeft self.now (log_files (H.state host.old).folder) read rest
            → IfOk result (λ end. (last : List Piece) × (more : List ℕ) × ReadsOn self.now (log_files (H.state host.old).folder) read end rest last more × EndsRun last) }
        ensures within { IfOk result (λ end. (read ≤ end) × (end ≤ place self.now)) }
        ensures reader { IsTrue H.tells → IsReader reader.new (log_files (H.state host.old).folder) }
        ensures same { IsTrue H.tells → Unchanged (H.state host.old) (H.state host.new) }
        ensures cause { HasPageCause H.tells self.now.number (H.state host.old) (H.state host.new) result }
    {
        let mut end = read;
        while self.goes_on(host, reader, end)? {
            end += self.bytes_of(reader, end / PLACES).len() as u64;
        }
        Ok(end)
    }
}
