ghost use Rattle.std.specs.Prelude.{IsTrue};

use crate::{DirHost, Extent, Fate, Fault, FileName, Host, MemHost, MemSource, Source, Stream};
use aria_page::{List, Page};
use std::alloc::Global;
use std::fs;
use std::test::Fail;

#[test]
fn with_room_a_tell_is_told(rt: HostRuntime) -> Result<(), Fail> {
    let mut host = MemHost::new(rt.alloc());
    host.reserve(3, 14)?;
    assert!(rt; matches!(host.tell(Stream::Out, b"ok\n"), Ok(())));
    assert!(rt; matches!(host.tell(Stream::Err, b"aria: disk\n"), Ok(())));
    assert!(rt; matches!(host.tell(Stream::Out, b""), Ok(())));
    assert_eq!(rt; host.told(Stream::Out), b"ok\n".as_slice());
    assert_eq!(rt; host.told(Stream::Err), b"aria: disk\n".as_slice());
    assert_eq!(rt; host.calls(), 3);
    Ok(())
}

#[test]
fn a_tell_fails_where_it_is_planned(rt: HostRuntime) -> Result<(), Fail> {
    let mut host = MemHost::new(rt.alloc());
    host.reserve(3, 11)?;
    host.plan_fault(1)?;
    host.tell(Stream::Out, b"one")?;
    assert!(rt; matches!(host.tell(Stream::Out, b"two"), Err(Fault::Tell)));
    host.tell(Stream::Out, b"three")?;
    assert_eq!(rt; host.told(Stream::Out), b"onethree".as_slice());
    assert_eq!(rt; host.calls(), 3);
    Ok(())
}

#[test]
fn a_source_goes_on_after_a_read_that_failed(rt: HostRuntime) -> Result<(), Fail> {
    let mut source = MemSource::new(rt.alloc(), b"abcde")?;
    source.plan_fault(1)?;
    let mut piece = [0; 3];
    assert_eq!(rt; source.read(&mut piece)?, 3);
    assert_eq!(rt; piece, *b"abc");
    assert!(rt; matches!(source.read(&mut piece), Err(Fault::Input)));
    assert_eq!(rt; source.read(&mut piece)?, 2);
    assert_eq!(rt; piece, *b"dec");
    assert_eq!(rt; source.read(&mut piece)?, 0);
    assert_eq!(rt; source.read(&mut piece)?, 0);
    Ok(())
}

#[test]
fn the_standard_streams_take_a_line(rt: HostRuntime) -> Result<(), Fail> {
    let mut host = DirHost::new(&rt);
    assert!(rt; matches!(host.tell(Stream::Out, b"told on standard output\n"), Ok(())));
    assert!(rt; matches!(host.tell(Stream::Err, b"told on standard error\n"), Ok(())));
    Ok(())
}

const JOURNAL: FileName = FileName::Log(1);

// The place of a page by which the tests tell it from others.
const MARK_AT: usize = 100;

fn page_of(byte: u8) -> Page {
    let mut page = Page::zero();
    page.put(MARK_AT, &[byte]);
    page
}

// Files are made, written past their end, read, cut and removed, and the folder lists them.
fn use_files<H: Host>(host: &mut H, alloc: Global) -> Result<bool, Fault>
    requires { IsTrue H.tells → ⊥ }
{
    let mut read = Page::zero();
    host.create(&JOURNAL)?;
    host.write_page(&JOURNAL, 2, &page_of(7))?;
    host.sync(&JOURNAL)?;
    let grown = host.look(&JOURNAL)?;
    host.read_page(&JOURNAL, 2, &mut read)?;
    let kept = read.bytes()[MARK_AT] == 7;
    host.read_page(&JOURNAL, 1, &mut read)?;
    let blank = read.bytes()[MARK_AT] == 0;
    host.cut(&JOURNAL, 1)?;
    let cut = host.look(&JOURNAL)?;
    let names = host.names(alloc)?;
    let listed = names.as_slice().iter().any(|name| name.is_same(&JOURNAL));
    host.remove(&JOURNAL)?;
    let gone = host.look(&JOURNAL)?.is_none();
    Ok(
        kept && blank
            && listed
            && gone
            && matches!(
                grown,
                Some(Extent {
                    pages: 3,
                    odd: false
                })
            )
            && matches!(
                cut,
                Some(Extent {
                    pages: 1,
                    odd: false
                })
            ),
    )
}

#[test]
fn the_current_folder_keeps_files(rt: HostRuntime) -> Result<(), Fail> {
    let mut host = DirHost::new(&rt);
    let _ = fs::remove_file(&rt, "aria_log.00000001");
    assert!(rt; matches!(use_files(&mut host, rt.alloc()), Ok(true)));
    Ok(())
}

// More log files than stay open: their numbers.
const FIRST: u32 = 100;

const LAST: u32 = 139;

// Makes each file, with its number in the first page.
fn make_many<H: Host>(host: &mut H) -> Result<(), Fault>
    requires { IsTrue H.tells → ⊥ }
{
    for number in FIRST..=LAST {
        let file = FileName::Log(number);
        host.create(&file)?;
        host.write_page(&file, 0, &page_of(number as u8))?;
    }
    Ok(())
}

// Whether each file has its number.
fn read_many<H: Host>(host: &mut H) -> Result<bool, Fault>
    requires { IsTrue H.tells → ⊥ }
{
    let mut page = Page::zero();
    let mut kept = true;
    for number in FIRST..=LAST {
        host.read_page(&FileName::Log(number), 0, &mut page)?;
        kept = kept && page.bytes()[MARK_AT] == number as u8;
    }
    Ok(kept)
}

fn remove_many<H: Host>(host: &mut H) -> Result<(), Fault>
    requires { IsTrue H.tells → ⊥ }
{
    for number in FIRST..=LAST {
        host.remove(&FileName::Log(number))?;
    }
    Ok(())
}

#[test]
fn more_files_are_kept_than_stay_open(rt: HostRuntime) -> Result<(), Fail> {
    let mut host = DirHost::new(&rt);
    assert!(rt; matches!(make_many(&mut host), Ok(())));
    assert!(rt; matches!(read_many(&mut host), Ok(true)));
    assert!(rt; matches!(read_many(&mut host), Ok(true)));
    assert!(rt; matches!(remove_many(&mut host), Ok(())));
    assert!(rt; matches!(host.look(&FileName::Log(FIRST)), Ok(None)));
    Ok(())
}

// The mark of a page of the journal.
fn mark(host: &MemHost, page: u32) -> Option<u8> {
    Some(host.page(&JOURNAL, page)?.bytes()[MARK_AT])
}

#[test]
fn a_crash_keeps_loses_and_tears_as_the_fates_say(rt: HostRuntime) -> Result<(), Fail> {
    let alloc = rt.alloc();
    let mut host = MemHost::new(alloc);
    host.reserve(6, 0)?;
    host.create(&JOURNAL)?;
    host.write_page(&JOURNAL, 0, &page_of(1))?;
    host.sync(&JOURNAL)?;
    host.write_page(&JOURNAL, 0, &page_of(2))?;
    host.write_page(&JOURNAL, 1, &page_of(3))?;
    host.write_page(&JOURNAL, 2, &page_of(4))?;
    let mut fates = List::new(alloc);
    fates.push(Fate::Lost)?;
    fates.push(Fate::Torn(page_of(9)))?;
    fates.push(Fate::Kept)?;
    host.crash(&fates)?;
    assert_eq!(rt; mark(&host, 0), Some(1));
    assert_eq!(rt; mark(&host, 1), Some(9));
    assert_eq!(rt; mark(&host, 2), Some(4));
    assert_eq!(rt; mark(&host, 3), None);
    Ok(())
}

#[test]
fn missing_fates_are_lost_and_a_stop_ends_with_the_crash(rt: HostRuntime) -> Result<(), Fail> {
    let alloc = rt.alloc();
    let mut host = MemHost::new(alloc);
    host.reserve(4, 6)?;
    host.set_page(&JOURNAL, 1, &page_of(5))?;
    host.write_page(&JOURNAL, 0, &page_of(6))?;
    host.stop_at(1);
    assert!(rt; matches!(host.sync(&JOURNAL), Err(Fault::Disk)));
    assert!(rt; matches!(host.tell(Stream::Out, b"ok\n"), Err(Fault::Tell)));
    assert_eq!(rt; mark(&host, 0), Some(6));
    host.crash(&List::new(alloc))?;
    assert_eq!(rt; mark(&host, 0), Some(0));
    assert_eq!(rt; mark(&host, 1), Some(5));
    host.tell(Stream::Out, b"ok\n")?;
    assert_eq!(rt; host.calls(), 4);
    Ok(())
}

#[test]
fn the_names_of_the_forms_are_read_and_no_others(rt: HostRuntime) -> Result<(), Fail> {
    let cases: [(&str, bool); 9] = [
        ("aria_log_control", true),
        ("aria_log.00000001", true),
        ("aria_log.16777215", true),
        ("t.MAI", true),
        ("a_1.TMD", true),
        ("aria_log.16777216", false),
        ("aria_log.0000001", false),
        ("1t.MAD", false),
        (".TMI", false),
    ];
    for (text, is_form) in cases {
        assert_eq!(rt; FileName::read(text.as_bytes()).is_some(), is_form);
    }
    Ok(())
}
