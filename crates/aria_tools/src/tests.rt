mod read_log;

use crate::{Command, WordList, aria};
use aria_host::{Fate, FileName, MemHost, MemSource, Stream};
use aria_page::{Bytes, List, Page};
use std::alloc::{AllocError, Global};
use std::test::Fail;

/// Room for what any script here tells.
const TOLD_BYTES: u64 = 1 << 20;

#[derive(Drop)]
struct Ran {
    status: u8,
    host: MemHost,
}

fn word_list(alloc: Global, texts: &[&str]) -> Result<WordList, AllocError> {
    let mut words = WordList::new(alloc);
    for text in texts {
        words.push(String::from_str(alloc, text)?)?;
    }
    Ok(words)
}

fn roomy_host(alloc: Global) -> Result<MemHost, AllocError> {
    let mut host = MemHost::new(alloc);
    host.reserve(100, TOLD_BYTES)?;
    Ok(host)
}

fn run_over(
    alloc: Global,
    texts: &[&str],
    mut host: MemHost,
    mut input: MemSource,
) -> Result<Ran, AllocError> {
    let words = word_list(alloc, texts)?;
    let ended = aria(alloc, &words, &mut host, &mut input);
    Ok(Ran {
        status: ended.status,
        host,
    })
}

fn run_script(alloc: Global, script: &[u8]) -> Result<Ran, AllocError> {
    let input = MemSource::new(alloc, script)?;
    run_over(alloc, &["run"], roomy_host(alloc)?, input)
}

#[test]
fn scripts_worked_by_hand(rt: HostRuntime) -> Result<(), Fail> {
    for (script, told, status) in [
        (b"".as_slice(), b"".as_slice(), 0),
        (b"\n\n".as_slice(), b"".as_slice(), 0),
        (b" \t\r\n\t".as_slice(), b"".as_slice(), 0),
        (
            b"create t trans id:int v:int keys k(id)
insert t (2,20) (-1,5)
select t k
insert t (3,1) (2,9)
select x k
frob"
                .as_slice(),
            b"ok
ok 2
row -1,5
row 2,20
ok 2
no duplicate k
no table x
no bad statement at 0
"
                .as_slice(),
            1,
        ),
        (
            b"create i trans v:int keys k1(v)
insert i (0) (9223372036854775807) (-1) (-9223372036854775808)
select i k1
"
                .as_slice(),
            b"ok
ok 4
row -9223372036854775808
row -1
row 0
row 9223372036854775807
ok 4
"
                .as_slice(),
            0,
        ),
        (
            b"create t trans id:int v:int keys k(id)
insert t (2,20)
insert t (5,5) (2,9)
select t k
"
                .as_slice(),
            b"ok
ok 1
no duplicate k
row 2,20
ok 1
"
                .as_slice(),
            1,
        ),
        (
            b"create t trans a:int b:int keys k(a)
create t trans a:int b:int keys k(a)
insert t (1)
insert t (1,2)
insert t (1) (1,2)
insert t (1,3) (1)
select t a
select t k
"
                .as_slice(),
            b"ok
no table exists t
no bad value b
ok 1
no bad value b
no duplicate k
no key a
row 1,2
ok 1
"
                .as_slice(),
            1,
        ),
        (
            b"create t trans id:int name:text(20) keys k1(id) k2(name)
insert t (2,'b') (1,'a') (3,null)
select t k2
update t k1 (1) set name='q'
delete t k2 ('b')
delete t k1 (9)
select t k1
update t k9 set name=null
update t k1 set foo=1
update t k1 set id=null
flush t
checkpoint
drop t
drop t
"
                .as_slice(),
            b"ok
ok 3
row 3,null
row 1,'a'
row 2,'b'
ok 3
ok 1
ok 1
ok 0
row 1,'q'
row 3,null
ok 2
no key k9
no column foo
no bad value id
ok
ok
ok
no table t
"
                .as_slice(),
            1,
        ),
        (
            b"create t trans id:int name:text(20) keys k1(id) k2(name)
insert t (2,'b') (1,'a')
select t k1
insert t (3,'c') (4,'d') (1,'z')
select t k1
update t k1 (1) set name='q'
delete t k2 ('b')
delete t k1 (9)
update t k9 set name=null
update t k1 set foo=1
select t k1
drop t
drop t
"
                .as_slice(),
            b"ok
ok 2
row 1,'a'
row 2,'b'
ok 2
no duplicate k1
row 1,'a'
row 2,'b'
ok 2
ok 1
ok 1
ok 0
no key k9
no column foo
row 1,'q'
ok 1
ok
no table t
"
                .as_slice(),
            1,
        ),
        (
            b"create n trans id:int a:text(5) keys k1(id) k2(a)
insert n (3,'x') (1,'x') (2,null) (4,'')
select n k2
create z trans v:text(3) keys k1(v)
insert z (x'610000') (x'61') (x'6100')
select z k1
"
                .as_slice(),
            b"ok
ok 4
row 2,null
row 4,''
row 1,'x'
row 3,'x'
ok 4
ok
ok 3
row 'a'
row x'6100'
row x'610000'
ok 3
"
                .as_slice(),
            0,
        ),
        (
            b"create m trans max_rows=2 id:int keys k1(id)
insert m (1) (2)
insert m (3)
insert m (1)
create s trans a:text(498) keys k(a)
"
                .as_slice(),
            b"ok
ok 2
no rows full
no duplicate k1
ok
"
                .as_slice(),
            1,
        ),
    ] {
        let ran = run_script(rt.alloc(), script)?;
        assert_eq!(rt; ran.host.told(Stream::Out), told);
        assert_eq!(rt; ran.host.told(Stream::Err), b"".as_slice());
        assert_eq!(rt; ran.status, status);
    }
    Ok(())
}

// An insert of a row with a text of so many bytes.
fn long_text(alloc: Global, bytes: usize) -> Result<Vec<u8>, AllocError> {
    let mut line = Vec::new(alloc);
    line.extend_from_slice(b"create b trans id:int v:text(65535) keys k1(id)\ninsert b (1,'")?;
    for _ in 0..bytes {
        line.push(b'x')?;
    }
    line.extend_from_slice(b"')")?;
    Ok(line)
}

#[test]
fn the_longest_row_is_put_and_a_longer_one_is_refused(rt: HostRuntime) -> Result<(), Fail> {
    for (bytes, told) in [
        (65_522, b"ok\nok 1\n".as_slice()),
        (65_523, b"ok\nno row too long\n".as_slice()),
    ] {
        let script = long_text(rt.alloc(), bytes)?;
        let ran = run_script(rt.alloc(), &script)?;
        assert_eq!(rt; ran.host.told(Stream::Out), told);
    }
    Ok(())
}

#[test]
fn each_refusal_of_a_line_is_told(rt: HostRuntime) -> Result<(), Fail> {
    for (line, told) in [
        (b"select".as_slice(), b"no bad statement at 6\n".as_slice()),
        (
            b"insert t 5".as_slice(),
            b"no bad statement at 9\n".as_slice(),
        ),
        (
            b"insert t (9223372036854775808)".as_slice(),
            b"no number too wide at 10\n".as_slice(),
        ),
        (
            b"create s packed a:int keys k(a)".as_slice(),
            b"no bad definition packed\n".as_slice(),
        ),
        (
            b"create s trans a:int keys k(a):spatial".as_slice(),
            b"no bad definition spatial\n".as_slice(),
        ),
        (
            b"create s trans a:int a:int keys k(a)".as_slice(),
            b"no bad definition columns\n".as_slice(),
        ),
        (
            b"create s trans a:text(499) keys k(a)".as_slice(),
            b"no bad definition entry\n".as_slice(),
        ),
        (
            b"create s trans a:int keys k(b)".as_slice(),
            b"no bad definition keys\n".as_slice(),
        ),
        (
            b"create s plain a:int keys k(a)".as_slice(),
            b"no not built\n".as_slice(),
        ),
        (b"drop t".as_slice(), b"no table t\n".as_slice()),
        (b"flush t".as_slice(), b"no table t\n".as_slice()),
    ] {
        let ran = run_script(rt.alloc(), line)?;
        assert_eq!(rt; ran.host.told(Stream::Out), told);
        assert_eq!(rt; ran.host.told(Stream::Err), b"".as_slice());
        assert_eq!(rt; ran.status, 1);
    }
    Ok(())
}

fn are_bad_words(alloc: Global, texts: &[&str]) -> Result<bool, AllocError> {
    let input = MemSource::new(alloc, b"frob\n")?;
    let ran = run_over(alloc, texts, roomy_host(alloc)?, input)?;
    let out = ran.host.told(Stream::Out);
    let err = ran.host.told(Stream::Err);
    Ok(ran.status == 2 && out.is_empty() && err == b"aria: bad words\n".as_slice())
}

#[test]
fn other_words_are_bad_words(rt: HostRuntime) -> Result<(), Fail> {
    assert!(rt; are_bad_words(rt.alloc(), &[])?);
    assert!(rt; are_bad_words(rt.alloc(), &["frob"])?);
    assert!(rt; are_bad_words(rt.alloc(), &["Run"])?);
    assert!(rt; are_bad_words(rt.alloc(), &["run", "x"])?);
    assert!(rt; are_bad_words(rt.alloc(), &["run", ""])?);
    assert!(rt; !are_bad_words(rt.alloc(), &["run"])?);
    Ok(())
}

// What the words of a text ask for.
fn asked(alloc: Global, text: &str) -> Result<&'static str, AllocError> {
    let mut words = WordList::new(alloc);
    for word in text.split(' ') {
        words.push(String::from_str(alloc, word)?)?;
    }
    Ok(match words.command() {
        Some(Command::Run) => "run",
        Some(Command::ReadLog { silent: true }) => "silent",
        Some(Command::ReadLog { silent: false }) => "display",
        None => "bad",
    })
}

// The first row of a table, each words, an arrow and what they ask for, that is not so.
fn first_wrong(alloc: Global, table: &str) -> Result<String, AllocError> {
    for row in table.lines() {
        match row.split_once(" => ") {
            None => return String::from_str(alloc, row),
            Some((text, want)) => {
                if asked(alloc, text)? != want {
                    return String::from_str(alloc, row);
                }
            }
        }
    }
    Ok(String::new(alloc))
}

#[test]
fn words_ask_for_commands(rt: HostRuntime) -> Result<(), Fail> {
    let wrong = first_wrong(
        rt.alloc(),
        "run => run
run run => bad
run -d => bad
read_log => bad
read_log -s => bad
read_log -d => display
read_log --display-only => display
read_log -d -s => silent
read_log -s -d => silent
read_log --silent --display-only => silent
read_log --display-only --silent => silent
read_log -d -d => bad
read_log -s -s => bad
read_log -d -s -s => bad
read_log -sd => bad
-d read_log => bad",
    )?;
    assert_eq!(rt; wrong.as_str(), "");
    Ok(())
}

fn pad_to(line: &mut Vec<u8>, width: usize) -> Result<(), AllocError> {
    for _ in line.as_slice().len()..width {
        line.push(b' ')?;
    }
    Ok(())
}

#[test]
fn a_line_of_blanks_past_the_limit_is_refused(rt: HostRuntime) -> Result<(), Fail> {
    for (width, told) in [
        (1_048_576, b"no table t\n".as_slice()),
        (1_048_577, b"no line too long\nno table t\n".as_slice()),
        (1_200_000, b"no line too long\nno table t\n".as_slice()),
    ] {
        let mut script = Vec::new(rt.alloc());
        pad_to(&mut script, width)?;
        script.extend_from_slice(b"\nselect t k\n")?;
        let ran = run_script(rt.alloc(), &script)?;
        assert_eq!(rt; ran.host.told(Stream::Out), told, "at {width}");
        assert_eq!(rt; ran.status, 1);
    }
    Ok(())
}

#[test]
fn lines_go_on_over_the_end_of_a_piece(rt: HostRuntime) -> Result<(), Fail> {
    for width in [
        65_512, 65_514, 65_522, 65_523, 65_534, 65_535, 65_536, 65_537,
    ] {
        let mut script = Vec::from_slice(rt.alloc(), b"create t trans a:int keys k(a)")?;
        pad_to(&mut script, width)?;
        script.extend_from_slice(b"\ninsert t (1)\nselect t k")?;
        let ran = run_script(rt.alloc(), &script)?;
        assert_eq!(rt;
            ran.host.told(Stream::Out),
            b"ok\nok 1\nrow 1\nok 1\n".as_slice(),
            "at {width}"
        );
        assert_eq!(rt; ran.status, 0);
    }
    Ok(())
}

// A script that puts the numbers from `count` down to 1 by one insert, and selects them.
fn descending(alloc: Global, count: u32) -> Result<String, AllocError> {
    let mut script = String::from_str(alloc, "create t trans a:int keys k(a)\ninsert t")?;
    for behind in 0..count {
        let number = count - behind;
        script.push_str(&format!(in alloc; " ({number})")?)?;
    }
    script.push_str("\nselect t k\n")?;
    Ok(script)
}

#[test]
fn as_many_rows_as_a_statement_may_have(rt: HostRuntime) -> Result<(), Fail> {
    let script = descending(rt.alloc(), 65_536)?;
    let ran = run_script(rt.alloc(), script.as_bytes())?;
    let told = ran.host.told(Stream::Out);
    assert!(rt; told.starts_with(b"ok\nok 65536\nrow 1\nrow 2\nrow 3\n".as_slice()));
    assert!(rt; told.ends_with(b"\nrow 65535\nrow 65536\nok 65536\n".as_slice()));
    assert_eq!(rt; ran.status, 0);

    let script = descending(rt.alloc(), 65_537)?;
    let ran = run_script(rt.alloc(), script.as_bytes())?;
    assert_eq!(rt;
        ran.host.told(Stream::Out),
        b"ok\nno too many rows\nok 0\n".as_slice()
    );
    assert_eq!(rt; ran.status, 1);
    Ok(())
}

#[test]
fn a_read_that_fails_stops_the_run(rt: HostRuntime) -> Result<(), Fail> {
    let script = b"create t trans a:int keys k(a)\ninsert t (1)\nselect t k".as_slice();
    for (read, told) in [(0, b"".as_slice()), (1, b"ok\nok 1\n".as_slice())] {
        let mut input = MemSource::new(rt.alloc(), script)?;
        input.plan_fault(read)?;
        let ran = run_over(rt.alloc(), &["run"], roomy_host(rt.alloc())?, input)?;
        assert_eq!(rt; ran.host.told(Stream::Out), told);
        assert_eq!(rt;
            ran.host.told(Stream::Err),
            b"aria: input fault\n".as_slice()
        );
        assert_eq!(rt; ran.status, 6);
    }
    Ok(())
}

#[test]
fn a_tell_that_fails_stops_the_run(rt: HostRuntime) -> Result<(), Fail> {
    let script = b"create t trans a:int keys k(a)\n\ninsert t (1)\nselect t k\n".as_slice();
    // Opening makes calls 0 to 5; a statement that changes tables writes, syncs and tells.
    for (call, told) in [
        (8, b"".as_slice()),
        (11, b"ok\n".as_slice()),
        (12, b"ok\nok 1\n".as_slice()),
    ] {
        let mut host = roomy_host(rt.alloc())?;
        host.plan_fault(call)?;
        let input = MemSource::new(rt.alloc(), script)?;
        let ran = run_over(rt.alloc(), &["run"], host, input)?;
        assert_eq!(rt; ran.host.told(Stream::Out), told);
        assert_eq!(rt; ran.host.told(Stream::Err), b"".as_slice());
        assert_eq!(rt; ran.status, 7);
    }
    Ok(())
}

#[test]
fn a_fault_at_the_error_line_keeps_the_status(rt: HostRuntime) -> Result<(), Fail> {
    let mut host = roomy_host(rt.alloc())?;
    host.plan_fault(0)?;
    let input = MemSource::new(rt.alloc(), b"frob\n")?;
    let ran = run_over(rt.alloc(), &["frob"], host, input)?;
    assert_eq!(rt; ran.host.told(Stream::Out), b"".as_slice());
    assert_eq!(rt; ran.host.told(Stream::Err), b"".as_slice());
    assert_eq!(rt; ran.status, 2);
    Ok(())
}

// Runs a script on the folder of the host.
fn run_on(alloc: Global, host: &mut MemHost, script: &[u8]) -> Result<u8, AllocError> {
    let words = word_list(alloc, &["run"])?;
    let mut input = MemSource::new(alloc, script)?;
    let ended = aria(alloc, &words, host, &mut input);
    Ok(ended.status)
}

const CREATE_AND_INSERT: &[u8] = b"create t trans id:int v:int keys k(id)
insert t (2,20) (-1,5)
";

// A page that isn't sound: it holds a byte that its checksum doesn't cover.
fn torn_page() -> Page {
    let mut page = Page::zero();
    page.put(100, b"x");
    page
}

#[test]
fn tables_are_there_in_the_next_run(rt: HostRuntime) -> Result<(), Fail> {
    let mut host = roomy_host(rt.alloc())?;
    assert_eq!(rt; run_on(rt.alloc(), &mut host, CREATE_AND_INSERT)?, 0);
    host.crash(&List::new(rt.alloc()))?;
    assert_eq!(rt; run_on(rt.alloc(), &mut host, b"select t k")?, 0);
    assert_eq!(rt;
        host.told(Stream::Out),
        b"ok\nok 2\nrow -1,5\nrow 2,20\nok 2\n".as_slice()
    );
    Ok(())
}

// What the next run tells where the insert's sync failed, and a crash then has fates of this kind.
fn told_after_the_insert(alloc: Global, kind: usize) -> Result<Bytes, AllocError> {
    let mut host = roomy_host(alloc)?;
    host.stop_at(10);
    run_on(alloc, &mut host, CREATE_AND_INSERT)?;
    host.crash(&fates_of(alloc, kind)?)?;
    run_on(alloc, &mut host, b"select t k")?;
    Bytes::from_slice(alloc, host.told(Stream::Out))
}

#[test]
fn a_crash_before_a_sync_keeps_the_statement_or_loses_it(rt: HostRuntime) -> Result<(), Fail> {
    let lost = told_after_the_insert(rt.alloc(), 0)?;
    assert_eq!(rt; lost.as_slice(), b"ok\nok 0\n".as_slice());
    let torn = told_after_the_insert(rt.alloc(), 5)?;
    assert_eq!(rt; torn.as_slice(), b"ok\nok 0\n".as_slice());
    let kept = told_after_the_insert(rt.alloc(), 1)?;
    assert_eq!(rt;
        kept.as_slice(),
        b"ok\nrow -1,5\nrow 2,20\nok 2\n".as_slice()
    );
    Ok(())
}

#[test]
fn a_damaged_log_is_refused(rt: HostRuntime) -> Result<(), Fail> {
    let mut host = roomy_host(rt.alloc())?;
    run_on(rt.alloc(), &mut host, CREATE_AND_INSERT)?;
    run_on(rt.alloc(), &mut host, b"insert t (9,9)")?;
    host.set_page(&FileName::Log(1), 1, &torn_page())?;
    assert_eq!(rt; run_on(rt.alloc(), &mut host, b"select t k")?, 5);
    assert_eq!(rt; host.told(Stream::Out), b"ok\nok 2\nok 1\n".as_slice());
    assert_eq!(rt;
        host.told(Stream::Err),
        b"aria: damaged log aria_log.00000001 page 1\n".as_slice()
    );
    Ok(())
}

#[test]
fn another_file_is_refused(rt: HostRuntime) -> Result<(), Fail> {
    let mut host = roomy_host(rt.alloc())?;
    host.set_page(&FileName::Log(2), 0, &Page::zero())?;
    host.set_page(&FileName::Control, 0, &Page::zero())?;
    assert_eq!(rt; run_on(rt.alloc(), &mut host, CREATE_AND_INSERT)?, 5);
    assert_eq!(rt; host.told(Stream::Out), b"".as_slice());
    assert_eq!(rt;
        host.told(Stream::Err),
        b"aria: not ours aria_log.00000002\n".as_slice()
    );
    Ok(())
}

const THREE_STATEMENTS: &[u8] = b"create t trans id:int v:int keys k(id)
insert t (2,20)
insert t (1,10) (3,30)
";

// What a select tells after so many of the three statements.
fn selected(count: usize) -> &'static [u8] {
    match count {
        0 => b"no table t\n",
        1 => b"ok 0\n",
        2 => b"row 2,20\nok 1\n",
        _ => b"row 1,10\nrow 2,20\nrow 3,30\nok 3\n",
    }
}

// How many lines were told whole.
fn lines_in(bytes: &[u8]) -> usize {
    let mut lines: usize = 0;
    for byte in bytes {
        if *byte == b'\n' {
            lines = lines.saturating_add(1);
        }
    }
    lines
}

// All unsynced writes are lost, or all are kept, or all but one, which is lost or torn.
fn fates_of(alloc: Global, kind: usize) -> Result<List<Fate>, AllocError> {
    let mut fates = List::new(alloc);
    for nth in 0..3 {
        if kind == 0 || kind == 2 + nth {
            fates.push(Fate::Lost)?;
        } else if kind == 5 + nth {
            fates.push(Fate::Torn(torn_page()))?;
        } else {
            fates.push(Fate::Kept)?;
        }
    }
    Ok(fates)
}

// After how many of the three statements a run now tells what is selected, if that is no fewer than so many.
fn front_held(
    alloc: Global,
    host: &mut MemHost,
    acked: usize,
) -> Result<Option<usize>, AllocError> {
    let before = Bytes::from_slice(alloc, host.told(Stream::Out))?;
    run_on(alloc, host, b"select t k")?;
    for count in acked..4 {
        let mut told = Bytes::from_slice(alloc, before.as_slice())?;
        told.extend_from_slice(selected(count))?;
        if host.told(Stream::Out) == told.as_slice() {
            return Ok(Some(count));
        }
    }
    Ok(None)
}

fn holds_a_front(alloc: Global, host: &mut MemHost, acked: usize) -> Result<bool, AllocError> {
    Ok(front_held(alloc, host, acked)?.is_some())
}

// Whether a front is left where the run is stopped at a call, and a crash then has fates of this kind.
fn survives(alloc: Global, stop: u64, kind: usize) -> Result<bool, AllocError> {
    let mut host = roomy_host(alloc)?;
    host.stop_at(stop);
    run_on(alloc, &mut host, THREE_STATEMENTS)?;
    host.crash(&fates_of(alloc, kind)?)?;
    let acked = lines_in(host.told(Stream::Out));
    holds_a_front(alloc, &mut host, acked)
}

// The same where the next run is stopped too, so many calls after its beginning.
fn survives_twice(alloc: Global, stop: u64, again: u64, kind: usize) -> Result<bool, AllocError> {
    let mut host = roomy_host(alloc)?;
    host.stop_at(stop);
    run_on(alloc, &mut host, THREE_STATEMENTS)?;
    host.crash(&fates_of(alloc, 1)?)?;
    let acked = lines_in(host.told(Stream::Out));
    host.stop_at(host.calls().saturating_add(again));
    run_on(alloc, &mut host, b"")?;
    host.crash(&fates_of(alloc, kind)?)?;
    holds_a_front(alloc, &mut host, acked)
}

// Whether a run behind one that was stopped at a call, while the machine went on, tells a front that is left where a
// crash then has fates of this kind.
fn survives_a_kill(alloc: Global, stop: u64, kind: usize) -> Result<bool, AllocError> {
    let mut host = roomy_host(alloc)?;
    host.stop_at(stop);
    run_on(alloc, &mut host, THREE_STATEMENTS)?;
    host.stop_at(u64::MAX);
    let acked = lines_in(host.told(Stream::Out));
    match front_held(alloc, &mut host, acked)? {
        None => Ok(false),
        Some(count) => {
            host.crash(&fates_of(alloc, kind)?)?;
            Ok(front_held(alloc, &mut host, count)? == Some(count))
        }
    }
}

#[test]
fn what_is_told_behind_a_kill_survives_a_crash(rt: HostRuntime) -> Result<(), Fail> {
    for stop in 0..16 {
        for kind in 0..8 {
            assert!(rt;
                survives_a_kill(rt.alloc(), stop, kind)?,
                "stopped at {stop}, fates {kind}"
            );
        }
    }
    Ok(())
}

#[test]
fn a_crash_at_each_call_leaves_a_front(rt: HostRuntime) -> Result<(), Fail> {
    for stop in 0..16 {
        for kind in 0..8 {
            assert!(rt;
                survives(rt.alloc(), stop, kind)?,
                "stopped at {stop}, fates {kind}"
            );
        }
    }
    Ok(())
}

#[test]
fn a_crash_at_each_call_of_the_next_opening_leaves_a_front(rt: HostRuntime) -> Result<(), Fail> {
    for stop in [7, 10, 13] {
        for again in 0..10 {
            for kind in 0..8 {
                assert!(rt;
                    survives_twice(rt.alloc(), stop, again, kind)?,
                    "stopped at {stop}, then at {again}, fates {kind}"
                );
            }
        }
    }
    Ok(())
}

#[test]
fn a_sync_that_fails_is_a_disk_fault(rt: HostRuntime) -> Result<(), Fail> {
    let mut host = roomy_host(rt.alloc())?;
    host.plan_fault(7)?;
    assert_eq!(rt; run_on(rt.alloc(), &mut host, CREATE_AND_INSERT)?, 4);
    assert_eq!(rt; host.told(Stream::Out), b"".as_slice());
    assert_eq!(rt; host.told(Stream::Err), b"aria: disk fault\n".as_slice());
    Ok(())
}
