//! What the log tells of all tables.

ghost use Rattle.std.specs.Prelude.{◌≡◌, ◌+◌, ◌&&◌, ◌||◌, ◌∷◌, ◌++◌, [], OnOk, IfOk, ℕ, List, None, Some, nat_eq, max, if◌then◌else◌};
ghost use Rattle.std.specs.Option.{option_copied};
ghost use Rattle.std.specs.BTreeMap.{keys, IsOrdered};
ghost use Rattle.std.specs.Set.{is_member};
ghost use Rattle.std.specs.Ordering.{nat_cmp, is_eq, eq_by_cmp};
ghost use Rattle.std.specs.Cmp.Lexicographic.{slice_cmp};
ghost use Rattle.aria_page.specs.declared.place.Part.{Part as FilePart};
ghost use Rattle.aria_record.specs.Logged.{Logged, lsn_at_place};
ghost use Rattle.aria_recovery.specs.Redo.{same_part, is_some_edit};
ghost use Rattle.aria_recovery.specs.Noted.{HasLives, is_known, Notes, NotesAll, Settles, SettlesGroup, life_at, edit_at, edit_in, reach_at, reach_in, told_at, file_group_at};

use crate::life::{Life, Told};
use aria_page::{Edit, Lsn, Name, Part};
use aria_record::Record;
use std::alloc::{AllocError, Global};
use std::collections::BTreeMap;

// Takes what is told of a table out of the map.
fn take(alloc: Global, lives: &mut BTreeMap<Name, Life>, name: Name) -> Life
    ensures edits { (p : FilePart) (n : ℕ) → edit_in result p n ≡ edit_at (life_at lives.old name) p n }
    ensures reach { (p : FilePart) → reach_in result p ≡ reach_at (life_at lives.old name) p }
    ensures told { result.told ≡ told_at (life_at lives.old name) }
    ensures file_group { result.file_group ≡ file_group_at (life_at lives.old name) }
    ensures others { (q : List ℕ) → life_at lives.new q ≡ (if is_eq (slice_cmp nat_cmp name q) then None else life_at lives.old q) }
{
    match lives.remove(&name) {
        Some(life) => life,
        None => Life::new(alloc, None, Told::Nothing),
    }
}

// A group has a record of a page of this table.
fn note(
    alloc: Global,
    lives: &mut BTreeMap<Name, Life>,
    at: Lsn,
    name: Name,
    part: Part,
    page: u32,
    has_edits: bool,
) -> Result<(), AllocError>
    ensures edits { OnOk result ((q : List ℕ) (p : FilePart) (n : ℕ) → edit_at (life_at lives.new q) p n ≡ (if is_eq (slice_cmp nat_cmp name q) && (same_part p part && (nat_eq n page && has_edits)) then Some at else edit_at (life_at lives.old q) p n)) }
    ensures reach { OnOk result ((q : List ℕ) (p : FilePart) → reach_at (life_at lives.new q) p ≡ (if is_eq (slice_cmp nat_cmp name q) && same_part p part then max (reach_at (life_at lives.old q) p) (page + 1) else reach_at (life_at lives.old q) p)) }
    ensures told { OnOk result ((q : List ℕ) → told_at (life_at lives.new q) ≡ told_at (life_at lives.old q)) }
    ensures file_group { OnOk result ((q : List ℕ) → file_group_at (life_at lives.new q) ≡ file_group_at (life_at lives.old q)) }
    ensures names { OnOk result ((q : List ℕ) → is_known lives.new q ≡ (is_eq (slice_cmp nat_cmp name q) || is_known lives.old q)) }
{
    let mut life = take(alloc, lives, name);
    life.note(at, part, page, has_edits)?;
    lives.insert(name, life)?;
    Ok(())
}

fn has_edits(edits: &[Edit]) -> bool
    ensures { result ≡ is_some_edit edits.now }
{
    !edits.is_empty()
}

// A group has this record.
fn note_record(
    alloc: Global,
    lives: &mut BTreeMap<Name, Life>,
    at: Lsn,
    entry: &Record,
) -> Result<(), AllocError>
    ensures { OnOk result (Notes at entry.now lives.old lives.new) }
{
    match entry {
        Record::Redo {
            table,
            part,
            page,
            edits,
            ..
        } => note(
            alloc,
            lives,
            at,
            *table,
            *part,
            *page,
            has_edits(edits.as_slice()),
        ),
        _ => Ok(()),
    }
}

// A group has these records.
fn note_all(
    alloc: Global,
    lives: &mut BTreeMap<Name, Life>,
    at: Lsn,
    records: &[Record],
) -> Result<(), AllocError>
    ensures { OnOk result (NotesAll at records.now lives.old lives.new) }
{
    for entry in records {
        note_record(alloc, lives, at, entry)?;
    }
    Ok(())
}

// The files of a table are made or dropped: nothing that was told before counts.
fn begin(
    alloc: Global,
    lives: &mut BTreeMap<Name, Life>,
    at: Lsn,
    name: Name,
    told: Told,
) -> Result<(), AllocError>
    ensures edits { OnOk result ((q : List ℕ) (p : FilePart) (n : ℕ) → edit_at (life_at lives.new q) p n ≡ (if is_eq (slice_cmp nat_cmp name q) then None else edit_at (life_at lives.old q) p n)) }
    ensures reach { OnOk result ((q : List ℕ) (p : FilePart) → reach_at (life_at lives.new q) p ≡ (if is_eq (slice_cmp nat_cmp name q) then 0 else reach_at (life_at lives.old q) p)) }
    ensures told { OnOk result ((q : List ℕ) → told_at (life_at lives.new q) ≡ (if is_eq (slice_cmp nat_cmp name q) then told else told_at (life_at lives.old q))) }
    ensures file_group { OnOk result ((q : List ℕ) → file_group_at (life_at lives.new q) ≡ (if is_eq (slice_cmp nat_cmp name q) then Some at else file_group_at (life_at lives.old q))) }
    ensures names { OnOk result ((q : List ℕ) → is_known lives.new q ≡ (is_eq (slice_cmp nat_cmp name q) || is_known lives.old q)) }
{
    let life = Life::new(alloc, Some(at), told);
    lives.insert(name, life)?;
    Ok(())
}

// The files of a table are repaired.
fn repair(
    alloc: Global,
    lives: &mut BTreeMap<Name, Life>,
    at: Lsn,
    name: Name,
) -> Result<(), AllocError>
    ensures edits { OnOk result ((q : List ℕ) (p : FilePart) (n : ℕ) → edit_at (life_at lives.new q) p n ≡ edit_at (life_at lives.old q) p n) }
    ensures reach { OnOk result ((q : List ℕ) (p : FilePart) → reach_at (life_at lives.new q) p ≡ reach_at (life_at lives.old q) p) }
    ensures told { OnOk result ((q : List ℕ) → told_at (life_at lives.new q) ≡ told_at (life_at lives.old q)) }
    ensures file_group { OnOk result ((q : List ℕ) → file_group_at (life_at lives.new q) ≡ (if is_eq (slice_cmp nat_cmp name q) then Some at else file_group_at (life_at lives.old q))) }
    ensures names { OnOk result ((q : List ℕ) → is_known lives.new q ≡ (is_eq (slice_cmp nat_cmp name q) || is_known lives.old q)) }
{
    let mut life = take(alloc, lives, name);
    life.file_group = Some(at);
    lives.insert(name, life)?;
    Ok(())
}

fn settle_record(
    alloc: Global,
    lives: &mut BTreeMap<Name, Life>,
    at: Lsn,
    entry: &Record,
) -> Result<(), AllocError>
    ensures { OnOk result (Settles at entry.now lives.old lives.new) }
{
    match entry {
        Record::CreateTable { table, .. } => begin(alloc, lives, at, *table, Told::Made(at)),
        Record::DropTable { table } => begin(alloc, lives, at, *table, Told::Dropped),
        Record::RepairTable { table } => repair(alloc, lives, at, *table),
        _ => Ok(()),
    }
}

// What the group's first record says of files is taken in.
fn settle(
    alloc: Global,
    lives: &mut BTreeMap<Name, Life>,
    at: Lsn,
    records: &[Record],
) -> Result<(), AllocError>
    ensures { OnOk result (SettlesGroup at records.now lives.old lives.new) }
{
    match records {
        [] => Ok(()),
        [entry, ..] => settle_record(alloc, lives, at, entry),
    }
}

/// A group more.
pub(crate) fn add_group(
    alloc: Global,
    lives: &mut BTreeMap<Name, Life>,
    at: Lsn,
    records: &[Record],
) -> Result<(), AllocError>
    ensures { (gs : List Logged) (place : ℕ) → HasLives lives.old gs → at ≡ lsn_at_place place → OnOk result (HasLives lives.new (gs ++ record { at = place; group = records.now } ∷ [])) }
{
    note_all(alloc, lives, at, records)?;
    settle(alloc, lives, at, records)
}

/// What is told of a name.
pub(crate) fn find<'a>(lives: &'a BTreeMap<Name, Life>, name: &Name) -> Option<&'a Life>
    ensures { option_copied result ≡ life_at lives.now name.now }
{
    lives.get(name)
}

/// The names of which something is told, in order.
pub(crate) fn names_of(alloc: Global, lives: &BTreeMap<Name, Life>) -> Result<Vec<Name>, AllocError>
    ensures names { IfOk result (λ names. names.items ≡ keys lives.now) }
    ensures ordered { IfOk result (λ _. IsOrdered (slice_cmp nat_cmp) lives.now) }
    ensures known { IfOk result (λ _. (q : List ℕ) → is_known lives.now q ≡ is_member (eq_by_cmp (slice_cmp nat_cmp)) (keys lives.now) q) }
{
    let mut names = Vec::with_capacity(alloc, lives.len())?;
    for name in lives.keys() {
        names.push(*name)?;
    }
    Ok(names)
}
