//! One pass over the groups of the log.

use crate::chain::Chain;
use crate::life::{Life, Told};
use crate::link::link_of;
use crate::lives::{add_group, find, names_of};
use aria_page::{Lsn, Name, Part};
use aria_record::Group;
use std::alloc::{AllocError, Global};
use std::collections::BTreeMap;

/// What one pass over the log's groups knows of them.
#[derive(Drop)]
pub struct Analysis {
    alloc: Global,
    pub(crate) chain: Chain,
    pub(crate) lives: BTreeMap<Name, Life>,
}

impl Analysis {
    ghost use Rattle.std.specs.Prelude.{◌≡◌, [], ◌∷◌, ◌++◌, ℕ, List, OnOk, IfOk};
    ghost use Rattle.aria_page.specs.declared.lsn.Lsn.{Lsn as Number};
    ghost use Rattle.aria_record.specs.Logged.{Logged, lsn_at_place};
    ghost use Rattle.std.specs.Option.{option_map, option_and_then, option_copied};
    ghost use Rattle.std.specs.BTreeMap.{get};
    ghost use Rattle.std.specs.Set.{is_member};
    ghost use Rattle.std.specs.Ordering.{nat_cmp, eq_by_cmp};
    ghost use Rattle.std.specs.Cmp.Lexicographic.{slice_cmp};
    ghost use Rattle.std.specs.List.{list_any};
    ghost use Rattle.std.specs.List.Sorted.{IsStrictlySortedBy};
    ghost use Rattle.aria_recovery.specs.Analysed.{Has};
    ghost use Rattle.aria_recovery.specs.Noted.{told_of, last_edit, last_file, is_of};
    ghost use Rattle.aria_recovery.specs.Pending.{oldest, pending_of, unchained};
    ghost use Rattle.aria_recovery.specs.Redo.{reach};
    ghost use Rattle.aria_recovery.specs.Tables.{life_of};

    /// No group was added. The chain of undo records is asked for behind the checkpoint.
    pub fn new(alloc: Global, checkpoint: Lsn) -> Analysis
        ensures { Has checkpoint result [] }
    {
        Analysis {
            alloc,
            chain: Chain::new(alloc, checkpoint),
            lives: BTreeMap::new(alloc),
        }
    }

    /// Adds the next group. After an `Err` the analysis is of no use.
    pub fn add(&mut self, at: Lsn, group: &Group) -> Result<(), AllocError>
        ensures { (checkpoint : Number) (gs : List Logged) (place : ℕ) → Has checkpoint self.old gs → at ≡ lsn_at_place place → OnOk result (Has checkpoint self.new (gs ++ record { at = place; group = group.now } ∷ [])) }
    {
        let records = group.as_slice();
        self.chain.add(at, link_of(records))?;
        add_group(self.alloc, &mut self.lives, at, records)
    }

    /// The last group that makes, drops or repairs the files of the name.
    pub fn last_file_group(&self, name: &Name) -> Option<Lsn>
        ensures { (checkpoint : Number) (gs : List Logged) → Has checkpoint self.now gs → result ≡ option_map lsn_at_place (last_file name.now gs) }
    {
        match find(&self.lives, name) {
            Some(life) => life.file_group,
            None => None,
        }
    }

    /// What the last group tells that makes or drops the files of the name.
    pub fn told(&self, name: &Name) -> Told
        ensures { (checkpoint : Number) (gs : List Logged) → Has checkpoint self.now gs → result ≡ told_of (life_of name.now gs).last }
    {
        match find(&self.lives, name) {
            Some(life) => life.told,
            None => Told::Nothing,
        }
    }

    /// The last group that edits the page, behind the one that made or dropped the table's files last.
    pub fn last_edit(&self, name: &Name, part: Part, page: u32) -> Option<Lsn>
        ensures { (checkpoint : Number) (gs : List Logged) → Has checkpoint self.now gs → result ≡ option_map lsn_at_place (last_edit name.now part page gs) }
    {
        match find(&self.lives, name) {
            Some(life) => life.last_edit(part, page),
            None => None,
        }
    }

    /// One more than the highest page of the file that is edited behind the group that made or dropped it last.
    pub fn reach(&self, name: &Name, part: Part) -> u64
        ensures { (checkpoint : Number) (gs : List Logged) → Has checkpoint self.now gs → result ≡ reach name.now part (life_of name.now gs).since }
    {
        match find(&self.lives, name) {
            Some(life) => life.reach(part),
            None => 0,
        }
    }

    /// The pending undo records, the oldest first.
    pub fn pending(&self) -> &[Lsn]
        ensures { (checkpoint : Number) (gs : List Logged) → Has checkpoint self.now gs → result.now ≡ oldest (pending_of gs) }
    {
        self.chain.pending.as_slice()
    }

    /// The first group behind the checkpoint at which the chain of undo records fails.
    pub fn unchained(&self) -> Option<Lsn>
        ensures { (checkpoint : Number) (gs : List Logged) → Has checkpoint self.now gs → result ≡ option_map lsn_at_place (unchained checkpoint gs) }
    {
        self.chain.unchained
    }

    /// The pages of the file that are edited behind the group that made or dropped it last, each with the last group
    /// that edits it; or none of them.
    pub fn pages(&self, name: &Name, part: Part) -> Option<&BTreeMap<u32, Lsn>>
        ensures { (checkpoint : Number) (gs : List Logged) → Has checkpoint self.now gs → (n : ℕ) → option_and_then (λ pages. get nat_cmp pages n) (option_copied result) ≡ option_map lsn_at_place (last_edit name.now part n gs) }
    {
        match find(&self.lives, name) {
            Some(life) => Some(life.pages(part)),
            None => None,
        }
    }

    /// The names of the tables of which groups edit pages, or make, drop or repair the files, in order.
    pub fn names(&self) -> Result<Vec<Name>, AllocError>
        ensures ordered { IfOk result (λ names. IsStrictlySortedBy (slice_cmp nat_cmp) names.items) }
        ensures all { (checkpoint : Number) (gs : List Logged) → Has checkpoint self.now gs → IfOk result (λ names. (q : List ℕ) → is_member (eq_by_cmp (slice_cmp nat_cmp)) names.items q ≡ list_any (is_of q) gs) }
    {
        names_of(self.alloc, &self.lives)
    }
}
