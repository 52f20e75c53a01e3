//! A line in memory: what it does to the tables, and what it tells.

ghost use Rattle.std.specs.Prelude.{◌≡◌, ◌++◌, [], ℕ, List, Option, Err, IfOk, OnOk, MatchOption};
ghost use Rattle.aria_model.specs.declared.refusal.Exception.{Exception};
ghost use Rattle.aria_model.specs.Grammar.{read_line};
ghost use Rattle.aria_model.specs.Script.{is_refused};
ghost use Rattle.aria_model.specs.Text.{reply_text, IsOneLine};
ghost use Rattle.aria_engine.specs.Entries.{due};
ghost use Rattle.aria_engine.specs.Store.{pages_of, tables_of};
ghost use Rattle.aria_engine.specs.Changing.{changed_by};
ghost use Rattle.aria_engine.specs.Turns.{spent_of, MayNote, Turned, Passed};

use crate::changing::{Change, change_of, exception_of, is_changed, is_refused};
use crate::store::{FILE, FULL_PAGES, Store};
use aria_model::{Refusal, Reply, push_reply_text};
use aria_page::Bytes;
use aria_statement::{Stopped, parse};
use std::alloc::{AllocError, Global};

/// What a statement came to in memory.
#[derive(Clone, Copy)]
pub(crate) struct Turn {
    pub(crate) refused: bool,
    // it changed the tables, and is to be kept
    pub(crate) changed: bool,
}

// Adds the line of a reply, to a statement of a kind that changes the tables so.
fn finish(text: &mut Bytes, change: Change, reply: Reply) -> Result<Turn, AllocError>
    ensures spelled { OnOk result (text.new ≡ text.old ++ reply_text reply) }
    ensures one_line { OnOk result (IsOneLine (reply_text reply)) }
    ensures refused { IfOk result (λ turn. turn.refused ≡ is_refused reply) }
    ensures changed { IfOk result (λ turn. turn.changed ≡ changed_by change reply) }
{
    push_reply_text(text, &reply)?;
    Ok(Turn {
        refused: is_refused(&reply),
        changed: is_changed(change, &reply),
    })
}

impl Store {
    // The number of the log's file, where it has no room.
    fn spent(&self) -> Option<u32>
        ensures { result ≡ spent_of (pages_of self.now) }
    {
        if self.log.pages() >= FULL_PAGES {
            Some(FILE)
        } else {
            None
        }
    }

    // Refuses a line.
    fn refuse(&mut self, why: Refusal) -> Result<Turn, AllocError>
        requires text { self.old.text ≡ [] }
        ensures turned { IfOk result (λ turn. (line : List ℕ) → read_line line ≡ Err why → Turned line self.old self.new turn.refused turn.changed) }
        ensures noted { (exception : Option Exception) → MayNote self.old.tally self.new.tally exception }
        ensures kept { self.new.kept ≡ self.old.kept }
        ensures log { self.new.log ≡ self.old.log }
    {
        self.tally.begin()?;
        push_reply_text(&mut self.text, &Reply::No(why))?;
        Ok(Turn {
            refused: true,
            changed: false,
        })
    }

    /// Executes a line in memory; `None` where it is blank. What it tells is the text then.
    pub(crate) fn take(&mut self, alloc: Global, line: &[u8]) -> Result<Option<Turn>, AllocError>
        ensures turned { IfOk result (λ found. MatchOption found (Passed line.now self.old self.new) (λ turn. Turned line.now self.old self.new turn.refused turn.changed)) }
        ensures noted { MayNote self.old.tally self.new.tally (due (pages_of self.old) (tables_of self.old) line.now) }
        ensures kept { self.new.kept ≡ self.old.kept }
        ensures log { self.new.log ≡ self.old.log }
    {
        self.text.clear();
        match parse(alloc, line) {
            Ok(None) => Ok(None),
            Ok(Some(statement)) => {
                let nth = self.tally.begin()?;
                let spent = self.spent();
                let change = change_of(&statement);
                let reply = self
                    .tables
                    .execute(alloc, statement, spent, &mut self.text)?;
                self.tally.note(nth, exception_of(spent, &reply))?;
                Ok(Some(finish(&mut self.text, change, reply)?))
            }
            Err(Stopped::Refused(why)) => Ok(Some(self.refuse(why)?)),
            Err(Stopped::Memory) => Err(AllocError),
        }
    }
}
