//! The words of a command line, and what they ask for.

ghost use Rattle.std.specs.Prelude.{◌≡◌, ◌⊎◌, [], ◌∷◌, ◌++◌, ◌↔◌, Some, Bool, map, string_bytes, IsTrue, OnOk, OnErr};
ghost use Rattle.aria_tools.specs.declared.words.Command.TheVariants as commands;
ghost use Rattle.aria_tools.specs.Words.{IsDisplay, IsSilent, IsRun, IsReadLog, AreOptions};

use std::alloc::{AllocError, Global};
use std::marker::Model;

/// What a command line asks for.
#[derive(Clone, Copy, Debug)]
pub enum Command {
    /// To execute the script of the input.
    Run,
    /// To tell what stands in the log, or, silent, its last line alone.
    ReadLog { silent: bool },
}

/// The words of a command line, without the program's name. Contracts see the list of their texts.
#[derive(Drop)]
pub struct WordList {
    words: Vec<String>,
}

impl Model for WordList {
    ghost use Rattle.std.specs.Prelude.{List, ℕ, map, string_bytes};

    ghost Value = { List (List ℕ) };

    ghost view = { λ list. map string_bytes list.words.items };
}

fn is_display(word: &str) -> bool
    ensures { IsTrue result ↔ IsDisplay word.now }
{
    word == "-d" || word == "--display-only"
}

fn is_silent(word: &str) -> bool
    ensures { IsTrue result ↔ IsSilent word.now }
{
    word == "-s" || word == "--silent"
}

// Whether one of the words asks to tell the log, and the other one for silence.
fn are_both(first: &str, second: &str) -> bool
    ensures { IsTrue result ↔ ((IsDisplay first.now × IsSilent second.now) ⊎ (IsSilent first.now × IsDisplay second.now)) }
{
    (is_display(first) && is_silent(second)) || (is_silent(first) && is_display(second))
}

// Whether the options of `read_log` ask for silence, if they are options of it.
fn read_options(options: &[String]) -> Option<bool>
    ensures { (silent : Bool) → (result ≡ Some silent) ↔ AreOptions (map string_bytes options.now) silent }
{
    let (first, others) = options.split_first()?;
    let Some((second, further)) = others.split_first() else {
        return if is_display(first.as_str()) {
            Some(false)
        } else {
            None
        };
    };
    if further.is_empty() && are_both(first.as_str(), second.as_str()) {
        Some(true)
    } else {
        None
    }
}

impl WordList {
    pub fn new(alloc: Global) -> WordList
        ensures { result ≡ [] }
    {
        WordList {
            words: Vec::new(alloc),
        }
    }

    /// Adds a word at the end. An `Err` leaves the list as it was.
    pub fn push(&mut self, word: String) -> Result<(), AllocError>
        ensures ok { OnOk result (self.new ≡ self.old ++ string_bytes word ∷ []) }
        ensures err { OnErr result (self.new ≡ self.old) }
    {
        self.words.push(word)?;
        Ok(())
    }

    /// What the words ask for, if they are of one of the forms.
    pub fn command(&self) -> Option<Command>
        ensures run { (result ≡ Some commands.Run) ↔ IsRun self.now }
        ensures read_log { (silent : Bool) → (result ≡ Some (commands.ReadLog silent)) ↔ IsReadLog self.now silent }
    {
        let (word, options) = self.words.as_slice().split_first()?;
        match word.as_str() {
            "run" if options.is_empty() => Some(Command::Run),
            "read_log" => Some(Command::ReadLog {
                silent: read_options(options)?,
            }),
            _ => None,
        }
    }
}
