//! What refuses a statement whatever its rows are.

ghost use Rattle.std.specs.Prelude.{◌≡◌, nat_lt};
ghost use Rattle.std.specs.Option.{option_map};
ghost use Rattle.aria_model.specs.declared.refusal.Exception.TheVariants.{Spent};
ghost use Rattle.aria_model.specs.declared.refusal.Refusal.TheVariants.{TooManyRows};
ghost use Rattle.aria_model.specs.Step.{refused_where, bad_value, spent as spent_refusal};
ghost use Rattle.aria_memory.specs.Stopping.{refusal_of};

use aria_model::{MAX_STATEMENT_ROWS, Refusal};
use aria_page::Name;

/// Refused where a statement concerns more rows than one may.
pub(crate) fn few_enough(rows: usize) -> Result<(), Refusal>
    ensures { refusal_of result ≡ refused_where (nat_lt 65536 rows) TooManyRows }
{
    if rows > MAX_STATEMENT_ROWS {
        return Err(Refusal::TooManyRows);
    }
    Ok(())
}

/// Refused where the log has no room: then `spent` is the number of its last file.
pub(crate) fn has_room(spent: Option<u32>) -> Result<(), Refusal>
    ensures { refusal_of result ≡ spent_refusal (option_map Spent spent) }
{
    match spent {
        Some(file) => Err(Refusal::LogSpent { file }),
        None => Ok(()),
    }
}

/// Refused where a column may not hold its value.
pub(crate) fn holds_values(bad: Option<Name>) -> Result<(), Refusal>
    ensures { refusal_of result ≡ bad_value bad }
{
    match bad {
        Some(column) => Err(Refusal::BadValue { column }),
        None => Ok(()),
    }
}
