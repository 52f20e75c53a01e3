//! Which statements change tables, and which meet an exception.

ghost use Rattle.std.specs.Prelude.{◌≡◌};
ghost use Rattle.aria_model.specs.declared.reply.Reply.{Reply};
ghost use Rattle.aria_model.specs.Script.{is_refused};
ghost use Rattle.aria_model.specs.Journal.{concerns_some, changes};
ghost use Rattle.aria_engine.specs.Entries.{is_spent, is_log_spent};
ghost use Rattle.aria_engine.specs.Turns.{exception_of};
ghost use Rattle.aria_engine.specs.Changing.{changed_by};

use aria_model::{Exception, Refusal, Reply, Statement};

/// When a statement of a kind changes the tables.
#[derive(Clone, Copy)]
pub(crate) enum Change {
    Never,
    /// Where it is accepted.
    Accepted,
    /// Where it concerns a row.
    Concerned,
}

/// When a statement of this kind changes the tables.
pub(crate) fn change_of(statement: &Statement) -> Change
    ensures { (reply : Reply) → changes statement.now reply ≡ changed_by result reply }
{
    match statement {
        Statement::Create { .. } => Change::Accepted,
        Statement::Insert { .. } => Change::Accepted,
        Statement::Delete { .. } => Change::Concerned,
        Statement::Update { .. } => Change::Concerned,
        Statement::Select { .. } => Change::Never,
        Statement::Drop { .. } => Change::Accepted,
        Statement::Flush { .. } => Change::Never,
        Statement::Checkpoint => Change::Never,
    }
}

// Whether rows were concerned.
fn concerns_some(reply: &Reply) -> bool
    ensures { result ≡ concerns_some reply.now }
{
    match reply {
        Reply::Done => false,
        Reply::Count(rows) => *rows != 0,
        Reply::No(_) => false,
    }
}

/// Whether a statement of a kind that changes the tables so changed them, by its reply.
pub(crate) fn is_changed(change: Change, reply: &Reply) -> bool
    ensures { result ≡ changed_by change reply.now }
{
    match change {
        Change::Never => false,
        Change::Accepted => !is_refused(reply),
        Change::Concerned => concerns_some(reply),
    }
}

/// Whether it is a refusal.
pub(crate) fn is_refused(reply: &Reply) -> bool
    ensures { result ≡ is_refused reply.now }
{
    match reply {
        Reply::Done => false,
        Reply::Count(_) => false,
        Reply::No(_) => true,
    }
}

fn is_spent(why: &Refusal) -> bool
    ensures { result ≡ is_spent why.now }
{
    matches!(why, Refusal::LogSpent { .. })
}

// Whether it says that the log is spent.
fn is_log_spent(reply: &Reply) -> bool
    ensures { result ≡ is_log_spent reply.now }
{
    match reply {
        Reply::Done => false,
        Reply::Count(_) => false,
        Reply::No(why) => is_spent(why),
    }
}

/// The exception that a statement with this reply met.
pub(crate) fn exception_of(spent: Option<u32>, reply: &Reply) -> Option<Exception>
    ensures { result ≡ exception_of spent reply.now }
{
    match spent {
        None => None,
        Some(file) => {
            if is_log_spent(reply) {
                Some(Exception::Spent(file))
            } else {
                None
            }
        }
    }
}
