use aria_page::Lsn;
use aria_record::Group;

/// What stands at a place of the log.
#[derive(Debug, Drop)]
pub enum Step {
    /// A whole group; `after` is the place of what stands behind it, or the log's end.
    Group { at: Lsn, group: Group, after: Lsn },
    /// The void rest of a run, of so many bytes.
    Rest { at: Lsn, bytes: u64, after: Lsn },
    /// The log ends here.
    End,
}
