use crate::control::Control;

/// What a folder's control file is, where it is neither missing nor foreign nor damaged.
#[derive(Clone, Copy, Debug, PartialEq, Eq)]
pub enum Found {
    /// It is absent, empty or one page of zeros, and no other file of the program's is there: nothing was ever stored.
    Fresh,
    /// Its page names these two.
    Kept(Control),
}
