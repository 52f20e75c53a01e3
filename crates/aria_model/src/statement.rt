use aria_page::{List, Name};
use aria_value::{Definition, Row, Value};

/// The longest line, in bytes, without its LF.
pub const MAX_LINE_BYTES: usize = 1_048_576;

/// The most rows of one statement.
pub const MAX_STATEMENT_ROWS: usize = 65_536;

/// A column that an update sets, and its new value.
#[derive(Debug, Drop)]
pub struct Setting {
    pub column: Name,
    pub value: Value,
}

/// A statement of the script language (docs/LANGUAGE.md). The values of a delete, an update or a select are those that
/// the rows it concerns have first in the key's columns; without any it concerns all rows.
#[derive(Debug, Drop)]
pub enum Statement {
    Create {
        name: Name,
        plain: bool,
        definition: Definition,
    },
    Insert {
        name: Name,
        rows: List<Row>,
    },
    Delete {
        name: Name,
        key: Name,
        values: List<Value>,
    },
    Update {
        name: Name,
        key: Name,
        values: List<Value>,
        set: List<Setting>,
    },
    Select {
        name: Name,
        key: Name,
        values: List<Value>,
    },
    Drop {
        name: Name,
    },
    Flush {
        name: Name,
    },
    Checkpoint,
}
