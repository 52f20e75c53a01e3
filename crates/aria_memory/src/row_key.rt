ghost use Rattle.std.specs.Prelude.{◌≡◌, refl, IfOk};
ghost use Rattle.std.specs.Cmp.{eq_by_cmp_equiv, partial_equiv_from_equiv, po};
ghost use Rattle.std.specs.Cmp.Lexicographic.{lists_total};
ghost use Rattle.std.specs.Ordering.{as_partial_cmp, eq_by_cmp};
ghost use Rattle.aria_value.specs.ValueOrder.{value_total};
ghost use Rattle.aria_value.specs.Order.{value_at};
ghost use Rattle.aria_memory.specs.Keyed.{values_cmp, values_in};

use aria_page::List;
use aria_value::Value;
use std::alloc::{AllocError, Global};
use std::cmp::Ordering;
use std::marker::Model;

// A copy of the value that a row has in a column.
fn value_at(alloc: Global, row: &[Value], column: u8) -> Result<Value, AllocError>
    ensures { IfOk result (λ value. value ≡ value_at row.now column) }
{
    match row.get(column as usize) {
        Some(value) => value.copy(alloc),
        None => Ok(Value::Null),
    }
}

// Copies of values.
fn copies(alloc: Global, values: &[Value]) -> Result<List<Value>, AllocError>
    ensures { IfOk result (λ copies. copies ≡ values.now) }
{
    let mut copies = Vec::with_capacity(alloc, values.len())?;
    for value in values {
        copies.push(value.copy(alloc)?)?;
    }
    Ok(List::from_vec(copies))
}

/// The values of a row in the columns of a key. Contracts see the list of them. The first of two keys is the one with
/// the lesser value in the first column in which they differ.
#[derive(Drop)]
pub struct RowKey {
    values: List<Value>,
}

impl Model for RowKey {
    ghost use Rattle.std.specs.Prelude.{List};
    ghost use Rattle.aria_value.specs.declared.value.Value.{Value as Part};

    ghost Value = { List Part };

    ghost view = { λ k. k.values };
}

impl RowKey {
    /// The key of these values.
    pub(crate) fn new(values: List<Value>) -> RowKey
        ensures { result ≡ values }
    {
        RowKey { values }
    }

    pub(crate) fn as_slice(&self) -> &[Value]
        ensures { result.now ≡ self.now }
    {
        self.values.as_slice()
    }

    /// The key of copies of the values that a row has in these columns.
    pub(crate) fn from_row(
        alloc: Global,
        columns: &[u8],
        row: &[Value],
    ) -> Result<RowKey, AllocError>
        ensures { IfOk result (λ key. key ≡ values_in columns.now row.now) }
    {
        let mut values = Vec::with_capacity(alloc, columns.len())?;
        for column in columns {
            values.push(value_at(alloc, row, *column)?)?;
        }
        Ok(RowKey::new(List::from_vec(values)))
    }

    /// The key of copies of these values.
    pub(crate) fn from_slice(alloc: Global, values: &[Value]) -> Result<RowKey, AllocError>
        ensures { IfOk result (λ key. key ≡ values.now) }
    {
        Ok(RowKey::new(copies(alloc, values)?))
    }

    /// A copy of the key.
    pub(crate) fn copy(&self, alloc: Global) -> Result<RowKey, AllocError>
        ensures { IfOk result (λ copy. copy ≡ self.now) }
    {
        RowKey::from_slice(alloc, self.as_slice())
    }
}

impl PartialEq for RowKey {
    ghost eq = { eq_by_cmp values_cmp };

    ghost laws = { partial_equiv_from_equiv (eq_by_cmp_equiv (lists_total value_total)) };

    fn eq(&self, other: &RowKey) -> bool {
        self.cmp(other).is_eq()
    }
}

impl Eq for RowKey {
    ghost laws = { eq_by_cmp_equiv (lists_total value_total) };
}

impl Ord for RowKey {
    ghost cmp = { values_cmp };

    ghost total = { lists_total value_total };

    ghost matches_partial_cmp = { λ _ _. refl };

    ghost matches_eq = { λ _ _. refl };

    fn cmp(&self, other: &RowKey) -> Ordering {
        self.as_slice().cmp(other.as_slice())
    }
}

impl PartialOrd for RowKey {
    ghost partial_cmp = { as_partial_cmp values_cmp };

    ghost laws = { po (lists_total value_total) (λ _ _. refl) };

    fn partial_cmp(&self, other: &RowKey) -> Option<Ordering> {
        Some(self.cmp(other))
    }
}
