//! Definitions as they are stored (docs/FORMATS.md, "Definitions").

ghost use Rattle.std.specs.Prelude.{◌≡◌, ◌≤◌, ◌<◌, ◌++◌, length, All, OnOk, IfOk, IfSome, IsTrue};
ghost use Rattle.std.specs.List.{flat_map};
ghost use Rattle.aria_page.specs.Field.{Gives};
ghost use Rattle.aria_page.specs.Word.{is_word};
ghost use Rattle.aria_value.specs.declared.definition.Definition.{Definition as AnyDefinition};
ghost use Rattle.aria_value.specs.Stored.{type_bytes, column_bytes, key_bytes, definition_bytes};
ghost use Rattle.aria_value.specs.Defined.{IsDefinition, HasNames};
ghost use Rattle.aria_page.specs.Items.{list_bytes, items_at, list_at};
ghost use Rattle.aria_value.specs.Reading.{type_of, read_type, read_column, read_key, read_parts, read_definition};

use crate::definition::{Column, ColumnType, Definition, Key};
use crate::definition_check::is_definition;
use aria_page::{
    Bytes, List, Stored, counted_u8_at, list_at, name_at, push_counted_u8, push_list, push_name,
    push_u32, u8_at, u32_at,
};
use std::alloc::{AllocError, Global};

#[tactic(auto, unfolding(aria_page::specs::Number::number))]
fn push_type(out: &mut Bytes, kind: ColumnType) -> Result<(), AllocError>
    ensures { OnOk result (out.new ≡ out.old ++ type_bytes kind) }
{
    match kind {
        ColumnType::Int => out.extend_from_slice(&[0, 0, 0, 0, 0]),
        ColumnType::Text(limit) => {
            out.push(1)?;
            push_u32(out, limit)
        }
    }
}

/// The bytes of a stored definition.
pub fn encode_definition(alloc: Global, definition: &Definition) -> Result<Bytes, AllocError>
    requires { IsDefinition definition.now }
    ensures spelled { IfOk result (λ bytes. bytes ≡ definition_bytes definition.now) }
    ensures names { IfOk result (λ bytes. HasNames definition.now) }
    ensures length { IfOk result (λ bytes. length bytes ≤ 4814) }
{
    let mut out = List::new(alloc);
    push_list(&mut out, definition.columns.as_slice())?;
    push_list(&mut out, definition.keys.as_slice())?;
    push_u32(&mut out, definition.max_rows)?;
    Ok(out)
}

fn type_of(kind: u8, limit: u32) -> Option<ColumnType>
    ensures { result ≡ type_of kind limit }
{
    match (kind, limit) {
        (0, 0) => Some(ColumnType::Int),
        (1, limit) => Some(ColumnType::Text(limit)),
        _ => None,
    }
}

#[tactic(auto, unfolding(crate::specs::Reading::read_type))]
fn type_at(bytes: &[u8]) -> Option<(ColumnType, &[u8])>
    ensures { Gives (λ x. (x.0, x.1.now)) result (read_type bytes.now) }
{
    let (kind, rest) = u8_at(bytes)?;
    let (limit, rest) = u32_at(rest)?;
    let kind = type_of(kind, limit)?;
    Some((kind, rest))
}

impl Stored for Column {
    ghost use Rattle.std.specs.Prelude.{IsTrue};
    ghost use Rattle.aria_page.specs.Word.{is_word};
    ghost use Rattle.aria_value.specs.Stored.{column_bytes};
    ghost use Rattle.aria_value.specs.Reading.{read_column};

    ghost spelled = { column_bytes };

    ghost fits = { λ column. Unit {0} };

    ghost holds = { λ column. IsTrue (is_word column.name) };

    ghost reads = { read_column };

    fn write(&self, out: &mut Bytes) -> Result<(), AllocError> {
        push_name(out, &self.name)?;
        push_type(out, self.kind)
    }

    #[tactic(auto, unfolding(crate::specs::Reading::read_column))]
    fn read(_alloc: Global, bytes: &[u8]) -> Result<Option<(Column, &[u8])>, AllocError> {
        match name_at(bytes) {
            None => Ok(None),
            Some((name, rest)) => match type_at(rest) {
                None => Ok(None),
                Some((kind, rest)) => Ok(Some((Column { name, kind }, rest))),
            },
        }
    }
}

impl Stored for Key {
    ghost use Rattle.std.specs.Prelude.{◌<◌, ◌^◌, length, IsTrue};
    ghost use Rattle.aria_page.specs.Word.{is_word};
    ghost use Rattle.aria_value.specs.Stored.{key_bytes};
    ghost use Rattle.aria_value.specs.Reading.{read_key};

    ghost spelled = { key_bytes };

    ghost fits = { λ key. length key.columns < 2 ^ 8 };

    ghost holds = { λ key. IsTrue (is_word key.name) };

    ghost reads = { read_key };

    fn write(&self, out: &mut Bytes) -> Result<(), AllocError> {
        push_name(out, &self.name)?;
        push_counted_u8(out, self.columns.as_slice())
    }

    #[tactic(auto, unfolding(crate::specs::Reading::read_key))]
    fn read(alloc: Global, bytes: &[u8]) -> Result<Option<(Key, &[u8])>, AllocError> {
        match name_at(bytes) {
            None => Ok(None),
            Some((name, rest)) => match counted_u8_at(rest) {
                None => Ok(None),
                Some((columns, rest)) => {
                    let columns = List::from_slice(alloc, columns)?;
                    Ok(Some((Key { name, columns }, rest)))
                }
            },
        }
    }
}

// The parts of a definition, and the bytes after them.
#[tactic(auto, unfolding(crate::specs::Reading::read_parts))]
fn parts_at(alloc: Global, bytes: &[u8]) -> Result<Option<(Definition, &[u8])>, AllocError>
    ensures { IfOk result (λ r. Gives (λ x. (x.0, x.1.now)) r (read_parts bytes.now)) }
{
    let Some((columns, rest)) = list_at::<Column>(alloc, bytes)? else {
        return Ok(None);
    };
    let Some((keys, rest)) = list_at::<Key>(alloc, rest)? else {
        return Ok(None);
    };
    let Some((max_rows, rest)) = u32_at(rest) else {
        return Ok(None);
    };
    let definition = Definition {
        columns,
        keys,
        max_rows,
    };
    Ok(Some((definition, rest)))
}

// The definition that the bytes spell.
#[tactic(auto, unfolding(crate::specs::Reading::read_definition))]
fn definition_at(alloc: Global, bytes: &[u8]) -> Result<Option<Definition>, AllocError>
    ensures { IfOk result (λ definition. definition ≡ read_definition bytes.now) }
{
    match parts_at(alloc, bytes)? {
        None => Ok(None),
        Some((definition, rest)) => {
            if rest.is_empty() && is_definition(&definition) {
                Ok(Some(definition))
            } else {
                Ok(None)
            }
        }
    }
}

/// The definition that the bytes spell; `None` where they spell none that a table may have.
pub fn decode_definition(alloc: Global, bytes: &[u8]) -> Result<Option<Definition>, AllocError>
    ensures read { IfOk result (λ definition. definition ≡ read_definition bytes.now) }
    // What is read is spelled so.
    ensures found { IfOk result (λ r. IfSome r (λ d. IsDefinition d × HasNames d × (bytes.now ≡ definition_bytes d))) }
    // What is spelled so is read.
    ensures only { (d : AnyDefinition) → IsDefinition d → HasNames d → bytes.now ≡ definition_bytes d → IfOk result (λ r. r ≡ Some d) }
{
    definition_at(alloc, bytes)
}
