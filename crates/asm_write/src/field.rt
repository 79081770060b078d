//! Little-endian fields (gABI, "Data Representation").

ghost use Rattle.std.specs.Prelude.{◌≡◌, ◌++◌, OnOk};
ghost use Rattle.asm_write.specs.Fields.{field_bytes, record_bytes};

use std::alloc::AllocError;

/// A field of a record.
#[derive(Clone, Copy)]
pub enum Field {
    /// One byte.
    Byte(u8),
    /// Two bytes.
    Half(u16),
    /// Four bytes.
    Word(u32),
    /// Eight bytes.
    Doubleword(u64),
}

/// Appends the bytes of a field.
fn append_field(out: &mut Vec<u8>, field: Field) -> Result<(), AllocError>
    ensures { OnOk result (out.new.items ≡ out.old.items ++ field_bytes field) }
{
    match field {
        Field::Byte(value) => out.extend_from_slice(&[value]),
        Field::Half(value) => out.extend_from_slice(&value.to_le_bytes()),
        Field::Word(value) => out.extend_from_slice(&value.to_le_bytes()),
        Field::Doubleword(value) => out.extend_from_slice(&value.to_le_bytes()),
    }
}

/// Appends the bytes of a record, field by field.
#[tactic(auto, unfolding(crate::specs::Fields::record_bytes))]
pub(crate) fn append_record(out: &mut Vec<u8>, fields: &[Field]) -> Result<(), AllocError>
    ensures { OnOk result (out.new.items ≡ out.old.items ++ record_bytes fields.now) }
{
    for field in fields {
        append_field(out, *field)?;
    }
    Ok(())
}
