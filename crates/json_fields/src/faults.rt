//! The words for faults of fields.
ghost use Rattle.std.specs.Prelude.{◌≡◌};
ghost use Rattle.json_fields.specs.Words.{field_word};

use json_whole::FieldFault;

/// The word for what is wrong with a field.
pub fn field_word(fault: FieldFault) -> &'static str
    ensures { result.now ≡ field_word fault }
{
    match fault {
        FieldFault::Missing => "missing",
        FieldFault::Kind => "kind",
        FieldFault::Small => "small",
        FieldFault::Large => "large",
        FieldFault::Text => "text",
    }
}
