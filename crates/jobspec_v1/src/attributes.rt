//! The attributes of a jobspec.
ghost use Rattle.std.specs.Prelude.{◌≡◌, Ok, Some, IsSome, IfOk, IfErr};
ghost use Rattle.serde_json.specs.Find.{as_object};
ghost use Rattle.std.specs.Result.{result_map_both};
ghost use Rattle.json_whole.specs.Values.{view};
ghost use Rattle.jobspec_v1.specs.Faults.{IsFirstFault};
ghost use Rattle.jobspec_v1.specs.Attributes.{duration_in, terms_of, terms_held};

use crate::faults::{SpecFault, field_at};
use flux_defs::GREATEST_NUMBER;
use json::Value;
use json_fields::{given, object_or_none};
use json_whole::{FieldFault, get, need_u64};
use std::alloc::Global;

/// How long a job runs, in seconds (0 sets no limit), and its constraint.
#[derive(Clone, Copy)]
pub struct Attributes<'v, 'a> {
    pub duration: u64,
    pub constraint: Option<&'v Value<'a>>,
}

/// The seconds in the attributes of the system.
fn duration_in(value: &Value) -> Result<u64, FieldFault>
    requires { IsSome (as_object (view value.now)) }
    ensures { result ≡ duration_in (Some (view value.now)) }
{
    if get(value, "duration").is_none() {
        return Ok(0);
    }
    need_u64(value, "duration", 0, GREATEST_NUMBER)
}

/// What the attributes of a jobspec say: each of `attributes`, `attributes.system` and its `constraints` may be absent
/// or null, `duration` may be absent. Field at the path of the first that breaks its rule.
pub fn read_attributes<'v, 'a>(
    alloc: Global,
    value: &'v Value<'a>,
) -> Result<Attributes<'v, 'a>, SpecFault>
    ensures read { IfOk result (λ attributes. terms_of (view value.now) ≡ Ok (terms_held attributes)) }
    ensures told { IfErr result (IsFirstFault (terms_of (view value.now))) }
{
    let nothing = Attributes {
        duration: 0,
        constraint: None,
    };
    let attributes = match object_or_none(value, "attributes") {
        Ok(Some(attributes)) => attributes,
        Ok(None) => return Ok(nothing),
        Err(fault) => return Err(field_at(alloc, b"attributes", fault)),
    };
    let system = match object_or_none(attributes, "system") {
        Ok(Some(system)) => system,
        Ok(None) => return Ok(nothing),
        Err(fault) => return Err(field_at(alloc, b"attributes.system", fault)),
    };
    match duration_in(system) {
        Ok(duration) => Ok(Attributes {
            duration,
            constraint: given(system, "constraints"),
        }),
        Err(fault) => Err(field_at(alloc, b"attributes.system.duration", fault)),
    }
}
