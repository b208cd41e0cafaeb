//! What the program says of a status that isn't Done.
ghost use Rattle.std.specs.Prelude.{◌≡◌, Some, IfOk, option_map, string_bytes};
ghost use Rattle.serde_json.specs.View.{view};
ghost use Rattle.dk_cli.specs.Fault.{conflict_object, fault_object, fault_text, limit_object, moment_object, name_object, named_object, no_object, number_object, path_object, place_object, refusal_object, which_name};

use crate::status::Status;
use dk_engine::{Refusal, Which};
use dk_model::Text;
use serde_json::{Map, Value};
use std::alloc::{AllocError, Global};

/// `{}`.
#[tactic(auto, unfolding(crate::specs::Fault::no_object, dk_model::specs::Shown::object_with))]
fn no_fields(alloc: Global) -> Value
    ensures { view result ≡ no_object }
{
    Value::from(Map::new(alloc))
}

/// `{"path":P}`.
#[tactic(auto, unfolding(crate::specs::Fault::path_object, dk_model::specs::Shown::object_with))]
fn path_fields(alloc: Global, path: &Text) -> Result<Value, AllocError>
    ensures { IfOk result (λ fields. view fields ≡ path_object path.now) }
{
    let mut fields = Map::new(alloc);
    let path = Value::try_from_str(alloc, path.as_str())?;
    serde_json::put(&mut fields, alloc, "path", path)?;
    Ok(Value::from(fields))
}

/// `{"path":P,"place":N}`.
#[tactic(auto, unfolding(crate::specs::Fault::place_object, dk_model::specs::Shown::object_with))]
fn place_fields(alloc: Global, path: &Text, place: u64) -> Result<Value, AllocError>
    ensures { IfOk result (λ fields. view fields ≡ place_object path.now place) }
{
    let mut fields = Map::new(alloc);
    let path = Value::try_from_str(alloc, path.as_str())?;
    serde_json::put(&mut fields, alloc, "path", path)?;
    serde_json::put(&mut fields, alloc, "place", Value::from(place))?;
    Ok(Value::from(fields))
}

/// `{"name":N}`.
#[tactic(auto, unfolding(crate::specs::Fault::name_object, dk_model::specs::Shown::object_with))]
fn name_fields(alloc: Global, name: &Text) -> Result<Value, AllocError>
    ensures { IfOk result (λ fields. view fields ≡ name_object name.now) }
{
    let mut fields = Map::new(alloc);
    let name = Value::try_from_str(alloc, name.as_str())?;
    serde_json::put(&mut fields, alloc, "name", name)?;
    Ok(Value::from(fields))
}

/// The name of what has a limit.
fn which_text(which: Which) -> &'static str
    ensures { result.now ≡ which_name which }
{
    match which {
        Which::Input => "Input",
        Which::InputLine => "InputLine",
        Which::InputLines => "InputLines",
        Which::Version => "Version",
        Which::Object => "Object",
        Which::Rows => "Rows",
        Which::Time => "Time",
    }
}

/// `{"value":N,"which":W}`.
#[tactic(auto, unfolding(crate::specs::Fault::limit_object, dk_model::specs::Shown::object_with))]
fn limit_fields(alloc: Global, value: u64, which: &str) -> Result<Value, AllocError>
    ensures { IfOk result (λ fields. view fields ≡ limit_object value which.now) }
{
    let mut fields = Map::new(alloc);
    serde_json::put(&mut fields, alloc, "value", Value::from(value))?;
    let which = Value::try_from_str(alloc, which)?;
    serde_json::put(&mut fields, alloc, "which", which)?;
    Ok(Value::from(fields))
}

/// `{"kind":K,"version":V}`.
#[tactic(auto, unfolding(crate::specs::Fault::conflict_object, dk_model::specs::Shown::object_with))]
fn conflict_fields(alloc: Global, version: u64, kind: &str) -> Result<Value, AllocError>
    ensures { IfOk result (λ fields. view fields ≡ conflict_object version kind.now) }
{
    let mut fields = Map::new(alloc);
    let kind = Value::try_from_str(alloc, kind)?;
    serde_json::put(&mut fields, alloc, "kind", kind)?;
    serde_json::put(&mut fields, alloc, "version", Value::from(version))?;
    Ok(Value::from(fields))
}

/// `{"NAME":N}`.
#[tactic(auto, unfolding(crate::specs::Fault::number_object, dk_model::specs::Shown::object_with))]
fn number_fields(alloc: Global, name: &str, number: u64) -> Result<Value, AllocError>
    ensures { IfOk result (λ fields. view fields ≡ number_object name.now number) }
{
    let mut fields = Map::new(alloc);
    serde_json::put(&mut fields, alloc, name, Value::from(number))?;
    Ok(Value::from(fields))
}

/// `{"first":T}`.
#[tactic(auto, unfolding(crate::specs::Fault::moment_object, dk_model::specs::Shown::object_with))]
fn moment_fields(alloc: Global, first: i64) -> Result<Value, AllocError>
    ensures { IfOk result (λ fields. view fields ≡ moment_object first) }
{
    let mut fields = Map::new(alloc);
    serde_json::put(&mut fields, alloc, "first", Value::from(first))?;
    Ok(Value::from(fields))
}

/// `{"NAME":{..}}`.
#[tactic(auto, unfolding(crate::specs::Fault::named_object, dk_model::specs::Shown::object_with))]
fn named(alloc: Global, name: &str, said: Value) -> Result<Value, AllocError>
    ensures { IfOk result (λ whole. view whole ≡ named_object name.now (view said)) }
{
    let mut whole = Map::new(alloc);
    serde_json::put(&mut whole, alloc, name, said)?;
    Ok(Value::from(whole))
}

fn refusal_value(alloc: Global, refusal: &Refusal) -> Result<Value, AllocError>
    ensures { IfOk result (λ value. view value ≡ refusal_object refusal.now) }
{
    match refusal {
        Refusal::Store => named(alloc, "store", no_fields(alloc)),
        Refusal::Missing { path } => named(alloc, "missing", path_fields(alloc, path)?),
        Refusal::Unsupported { name } => named(alloc, "unsupported", name_fields(alloc, name)?),
        Refusal::Damaged { path, place } => {
            named(alloc, "damaged", place_fields(alloc, path, *place)?)
        }
        Refusal::Limit { which, value } => {
            named(
                alloc,
                "limit",
                limit_fields(alloc, *value, which_text(*which))?,
            )
        }
        Refusal::OutOfMemory => named(alloc, "outOfMemory", no_fields(alloc)),
        Refusal::Invalid { rule } => {
            named(
                alloc,
                "invalid",
                number_fields(alloc, "rule", u64::from(*rule))?,
            )
        }
        Refusal::NoVersion { latest } => {
            named(alloc, "noVersion", number_fields(alloc, "latest", *latest)?)
        }
        Refusal::Taken { path } => named(alloc, "taken", path_fields(alloc, path)?),
        Refusal::WinnersGone { path } => named(alloc, "winnersGone", path_fields(alloc, path)?),
        Refusal::Conflict { version, kind } => {
            named(
                alloc,
                "conflict",
                conflict_fields(alloc, *version, (*kind).name())?,
            )
        }
        Refusal::TooEarly { first } => named(alloc, "tooEarly", moment_fields(alloc, *first)?),
        Refusal::NothingToDo { version } => {
            named(
                alloc,
                "nothingToDo",
                number_fields(alloc, "version", *version)?,
            )
        }
        Refusal::Gone { path } => named(alloc, "gone", path_fields(alloc, path)?),
        Refusal::NotBegun => named(alloc, "notBegun", no_fields(alloc)),
        Refusal::NoSpare { count } => {
            named(alloc, "noSpare", number_fields(alloc, "count", *count)?)
        }
    }
}

/// The answer object of a status; None for Done.
fn fault_value(alloc: Global, status: &Status) -> Result<Option<Value>, AllocError>
    ensures { IfOk result (λ value. option_map view value ≡ fault_object status.now) }
{
    let value = match status {
        Status::Done => return Ok(None),
        Status::Usage => named(alloc, "usage", no_fields(alloc))?,
        Status::SinkFault => named(alloc, "sink", no_fields(alloc))?,
        Status::SourceFault => named(alloc, "source", no_fields(alloc))?,
        Status::Refused(refusal) => refusal_value(alloc, refusal)?,
    };
    Ok(Some(value))
}

/// The answer object of a status as one compact line of JSON, without a newline; None for Done. Refused by want of memory alone.
pub fn fault_line(alloc: Global, status: &Status) -> Result<Option<String>, AllocError>
    ensures { IfOk result (λ line. option_map string_bytes line ≡ fault_text status.now) }
{
    match fault_value(alloc, status)? {
        None => Ok(None),
        Some(value) => Ok(Some(value.to_string(alloc)?)),
    }
}
