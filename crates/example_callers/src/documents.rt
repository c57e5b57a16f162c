//! Callers that write a dag of `String` weights as a document and read it back. Each text is
//! copied, so the dag that is read is not equal to the one that was written, but a copy of it.
ghost use Rattle.std.specs.Prelude.{◌≡◌, IfOk, MatchResult, string_bytes};
ghost use Rattle.std.specs.Option.{option_map};
ghost use Rattle.serde_json.specs.Data.{string};
ghost use Rattle.serde_json.specs.Find.{as_str};
ghost use Rattle.serde_json.specs.View.{view};
ghost use Rattle.daggy_base.specs.Copying.{IsCopy};
ghost use Rattle.daggy_json.specs.Restoring.{trimmed};
ghost use Rattle.daggy_json.specs.declared.error.ReadError.TheVariants.{Memory};
ghost use Rattle.example_callers.specs.Documents.{HasSameText};

use daggy_dag::acyclic::{Dag, StableDag};
use daggy_json::documents::{dag_from_json, dag_to_json, stable_from_json, stable_to_json};
use daggy_json::error::ReadError;
use serde_json::Value;
use std::alloc::{AllocError, Global};

// The text as a value.
fn encoded(text: &String) -> Result<Value, AllocError>
    ensures { IfOk result (λ v. view v ≡ string (string_bytes text.now)) }
{
    Ok(Value::String(text.clone()?))
}

// The text of a string value, or `None` for any other value.
fn decoded(value: &Value) -> Result<Option<String>, AllocError>
    ensures { IfOk result (λ o. option_map string_bytes o ≡ as_str (view value.now)) }
{
    match value {
        Value::String(text) => Ok(Some(text.clone()?)),
        _ => Ok(None),
    }
}

/// Writes a dag as a document and reads it: the result has the same indices, endpoints and lists,
/// and the same texts. Fails only if an allocation fails.
pub fn read_back(alloc: Global, dag: &Dag<String, String>) -> Result<Dag<String, String>, ReadError>
    ensures { MatchResult result
        (λ d. IsCopy HasSameText HasSameText dag.now.graph d.graph) (λ e. e ≡ Memory) }
{
    let Ok(value) = dag_to_json(alloc, dag, encoded, encoded) else {
        return Err(ReadError::Memory);
    };
    dag_from_json(alloc, &value, decoded, decoded)
}

/// The same for a stable dag, whose trailing vacant slots are dropped.
pub fn read_back_stable(
    alloc: Global,
    dag: &StableDag<String, String>,
) -> Result<StableDag<String, String>, ReadError>
    ensures { MatchResult result
        (λ d. IsCopy HasSameText HasSameText (trimmed dag.now.graph) d.graph) (λ e. e ≡ Memory) }
{
    let Ok(value) = stable_to_json(alloc, dag, encoded, encoded) else {
        return Err(ReadError::Memory);
    };
    stable_from_json(alloc, &value, decoded, decoded)
}
