//! The text that tells of files.

ghost use Rattle.std.specs.Prelude.{◌≡◌, IfOk, map};
ghost use Rattle.std.specs.String.{string_bytes};
ghost use Rattle.serde_json.specs.View.{view};
ghost use Rattle.metadata_text.specs.Values.{answer_data, file_data};
ghost use Rattle.metadata_text.specs.Text.{class_text, metadata_text};

use crate::found::{FileClass, FoundFile};
use serde_json::{Value, json};
use std::alloc::{AllocError, Global};

/// The text of files that were found, in this order, and of whether these are all. No more is in memory
/// beside them than the text and one copy of their texts.
pub fn metadata_text(
    alloc: Global,
    complete: bool,
    found: &[FoundFile],
) -> Result<String, AllocError>
    ensures { IfOk result (λ text. string_bytes text ≡ metadata_text complete found.now) }
{
    let files = files_value(alloc, found)?;
    let answer = answer_value(alloc, complete, files)?;
    answer.to_string(alloc)
}

/// The object of the whole.
fn answer_value(alloc: Global, complete: bool, files: Vec<Value>) -> Result<Value, AllocError>
    ensures { IfOk result (λ v. view v ≡ answer_data complete (map view files.items)) }
{
    json!(in alloc; {"complete": complete, "results": files})
}

/// The objects of files.
fn files_value(alloc: Global, found: &[FoundFile]) -> Result<Vec<Value>, AllocError>
    ensures { IfOk result (λ files. map view files.items ≡ map file_data found.now) }
{
    let mut files = Vec::new(alloc);
    for one in found {
        files.push(file_value(alloc, one)?)?;
    }
    Ok(files)
}

/// The object of a file.
fn file_value(alloc: Global, one: &FoundFile) -> Result<Value, AllocError>
    ensures { IfOk result (λ v. view v ≡ file_data one.now) }
{
    let (build_id, file) = (one.build_id.as_str(), one.file.as_str());
    let class = class_text(one.class);
    json!(in alloc; {"buildid": build_id, "file": file, "type": class})
}

/// The text of a class.
fn class_text(class: FileClass) -> &'static str
    ensures { result.now ≡ class_text class }
{
    match class {
        FileClass::Executable => "executable",
        FileClass::Debuginfo => "debuginfo",
    }
}
