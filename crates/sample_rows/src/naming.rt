//! Paths, stamps and names.

ghost use Rattle.std.specs.Prelude.{◌≡◌, ◌∷◌, [], IfOk, IfErr};
ghost use Rattle.sample_rows.specs.Names.{RefusesPaths, sample_name, sample_names, paths_of};
ghost use Rattle.sample_rows.specs.Names.{stamp_of_size, sample_texts};

use crate::fault::SampleFault;
use row_types::{CanonPath, Name, Stamp};
use std::alloc::Global;

/// The second at which each file has changed, counted from the start of 1970.
pub const SECOND: i64 = 100;

/// The canonical path of this text.
#[tactic(auto, unfolding(crate::specs::Names::RefusesPaths))]
pub fn path(alloc: Global, text: &str) -> Result<CanonPath, SampleFault>
    ensures value { IfOk result (λ path. path ≡ text.now) }
    ensures refused { IfErr result (RefusesPaths (text.now ∷ [])) }
{
    match CanonPath::check(String::from_str(alloc, text)?) {
        Ok(path) => Ok(path),
        Err(_) => Err(SampleFault::NotAPath),
    }
}

/// The canonical paths of these texts.
#[tactic(auto, unfolding(crate::specs::Names::sample_texts, crate::specs::Names::RefusesPaths))]
pub fn paths(alloc: Global, texts: &[&str]) -> Result<Vec<CanonPath>, SampleFault>
    ensures value { IfOk result (λ paths. paths.items ≡ sample_texts texts.now) }
    ensures refused { IfErr result (RefusesPaths (sample_texts texts.now)) }
{
    let mut paths = Vec::new(alloc);
    for text in texts {
        paths.push(path(alloc, text)?)?;
    }
    Ok(paths)
}

/// The stamp of a file of this size.
pub fn stamp(size: u64) -> Stamp
    ensures { result ≡ stamp_of_size size }
{
    Stamp {
        size,
        secs: SECOND,
        nanos: 0,
    }
}

/// The name of a file of this path and size.
pub fn name(alloc: Global, text: &str, size: u64) -> Result<Name, SampleFault>
    ensures value { IfOk result (λ name. name ≡ sample_name text.now size) }
    ensures refused { IfErr result (RefusesPaths (text.now ∷ [])) }
{
    Ok(Name {
        path: path(alloc, text)?,
        stamp: stamp(size),
    })
}

/// The names of files of these paths and sizes, in this order.
#[tactic(auto, unfolding(crate::specs::Names::sample_names, crate::specs::Names::RefusesPaths))]
pub fn names(alloc: Global, files: &[(&str, u64)]) -> Result<Vec<Name>, SampleFault>
    ensures value { IfOk result (λ names. names.items ≡ sample_names files.now) }
    ensures refused { IfErr result (RefusesPaths (paths_of files.now)) }
{
    let mut names = Vec::new(alloc);
    for (text, size) in files {
        names.push(name(alloc, text, *size)?)?;
    }
    Ok(names)
}
