//! Scripts for trees of the sample world.

ghost use Rattle.std.specs.Prelude.{◌≡◌, [], map, IfOk, IsTrue};
ghost use Rattle.tree_trait.specs.Script.{is_script};
ghost use Rattle.sample_world.specs.Samples.{sample_found};
ghost use Rattle.sample_world.specs.Trees.{reference_facts, changed_file_facts};

use crate::sample::{REFERENCE_TREE, Sample};
use crate::world::SampleWorld;
use row_types::OpenWorld;
use std::alloc::{AllocError, Global};
use tree_trait::{Found, Script};

/// The files, in the order given.
pub fn files_of(alloc: Global, samples: &[Sample]) -> Result<Vec<Found<SampleWorld>>, AllocError>
    ensures { IfOk result (λ files. files.items ≡ map sample_found samples.now) }
{
    let mut files = Vec::with_capacity(alloc, samples.len())?;
    for sample in samples {
        files.push(sample.found(alloc)?)?;
    }
    Ok(files)
}

/// The files in the open world, in the order given.
pub fn open_files(alloc: Global, samples: &[Sample]) -> Result<Vec<Found<OpenWorld>>, AllocError>
    ensures { IfOk result (λ files. files.items ≡ map sample_found samples.now) }
{
    let mut files = Vec::with_capacity(alloc, samples.len())?;
    for sample in samples {
        let Found {
            path,
            stamp,
            bytes,
            ..
        } = sample.found(alloc)?;
        files.push(Found::new(path, stamp, bytes))?;
    }
    Ok(files)
}

/// The reference tree in the open world.
pub fn open_script(alloc: Global) -> Result<Script<OpenWorld>, AllocError>
    ensures value { IfOk result (λ script. script ≡ reference_facts []) }
    ensures sound { IfOk result (λ script. IsTrue (is_script script)) }
{
    Ok(Script {
        stages: vec![in alloc; open_files(alloc, &REFERENCE_TREE)?]?,
        moves: Vec::new(alloc),
        bad_calls: Vec::new(alloc),
    })
}

/// The reference tree, whose calls of these numbers fail.
pub fn reference_script(
    alloc: Global,
    bad_calls: Vec<u64>,
) -> Result<Script<SampleWorld>, AllocError>
    ensures value { IfOk result (λ script. script ≡ reference_facts bad_calls.items) }
    ensures sound { IfOk result (λ script. IsTrue (is_script script)) }
{
    Ok(Script {
        stages: vec![in alloc; files_of(alloc, &REFERENCE_TREE)?]?,
        moves: Vec::new(alloc),
        bad_calls,
    })
}

/// The file that changes before the call of this number.
pub fn changed_file_script(alloc: Global, call: u64) -> Result<Script<SampleWorld>, AllocError>
    ensures value { IfOk result (λ script. script ≡ changed_file_facts call) }
    ensures sound { IfOk result (λ script. IsTrue (is_script script)) }
{
    let before = files_of(alloc, &[Sample::Before])?;
    let after = files_of(alloc, &[Sample::After])?;
    Ok(Script {
        stages: vec![in alloc; before, after]?,
        moves: vec![in alloc; call]?,
        bad_calls: Vec::new(alloc),
    })
}
