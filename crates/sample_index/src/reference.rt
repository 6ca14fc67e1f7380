//! Names of the sample world, and the index of its reference tree.

ghost use Rattle.std.specs.Prelude.{◌≡◌, map, IfOk};
ghost use Rattle.tree_trait.specs.Found.{found_name};
ghost use Rattle.sample_world.specs.Samples.{sample_found};

use crate::index::{Index, passing};
use elf_reading::ElfReader;
use index_state::Published;
use row_types::{Name, TrueRow};
use sample_rows::{SampleFault, path};
use sample_world::{REFERENCE_TREE, Sample, SampleWorld};
use std::alloc::Global;
use tree_trait::{Found, Reader};

/// The name under which a file was found.
fn found_name(alloc: Global, found: &Found<SampleWorld>) -> Result<Name, SampleFault>
    ensures { IfOk result (λ name. name ≡ found_name found.now) }
{
    Ok(Name {
        path: path(alloc, found.path.as_str())?,
        stamp: found.stamp,
    })
}

/// The name of a sample.
pub fn name_of(alloc: Global, sample: Sample) -> Result<Name, SampleFault>
    ensures { IfOk result (λ name. name ≡ found_name (sample_found sample)) }
{
    let found = sample.found(alloc)?;
    found_name(alloc, &found)
}

/// The names of samples, in this order.
pub fn names_of(alloc: Global, samples: &[Sample]) -> Result<Vec<Name>, SampleFault>
    ensures { IfOk result (λ names. names.items
        ≡ map (λ sample. found_name (sample_found sample)) samples.now) }
{
    let mut names = Vec::new(alloc);
    for sample in samples {
        names.push(name_of(alloc, *sample)?)?;
    }
    Ok(names)
}

/// The row that the reader of ELF files makes of a sample.
fn row_of(alloc: Global, sample: Sample) -> Result<TrueRow<SampleWorld>, SampleFault> {
    let found = sample.found(alloc)?;
    let name = found_name(alloc, &found)?;
    Ok(ElfReader.read(alloc, name, &found)?)
}

/// The index of the reference tree, by the rows that the reader of ELF files makes.
pub fn reference_index(alloc: Global) -> Option<Index<SampleWorld>> {
    let listed = names_of(alloc, &REFERENCE_TREE).ok()?;
    let mut index = passing(alloc, None, listed, "/")?;
    for sample in REFERENCE_TREE {
        let row = row_of(alloc, sample).ok()?;
        if index.publish(alloc, row) != Published::Added {
            return None;
        }
    }
    Some(index)
}
