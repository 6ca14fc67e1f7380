//! The trees of the sample world.

ghost use Rattle.std.specs.Prelude.{IfOk, IsTrue};
ghost use Rattle.tree_trait.specs.Script.{is_stage};

use sample_world::{REFERENCE_TREE, Sample, SampleWorld, files_of};
use std::alloc::{AllocError, Global};
use std::process::Abort;
use tree_trait::{Found, MemTree, Script};

/// The folders of the reference tree.
pub static FOLDERS: [&str; 3] = ["/srv/bin", "/srv/debug", "/w"];

/// The rows of the reference tree.
pub static ROWS: &str = "/srv/bin/empty 0, /srv/bin/libx.so 488, /srv/bin/liby.so 408, \
    /srv/bin/prog 1016, /srv/bin/run.sh 10, /srv/bin/tool 408, /srv/debug/notes.txt 0, \
    /srv/debug/ppc.debug 324, /srv/debug/tool.debug 584, /w/README 0, /w/src/inc/util.h 0, \
    /w/src/main.c 26, ";

/// The files of a tree.
#[derive(Clone, Copy)]
pub enum Files {
    /// None.
    Nothing,
    /// Those of the reference tree.
    Reference,
    /// The same without `/w/README`.
    NoReadme,
    /// `/srv/a` before it changed.
    Before,
    /// `/srv/a` after it changed.
    After,
    /// `/srv/bin/run.sh`.
    Script,
    /// `/srv/bin/run.sh`, and `/srv/a` after it changed.
    ScriptAndAfter,
}

/// The reference tree without `/w/README`.
static NO_README: [Sample; 11] = [
    Sample::Empty,
    Sample::FirstLibrary,
    Sample::SecondLibrary,
    Sample::Program,
    Sample::Script,
    Sample::Tool,
    Sample::Notes,
    Sample::OtherMachine,
    Sample::ToolDebug,
    Sample::Header,
    Sample::Source,
];

/// The files, as a tree finds them.
fn stage_of(alloc: Global, files: Files) -> Result<Vec<Found<SampleWorld>>, AllocError>
    ensures { IfOk result (λ found. IsTrue (is_stage found.items)) }
{
    match files {
        Files::Nothing => Ok(Vec::new(alloc)),
        Files::Reference => files_of(alloc, &REFERENCE_TREE),
        Files::NoReadme => files_of(alloc, &NO_README),
        Files::Before => files_of(alloc, &[Sample::Before]),
        Files::After => files_of(alloc, &[Sample::After]),
        Files::Script => files_of(alloc, &[Sample::Script]),
        Files::ScriptAndAfter => files_of(alloc, &[Sample::Script, Sample::After]),
    }
}

/// A tree of these files, which has the others from the call of a number on, and fails at the calls
/// of these numbers.
pub fn sample_tree(
    rt: &impl Abort,
    alloc: Global,
    files: Files,
    later: Option<(u64, Files)>,
    bad_calls: &[u64],
) -> MemTree<SampleWorld> {
    let first = stage_of(alloc, files).expect(rt, "memory");
    let mut stages = vec![in alloc; first].expect(rt, "memory");
    let mut moves = Vec::new(alloc);
    if let Some((call, others)) = later {
        let second = stage_of(alloc, others).expect(rt, "memory");
        stages.push(second).expect(rt, "memory");
        moves.push(call).expect(rt, "memory");
    }
    let script = Script {
        stages,
        moves,
        bad_calls: Vec::from_slice(alloc, bad_calls).expect(rt, "memory"),
    };
    MemTree::new(alloc, script)
}
