//! What a filling answers over a script, and how many bytes are known behind it.

ghost use Rattle.std.specs.Prelude.{◌≡◌};
ghost use Rattle.tree_trait.specs.Found.{found_name};
ghost use Rattle.tree_trait.specs.Opened.{opened_name};

use crate::trees::changing_tree;
use std::alloc::Global;
use std::process::Abort;
use tree_trait::{FillAnswer, Found, MemTree, OpenAnswer, Opened, Tree, TwoWorld, fill};

/// The open file at `/w/a`, of which nothing was read.
fn opened(
    rt: &impl Abort,
    alloc: Global,
    tree: &mut MemTree<TwoWorld>,
) -> Opened<TwoWorld, Found<TwoWorld>>
    ensures { found_name result.file ≡ opened_name result }
{
    let path = String::from_str(alloc, "/w/a").expect(rt, "memory");
    match tree.open_file(alloc, path.as_str(), 2) {
        OpenAnswer::Opened { file, stamp } => Opened::new(alloc, path, stamp, file),
        _ => panic!(rt; "the file is opened"),
    }
}

/// Fills the first bytes of an open file, and says what that answers.
fn fill_word(
    alloc: Global,
    tree: &mut MemTree<TwoWorld>,
    opened: &mut Opened<TwoWorld, Found<TwoWorld>>,
    len: u64,
) -> &'static str
    requires { found_name opened.old.file ≡ opened_name opened.old }
    ensures { found_name opened.new.file ≡ opened_name opened.new }
{
    if len > opened.stamp.size {
        return "beyond";
    }
    match fill(alloc, tree, opened, 0, len) {
        FillAnswer::Done => "done",
        FillAnswer::Failed => "failed",
        FillAnswer::OutOfMemory => "out of memory",
    }
}

/// How many bytes are filled from the first on, what is answered, and how many are known then. Call
/// 0 opens the file, and call 2 fails; what is known isn't read again.
static FILLS: [(u64, &str, u64); 5] = [
    (1, "done", 1),
    (1, "done", 1),
    (2, "failed", 1),
    (2, "done", 2),
    (3, "beyond", 2),
];

#[test]
fn a_range_is_filled_by_a_script(rt: HostRuntime) {
    let alloc = rt.alloc();
    let mut tree = changing_tree(&rt, alloc);
    let mut file = opened(&rt, alloc, &mut tree);
    for (len, word, known) in &FILLS {
        assert!(rt;
            fill_word(alloc, &mut tree, &mut file, *len) == *word,
            "{len} {word}"
        );
        assert!(rt; file.picture().bytes() == *known, "{len} {word}");
    }
}
