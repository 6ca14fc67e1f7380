//! The command `trial`.

ghost use Rattle.std.specs.Prelude.{◌≡◌, ◌≤◌, replicate, vec_len, IfOk};
ghost use Rattle.std.specs.String.{string_bytes};
ghost use Rattle.elf_forge.specs.Tree.{fresh_forge};
ghost use Rattle.elf_forge.specs.declared.digits.TheConstants.{FILES_LIMIT};
ghost use Rattle.dbgd_commands.specs.Endings.{streams};
ghost use Rattle.pass_runner.specs.declared.pass_end.PassEnd.TheVariants.{Whole};
ghost use Rattle.dbgd_commands.specs.Trial.{HasScanned, IsLineOf, SaysTrial, forged_root, totals_of};
ghost use Rattle.dbgd_commands.specs.TrialPass.{EndsWell, IsNewIndex};
ghost use Rattle.dbgd_words.specs.Limits.{IsTrialFit};

use crate::handed::Handed;
use crate::kinds::Kinds;
use crate::scan::show_end;
use crate::speech::{say, say_no_memory};
use crate::status::Status;
use crate::trial_keeper::TrialKeeper;
use crate::trial_sum::{Totals, totals_in};
use crate::trial_text::totals_line;
use elf_forge::ForgeTree;
use elf_reading::ElfReader;
use index_state::{OpenFault, State, open_state, show_index};
use pass_runner::{PassEnd, Summary, scan_state};
use path_scope::AllPaths;
use row_types::{CanonPath, OpenWorld};
use std::alloc::{AllocError, Global};
use std::sync::Wait;
use std::thread::Threads;
use tree_trait::Gate;
use tree_walk::WalkFault;

/// The index of a trial.
type Index = State<OpenWorld, TrialKeeper>;

/// The folder of the generated files.
fn root(alloc: Global) -> Result<CanonPath, AllocError>
    ensures { IfOk result (λ path. path ≡ forged_root) }
{
    match CanonPath::check(String::from_str(alloc, "/t")?) {
        Ok(path) => Ok(path),
        Err(_) => unreachable!(),
    }
}

/// So many hands, each with all the generated files.
fn hands_of(alloc: Global, seed: u64, files: u64, count: u64) -> Result<Vec<ForgeTree>, AllocError>
    requires { files ≤ FILES_LIMIT }
    ensures { IfOk result (λ hands. hands.items ≡ replicate count (fresh_forge seed files)) }
{
    let mut hands = Vec::new(alloc);
    for _ in 0..count {
        hands.push(ForgeTree::new(alloc, seed, files))?;
    }
    Ok(hands)
}

/// An index without rows, on a new store.
fn new_index(alloc: Global) -> Result<Index, AllocError>
    ensures { IfOk result IsNewIndex }
{
    match open_state(alloc, TrialKeeper::open(alloc)?) {
        Ok(state) => Ok(state),
        Err((fault, _)) => {
            let wants_memory = matches!(fault, OpenFault::OutOfMemory);
            prove!(wants_memory);
            Err(AllocError)
        }
    }
}

/// The numbers of a pass that was whole, or the want of memory that it met.
fn numbers_of(end: PassEnd) -> Result<Summary, AllocError>
    requires { EndsWell end }
    ensures { IfOk result (λ summary. end ≡ Whole summary) }
{
    match end {
        PassEnd::Whole(summary) => Ok(summary),
        PassEnd::OutOfMemory | PassEnd::Walk(WalkFault::OutOfMemory) => Err(AllocError),
        PassEnd::Walk(
            WalkFault::Failed
            | WalkFault::TooMany
            | WalkFault::TooManyEntries
            | WalkFault::RootGone(_),
        ) => unreachable!(),
        PassEnd::Missed(_) => unreachable!(),
        PassEnd::Broken | PassEnd::KeeperFault | PassEnd::LogFull => unreachable!(),
    }
}

/// Scans the generated files into a new index: gives it, with the numbers of the pass.
fn scanned<G: Gate, Rt: Threads + Wait + Sync>(
    rt: &Rt,
    alloc: Global,
    seed: u64,
    files: u64,
    workers: u64,
    gate: &G,
) -> Result<(Index, Summary), AllocError>
    requires { IsTrialFit files workers }
    ensures { IfOk result (λ found. HasScanned seed files found.0.rows found.1) }
{
    let root = root(alloc)?;
    let hands = hands_of(alloc, seed, files, workers + 2)?;
    let state = new_index(alloc)?;
    let (state, _, end) = scan_state(
        rt,
        alloc,
        state,
        hands,
        &[root],
        &mut AllPaths,
        &ElfReader,
        gate,
    );
    // For their clauses: the index invariant, and the path of a name that was missed is one that is
    // kept.
    show_index(&state);
    show_end(&end);
    Ok((state, numbers_of(end)?))
}

/// The numbers and the sum of the rows of an index that is done with.
fn totals_left(alloc: Global, state: Index) -> Result<Totals, AllocError>
    ensures { IfOk result (λ totals. totals ≡ totals_of state.rows) }
{
    totals_in(alloc, &state)
}

/// The line of a scan of the generated files.
fn line_of<G: Gate, Rt: Threads + Wait + Sync>(
    rt: &Rt,
    alloc: Global,
    seed: u64,
    files: u64,
    workers: u64,
    gate: &G,
) -> Result<String, AllocError>
    requires { IsTrialFit files workers }
    ensures { IfOk result (λ text. IsLineOf seed files (string_bytes text)) }
{
    let (state, summary) = scanned(rt, alloc, seed, files, workers, gate)?;
    let totals = totals_left(alloc, state)?;
    totals_line(alloc, files, &summary, &totals)
}

/// Scans generated files into a new index in memory, by so many workers, and says what it has then.
/// The hands and the store that the program is handed aren't looked at.
pub fn run_trial<X: Kinds, Rt: Threads + Wait + Sync>(
    rt: &Rt,
    alloc: Global,
    seed: u64,
    files: u64,
    workers: u64,
    outside: &mut Handed<X>,
) -> Status
    requires { IsTrialFit files workers }
    ensures says { SaysTrial seed files
        (streams X.O.shows outside.old.out outside.old.err)
        (streams X.O.shows outside.new.out outside.new.err) result }
    ensures hands { outside.new.hands.items ≡ outside.old.hands.items }
    ensures count { vec_len outside.new.hands ≡ vec_len outside.old.hands }
    ensures store { X.S.shows outside.new.store ≡ X.S.shows outside.old.store }
    ensures rest { (outside.new.doors ≡ outside.old.doors) × (outside.new.links ≡ outside.old.links)
        × (outside.new.clock ≡ outside.old.clock) × (outside.new.cache ≡ outside.old.cache) }
{
    match line_of(rt, alloc, seed, files, workers, &outside.gate) {
        Ok(line) => say(
            line.as_bytes(),
            Status::Done,
            &mut outside.out,
            &mut outside.err,
        ),
        Err(_) => say_no_memory(&mut outside.out, &mut outside.err),
    }
}
