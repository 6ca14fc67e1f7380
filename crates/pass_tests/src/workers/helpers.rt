//! What the tests share: the work of one worker and of two, and what it comes to.

ghost use Rattle.std.specs.Prelude.{◌≡◌};

use elf_reading::{ElfReader, ElfTruth};
use index_desk::WorkEnd;
use sample_index::{Index, Lock, Outcome, Shared, Token, cut, outcome_of, put_behind, taken};
use scan_worker::{WorkReport, work};
use std::alloc::Global;
use std::process::Abort;
use std::sync::Wait;
use tree_trait::{Gate, MemTree, NoGate};

/// The report of these numbers.
pub fn report(asked: u64, published: u64, missed: u64, end: WorkEnd) -> WorkReport {
    WorkReport {
        asked,
        published,
        missed,
        end,
    }
}

/// Lets one worker work with this hand.
fn works<W: ElfTruth + Send, G: Gate, Rt: Wait + Sync>(
    rt: &Rt,
    alloc: Global,
    lock: &Lock<W>,
    token: Token<W>,
    hand: MemTree<W>,
    gate: &G,
) -> (Token<W>, WorkReport)
    requires { token.lock ≡ lock.now }
    ensures { result.0.lock ≡ lock.now }
{
    let (token, _, report) = work(rt, alloc, lock, token, hand, &ElfReader, gate);
    (token, report)
}

/// What the work of one worker with this hand comes to.
pub fn outcome_of_one<W: ElfTruth + Send, G: Gate, Rt: Abort + Wait + Sync>(
    rt: &Rt,
    alloc: Global,
    index: Index<W>,
    hand: MemTree<W>,
    gate: &G,
) -> Outcome<WorkReport> {
    let Shared { lock, seat } = put_behind(alloc, index).expect(rt, "memory");
    let (seat, report) = works(rt, alloc, &lock, seat, hand, gate);
    outcome_of(alloc, taken(rt, Shared { lock, seat }), report).expect(rt, "memory")
}

/// Lets two workers work with a token and a hand each, one after the other.
fn two_work<W: ElfTruth + Send, Rt: Abort + Wait + Sync>(
    rt: &Rt,
    alloc: Global,
    lock: &Lock<W>,
    token: Token<W>,
    hands: (MemTree<W>, MemTree<W>),
) -> (Token<W>, (WorkReport, WorkReport))
    requires { token.lock ≡ lock.now }
    ensures { result.0.lock ≡ lock.now }
{
    let (mine, theirs) = cut(lock, token).expect(rt, "memory");
    let (one, other) = hands;
    let (mine, first) = works(rt, alloc, lock, mine, one, &NoGate);
    let (theirs, second) = works(rt, alloc, lock, theirs, other, &NoGate);
    (lock.join(mine, theirs), (first, second))
}

/// What the work of two workers with these hands comes to.
pub fn outcome_of_two<W: ElfTruth + Send, Rt: Abort + Wait + Sync>(
    rt: &Rt,
    alloc: Global,
    index: Index<W>,
    hands: (MemTree<W>, MemTree<W>),
) -> Outcome<(WorkReport, WorkReport)> {
    let Shared { lock, seat } = put_behind(alloc, index).expect(rt, "memory");
    let (seat, reports) = two_work(rt, alloc, &lock, seat, hands);
    outcome_of(alloc, taken(rt, Shared { lock, seat }), reports).expect(rt, "memory")
}
