//! What the words ask.

use crate::runs::hands::{File, Files, hand_of};
use crate::runs::rig::{Plan, Run, SOUND, answer_locally, run_all};
use std::alloc::Global;
use std::process::Abort;
use std::sync::Wait;
use std::thread::Threads;

static USAGE: &str = "usage: dbgd ident FILE, sources FILE, section FILE NAME, query -d DB ID, \
    scan -d DB DIR, serve -d DB DIR, trial SEED FILES WORKERS\n";

/// Lines that can't be read, and lines with a pattern that is refused.
static UNREADABLE: [&[&str]; 35] = [
    &[],
    &[""],
    &["frobnicate"],
    &["IDENT", "/w/a"],
    &["--help", "ident"],
    &["find", "/w/a"],
    &["ident"],
    &["ident", "/w/a", "/w/a"],
    &["sources"],
    &["sources", "/w/a", "/w/a"],
    &["section", "/w/a"],
    &["section", "/w/a", ".text", ".text"],
    &["query"],
    &["query", "-d", "m", "9"],
    &["scan"],
    &["scan", "/w"],
    &["scan", "-d", "m", "w"],
    &["scan", "-d", "m", "/w", "./w"],
    &["scan", "-d", "m", "-c", "0", "/w"],
    &["scan", "-d", "m", "-d", "m", "/w"],
    &["scan", "-d", "m", "-I", "a", "-I", "a", "/w"],
    &["scan", "-d", "m", "-X", "a", "--exclude", "b", "/w"],
    &["scan", "-d", "m", "-I"],
    &["scan", "-d", "m", "-I", "(", "/w"],
    &["scan", "-d", "m", "--exclude=[", "-I", "a", "/w"],
    &["scan", "-d", "m", "-X", "a{1000}{1000}{1000}", "/w"],
    &["serve"],
    &["serve", "-d", "m", "-p", "0", "/w"],
    &["trial"],
    &["trial", "--help"],
    &["trial", "7", "40"],
    &["trial", "7", "0", "1"],
    &["trial", "7", "40", "65"],
    &["trial", "7", "+40", "1"],
    &["trial", "18446744073709551616", "40", "1"],
];

/// Runs alone, over a file without bytes.
fn run_alone<Rt: Threads + Wait + Sync + Abort>(
    rt: &Rt,
    alloc: Global,
    plan: &Plan<'_>,
    case: Run<'_>,
) {
    let hand = hand_of(rt, alloc, &Files::One(File::Empty), &[]);
    run_all(rt, alloc, hand, plan, &[case]);
}

/// Runs each line alone: it says this on err, with this status.
fn each_says<Rt: Threads + Wait + Sync + Abort>(
    rt: &Rt,
    alloc: Global,
    lines: &[&[&str]],
    err: &str,
    status: u8,
) {
    for words in lines {
        run_alone(rt, alloc, &SOUND, Run(words, b"", err, status));
    }
}

#[test]
fn words_that_ask_nothing_give_their_line(rt: HostRuntime) {
    each_says(&rt, rt.alloc(), &UNREADABLE, USAGE, 2);
}

/// A line that is answered with the version of the program.
static PROGRAM: Run = Run(&["--version"], b"dbgd 0.1.0\n", "", 0);

/// A line that is answered with its version.
static VERSION: Run = Run(&["query", "--version"], b"dbgd query 0.1.0\n", "", 0);

/// The same where the standard output fails.
static CUT_VERSION: Run = Run(&["scan", "-V"], b"", "dbgd: fault output\n", 1);

#[test]
fn help_and_version_go_to_the_standard_output(rt: HostRuntime) {
    let plan = Plan {
        bad_out: &[0],
        ..SOUND
    };
    run_alone(&rt, rt.alloc(), &SOUND, PROGRAM);
    run_alone(&rt, rt.alloc(), &SOUND, VERSION);
    run_alone(&rt, rt.alloc(), &plan, CUT_VERSION);
}

/// Lines, and what the local part answers.
static LOCAL: [(&[&str], Option<u8>); 5] = [
    (&["ident", "/w/a"], Some(3)),
    (&[], Some(2)),
    (&["scan", "-d", "m", "/w"], None),
    (&["serve", "-d", "m", "/w"], None),
    (&["trial", "7", "40", "1"], None),
];

#[test]
fn the_local_part_answers_every_line_but_those_that_take_threads(rt: HostRuntime) {
    let alloc = rt.alloc();
    let hand = hand_of(&rt, alloc, &Files::One(File::Empty), &[]);
    answer_locally(&rt, alloc, hand, &LOCAL);
}
