//! What no clause says: that memory suffices for a put, a drop and copies of the names; and the rows
//! and the changes behind a place.

use index_rows::Rows;
use row_types::{OpenWorld, TrueRow};
use sample_rows::{name_text, path, plain, rows_text};
use std::alloc::Global;
use std::process::Abort;

/// Makes room for the row and puts it.
fn put(rt: &impl Abort, rows: &mut Rows<OpenWorld>, row: TrueRow<OpenWorld>) {
    rows.reserve(&row).expect(rt, "room for the row");
    rows.put(row);
}

/// The paths and sizes of copies of the rows' names, as `/a 1, /b 2, `.
fn names_text(rt: &impl Abort, alloc: Global, rows: &Rows<OpenWorld>) -> String {
    let mut text = String::new(alloc);
    for name in &rows.names(alloc).expect(rt, "memory") {
        let part = name_text(alloc, name).expect(rt, "memory");
        text.push_str(part.as_str()).expect(rt, "memory");
    }
    text
}

/// The rows of these files, which are no ELF files, put one after the other.
fn rows_with(rt: &impl Abort, alloc: Global, files: &[(&str, u64)]) -> Rows<OpenWorld> {
    let mut rows = Rows::new(alloc);
    for (text, size) in files {
        put(rt, &mut rows, plain(alloc, text, *size).expect(rt, "a row"));
    }
    rows
}

/// Drops the row of this path, which has one.
fn drop_path(rt: &impl Abort, alloc: Global, rows: &mut Rows<OpenWorld>, text: &str) {
    let path = path(alloc, text).expect(rt, "a path");
    assert!(rt; rows.get(&path).is_some());
    rows.reserve_drop(&path).expect(rt, "room for the drop");
    rows.drop_path(&path);
}

#[test]
fn a_put_replaces_the_row_of_its_path_and_a_dropped_row_is_gone(rt: HostRuntime) {
    let alloc = rt.alloc();
    let mut rows = rows_with(&rt, alloc, &[("/b", 1), ("/a", 2), ("/c", 3), ("/b", 4)]);
    assert!(rt; names_text(&rt, alloc, &rows).as_str() == "/a 2, /b 4, /c 3, ");
    drop_path(&rt, alloc, &mut rows, "/a");
    assert!(rt; rows.log_len() == 5);
    let text = rows_text(alloc, rows.rows()).expect(&rt, "memory");
    assert!(rt; text.as_str() == "/b 4, /c 3, ");
}

/// The rows behind the path of a text.
fn rows_after(rt: &impl Abort, alloc: Global, rows: &Rows<OpenWorld>, text: &str) -> String {
    let path = path(alloc, text).expect(rt, "a path");
    rows_text(alloc, rows.rows_after(&path)).expect(rt, "memory")
}

/// The size in the first change behind so many, if it is a put.
fn size_put_behind(rows: &Rows<OpenWorld>, heard: usize) -> Option<u64> {
    match rows.changes_after(heard).first() {
        Some(change) if change.put => Some(change.name.stamp.size),
        _ => None,
    }
}

/// Each path, and what stands behind it. The slot of `/d` has no row.
static AFTER: [(&str, &str); 6] = [
    ("/", "/a 2, /b 4, /c 3, "),
    ("/a", "/b 4, /c 3, "),
    ("/aa", "/b 4, /c 3, "),
    ("/b", "/c 3, "),
    ("/c", ""),
    ("/e", ""),
];

#[test]
fn the_rows_and_the_changes_behind_a_place(rt: HostRuntime) {
    let alloc = rt.alloc();
    let mut rows = rows_with(&rt, alloc, &[("/b", 1), ("/a", 2), ("/c", 3), ("/b", 4)]);
    let prepared = plain(alloc, "/d", 5).expect(&rt, "a row");
    rows.reserve(&prepared).expect(&rt, "room for the row");
    for (text, want) in &AFTER {
        let text = rows_after(&rt, alloc, &rows, text);
        assert!(rt; text.as_str() == *want, "{want}: {text}");
    }
    for (heard, want) in [(0, 4), (3, 1), (4, 0), (9, 0)] {
        assert!(rt; rows.changes_after(heard).len() == want);
    }
    assert!(rt; size_put_behind(&rows, 3) == Some(4));
}
