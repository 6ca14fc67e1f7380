//! What an opening and an adoption leave of a database that they refuse.

use crate::rig::{after, not_adopted, not_opened, number};
use sqlite::{Connection, MemStore};
use std::alloc::Global;
use std::process::Abort;

/// A database that no store opens.
struct Refused {
    /// The statements that make it.
    sql: &'static str,
    /// A query that gives its rows, as one text.
    rows: &'static str,
}

/// Gives the rows of a table by the name of the store's.
const KEPT: &str = "SELECT group_concat(path || hex(body)) FROM kept";

/// Tables that aren't the store's: by another column, another order, a condition, a type that isn't
/// strict, another name, in another order, with an index, and a view. Then those of the store, and
/// another one, inside a transaction.
static REFUSED: &[Refused] = &[
    Refused {
        sql: "CREATE TABLE kept(name TEXT) STRICT; INSERT INTO kept VALUES ('/a'), ('/b')",
        rows: "SELECT group_concat(name) FROM kept",
    },
    Refused {
        sql: "CREATE TABLE kept(path TEXT PRIMARY KEY NOT NULL COLLATE NOCASE, body BLOB NOT NULL) \
            STRICT; INSERT INTO kept VALUES ('/a', x'01'), ('/B', x'02')",
        rows: KEPT,
    },
    Refused {
        sql: "CREATE TABLE kept(path TEXT PRIMARY KEY NOT NULL, \
            body BLOB NOT NULL CHECK (body <> x'01')) STRICT; \
            INSERT INTO kept VALUES ('/b', x'02'), ('/a', x'03')",
        rows: KEPT,
    },
    Refused {
        sql: "CREATE TABLE kept(path TEXT PRIMARY KEY NOT NULL, body BLOB NOT NULL); \
            INSERT INTO kept VALUES ('/a', x'01')",
        rows: KEPT,
    },
    Refused {
        sql: "CREATE TABLE t(a INTEGER); INSERT INTO t VALUES (7), (8)",
        rows: "SELECT group_concat(a) FROM t",
    },
    Refused {
        sql: "CREATE TABLE epoch(one INTEGER PRIMARY KEY CHECK (one = 1), n INTEGER NOT NULL) STRICT; \
            CREATE TABLE kept(path TEXT PRIMARY KEY NOT NULL, body BLOB NOT NULL) STRICT; \
            INSERT INTO kept VALUES ('/a', x'01')",
        rows: KEPT,
    },
    Refused {
        sql: "CREATE TABLE kept(path TEXT PRIMARY KEY NOT NULL, body BLOB NOT NULL) STRICT; \
            CREATE INDEX bodies ON kept(body); INSERT INTO kept VALUES ('/a', x'01')",
        rows: KEPT,
    },
    Refused {
        sql: "CREATE VIEW v AS SELECT 1 AS a",
        rows: "SELECT group_concat(a) FROM v",
    },
    Refused {
        sql: "CREATE TABLE kept(path TEXT PRIMARY KEY NOT NULL, body BLOB NOT NULL) STRICT; \
            INSERT INTO kept VALUES ('/a', x'01'); \
            BEGIN; INSERT INTO kept VALUES ('/b', x'02')",
        rows: KEPT,
    },
    Refused {
        sql: "BEGIN; CREATE TABLE t(a INTEGER); INSERT INTO t VALUES (7)",
        rows: "SELECT group_concat(a) FROM t",
    },
];

/// The text that a query gives.
fn text(rt: &impl Abort, connection: &mut Connection<MemStore>, sql: &str) -> String {
    let row = connection.query_row(sql, &[]).expect(rt, "a row");
    row.get(0).expect(rt, "a text")
}

/// What a database shows: what made its tables, its rows by this query, and whether a transaction
/// is open.
fn shown(
    rt: &impl Abort,
    alloc: Global,
    connection: &mut Connection<MemStore>,
    rows: &str,
) -> String {
    let mode = if connection.is_autocommit() {
        "outside"
    } else {
        "inside"
    };
    let tables = text(
        rt,
        connection,
        "SELECT group_concat(sql) FROM sqlite_schema",
    );
    let rows = text(rt, connection, rows);
    format!(in alloc; "{mode} {tables} {rows}").expect(rt, "memory")
}

/// The database that these statements make shows the same, its rows by this query, before an opening
/// and an adoption that are refused, and behind each of them.
pub fn stays(rt: &impl Abort, alloc: Global, sql: &str, rows: &str) {
    let was = shown(rt, alloc, &mut after(rt, alloc, sql), rows);
    let mut back = not_opened(rt, alloc, after(rt, alloc, sql));
    let opened = shown(rt, alloc, &mut back, rows);
    assert!(rt; opened.as_str() == was.as_str(), "{opened}");
    let mut back = not_adopted(rt, after(rt, alloc, sql));
    let adopted = shown(rt, alloc, &mut back, rows);
    assert!(rt; adopted.as_str() == was.as_str(), "{adopted}");
}

#[test]
fn what_is_refused_stays_as_it_was(rt: HostRuntime) {
    for case in REFUSED {
        stays(&rt, rt.alloc(), case.sql, case.rows);
    }
}

/// Numbers of the last opening behind which a store isn't opened and a connection isn't taken over, and
/// that which a refused adoption leaves: it is raised, but for the last of all.
static LEFT: [(i64, i64); 2] = [(-1, 0), (i64::MAX, i64::MAX)];

#[test]
fn a_number_that_does_not_rise_is_refused(rt: HostRuntime) {
    let alloc = rt.alloc();
    for (n, left) in LEFT {
        let sql = format!(in alloc;
            "CREATE TABLE kept(path TEXT PRIMARY KEY NOT NULL, body BLOB NOT NULL) STRICT;
            CREATE TABLE epoch(one INTEGER PRIMARY KEY CHECK (one = 1), n INTEGER NOT NULL) STRICT;
            INSERT INTO kept VALUES ('/b', x'02'), ('/a', x'01');
            INSERT INTO epoch VALUES (1, {n})"
        )
        .expect(&rt, "memory");
        let _ = not_opened(&rt, alloc, after(&rt, alloc, sql.as_str()));
        let mut back = not_adopted(&rt, after(&rt, alloc, sql.as_str()));
        assert!(rt;
            number(&rt, &mut back, "SELECT n FROM epoch") == left,
            "{n}"
        );
        assert!(rt;
            number(&rt, &mut back, "SELECT count(*) FROM kept") == 2,
            "{n}"
        );
    }
}
