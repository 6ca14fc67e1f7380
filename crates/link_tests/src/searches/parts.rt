//! Searches for sections and sources. The bytes of sections are those of the sample files.

use crate::searches::rig::{Bad, Case, Said, Sample, Wanted};
use find_client::FindEnd;

/// Sections of either file of an id; none is kept.
pub static SECTIONS: [Case; 10] = [
    Case {
        says: "a section that the debug file has, of no bytes",
        wanted: Wanted::Section(b".debug_info"),
        held: &[
            ("debuginfo", Sample::Companion),
            ("executable", Sample::Program),
        ],
        links: &[&[Said::Reply(200, Sample::Companion)]],
        bad: Bad(&[], &[]),
        end: FindEnd::Cached,
        written: (Sample::Plain(b""), 0),
        calls: "get debuginfo: 584\n",
        kept: &[
            ("debuginfo", Sample::Companion),
            ("executable", Sample::Program),
        ],
        asked: &[&[]],
    },
    Case {
        says: "a section that both have",
        wanted: Wanted::Section(b".shstrtab"),
        held: &[
            ("debuginfo", Sample::Companion),
            ("executable", Sample::Program),
        ],
        links: &[&[Said::Reply(200, Sample::Companion)]],
        bad: Bad(&[], &[]),
        end: FindEnd::Cached,
        written: (
            Sample::Plain(b"\0.note.gnu.build-id\0.text\0.debug_info\0.debug_zz\0.shstrtab\0"),
            58,
        ),
        calls: "get debuginfo: 584\n",
        kept: &[
            ("debuginfo", Sample::Companion),
            ("executable", Sample::Program),
        ],
        asked: &[&[]],
    },
    Case {
        says: "a section that the program has",
        wanted: Wanted::Section(b".text"),
        held: &[
            ("debuginfo", Sample::Companion),
            ("executable", Sample::Program),
        ],
        links: &[&[Said::Reply(200, Sample::Companion)]],
        bad: Bad(&[], &[]),
        end: FindEnd::Cached,
        written: (Sample::Plain(b"\xc3"), 1),
        calls: "get debuginfo: 584\nget executable: 408\n",
        kept: &[
            ("debuginfo", Sample::Companion),
            ("executable", Sample::Program),
        ],
        asked: &[&[]],
    },
    Case {
        says: "a section behind a question that fails",
        wanted: Wanted::Section(b".text"),
        held: &[
            ("debuginfo", Sample::Companion),
            ("executable", Sample::Program),
        ],
        links: &[&[Said::Reply(200, Sample::Companion)]],
        bad: Bad(&[0], &[]),
        end: FindEnd::Cached,
        written: (Sample::Plain(b"\xc3"), 1),
        calls: "get debuginfo: failed\nget executable: 408\n",
        kept: &[
            ("debuginfo", Sample::Companion),
            ("executable", Sample::Program),
        ],
        asked: &[&[]],
    },
    Case {
        says: "a section of a file of another id, and a link that has the program",
        wanted: Wanted::Section(b".text"),
        held: &[("executable", Sample::Other)],
        links: &[&[
            Said::Reply(200, Sample::Companion),
            Said::Reply(200, Sample::Program),
        ]],
        bad: Bad(&[], &[]),
        end: FindEnd::Fetched,
        written: (Sample::Plain(b"\xc3"), 1),
        calls: "get debuginfo: absent\nget executable: 488\n",
        kept: &[("executable", Sample::Other)],
        asked: &[&["debuginfo", "executable"]],
    },
    Case {
        says: "a section that the second link has",
        wanted: Wanted::Section(b".shstrtab"),
        held: &[],
        links: &[
            &[
                Said::Reply(404, Sample::Plain(b"")),
                Said::Reply(404, Sample::Plain(b"")),
            ],
            &[Said::Reply(200, Sample::Companion)],
        ],
        bad: Bad(&[], &[]),
        end: FindEnd::Fetched,
        written: (
            Sample::Plain(b"\0.note.gnu.build-id\0.text\0.debug_info\0.debug_zz\0.shstrtab\0"),
            58,
        ),
        calls: "get debuginfo: absent\nget executable: absent\n",
        kept: &[],
        asked: &[&["debuginfo", "executable"], &["debuginfo"]],
    },
    Case {
        says: "a section that is compressed",
        wanted: Wanted::Section(b".debug_zz"),
        held: &[
            ("debuginfo", Sample::Companion),
            ("executable", Sample::Program),
        ],
        links: &[&[
            Said::Reply(200, Sample::Companion),
            Said::Reply(200, Sample::Program),
        ]],
        bad: Bad(&[], &[]),
        end: FindEnd::Nothing,
        written: (Sample::Plain(b""), 0),
        calls: "get debuginfo: 584\nget executable: 408\n",
        kept: &[
            ("debuginfo", Sample::Companion),
            ("executable", Sample::Program),
        ],
        asked: &[&["debuginfo", "executable"]],
    },
    Case {
        says: "a section whose second question fails",
        wanted: Wanted::Section(b".text"),
        held: &[("executable", Sample::Program)],
        links: &[&[
            Said::Reply(404, Sample::Plain(b"")),
            Said::Reply(404, Sample::Plain(b"")),
        ]],
        bad: Bad(&[1], &[]),
        end: FindEnd::CacheFault,
        written: (Sample::Plain(b""), 0),
        calls: "get debuginfo: absent\nget executable: failed\n",
        kept: &[("executable", Sample::Program)],
        asked: &[&["debuginfo", "executable"]],
    },
    Case {
        says: "a section of which a link fails",
        wanted: Wanted::Section(b".text"),
        held: &[("debuginfo", Sample::Companion)],
        links: &[&[Said::Failed, Said::Reply(404, Sample::Plain(b""))]],
        bad: Bad(&[], &[]),
        end: FindEnd::LinkFault,
        written: (Sample::Plain(b""), 0),
        calls: "get debuginfo: 584\nget executable: absent\n",
        kept: &[("debuginfo", Sample::Companion)],
        asked: &[&["debuginfo", "executable"]],
    },
    Case {
        says: "a section and an output that fails",
        wanted: Wanted::Section(b".shstrtab"),
        held: &[],
        links: &[&[Said::Reply(200, Sample::Companion)]],
        bad: Bad(&[], &[0]),
        end: FindEnd::WriteFault,
        written: (
            Sample::Plain(b"\0.note.gnu.build-id\0.text\0.debug_info\0.debug_zz\0.shstrtab\0"),
            0,
        ),
        calls: "get debuginfo: absent\nget executable: absent\n",
        kept: &[],
        asked: &[&["debuginfo"]],
    },
];

/// Sources, which are asked of links alone.
pub static SOURCES: [Case; 3] = [
    Case {
        says: "a source that a link has",
        wanted: Wanted::Source,
        held: &[
            ("debuginfo", Sample::Companion),
            ("executable", Sample::Program),
        ],
        links: &[
            &[Said::Reply(404, Sample::Plain(b""))],
            &[Said::Reply(200, Sample::Plain(b"int"))],
        ],
        bad: Bad(&[], &[]),
        end: FindEnd::Fetched,
        written: (Sample::Plain(b"int"), 3),
        calls: "",
        kept: &[
            ("debuginfo", Sample::Companion),
            ("executable", Sample::Program),
        ],
        asked: &[&["source/w/main.c"], &["source/w/main.c"]],
    },
    Case {
        says: "a source, and a cache that fails at each call",
        wanted: Wanted::Source,
        held: &[],
        links: &[&[Said::Reply(404, Sample::Plain(b""))]],
        bad: Bad(&[0, 1], &[]),
        end: FindEnd::Nothing,
        written: (Sample::Plain(b""), 0),
        calls: "",
        kept: &[],
        asked: &[&["source/w/main.c"]],
    },
    Case {
        says: "a source of which a link fails",
        wanted: Wanted::Source,
        held: &[],
        links: &[&[Said::Failed]],
        bad: Bad(&[], &[]),
        end: FindEnd::LinkFault,
        written: (Sample::Plain(b""), 0),
        calls: "",
        kept: &[],
        asked: &[&["source/w/main.c"]],
    },
];
