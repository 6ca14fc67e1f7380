//! The lines that a command speaks by its two sinks.

ghost use Rattle.std.specs.Prelude.{◌++◌, MatchResult};
ghost use Rattle.http_wire.specs.Sink.{GetsAll, GetsPart};
ghost use Rattle.dbgd_commands.specs.Endings.{EndsSaying, EndsWhole, Gets, SaysMemory};
ghost use Rattle.dbgd_commands.specs.Endings.{error_saying, fault_saying, gone_saying, limit_saying};
ghost use Rattle.dbgd_commands.specs.Endings.{out_saying, streams};
ghost use Rattle.dbgd_commands.specs.Section.{plain_fault_saying};
ghost use Rattle.dbgd_commands.specs.Texts.{fed_line};

use crate::status::Status;
use crate::texts::why_word;
use http_wire::{Sink, WriteFault, write_all};
use row_types::Why;

/// Writes two pieces, one after the other.
#[tactic(auto, using(http_wire::proofs::Pieces::in_a_row))]
fn write_both<S: Sink>(sink: &mut S, first: &[u8], second: &[u8]) -> Result<(), WriteFault>
    ensures { MatchResult result
        (λ _. GetsAll (first.now ++ second.now) (S.shows sink.old) (S.shows sink.new))
        (λ _. GetsPart (first.now ++ second.now) (S.shows sink.old) (S.shows sink.new)) }
{
    write_all(sink, first)?;
    write_all(sink, second)
}

/// Writes a line of two pieces. After the fault a part of it was written.
#[tactic(auto, using(http_wire::proofs::Pieces::in_a_row))]
pub fn write_line<S: Sink>(sink: &mut S, text: &str, object: &str) -> Result<(), WriteFault>
    ensures { MatchResult result
        (λ _. GetsAll (fed_line (text.now ++ object.now)) (S.shows sink.old) (S.shows sink.new))
        (λ _. GetsPart (fed_line (text.now ++ object.now)) (S.shows sink.old) (S.shows sink.new)) }
{
    write_both(sink, text.as_bytes(), object.as_bytes())?;
    write_all(sink, b"\n")
}

/// Says a line of two pieces. A write that fails changes nothing else.
pub fn tell<S: Sink>(sink: &mut S, text: &str, object: &str)
    ensures { Gets (fed_line (text.now ++ object.now)) (S.shows sink.old) (S.shows sink.new) }
{
    let _ = write_line(sink, text, object);
}

/// Says bytes on the standard output; where it fails, that is said on the standard error.
#[tactic(auto, using(http_wire::proofs::Pieces::in_a_row))]
pub fn say<O: Sink>(bytes: &[u8], status: Status, out: &mut O, err: &mut O) -> Status
    ensures { EndsSaying (out_saying bytes.now status)
        (streams O.shows out.old err.old) (streams O.shows out.new err.new) result }
{
    match write_all(out, bytes) {
        Ok(()) => status,
        Err(_) => {
            tell(err, "dbgd: fault ", "output");
            Status::Fault
        }
    }
}

/// Says a line on the standard error: a text and what it speaks of.
#[tactic(auto, using(http_wire::proofs::Pieces::in_a_row))]
pub fn say_error<O: Sink>(
    text: &str,
    object: &str,
    status: Status,
    out: &mut O,
    err: &mut O,
) -> Status
    ensures { EndsWhole (error_saying (text.now ++ object.now) status)
        (streams O.shows out.old err.old) (streams O.shows out.new err.new) result }
{
    tell(err, text, object);
    status
}

/// Says that a call of an object of the outside failed.
pub fn say_fault<O: Sink>(what: &str, out: &mut O, err: &mut O) -> Status
    ensures { EndsWhole (fault_saying what.now)
        (streams O.shows out.old err.old) (streams O.shows out.new err.new) result }
{
    say_error("dbgd: fault ", what, Status::Fault, out, err)
}

/// Says that a limit was met.
pub fn say_limit<O: Sink>(what: &str, out: &mut O, err: &mut O) -> Status
    ensures { EndsWhole (limit_saying what.now)
        (streams O.shows out.old err.old) (streams O.shows out.new err.new) result }
{
    say_error("dbgd: limit ", what, Status::Limit, out, err)
}

/// Says that no regular file is at a path, or no folder.
pub fn say_gone<O: Sink>(path: &str, out: &mut O, err: &mut O) -> Status
    ensures { EndsWhole (gone_saying path.now)
        (streams O.shows out.old err.old) (streams O.shows out.new err.new) result }
{
    say_error("dbgd: gone ", path, Status::Absent, out, err)
}

/// Says that memory was refused.
pub fn say_no_memory<O: Sink>(out: &mut O, err: &mut O) -> Status
    ensures { SaysMemory
        (streams O.shows out.old err.old) (streams O.shows out.new err.new) result }
{
    say_error("dbgd: out of memory", "", Status::OutOfMemory, out, err)
}

/// Says why a file has no identity, on the standard error.
pub fn say_plain<O: Sink>(why: Why, out: &mut O, err: &mut O) -> Status
    ensures { EndsWhole (plain_fault_saying why)
        (streams O.shows out.old err.old) (streams O.shows out.new err.new) result }
{
    say_error("dbgd: plain ", why_word(why), Status::Absent, out, err)
}
