//! What is said where a line is refused.

ghost use Rattle.path_canon.specs.declared.fault.SelectFault.{SelectFault};
ghost use Rattle.dbgd_commands.specs.Endings.{EndsWhole, streams};
ghost use Rattle.dbgd_run.specs.Selecting.{unselected_saying, usage_saying};

use dbgd_commands::{Status, say_error, say_no_memory};
use http_wire::Sink;
use path_canon::SelectFault;

/// Says how the words of each command read.
pub(crate) fn say_usage<O: Sink>(out: &mut O, err: &mut O) -> Status
    ensures { EndsWhole usage_saying
        (streams O.shows out.old err.old) (streams O.shows out.new err.new) result }
{
    say_error(
        "usage: dbgd ident FILE, sources FILE, section FILE NAME, query -d DB ID, ",
        "scan -d DB DIR, serve -d DB DIR, trial SEED FILES WORKERS",
        Status::Usage,
        out,
        err,
    )
}

/// Says that no selection was made: the usage where a pattern is refused, else that memory was.
pub(crate) fn say_unselected<O: Sink>(fault: SelectFault, out: &mut O, err: &mut O) -> Status
    ensures { EndsWhole (unselected_saying fault)
        (streams O.shows out.old err.old) (streams O.shows out.new err.new) result }
{
    match fault {
        SelectFault::BadInclude | SelectFault::BadExclude | SelectFault::TooBig => {
            say_usage(out, err)
        }
        SelectFault::OutOfMemory => say_no_memory(out, err),
    }
}
