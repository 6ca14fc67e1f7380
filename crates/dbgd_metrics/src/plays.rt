//! The kinds of step on the table, each with what it tells.
use crate::view::Known;
use atomic_table::{Join, Play, Split};

/// A load of a word.
pub(crate) struct Reads;

impl Play<(), Known> for Reads {
    ghost use Rattle.dbgd_metrics.specs.Rule.{read};

    ghost then = { read };
}

/// A load of a word, which is noted.
pub(crate) struct Notices;

impl Play<(), Known> for Notices {
    ghost use Rattle.dbgd_metrics.specs.Rule.{noticed};

    ghost then = { noticed };
}

/// Takes the next row, where the number of drawn rows is the one expected.
pub(crate) struct TakesNext;

impl Play<(), Known> for TakesNext {
    ghost use Rattle.dbgd_metrics.specs.Rule.{drew};

    ghost then = { drew };
}

/// Adds to a word of the own row.
pub(crate) struct Adds;

impl Play<(), Known> for Adds {
    ghost use Rattle.dbgd_metrics.specs.Rule.{added};

    ghost then = { added };
}

/// A new seat knows how many rows the old one knows to be drawn, and nothing else; the old one stays.
pub(crate) struct Blank;

impl Split<Known> for Blank {
    ghost use Rattle.dbgd_metrics.specs.Rule.{heir};

    ghost left = { λ known. known };

    ghost right = { λ known. heir known };
}

/// Two seats with one row, which there can't be, would become a seat that there can't be.
pub(crate) struct Clashes;

impl Join<Known> for Clashes {
    ghost use Rattle.dbgd_metrics.specs.Rule.{no_seat};

    ghost both = { λ _ _. no_seat };

    ghost spent = { no_seat };
}

/// A step of a seat that there can't be.
pub(crate) struct NeverComes;

impl Play<(), Known> for NeverComes {
    ghost use Rattle.dbgd_metrics.specs.Rule.{never_comes};

    ghost then = { never_comes };
}
