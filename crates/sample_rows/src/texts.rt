//! Names and rows as texts, which tests compare.

ghost use Rattle.std.specs.Prelude.{◌≡◌, ◌++◌, List, flat_map, IfOk, OnOk};
ghost use Rattle.std.specs.Borrow.{Bor};
ghost use Rattle.std.specs.Iterator.{Drains, IsFinite};
ghost use Rattle.std.specs.String.{string_bytes};
ghost use Rattle.row_types.specs.Row.{RowFacts};
ghost use Rattle.sample_rows.specs.Names.{name_text};
ghost use Rattle.sample_rows.specs.Rows.{names_text};

use row_types::{Name, Row};
use std::alloc::{AllocError, Global};

/// The path and the size of each row, as `/a 1, /b 2, `.
pub fn rows_text<'a, I: Iterator<Item = &'a Row> + Drop>(
    alloc: Global,
    rows: I,
) -> Result<String, AllocError>
    requires can { I.can_next rows }
    requires ends { IsFinite (I.remaining rows) }
    ensures { IfOk result (λ text. (taken : List (Bor RowFacts)) × Drains I.next_gives rows taken ×
        (string_bytes text ≡ names_text taken)) }
{
    let mut text = String::new(alloc);
    for row in rows {
        add_name(&mut text, alloc, &row.name)?;
    }
    Ok(text)
}

/// The path and the size of the name, as `/a 1, `.
pub fn name_text(alloc: Global, name: &Name) -> Result<String, AllocError>
    ensures { IfOk result (λ text. string_bytes text ≡ name_text name.now) }
{
    let mut text = String::new(alloc);
    add_name(&mut text, alloc, name)?;
    Ok(text)
}

/// Adds the path and the size of a name.
#[tactic(auto, unfolding(crate::specs::Names::name_text))]
fn add_name(text: &mut String, alloc: Global, name: &Name) -> Result<(), AllocError>
    ensures { OnOk result (string_bytes text.new ≡ string_bytes text.old ++ name_text name.now) }
{
    let size = name.stamp.size;
    text.push_str(name.path.text())?;
    text.push_str(format!(in alloc; " {size}, ")?.as_str())
}
