//! The parts that the text of a build-id's path is written from.

ghost use Rattle.std.specs.Prelude.{◌≡◌, List, ℕ, true, MatchOption};
ghost use Rattle.row_types.specs.Absolute.{is_absolute};
ghost use Rattle.webapi_routes.specs.Targets.{IsNoIdText};
ghost use Rattle.webapi_routes.specs.Parts.{seen};
ghost use Rattle.webapi_routes.specs.Written.{IsWantedText, IsWritten, Wanted, section, source};

/// What is asked of an id, as it is written.
#[derive(Clone, Copy)]
pub(crate) enum Written<'a> {
    Debuginfo,
    Executable,
    Source(&'a str),
    Section(&'a str),
}

/// The text of an id, and what is asked of it.
pub(crate) fn parts_of(text: &str) -> Option<(&str, Written<'_>)>
    ensures { MatchOption result (IsNoIdText text.now)
        (λ x. IsWritten text.now x.0.now (seen x.1)) }
{
    let Some(tail) = text.strip_prefix("/buildid/") else {
        return None;
    };
    let Some((hex, behind)) = tail.split_once('/') else {
        return None;
    };
    match wanted(behind) {
        Some(wanted) => Some((hex, wanted)),
        None => None,
    }
}

/// What is asked behind an id.
fn wanted(behind: &str) -> Option<Written<'_>>
    ensures { MatchOption result ((wanted : Wanted) → ¬ (IsWantedText behind.now wanted))
        (λ x. IsWantedText behind.now (seen x)) }
{
    match behind {
        "debuginfo" => Some(Written::Debuginfo),
        "executable" => Some(Written::Executable),
        _ => match source(behind) {
            Some(path) => Some(Written::Source(path)),
            None => match section(behind) {
                Some(name) => Some(Written::Section(name)),
                None => None,
            },
        },
    }
}

/// The path of a source that is asked for.
fn source(behind: &str) -> Option<&str>
    ensures { MatchOption result ((path : List ℕ) → ¬ (IsWantedText behind.now (source path)))
        (λ path. IsWantedText behind.now (source path.now)) }
{
    match behind.strip_prefix("source") {
        Some(path) => absolute(path),
        None => None,
    }
}

/// The path, if it begins with a slash.
fn absolute(path: &str) -> Option<&str>
    ensures { MatchOption result (¬ (is_absolute path.now ≡ true))
        (λ same. (same.now ≡ path.now) × (is_absolute path.now ≡ true)) }
{
    if path.starts_with('/') {
        Some(path)
    } else {
        None
    }
}

/// The name of a section that is asked for.
fn section(behind: &str) -> Option<&str>
    ensures { MatchOption result ((name : List ℕ) → ¬ (IsWantedText behind.now (section name)))
        (λ name. IsWantedText behind.now (section name.now)) }
{
    match behind.strip_prefix("section/") {
        Some("") => None,
        Some(name) => Some(name),
        None => None,
    }
}
