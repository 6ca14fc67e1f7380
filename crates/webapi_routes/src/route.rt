//! The routes of the web API.

ghost use Rattle.std.specs.Prelude.{◌≡◌, option_copied};
ghost use Rattle.webapi_routes.specs.Routes.{build_id_of};

use crate::section_name::SectionName;
use row_types::{BuildId, CanonPath};

/// What a target asks for.
#[derive(PartialEq, Eq, Drop)]
pub enum Route {
    /// The file of a build-id with debug information.
    Debuginfo(BuildId),
    /// The executable file of a build-id.
    Executable(BuildId),
    /// The source file of a build-id at this path.
    Source(BuildId, CanonPath),
    /// The section of a build-id of this name.
    Section(BuildId, SectionName),
    /// The counters.
    Metrics,
}

impl Route {
    /// The build-id that the route is of, if it is of one.
    pub fn build_id(&self) -> Option<&BuildId>
        ensures { option_copied result ≡ build_id_of self.now }
    {
        match self {
            Route::Debuginfo(id)
            | Route::Executable(id)
            | Route::Source(id, _)
            | Route::Section(id, _) => Some(id),
            Route::Metrics => None,
        }
    }
}
