//! What was built for a run.
ghost use Rattle.std.specs.Prelude.{◌≡◌};

use rec_events::BuildScope;

/// Says where the test binaries of a run came from.
#[derive(Copy, Clone, PartialEq, Eq, Debug)]
pub enum BuildKind {
    /// Cargo built them.
    Cargo,
    /// They had been built before.
    Reused,
}

/// Describes what was built for a run, and by whom.
#[derive(PartialEq, Eq, Debug, Drop)]
pub struct RecordedBuildScope {
    /// Where the test binaries came from.
    pub build_kind: BuildKind,
    /// What was built.
    pub scope: BuildScope,
}

impl RecordedBuildScope {
    /// Makes the description of what was built, by a builder of this kind.
    pub fn new(build_kind: BuildKind, scope: BuildScope) -> Self
        ensures { result ≡ record { build_kind = build_kind; scope = scope } }
    {
        RecordedBuildScope { build_kind, scope }
    }
}
