//! The head of a session.
ghost use Rattle.std.specs.Prelude.{◌≡◌, [], map, IfOk};
ghost use Rattle.rec_sample.specs.Head.{binary_tests, sample_head, suite, build_scope, test_list};
ghost use Rattle.rec_sample.specs.Names.{test_name};

use crate::events::run_id;
use crate::instants::{instant, run_start};
use crate::names::{BINARIES, binary_id, test_name};
use rec_events::{
    BuildScope, FeatureSelection, Items, NextestRunMode, PackageSelection, RecordOpts,
    TargetSelection, TestCaseName, TestListSummary, Text, TextMap, Version, VersionError,
};
use rec_format::{BuildKind, RecordedBuildScope, RecordedRunStatus, SessionHead};
use std::alloc::{AllocError, Global};

/// When the head was last written, in seconds since the Unix epoch.
const LAST_WRITTEN: u64 = 1011;

/// Makes the names of the tests in a binary: every fourth, in rising order.
fn binary_tests(alloc: Global, tests: u64, binary: u64) -> Result<Items<TestCaseName>, AllocError>
    ensures { IfOk result (λ names. names ≡ map test_name (binary_tests tests binary)) }
{
    let mut names = Vec::new(alloc);
    for i in 0..tests {
        if i % BINARIES == binary {
            names.push(test_name(alloc, i)?)?;
        }
    }
    Ok(Items::new(names))
}

/// Makes the list of the tests, by the binary that they are in.
/// A binary without a test isn't there.
fn test_list(alloc: Global, tests: u64) -> Result<TestListSummary, AllocError>
    ensures { IfOk result (λ list. list ≡ test_list tests) }
{
    let mut suites = TextMap::empty(alloc);
    for binary in 0..tests.min(BINARIES) {
        let names = binary_tests(alloc, tests, binary)?;
        let id = Text::new(binary_id(alloc, binary)?);
        suites.insert(id, names)?;
    }
    Ok(TestListSummary { suites })
}

/// Makes the version of the runner that the head names.
fn nextest_version(alloc: Global) -> Result<Version, AllocError>
    ensures { IfOk result (λ version. version ≡ (0, 9, 111, [], [])) }
{
    match Version::parse(alloc, "0.9.111") {
        Ok(version) => Ok(version),
        Err(VersionError::OutOfMemory) => Err(AllocError),
        Err(VersionError::NotAVersion) => unreachable!(),
    }
}

/// Makes what says nothing of what was built.
fn build_scope(alloc: Global) -> RecordedBuildScope
    ensures { result ≡ build_scope }
{
    let scope = BuildScope {
        packages: PackageSelection::none(alloc),
        targets: TargetSelection::none(alloc),
        features: FeatureSelection::none(alloc),
    };
    RecordedBuildScope::new(BuildKind::Cargo, scope)
}

/// Makes the head of the session of so many tests.
#[tactic(auto, unfolding(crate::specs::Head::sample_head))]
pub(crate) fn sample_head(alloc: Global, tests: u64) -> Result<SessionHead, AllocError>
    ensures { IfOk result (λ head. head ≡ sample_head tests) }
{
    let nextest_version = nextest_version(alloc)?;
    let cargo_metadata = Text::from_str(alloc, "{}")?;
    let test_list = test_list(alloc, tests)?;
    Ok(SessionHead {
        run_id: run_id(),
        nextest_version,
        started_at: run_start(),
        last_written_at: instant(LAST_WRITTEN, 0),
        duration: None,
        cli_args: Items::empty(alloc),
        env_vars: TextMap::empty(alloc),
        parent_run_id: None,
        status: RecordedRunStatus::Incomplete,
        cargo_metadata,
        test_list,
        record_opts: RecordOpts {
            run_mode: NextestRunMode::Test,
        },
        build_scope: build_scope(alloc),
        rerun_info: None,
    })
}
