//! The names of the parts of a recording, and what the name of a file says of it.
ghost use Rattle.std.specs.Prelude.{◌≡◌, option_map};
ghost use Rattle.rec_format.specs.Paths.{dict_of_name, dict_of_path, is_zip_name};
ghost use Rattle.rec_format.specs.Paths.{is_zip_path, last_name as last_name_of};

/// Names the store in a bundle, and in a run's directory.
pub const STORE_ZIP_FILE_NAME: &str = "store.zip";

/// Names the event log in a bundle, and in a run's directory.
pub const RUN_LOG_FILE_NAME: &str = "run.log.zst";

/// Names the manifest in a bundle.
pub const PORTABLE_MANIFEST_FILE_NAME: &str = "manifest.json";

/// Names cargo's metadata in a store.
pub const CARGO_METADATA_JSON_PATH: &str = "meta/cargo-metadata.json";

/// Names the test list in a store.
pub const TEST_LIST_JSON_PATH: &str = "meta/test-list.json";

/// Names the record options in a store.
pub const RECORD_OPTS_JSON_PATH: &str = "meta/record-opts.json";

/// Names the build scope in a store.
pub const BUILD_SCOPE_JSON_PATH: &str = "meta/build-scope.json";

/// Names the rerun information in a store. It is there for a rerun alone.
pub const RERUN_INFO_JSON_PATH: &str = "meta/rerun-info.json";

/// Says which kind of output a file of a store holds.
#[derive(Copy, Clone, PartialEq, Eq, Debug)]
pub enum OutputDict {
    /// No output.
    None,
    /// Standard output, alone or with standard error in it.
    Stdout,
    /// Standard error.
    Stderr,
}

impl OutputDict {
    /// Returns the kind of output that a store's file holds: `None` where the path's first piece
    /// isn't `out` or nothing is named below it. Otherwise the last piece decides,
    /// by `for_output_file_name`.
    pub fn for_path(path: &str) -> Self
        ensures { result ≡ dict_of_path path.now }
    {
        let Some((first, below)) = path.split_once('/') else {
            return OutputDict::None;
        };
        if first != "out" {
            return OutputDict::None;
        }
        match last_name(below) {
            Some(name) => OutputDict::for_output_file_name(name),
            None => OutputDict::None,
        }
    }

    /// Returns the kind of output by the end of a file's name: `-stdout` and `-combined` are
    /// standard output, and `-stderr` is standard error.
    #[tactic(auto, using(std::proofs::lemmas::Str::Pattern::ends_text))]
    pub fn for_output_file_name(file_name: &str) -> Self
        ensures { result ≡ dict_of_name file_name.now }
    {
        if file_name.ends_with("-stdout") || file_name.ends_with("-combined") {
            OutputDict::Stdout
        } else if file_name.ends_with("-stderr") {
            OutputDict::Stderr
        } else {
            OutputDict::None
        }
    }
}

/// Checks whether the file that a path names has the extension `zip`, in any ASCII case. A name
/// that begins with its last dot has no extension.
pub fn has_zip_extension(path: &str) -> bool
    ensures { result ≡ is_zip_path path.now }
{
    match last_name(path) {
        Some(name) => ends_in_zip(name.as_bytes()),
        None => false,
    }
}

/// The last piece of a path that names something.
fn last_name(path: &str) -> Option<&str>
    ensures { option_map (λ name. name.now) result ≡ last_name_of path.now }
{
    path.split('/')
        .filter(|piece| !piece.is_empty() && *piece != ".")
        .last()
}

/// A last dot that isn't the first byte, and `zip` after it.
fn ends_in_zip(name: &[u8]) -> bool
    ensures { result ≡ is_zip_name name.now }
{
    let len = name.len();
    len > 4 && name[len - 4..].eq_ignore_ascii_case(b".zip")
}
