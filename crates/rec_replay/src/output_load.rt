//! Whether outputs are loaded.
ghost use Rattle.std.specs.Prelude.{◌≡◌};
ghost use Rattle.rec_replay.specs.OutputLoads.{load_of};

/// Says whether the outputs of an event are read as it is converted.
#[derive(Clone, Copy, PartialEq, Eq, Debug)]
pub enum LoadOutput {
    /// They are read.
    Load,
    /// They are left out, and nothing is read.
    Skip,
}

/// Says of which events a reporter wants the outputs.
#[derive(Clone, Copy, PartialEq, Eq)]
pub enum OutputLoadDecider {
    /// Of all.
    Always,
    /// Of none.
    Never,
}

impl OutputLoadDecider {
    /// Returns whether the outputs of an event are to be loaded: `Load` for `Always`.
    pub fn should_load_output(&self) -> LoadOutput
        ensures { result ≡ load_of self.now }
    {
        match self {
            OutputLoadDecider::Always => LoadOutput::Load,
            OutputLoadDecider::Never => LoadOutput::Skip,
        }
    }
}
