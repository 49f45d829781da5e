//! How large a recorded run is.
ghost use Rattle.std.specs.Option.{SomeIff};
ghost use Rattle.std.specs.Prelude.{◌≡◌, ◌+◌, ◌<◌, ◌^◌};

pub use rec_format::ComponentSizes;

/// Says how large the log and the store of a recorded run are.
#[derive(Clone, Copy, Default, Debug)]
pub struct StoreSizes {
    /// The event log. Its entries are the events.
    pub log: ComponentSizes,
    /// The store of metadata and outputs.
    pub store: ComponentSizes,
}

impl StoreSizes {
    /// Returns how many bytes log and store take, or none where that is no u64.
    pub fn total_compressed(&self) -> Option<u64>
        ensures { SomeIff result (self.now.log.compressed + self.now.store.compressed < 2 ^ 64)
            (self.now.log.compressed + self.now.store.compressed) }
    {
        self.log.compressed.checked_add(self.store.compressed)
    }

    /// Returns how many bytes the contents of log and store have, or none where that is no u64.
    pub fn total_uncompressed(&self) -> Option<u64>
        ensures { SomeIff result (self.now.log.uncompressed + self.now.store.uncompressed < 2 ^ 64)
            (self.now.log.uncompressed + self.now.store.uncompressed) }
    {
        self.log.uncompressed.checked_add(self.store.uncompressed)
    }
}
