//! The sizes of an event log and of a store.

/// Counts the bytes and the entries of one part of a recording.
#[derive(Copy, Clone, Debug)]
pub struct ComponentSizes {
    /// The length as it is stored, in bytes.
    pub compressed: u64,
    /// The length of the content, in bytes.
    pub uncompressed: u64,
    /// How many events or files there are.
    pub entries: u64,
}

impl Default for ComponentSizes {
    ghost use Rattle.std.specs.Prelude.{◌≡◌};
    ghost use Rattle.rec_format.specs.Sizes.{no_component};

    ghost is_default = { λ sizes. sizes ≡ no_component };

    fn default() -> ComponentSizes {
        ComponentSizes {
            compressed: 0,
            uncompressed: 0,
            entries: 0,
        }
    }
}

/// Counts the bytes and the entries of a run's event log and store.
#[derive(Copy, Clone, Debug)]
pub struct RecordedSizes {
    /// The event log, whose entries are events.
    pub log: ComponentSizes,
    /// The store, whose entries are files.
    pub store: ComponentSizes,
}

impl Default for RecordedSizes {
    ghost use Rattle.std.specs.Prelude.{◌≡◌};
    ghost use Rattle.rec_format.specs.Sizes.{no_sizes};

    ghost is_default = { λ sizes. sizes ≡ no_sizes };

    fn default() -> RecordedSizes {
        RecordedSizes {
            log: ComponentSizes::default(),
            store: ComponentSizes::default(),
        }
    }
}

/// Holds `ComponentSizes` as they stand in JSON.
#[derive(Copy, Clone, PartialEq, Eq, Debug)]
pub struct ComponentSizesFormat {
    /// The length as it is stored, in bytes.
    pub compressed: u64,
    /// The length of the content, in bytes.
    pub uncompressed: u64,
    /// How many events or files there are.
    pub entries: u64,
}

impl Default for ComponentSizesFormat {
    ghost use Rattle.std.specs.Prelude.{◌≡◌};
    ghost use Rattle.rec_format.specs.Sizes.{no_component_format};

    ghost is_default = { λ sizes. sizes ≡ no_component_format };

    fn default() -> ComponentSizesFormat {
        ComponentSizesFormat {
            compressed: 0,
            uncompressed: 0,
            entries: 0,
        }
    }
}

/// Holds `RecordedSizes` as they stand in JSON.
#[derive(Copy, Clone, PartialEq, Eq, Debug)]
pub struct RecordedSizesFormat {
    /// The event log, whose entries are events.
    pub log: ComponentSizesFormat,
    /// The store, whose entries are files.
    pub store: ComponentSizesFormat,
}

impl Default for RecordedSizesFormat {
    ghost use Rattle.std.specs.Prelude.{◌≡◌};
    ghost use Rattle.rec_format.specs.Sizes.{no_sizes_format};

    ghost is_default = { λ sizes. sizes ≡ no_sizes_format };

    fn default() -> RecordedSizesFormat {
        RecordedSizesFormat {
            log: ComponentSizesFormat::default(),
            store: ComponentSizesFormat::default(),
        }
    }
}

impl From<ComponentSizes> for ComponentSizesFormat {
    ghost use Rattle.std.specs.Prelude.{◌≡◌};
    ghost use Rattle.rec_format.specs.Sizes.{component_format};

    ghost from_gives = { λ sizes format. format ≡ component_format sizes };

    fn from(sizes: ComponentSizes) -> ComponentSizesFormat {
        ComponentSizesFormat {
            compressed: sizes.compressed,
            uncompressed: sizes.uncompressed,
            entries: sizes.entries,
        }
    }
}

impl From<ComponentSizesFormat> for ComponentSizes {
    ghost use Rattle.std.specs.Prelude.{◌≡◌};
    ghost use Rattle.rec_format.specs.Sizes.{component_of};

    ghost from_gives = { λ format sizes. sizes ≡ component_of format };

    fn from(format: ComponentSizesFormat) -> ComponentSizes {
        ComponentSizes {
            compressed: format.compressed,
            uncompressed: format.uncompressed,
            entries: format.entries,
        }
    }
}

impl From<RecordedSizes> for RecordedSizesFormat {
    ghost use Rattle.std.specs.Prelude.{◌≡◌};
    ghost use Rattle.rec_format.specs.Sizes.{sizes_format};

    ghost from_gives = { λ sizes format. format ≡ sizes_format sizes };

    fn from(sizes: RecordedSizes) -> RecordedSizesFormat {
        RecordedSizesFormat {
            log: sizes.log.into(),
            store: sizes.store.into(),
        }
    }
}

impl From<RecordedSizesFormat> for RecordedSizes {
    ghost use Rattle.std.specs.Prelude.{◌≡◌};
    ghost use Rattle.rec_format.specs.Sizes.{sizes_of};

    ghost from_gives = { λ format sizes. sizes ≡ sizes_of format };

    fn from(format: RecordedSizesFormat) -> RecordedSizes {
        RecordedSizes {
            log: format.log.into(),
            store: format.store.into(),
        }
    }
}
