//! The sizes of a run.

use rec_store::{ComponentSizes, StoreSizes};

fn is_zero(sizes: &ComponentSizes) -> bool {
    sizes.compressed == 0 && sizes.uncompressed == 0 && sizes.entries == 0
}

/// The sizes of one entry.
fn sizes_of(compressed: u64, uncompressed: u64) -> ComponentSizes {
    ComponentSizes {
        compressed,
        uncompressed,
        entries: 1,
    }
}

#[test]
fn a_total_is_a_u64_or_none(rt: HostRuntime) {
    let none = StoreSizes::default();
    assert!(rt; is_zero(&none.log) && is_zero(&none.store));
    assert!(rt; is_zero(&ComponentSizes::default()));
    assert!(rt; none.total_compressed() == Some(0) && none.total_uncompressed() == Some(0));
    let most = StoreSizes {
        log: sizes_of(u64::MAX, u64::MAX),
        store: sizes_of(1, 0),
    };
    assert!(rt; most.total_compressed().is_none());
    assert!(rt; most.total_uncompressed() == Some(u64::MAX));
}
