//! Rules of pruning filters from their texts, with memory to spare.
use prune_filters::{FilterFault, Rules};
use std::test::Fail;

/// Types above and below, and whether the rules `ALL:core,cluster:node` keep the totals of the one below the other.
const KEPT: [(&[u8], &[u8], bool); 4] = [
    (b"rack", b"core", true),
    (b"cluster", b"node", true),
    (b"rack", b"node", false),
    (b"cluster", b"gpu", false),
];

#[test]
fn rules_are_read(rt: HostRuntime) -> Result<(), Fail> {
    let rules = Rules::read(rt.alloc(), b"ALL:core,cluster:node")?;
    for (high, low, kept) in KEPT {
        assert_eq!(rt; rules.keeps(high, low), kept);
    }
    Ok(())
}

/// Texts that are no rules, and where the first item begins that is none.
const BROKEN: [(&[u8], usize); 6] = [
    (b"core", 0),
    (b"", 0),
    (b"ALL:core,", 9),
    (b"ALL:core,rack:,node", 9),
    (b"rack:node:core", 0),
    (b"rack: node", 0),
];

#[test]
fn the_first_broken_item_is_told(rt: HostRuntime) {
    for (text, at) in BROKEN {
        let fault = Rules::read(rt.alloc(), text).err();
        assert_eq!(rt; fault, Some(FilterFault::Form { at }));
    }
}
