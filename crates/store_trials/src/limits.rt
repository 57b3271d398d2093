// A store holds as many records as was asked for, up to the largest number of its kind, and no more.
use linked::Linked;
use listing::Listing;
use std::alloc::Global;
use std::test::Fail;
use tree::{Made, ROOT, Store};

// Whether an empty store takes as many children of the root as its limit says, and no more.
fn fills<S: Store>(store: &mut S, limit: usize) -> bool {
    store.limit() == limit
        && (0..limit).all(|i| store.place(i as u64, ROOT, 1).is_ok())
        && store.count() == limit
        && store.place(limit as u64, ROOT, 1).is_err()
        && store.count() == limit
}

// Whether a store that is made for so many rows has the limit, and takes as many.
fn made_fills<S: Made + Drop>(heap: Global, rows: usize, limit: usize) -> Result<bool, Fail> {
    Ok(fills(&mut S::new(heap, rows)?, limit))
}

#[test]
fn linked_fills_to_its_limit(rt: HostRuntime) -> Result<(), Fail> {
    assert_eq!(rt; <Linked as Store>::ceiling(), 1_024);
    for rows in [0, 1, 512, 513, 1_024] {
        assert!(rt; made_fills::<Linked>(rt.alloc(), rows, rows)?);
    }
    assert!(rt; made_fills::<Linked>(rt.alloc(), 1_025, 1_024)?);
    Ok(())
}

#[test]
fn listing_fills_to_its_limit(rt: HostRuntime) -> Result<(), Fail> {
    assert_eq!(rt; <Listing as Store>::ceiling(), 512);
    for rows in [0, 1, 512] {
        assert!(rt; made_fills::<Listing>(rt.alloc(), rows, rows)?);
    }
    for rows in [513, 1_024, 1_025] {
        assert!(rt; made_fills::<Listing>(rt.alloc(), rows, 512)?);
    }
    Ok(())
}
