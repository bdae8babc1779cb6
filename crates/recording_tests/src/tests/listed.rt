use event_records::OwnedSlice;
use std::alloc::{AllocError, Global};
use std::test::Fail;

// Returns the length of the list of these items, whether it is empty, and whether it shows them and returns them in
// order.
fn seen(alloc: Global, items: &[u64]) -> Result<(usize, bool, bool), AllocError> {
    let listed = OwnedSlice::from_vec(Vec::from_slice(alloc, items)?);
    let (len, is_empty) = (listed.len(), listed.is_empty());
    let is_shown = listed.as_slice() == items;
    Ok((
        len,
        is_empty,
        is_shown && listed.into_vec().as_slice() == items,
    ))
}

#[test]
fn a_list_gives_its_items_back_in_their_order(rt: HostRuntime) -> Result<(), Fail> {
    assert!(rt; seen(rt.alloc(), &[7, 2, 9])? == (3, false, true));
    assert!(rt; seen(rt.alloc(), &[])? == (0, true, true));
    Ok(())
}
