//! Pages in memory, through the traits of sources and sinks alone.
use iq_pages::{MemoryPages, PageFault, PageSink, PageSource};
use std::process::Abort;
use std::test::Fail;

// What a layer above does, by the traits alone: writes one page after the other and reads the first again.
fn first_of<S: PageSink>(
    rt: &impl Abort,
    sink: &mut S,
    object: u32,
    bytes: &[u8],
) -> Result<u8, PageFault> {
    sink.new_object(object)?;
    for byte in bytes {
        assert!(rt; sink.pages(object) < 63504);
        sink.push_page(object, &[*byte; 1008])?;
    }
    let mut page = [0; 1008];
    assert!(rt; sink.pages(object) > 0);
    sink.page(object, 0, &mut page)?;
    page[7] = 9;
    sink.set_page(object, 0, &page)?;
    sink.page(object, 0, &mut page)?;
    Ok(page[7].wrapping_add(page[8]))
}

#[test]
fn objects_keep_their_own_pages(rt: HostRuntime) -> Result<(), Fail> {
    let mut store = MemoryPages::new(rt.alloc(), Vec::new(rt.alloc()));
    assert_eq!(rt; first_of(&rt, &mut store, 3, &[1, 2, 3])?, 10);
    assert_eq!(rt; first_of(&rt, &mut store, 5, &[4])?, 13);
    assert_eq!(rt; (store.pages(3), store.pages(4), store.pages(5)), (3, 0, 1));
    let mut page = [0; 1008];
    assert!(rt; store.pages(3) > 2);
    store.page(3, 2, &mut page)?;
    assert_eq!(rt; page[0], 3);
    assert_eq!(rt; first_of(&rt, &mut store, 3, &[6])?, 15);
    assert_eq!(rt; (store.pages(3), store.pages(5)), (1, 1));
    Ok(())
}

#[test]
fn each_listed_call_fails_and_the_others_do_not(rt: HostRuntime) -> Result<(), Fail> {
    for call in 1..8 {
        let fails = vec![in rt.alloc(); call]?;
        let mut store = MemoryPages::new(rt.alloc(), fails);
        let outcome = first_of(&rt, &mut store, 3, &[1, 2]);
        match outcome {
            Err(PageFault::Failed { before, after }) => {
                assert!(rt; call < 7);
                assert_eq!(rt; (before, after, store.faults()), (0, 1, 1));
            }
            Ok(_) => assert_eq!(rt; (call, store.faults()), (7, 0)),
            _ => panic!(rt; "{call}"),
        }
    }
    Ok(())
}
