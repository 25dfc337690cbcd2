//! Pages of a Low Fast index that lack, or that entries name wrongly.
use crate::rows::{cells, empty, put};
use iq_base::Value;
use iq_pages::{MemoryPages, PageFault, PageSink};
use std::process::Abort;
use std::test::Fail;

#[test]
fn an_index_without_its_pages_is_bad(rt: HostRuntime) -> Result<(), Fail> {
    let alloc = rt.alloc();
    for object in [65, 66, 67] {
        let mut store = MemoryPages::new(alloc, Vec::new(alloc));
        let mut lf = empty(iq_base::Kind::Int);
        let values = cells(alloc, 0, 20, 9)?;
        assert!(rt; put(&rt, alloc, &mut lf, &mut store, &values).is_ok());
        store.new_object(object)?;
        assert!(rt; lf.has_room(0));
        let found = lf.equal(alloc, &mut store, &Value::Int(1));
        assert!(rt;
            matches!(found, Err(PageFault::BadPage { object: named, page: _ }) if named == object)
        );
        assert!(rt; put(&rt, alloc, &mut lf, &mut store, &values).is_err());
        assert_eq!(rt; (lf.slots, lf.distinct), (20, 9));
    }
    Ok(())
}

#[test]
fn an_entry_past_the_bitmaps_is_bad(rt: HostRuntime) -> Result<(), Fail> {
    let alloc = rt.alloc();
    let mut store = MemoryPages::new(alloc, Vec::new(alloc));
    let mut lf = empty(iq_base::Kind::Int);
    let values = cells(alloc, 0, 20, 9)?;
    assert!(rt; put(&rt, alloc, &mut lf, &mut store, &values).is_ok());
    // The first entry names page 200.
    let mut page = [0; 1008];
    page[0] = 201;
    store.new_object(66)?;
    store.push_page(66, &page)?;
    store.push_page(66, &page)?;
    assert!(rt; lf.has_room(0));
    let found = lf.equal(alloc, &mut store, &Value::Int(0));
    assert!(rt;
        matches!(
            found,
            Err(PageFault::BadPage {
                object: 67,
                page: 200
            })
        )
    );
    Ok(())
}
