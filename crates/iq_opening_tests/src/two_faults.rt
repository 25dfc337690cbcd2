//! Images with two faults: which of them is told.
use crate::hostile::{Edit, Row, are_told};
use iq_opening::StoreCause;
use std::test::Fail;

const TWO_FAULTS: [Row; 14] = [
    Row(
        "a map before its page",
        &[Edit(8, 4, &[4]), Edit(7, 20, &[9])],
        7,
        StoreCause::BadMap,
    ),
    Row(
        "a page before the next map",
        &[Edit(9, 20, &[9]), Edit(8, 4, &[4])],
        8,
        StoreCause::BadHeader,
    ),
    Row(
        "the table before",
        &[Edit(67, 28, &[0]), Edit(66, 4, &[0])],
        66,
        StoreCause::BadHeader,
    ),
    Row(
        "the table behind",
        &[Edit(66, 4, &[0]), Edit(67, 28, &[0])],
        66,
        StoreCause::BadHeader,
    ),
    Row(
        "a descriptor before its objects",
        &[Edit(6, 4, &[0]), Edit(4, 28, &[0])],
        4,
        StoreCause::BadCatalog,
    ),
    Row(
        "its other block before it",
        &[Edit(4, 28, &[0]), Edit(4, 16, &[74])],
        74,
        StoreCause::BadHeader,
    ),
    Row(
        "a shared block before its header",
        &[Edit(9, 16, &[7])],
        7,
        StoreCause::Shared,
    ),
    Row(
        "a header before a spare place",
        &[Edit(7, 20, &[9]), Edit(7, 12, &[2])],
        7,
        StoreCause::BadHeader,
    ),
    Row(
        "a spare place before a place",
        &[Edit(7, 16, &[3]), Edit(7, 20, &[9])],
        7,
        StoreCause::BadMap,
    ),
    Row(
        "existence before a column",
        &[Edit(8, 4, &[4]), Edit(6, 4, &[4])],
        6,
        StoreCause::BadHeader,
    ),
    Row(
        "cells before values",
        &[Edit(10, 4, &[4]), Edit(8, 4, &[4])],
        8,
        StoreCause::BadHeader,
    ),
    Row(
        "a column before an index",
        &[Edit(19, 12, &[2]), Edit(18, 4, &[4])],
        18,
        StoreCause::BadHeader,
    ),
    Row(
        "a later place stands in an earlier map",
        &[Edit(7, 16, &[9])],
        9,
        StoreCause::BadHeader,
    ),
    Row(
        "a block that a fault shared first",
        &[Edit(11, 16, &[8]), Edit(13, 16, &[3])],
        8,
        StoreCause::Shared,
    ),
];

#[test]
fn of_two_faults_the_first_is_told(rt: HostRuntime) -> Result<(), Fail> {
    Ok(are_told(&rt, rt.alloc(), &TWO_FAULTS)?)
}
