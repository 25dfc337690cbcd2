//! Tables of steps, each with what it changes in the world. Block 4 is reached at each opening.
mod saying;

ghost use Rattle.iq_world.specs.Sound.{IsSound};

use iq_world::{World, WorldStep, after, opening};
use saying::{
    apply, back, begin, commit, end, exclude, include, lose, own, parts_of, reserve, restart,
    said_changes, send, sync, take, take_report,
};
use std::alloc::AllocGlobal;
use std::process::Abort;
use std::test::Fail;

/// A step, and what it changes in words.
type Row = (WorldStep, &'static str);

/// Takes the steps of the rows one after the other, and compares what each changes.
fn goes_through(rt: &(impl Abort + AllocGlobal), first: World, rows: &[Row]) -> Result<(), Fail>
    requires { IsSound first }
{
    let alloc = rt.alloc();
    let mut current = first;
    for (step, changes) in rows {
        let old = parts_of(alloc, &current)?;
        let can = current.allows(step);
        current = after(alloc, current, step)?;
        let new = parts_of(alloc, &current)?;
        let said = said_changes(alloc, can, old.as_slice(), new.as_slice())?;
        assert_eq!(rt; said.as_str(), *changes);
    }
    Ok(())
}

#[test]
fn a_dropped_block_is_free_once_every_report_past_its_drop_is_taken(
    rt: HostRuntime,
) -> Result<(), Fail> {
    let alloc = rt.alloc();
    // Blocks 5 to 13 are free. Block 4 waits from the commit on, since session 0 may read it, until a report past it is taken.
    let rows = [
        (begin(0, 1), "run 0 on 1 sees 0 has none"),
        (begin(1, 0), "run 1 on 0 sees 0 has none"),
        (take(1, 5), "free 6-13; run 1 on 0 sees 0 has 5"),
        (take(1, 6), "free 7-13; run 1 on 0 sees 0 has 5-6"),
        (
            commit(alloc, 1, &[5])?,
            "free 6-13; commit 1 5; node 0 at 1; no run 1",
        ),
        (own(), ""),
        (send(1), "report 1 of 1 floor 0; next 2"),
        (end(0), "no run 0"),
        (sync(1), "node 1 at 1 taken 0 life 1"),
        (send(1), "report 2 of 1 floor 1; next 3"),
        (take_report(1), ""),
        (
            take_report(2),
            "free 4 6-13; node 1 at 1 taken 1 life 1; base 1; no commit 0",
        ),
        // A late report changes nothing.
        (take_report(1), ""),
        (restart(1), "node 1 at 1 taken 1 life 2"),
    ];
    goes_through(&rt, opening(alloc, 14, 2, &[4])?, &rows)
}

#[test]
fn the_lower_of_two_taken_floors_holds(rt: HostRuntime) -> Result<(), Fail> {
    let alloc = rt.alloc();
    // Commit 1 drops block 4, and commit 2 drops block 5.
    let rows = [
        (begin(0, 0), "run 0 on 0 sees 0 has none"),
        (take(0, 5), "free 6-9; run 0 on 0 sees 0 has 5"),
        (commit(alloc, 0, &[5])?, "commit 1 5; node 0 at 1; no run 0"),
        (begin(0, 0), "run 0 on 0 sees 1 has none"),
        (take(0, 6), "free 7-9; run 0 on 0 sees 1 has 6"),
        (commit(alloc, 0, &[6])?, "commit 2 6; node 0 at 2; no run 0"),
        // Both are two behind: one synchronizes, the other applies one commit.
        (sync(1), "node 1 at 2 taken 0 life 1"),
        (apply(2), "node 2 at 1 taken 0 life 1"),
        (send(1), "report 1 of 1 floor 2; next 2"),
        (send(2), "report 2 of 2 floor 1; next 3"),
        (take_report(1), "node 1 at 2 taken 2 life 1"),
        (
            take_report(2),
            "free 4 7-9; node 2 at 1 taken 1 life 1; base 1; no commit 0",
        ),
        (own(), ""),
        (apply(2), "node 2 at 2 taken 1 life 1"),
        (apply(2), "can't be"),
        (send(2), "report 3 of 2 floor 2; next 4"),
        (
            take_report(3),
            "free 4-5 7-9; node 2 at 2 taken 2 life 1; base 2; no commit 1",
        ),
        (take_report(2), ""),
        (lose(2), "no report 2"),
        (take_report(2), "can't be"),
    ];
    goes_through(&rt, opening(alloc, 10, 3, &[4])?, &rows)
}

#[test]
fn a_running_transaction_of_the_coordinator_holds_the_horizon(rt: HostRuntime) -> Result<(), Fail> {
    let alloc = rt.alloc();
    let rows = [
        (begin(0, 0), "run 0 on 0 sees 0 has none"),
        (begin(1, 0), "run 1 on 0 sees 0 has none"),
        (take(1, 5), "free 6-7; run 1 on 0 sees 0 has 5"),
        (commit(alloc, 1, &[5])?, "commit 1 5; node 0 at 1; no run 1"),
        (own(), ""),
        (end(0), "no run 0"),
        (own(), "free 4 6-7; base 1; no commit 0"),
    ];
    goes_through(&rt, opening(alloc, 8, 1, &[4])?, &rows)
}

#[test]
fn an_excluded_node_holds_nothing_back_and_is_included_at_the_latest_commit(
    rt: HostRuntime,
) -> Result<(), Fail> {
    let alloc = rt.alloc();
    // Block 4 waits when node 1 is excluded. That frees nothing itself: the next report does.
    let rows = [
        (begin(0, 1), "run 0 on 1 sees 0 has none"),
        (begin(1, 0), "run 1 on 0 sees 0 has none"),
        (take(1, 5), "free 6-7; run 1 on 0 sees 0 has 5"),
        (commit(alloc, 1, &[5])?, "commit 1 5; node 0 at 1; no run 1"),
        (reserve(1), "free none; reserved 1 6-7"),
        (take(0, 6), "reserved 1 7; run 0 on 1 sees 0 has 6"),
        (send(1), "report 1 of 1 floor 0; next 2"),
        (own(), ""),
        (
            exclude(1),
            "free 6-7; node 1 at 0 taken 0 life 2 excluded; reserved 1 none; no run 0",
        ),
        (exclude(1), "can't be"),
        (begin(0, 1), "can't be"),
        (send(1), "can't be"),
        (sync(1), "can't be"),
        (restart(1), "can't be"),
        (own(), "free 4 6-7; base 1; no commit 0"),
        (take_report(1), ""),
        (include(1), "node 1 at 1 taken 1 life 2"),
        (include(1), "can't be"),
        (begin(0, 1), "run 0 on 1 sees 1 has none"),
    ];
    goes_through(&rt, opening(alloc, 8, 2, &[4])?, &rows)
}

#[test]
fn thirty_two_blocks_are_reserved_and_a_restart_gives_all_back(
    rt: HostRuntime,
) -> Result<(), Fail> {
    let alloc = rt.alloc();
    // 60 blocks are free, 5 to 64.
    let rows = [
        (reserve(0), "can't be"),
        (reserve(1), "free 37-64; reserved 1 5-36"),
        (reserve(1), "can't be"),
        (begin(0, 1), "run 0 on 1 sees 0 has none"),
        (take(0, 5), "reserved 1 6-36; run 0 on 1 sees 0 has 5"),
        (take(0, 40), "can't be"),
        (begin(1, 0), "run 1 on 0 sees 0 has none"),
        (take(1, 37), "free 38-64; run 1 on 0 sees 0 has 37"),
        (take(1, 6), "can't be"),
        (
            commit(alloc, 1, &[37])?,
            "commit 1 37; node 0 at 1; no run 1",
        ),
        (reserve(2), "free none; reserved 2 38-64"),
        (
            restart(1),
            "free 5-36; node 1 at 1 taken 0 life 2; reserved 1 none; no run 0",
        ),
        (restart(0), "can't be"),
        (reserve(1), "free none; reserved 1 5-36"),
        (
            restart(2),
            "free 38-64; node 2 at 1 taken 0 life 2; reserved 2 none",
        ),
    ];
    goes_through(&rt, opening(alloc, 65, 3, &[4])?, &rows)
}

#[test]
fn what_a_secondary_took_and_does_not_reach_goes_back_to_its_reservation(
    rt: HostRuntime,
) -> Result<(), Fail> {
    let alloc = rt.alloc();
    let rows = [
        (begin(0, 1), "run 0 on 1 sees 0 has none"),
        (reserve(1), "free none; reserved 1 5-7"),
        (take(0, 5), "reserved 1 6-7; run 0 on 1 sees 0 has 5"),
        (take(0, 6), "reserved 1 7; run 0 on 1 sees 0 has 5-6"),
        (take(0, 7), "reserved 1 none; run 0 on 1 sees 0 has 5-7"),
        (back(0, 4), "can't be"),
        (back(0, 2), "reserved 1 7; run 0 on 1 sees 0 has 5-6"),
        // A block that nobody may reach, and one that stands twice.
        (commit(alloc, 0, &[4, 7])?, "can't be"),
        (commit(alloc, 0, &[4, 5, 5])?, "can't be"),
        (
            commit(alloc, 0, &[4, 5])?,
            "commit 1 4-5; node 0 at 1; node 1 at 1 taken 0 life 1; reserved 1 6-7; no run 0",
        ),
        (begin(1, 0), "run 1 on 0 sees 1 has none"),
        (commit(alloc, 1, &[5])?, "commit 2 5; node 0 at 2; no run 1"),
        (apply(1), "node 1 at 2 taken 0 life 1"),
        (send(1), "report 1 of 1 floor 2; next 2"),
        (send(1), "report 2 of 1 floor 2; next 3"),
        (lose(2), "no report 2"),
        (take_report(2), "can't be"),
        (
            take_report(1),
            "free 4; node 1 at 2 taken 2 life 1; base 2; no commit 0; no commit 1",
        ),
        (begin(0, 1), "run 0 on 1 sees 2 has none"),
        (begin(0, 0), "can't be"),
        (take(0, 7), "reserved 1 6; run 0 on 1 sees 2 has 7"),
        (take(0, 6), "reserved 1 none; run 0 on 1 sees 2 has 7 6"),
        (end(0), "reserved 1 6-7; no run 0"),
        (end(0), "can't be"),
    ];
    goes_through(&rt, opening(alloc, 8, 2, &[4])?, &rows)
}
