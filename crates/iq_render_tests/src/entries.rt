//! Entries.
use crate::texts::{CENSUS, name, records};
use iq_base::{Locks, Refusal};
use iq_history::Entry;

#[test]
fn each_entry_prints_its_word_place_line_and_numbers(rt: HostRuntime) {
    let rt = &rt;
    let p = name(rt, "p");
    records(rt, Entry::Begin { s: 1, l: 4, c: 7 }, "begin b 4 7");
    records(
        rt,
        Entry::Lock {
            s: 0,
            l: 4,
            names: Locks::of(true, Some(p.again())),
        },
        "lock a 4 catalog p",
    );
    records(
        rt,
        Entry::Lock {
            s: 0,
            l: 4,
            names: Locks::of(true, None),
        },
        "lock a 4 catalog",
    );
    records(
        rt,
        Entry::Lock {
            s: 0,
            l: 4,
            names: Locks::of(false, Some(p.again())),
        },
        "lock a 4 p",
    );
    records(
        rt,
        Entry::Lock {
            s: 0,
            l: 4,
            names: Locks::of(false, None),
        },
        "lock a 4",
    );
    records(rt, Entry::Done { s: 1, l: 5 }, "done b 5");
    records(
        rt,
        Entry::Refused {
            s: Some(0),
            l: 6,
            cause: Refusal::AtEnd { commit: 4 },
        },
        "refused a 6 AtEnd 4",
    );
    records(
        rt,
        Entry::Refused {
            s: None,
            l: 6,
            cause: Refusal::NoReport { number: 1 },
        },
        "refused - 6 NoReport 1",
    );
    records(rt, Entry::Commit { s: 0, l: 7, c: 8 }, "commit a 7 8");
    records(rt, Entry::End { s: 0, l: 8 }, "end a 8");
    records(rt, Entry::Rollback { s: 1, l: 0 }, "rollback b 0");
    records(
        rt,
        Entry::Halt {
            s: 0,
            l: 9,
            c: 8,
            before: 2,
            after: 3,
        },
        "halt a 9 8 2 3",
    );
    records(
        rt,
        Entry::Savepoint {
            s: 0,
            l: 10,
            name: p.again(),
        },
        "savepoint a 10 p",
    );
    records(
        rt,
        Entry::Back {
            s: 0,
            l: 11,
            name: p.again(),
        },
        "back a 11 p",
    );
    records(
        rt,
        Entry::Release {
            s: 0,
            l: 12,
            name: p,
        },
        "release a 12 p",
    );
    records(rt, Entry::Sync { s: 1, l: 13, c: 8 }, "sync b 13 8");
}

#[test]
fn each_entry_of_a_step_prints_its_word_place_line_and_numbers(rt: HostRuntime) {
    let rt = &rt;
    records(rt, Entry::Apply { n: 2, l: 14, c: 8 }, "apply r 14 8");
    records(
        rt,
        Entry::Send {
            n: 2,
            l: 15,
            number: 1,
            floor: 8,
        },
        "send r 15 1 8",
    );
    records(rt, Entry::Lose { l: 16, number: 1 }, "lose - 16 1");
    records(
        rt,
        Entry::Take {
            l: 17,
            number: 1,
            horizon: 8,
            freed: 6,
        },
        "take - 17 1 8 6",
    );
    records(
        rt,
        Entry::Own {
            n: 0,
            l: 18,
            horizon: 8,
            freed: 6,
        },
        "own c 18 8 6",
    );
    records(
        rt,
        Entry::Restart {
            n: 1,
            l: 19,
            incarnation: 2,
        },
        "restart w 19 2",
    );
    records(
        rt,
        Entry::Space {
            l: 20,
            census: CENSUS,
        },
        "space - 20 48 1 2 11 3",
    );
    records(rt, Entry::Versions { l: 21 }, "versions - 21");
}
