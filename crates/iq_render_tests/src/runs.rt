//! A whole run and its parts.
ghost use Rattle.std.specs.Prelude.{◌≡◌, length};
ghost use Rattle.iq_history.specs.Placed.{IsPlaced};
ghost use Rattle.iq_render.specs.Placed.{ArePlacedReplies, IsPlacedSaid};

use crate::texts::name;
use iq_base::{Census, Listed, Locks, NoMemory};
use iq_history::{Entry, History};
use iq_model::{Answer, AnswerRows, Out, Reply, Said};
use iq_render::{history_part, replies_part, summary, transcript};
use std::process::Abort;
use std::test::Fail;

const REPLIES: &str = "@1 created commit 1\n@2 inserted 2 commit 2\n@3 rows 2\n  1,10\n  2,NULL\n";

const HISTORY: &str =
    "history 11\n#1 begin s 1 0\n#2 lock s 1 catalog\n#3 done s 1\n#4 commit s 1 1\n#5 begin s 2 1\n#6 lock s 2 t\n#7 done s 2\n#8 commit s 2 2\n#9 begin s 3 2\n#10 done s 3\n#11 end s 3\n";

const LAST: &str = "census free 48 reserved 0 private 0 reached 11 waiting 1\n";

/// Puts an entry into a history of one node and one session.
fn add(rt: &impl Abort, history: &mut History, entry: Entry)
    requires node { length history.old.nodes ≡ 1 }
    requires session { length history.old.sessions ≡ 1 }
    requires placed { IsPlaced 1 1 entry }
    ensures node { length history.new.nodes ≡ 1 }
    ensures session { length history.new.sessions ≡ 1 }
{
    history.reserve(1).expect(rt, "memory");
    history.push(entry);
}

/// The history of a run that makes a table, fills it and reads it.
fn first_run(rt: &(impl Abort + AllocGlobal)) -> History {
    let nodes = [name(rt, "c")];
    let sessions = [name(rt, "s")];
    let locks = Locks::of(false, Some(name(rt, "t")));
    let mut history = History::begun(rt.alloc(), &nodes, &sessions).expect(rt, "memory");
    add(rt, &mut history, Entry::Begin { s: 0, l: 1, c: 0 });
    add(
        rt,
        &mut history,
        Entry::Lock {
            s: 0,
            l: 1,
            names: Locks::of(true, None),
        },
    );
    add(rt, &mut history, Entry::Done { s: 0, l: 1 });
    add(rt, &mut history, Entry::Commit { s: 0, l: 1, c: 1 });
    add(rt, &mut history, Entry::Begin { s: 0, l: 2, c: 1 });
    add(
        rt,
        &mut history,
        Entry::Lock {
            s: 0,
            l: 2,
            names: locks,
        },
    );
    add(rt, &mut history, Entry::Done { s: 0, l: 2 });
    add(rt, &mut history, Entry::Commit { s: 0, l: 2, c: 2 });
    add(rt, &mut history, Entry::Begin { s: 0, l: 3, c: 2 });
    add(rt, &mut history, Entry::Done { s: 0, l: 3 });
    add(rt, &mut history, Entry::End { s: 0, l: 3 });
    history
}

#[test]
fn a_first_run_prints_its_replies_its_history_and_its_census(rt: HostRuntime) -> Result<(), Fail> {
    let alloc = rt.alloc();
    let census = Census {
        free: 48,
        reserved: 0,
        private: 0,
        reached: 11,
        waiting: 1,
    };
    let history = first_run(&rt);
    let one = Listed::from_vec(vec![in alloc; Out::Int(1), Out::Int(10)]?);
    let two = Listed::from_vec(vec![in alloc; Out::Int(2), Out::Null]?);
    let rows = Listed::from_vec(vec![in alloc; one, two]?);
    let first = Reply {
        line: 1,
        said: Said::Created { commit: Some(1) },
    };
    let second = Reply {
        line: 2,
        said: Said::Inserted {
            rows: 2,
            commit: Some(2),
        },
    };
    let third = Reply {
        line: 3,
        said: Said::Answer(Answer::Rows(AnswerRows::of_values(rows))),
    };
    prints(&rt, first, second, third, &history, census)?;
    Ok(())
}

/// The whole and its parts, of that run.
fn prints(
    rt: &(impl Abort + AllocGlobal),
    first: Reply,
    second: Reply,
    third: Reply,
    history: &History,
    census: Census,
) -> Result<(), NoMemory>
    requires first { IsPlacedSaid (length history.now.nodes) (length history.now.sessions) first.said }
    requires second { IsPlacedSaid (length history.now.nodes) (length history.now.sessions) second.said }
    requires third { IsPlacedSaid (length history.now.nodes) (length history.now.sessions) third.said }
{
    let replies = [first, second, third];
    prints_parts(rt, &replies, history, census)
}

/// The same, of any replies.
fn prints_parts(
    rt: &(impl Abort + AllocGlobal),
    replies: &[Reply],
    history: &History,
    census: Census,
) -> Result<(), NoMemory>
    requires { ArePlacedReplies replies.now history.now }
{
    let alloc = rt.alloc();
    let all = format!(in alloc; "{REPLIES}{HISTORY}{LAST}")?;
    assert_eq!(rt;
        transcript(alloc, replies, history, census)?.as_str(),
        all.as_str()
    );
    let short = format!(in alloc; "{REPLIES}{LAST}")?;
    assert_eq!(rt;
        summary(alloc, replies, history, census)?.as_str(),
        short.as_str()
    );
    assert_eq!(rt; replies_part(alloc, replies, history)?.as_str(), REPLIES);
    let back = format!(in alloc; "{HISTORY}{LAST}")?;
    assert_eq!(rt;
        history_part(alloc, history, census)?.as_str(),
        back.as_str()
    );
    Ok(())
}
