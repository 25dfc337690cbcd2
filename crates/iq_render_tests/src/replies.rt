//! Replies and their rows.
use crate::texts::{CENSUS, name, says};
use iq_base::{Kind, Letters, Listed, Refusal, Text};
use iq_cells::{Cells, Rows};
use iq_model::{Answer, AnswerRows, Freed, NodeVersion, Out, Said, Sent, Versions};
use std::test::Fail;

#[test]
fn each_change_and_transaction_says_its_text(rt: HostRuntime) {
    let rt = &rt;
    let p = name(rt, "p");
    says(rt, Said::Created { commit: None }, "@7 created\n");
    says(
        rt,
        Said::Created { commit: Some(3) },
        "@7 created commit 3\n",
    );
    says(
        rt,
        Said::Dropped {
            commit: Some(18446744073709551615),
        },
        "@7 dropped commit 18446744073709551615\n",
    );
    says(
        rt,
        Said::Inserted {
            rows: 2,
            commit: Some(4),
        },
        "@7 inserted 2 commit 4\n",
    );
    says(
        rt,
        Said::Deleted {
            rows: 0,
            commit: None,
        },
        "@7 deleted 0\n",
    );
    says(
        rt,
        Said::Updated {
            rows: 4294967295,
            commit: None,
        },
        "@7 updated 4294967295\n",
    );
    says(rt, Said::Begun { commit: 5 }, "@7 begun 5\n");
    says(rt, Said::Committed { commit: 6 }, "@7 committed 6\n");
    says(rt, Said::Ended, "@7 ended\n");
    says(rt, Said::RolledBack, "@7 rolled back\n");
    says(rt, Said::Saved { name: p.again() }, "@7 savepoint p\n");
    says(rt, Said::BackTo { name: p.again() }, "@7 back to p\n");
    says(rt, Said::Released { name: p }, "@7 released p\n");
}

#[test]
fn each_step_says_its_text(rt: HostRuntime) {
    let rt = &rt;
    says(rt, Said::Synced { commit: 2 }, "@7 synced 2\n");
    says(rt, Said::Applied { commit: 3 }, "@7 applied 3\n");
    says(
        rt,
        Said::Sent(Sent::Bagged {
            number: 1,
            floor: 2,
        }),
        "@7 sent 1 floor 2\n",
    );
    says(
        rt,
        Said::Sent(Sent::Own {
            horizon: 4,
            freed: 6,
        }),
        "@7 horizon 4 freed 6\n",
    );
    says(rt, Said::Lost { number: 1 }, "@7 lost 1\n");
    says(
        rt,
        Said::Taken(Freed {
            horizon: 2,
            freed: 0,
        }),
        "@7 horizon 2 freed 0\n",
    );
    says(rt, Said::Restarted { incarnation: 2 }, "@7 restarted 2\n");
    says(rt, Said::Excluded { incarnation: 2 }, "@7 excluded 2\n");
    says(rt, Said::Included { commit: 4 }, "@7 included 4\n");
    says(
        rt,
        Said::Space(CENSUS),
        "@7 space free 48 reserved 1 private 2 reached 11 waiting 3\n",
    );
    says(
        rt,
        Said::Refused(Refusal::NoMemory),
        "@7 refused NoMemory\n",
    );
}

#[test]
fn rows_of_columns_stand_as_rows_of_values(rt: HostRuntime) -> Result<(), Fail> {
    let alloc = rt.alloc();
    let mut numbers = Cells::new(alloc, Kind::Big);
    numbers.push_null()?;
    let _least = numbers.push_number(i64::MIN);
    let mut texts = Cells::new(alloc, Kind::Varchar(3));
    let _quoted = texts.push_text(b"a'b");
    let _empty = texts.push_text(b"");
    assert_eq!(rt; numbers.len(), 2);
    assert_eq!(rt; texts.len(), 2);
    let rows = Rows::of(vec![in alloc; numbers, texts]?, 2);
    let want = "@7 rows 2\n  NULL,'a''b'\n  -9223372036854775808,''\n";
    says(
        &rt,
        Said::Answer(Answer::Rows(AnswerRows::of_columns(rows))),
        want,
    );
    Ok(())
}

#[test]
fn rows_stand_after_two_spaces(rt: HostRuntime) -> Result<(), Fail> {
    let alloc = rt.alloc();
    let quote = Text::of("it''s '").ok_or("a text")?;
    let first = vec![in alloc;
        Out::Int(-170141183460469231731687303715884105728),
        Out::Null,
        Out::Text(quote),
    ]?;
    let rows = vec![in alloc; Listed::from_vec(first), Listed::new(alloc)]?;
    let rows = Said::Answer(Answer::Rows(AnswerRows::of_values(Listed::from_vec(rows))));
    let want = "@7 rows 2\n  -170141183460469231731687303715884105728,NULL,'it''''s '''\n  \n";
    says(&rt, rows, want);
    let plan = vec![in alloc; Letters::of(String::from_str(alloc, "x = 'ä' by LF l")?)]?;
    says(
        &rt,
        Said::Answer(Answer::Plan(Listed::from_vec(plan))),
        "@7 plan 1\n  x = 'ä' by LF l\n",
    );
    let reader = NodeVersion {
        node: 2,
        position: 4,
        floor: 3,
        taken: 2,
        incarnation: 1,
        excluded: true,
    };
    let nodes = Listed::from_vec(vec![in alloc; reader]?);
    let versions = Said::Versions(Versions {
        latest: 9,
        horizon: 2,
        nodes,
    });
    says(
        &rt,
        versions,
        "@7 versions latest 9 horizon 2\n  r position 4 floor 3 taken 2 incarnation 1 excluded\n",
    );
    Ok(())
}
