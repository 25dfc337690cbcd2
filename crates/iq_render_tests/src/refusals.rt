//! Refusals.
ghost use Rattle.iq_history.specs.Placed.{IsPlacedRefusal};

use crate::texts::{CENSUS, name, says};
use iq_base::{FieldCause, Refusal};
use iq_model::Said;
use std::process::Abort;

/// A refusal of line 7 in that run.
fn refuses(rt: &(impl Abort + AllocGlobal), refusal: Refusal, want: &str)
    requires { IsPlacedRefusal 2 refusal }
{
    let want = format!(in rt.alloc(); "@7 refused {want}\n").expect(rt, "memory");
    says(rt, Said::Refused(refusal), want.as_str());
}

#[test]
fn each_refusal_prints_its_name_and_fields(rt: HostRuntime) {
    let rt = &rt;
    let t = name(rt, "t");
    refuses(rt, Refusal::Lost { incarnation: 2 }, "Lost 2");
    refuses(rt, Refusal::InTransaction, "InTransaction");
    refuses(rt, Refusal::NoTransaction, "NoTransaction");
    refuses(
        rt,
        Refusal::NoSavepoint { name: t.again() },
        "NoSavepoint t",
    );
    refuses(rt, Refusal::TooManySavepoints, "TooManySavepoints");
    refuses(rt, Refusal::DdlInTransaction, "DdlInTransaction");
    refuses(rt, Refusal::ReadOnly { node: t.again() }, "ReadOnly t");
    refuses(rt, Refusal::NoTable { name: t.again() }, "NoTable t");
    refuses(
        rt,
        Refusal::TableExists { name: t.again() },
        "TableExists t",
    );
    refuses(rt, Refusal::NoColumn { name: t.again() }, "NoColumn t");
    refuses(rt, Refusal::NoIndex { name: t.again() }, "NoIndex t");
    refuses(
        rt,
        Refusal::IndexExists { name: t.again() },
        "IndexExists t",
    );
    refuses(rt, Refusal::CatalogFull, "CatalogFull");
    refuses(
        rt,
        Refusal::TypeMismatch { column: t.again() },
        "TypeMismatch t",
    );
    refuses(
        rt,
        Refusal::NotGrouped { column: t.again() },
        "NotGrouped t",
    );
    refuses(
        rt,
        Refusal::NullRefused { column: t.again() },
        "NullRefused t",
    );
    refuses(rt, Refusal::TextTooLong { column: t }, "TextTooLong t");
}

#[test]
fn each_later_refusal_prints_its_name_and_fields(rt: HostRuntime) {
    let rt = &rt;
    let t = name(rt, "t");
    refuses(rt, Refusal::Halted { commit: 9 }, "Halted 9");
    refuses(
        rt,
        Refusal::Locked {
            table: t.again(),
            session: 1,
        },
        "Locked t b",
    );
    refuses(
        rt,
        Refusal::Later {
            table: t.again(),
            commit: 2,
        },
        "Later t 2",
    );
    refuses(rt, Refusal::TableFull { limit: 127008 }, "TableFull 127008");
    refuses(
        rt,
        Refusal::IndexUnfit { column: t.again() },
        "IndexUnfit t",
    );
    refuses(
        rt,
        Refusal::TooManyDistinct {
            index: t.again(),
            distinct: 1001,
        },
        "TooManyDistinct t 1001",
    );
    refuses(
        rt,
        Refusal::NoSpace { census: CENSUS },
        "NoSpace 48 1 2 11 3",
    );
    refuses(
        rt,
        Refusal::StoreFault {
            before: 0,
            after: 1,
        },
        "StoreFault 0 1",
    );
    refuses(
        rt,
        Refusal::BadPage {
            object: 256,
            page: 0,
        },
        "BadPage 256 0",
    );
    refuses(rt, Refusal::NoNode { name: t.again() }, "NoNode t");
    refuses(rt, Refusal::IsCoordinator { name: t }, "IsCoordinator t");
    refuses(rt, Refusal::NoReport { number: 1 }, "NoReport 1");
    refuses(rt, Refusal::AtEnd { commit: 4 }, "AtEnd 4");
    for (cause, want) in [
        (FieldCause::Count, "BadRow 2 0 Count"),
        (FieldCause::NotNumber, "BadRow 2 0 NotNumber"),
        (FieldCause::NotText, "BadRow 2 0 NotText"),
        (FieldCause::Range, "BadRow 2 0 Range"),
        (FieldCause::NullRefused, "BadRow 2 0 NullRefused"),
        (FieldCause::TextTooLong, "BadRow 2 0 TextTooLong"),
        (FieldCause::NotUtf8, "BadRow 2 0 NotUtf8"),
    ] {
        refuses(
            rt,
            Refusal::BadRow {
                row: 2,
                field: 0,
                cause,
            },
            want,
        );
    }
}
