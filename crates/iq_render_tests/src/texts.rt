//! A reply and an entry of one small run, as they are printed.
ghost use Rattle.std.specs.Prelude.{◌≡◌, length};
ghost use Rattle.iq_history.specs.Placed.{IsPlaced};
ghost use Rattle.iq_render.specs.Placed.{IsPlacedSaid};

use iq_base::{Census, Name};
use iq_history::{Entry, History};
use iq_model::{Reply, Said};
use iq_render::{history_part, replies_part};
use std::process::Abort;

/// Where the blocks of the example are.
pub const CENSUS: Census = Census {
    free: 48,
    reserved: 1,
    private: 2,
    reached: 11,
    waiting: 3,
};

pub fn name(rt: &impl Abort, text: &str) -> Name {
    Name::of(text).expect(rt, "a name")
}

/// A reply to line 7, of a run with the nodes c, w and r and the sessions a and b.
pub fn says(rt: &(impl Abort + AllocGlobal), said: Said, want: &str)
    requires { IsPlacedSaid 3 2 said }
{
    let nodes = [name(rt, "c"), name(rt, "w"), name(rt, "r")];
    let sessions = [name(rt, "a"), name(rt, "b")];
    let history = History::begun(rt.alloc(), &nodes, &sessions).expect(rt, "memory");
    let replies = [Reply { line: 7, said }];
    let text = replies_part(rt.alloc(), &replies, &history).expect(rt, "memory");
    assert_eq!(rt; text.as_str(), want);
}

/// An entry of that run, the only one in its history.
pub fn records(rt: &(impl Abort + AllocGlobal), entry: Entry, want: &str)
    requires { IsPlaced 3 2 entry }
{
    let nodes = [name(rt, "c"), name(rt, "w"), name(rt, "r")];
    let sessions = [name(rt, "a"), name(rt, "b")];
    let mut history = History::begun(rt.alloc(), &nodes, &sessions).expect(rt, "memory");
    history.reserve(1).expect(rt, "memory");
    history.push(entry);
    let text = history_part(rt.alloc(), &history, CENSUS).expect(rt, "memory");
    let last = "census free 48 reserved 1 private 2 reached 11 waiting 3";
    let want = format!(in rt.alloc(); "history 1\n#1 {want}\n{last}\n").expect(rt, "memory");
    assert_eq!(rt; text.as_str(), want.as_str());
}
