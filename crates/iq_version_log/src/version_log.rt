//! The list of kept versions.
ghost use Rattle.std.specs.Prelude.{◌≡◌, ◌≤◌, ◌<◌, ◌+◌, ◌-◌, ◌^◌, [], ◌∷◌, ◌↔◌, length, drop, slice_index_or, All, IsTrue, IfOk, OnOk, OnErr};
ghost use Rattle.iq_free_list.specs.FreeList.{put_all};
ghost use Rattle.iq_version_log.specs.Versions.{LogState, latest_of, IsOpened, IsKept, KeepsMore, Reclaims, AreWithin, dropped_in, waiting};

use iq_base::{Listed, Name, NoMemory};
use iq_free_list::FreeList;
use iq_roomed::Roomed;
use iq_root::Addresses;
use std::alloc::Global;
use std::marker::Model;

/// What a commit left: the names of its tables and the heads of their descriptors, both in the order of names, and the blocks that
/// the commit before it reaches and it doesn't.
#[derive(Debug, Drop)]
pub struct Version {
    pub names: Listed<Name>,
    pub heads: Addresses,
    pub dropped: Roomed<u32>,
}

/// The versions from the base on, the last of them the latest commit's.
#[derive(Debug, Drop)]
pub struct VersionLog {
    base: u64,
    versions: Roomed<Version>,
}

impl Model for VersionLog {
    ghost use Rattle.iq_version_log.specs.Versions.{LogState, IsCounted};

    ghost Value = { LogState };

    ghost view = { λ log. record { base = log.base; versions = log.versions.items; room = log.versions.room } };

    ghost invariant = { λ log. IsCounted log.base log.versions.items };
}

impl VersionLog {
    /// The versions at an opening: commit 0 alone, with these tables.
    pub fn opened(
        alloc: Global,
        names: Listed<Name>,
        heads: Addresses,
    ) -> Result<VersionLog, NoMemory>
        ensures { IfOk result (IsOpened names heads) }
    {
        let mut versions = Roomed::with_room(alloc, 1)?;
        versions.push(Version {
            names,
            heads,
            dropped: Roomed::new(alloc),
        });
        Ok(VersionLog { base: 0, versions })
    }

    /// The first commit whose version is kept.
    pub fn base(&self) -> u64
        ensures { result ≡ self.now.base }
    {
        self.base
    }

    /// The latest commit.
    pub fn latest(&self) -> u64
        ensures { result ≡ latest_of self.now }
    {
        self.base + (self.versions.len() - 1) as u64
    }

    /// The version of a commit that is kept.
    pub fn version(&self, c: u64) -> &Version
        requires { IsKept self.now c }
        ensures { result.now ≡ slice_index_or self.now.versions (c - self.now.base) result.now }
    {
        &self.versions.as_slice()[(c - self.base) as usize]
    }

    /// Makes room for the versions of `n` commits more. The versions stay where memory is wanting.
    pub fn make_room(&mut self, n: usize) -> Result<(), NoMemory>
        ensures ok { OnOk result (n ≤ self.new.room) }
        ensures base { self.new.base ≡ self.old.base }
        ensures versions { self.new.versions ≡ self.old.versions }
        ensures room { self.old.room ≤ self.new.room }
        ensures err { OnErr result (self.new ≡ self.old) }
    {
        self.versions.reserve(n)
    }

    /// How many more commits find room.
    pub fn room(&self) -> usize
        ensures { result ≡ self.now.room }
    {
        self.versions.room()
    }

    /// Keeps the version of the next commit. It takes no memory.
    pub fn push(&mut self, version: Version)
        requires room { 0 < self.old.room }
        requires number { latest_of self.old + 1 < 2 ^ 64 }
        ensures { KeepsMore version self.old self.new }
    {
        self.versions.push(version);
    }

    /// How many blocks wait.
    pub fn waiting(&self) -> usize
        requires { length (waiting self.now) < 2 ^ 64 }
        ensures { result ≡ length (waiting self.now) }
    {
        let (_, behind) = self.versions.as_slice().split_at(1);
        let mut count = 0;
        for version in behind {
            count += version.dropped.len();
        }
        count
    }

    /// Whether all blocks that wait are below a number.
    pub fn is_within(&self, count: u32) -> bool
        ensures { IsTrue result → AreWithin count (drop 1 self.now.versions) }
    {
        let (_, behind) = self.versions.as_slice().split_at(1);
        behind
            .iter()
            .all(|version| are_below(version.dropped.as_slice(), count))
    }

    /// Frees what the commits up to a horizon dropped, and keeps the versions from it on. It takes no memory.
    pub fn reclaim(&mut self, horizon: u64, free: &mut FreeList)
        requires kept { IsKept self.old horizon }
        requires within { AreWithin free.old.count (drop 1 self.old.versions) }
        ensures { Reclaims horizon self.old self.new free.old free.new }
    {
        let n = (horizon - self.base) as usize;
        let (_, behind) = self.versions.as_slice().split_at(1);
        let (freed, _) = behind.split_at(n);
        give_dropped(freed, free);
        self.versions.drop_front(n);
        self.base = horizon;
    }
}

/// Whether blocks are below a number.
fn are_below(blocks: &[u32], count: u32) -> bool
    ensures { IsTrue result ↔ All (λ b. b < count) blocks.now }
{
    blocks.iter().all(|block| *block < count)
}

/// Gives what some commits dropped to the free blocks.
fn give_dropped(versions: &[Version], free: &mut FreeList)
    requires { AreWithin free.old.count versions.now }
    ensures given { free.new.blocks ≡ put_all (dropped_in versions.now) free.old.blocks }
    ensures count { free.new.count ≡ free.old.count }
{
    for version in versions {
        free.give_all(version.dropped.as_slice());
    }
}
