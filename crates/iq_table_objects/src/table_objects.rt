//! The objects of a table as a source and a sink of pages over a device.
ghost use Rattle.std.specs.Prelude.{◌≡◌, ◌≤◌, ◌<◌, ◌+◌, ◌⊎◌, ℕ, None, [], Err, length, is_err, IfSome, IfNone, IfErr};
ghost use Rattle.std.proofs.Props.{props};
ghost use Rattle.iq_block_map.specs.Takers.{AreSpare};
ghost use Rattle.iq_block_map.specs.declared.faults.MapFault.TheVariants.{NoSpace};
ghost use Rattle.iq_table_objects.specs.Tables.{AreSound, IsFailure, IsAnswer, ReadsFault, told_in, count_in, fault_count};

use crate::closing::close_all;
use crate::opening::open_all;
use crate::parts::{Closed, Unopened};
use iq_base::{Page, Ref};
use iq_block_map::{MapFault, Taker};
use iq_objects::OpenObject;
use iq_outside::Device;
use iq_pages::{PageFault, PageSink, PageSource};
use std::alloc::Global;

/// An object of a source: the reference that it was opened with, and what it is now.
#[derive(Debug, Drop)]
pub struct Slot {
    pub reference: Ref,
    pub object: OpenObject,
}

/// Objects of a device with numbers from a first one on. Each is opened before the first call, so that no call reads a map. A call
/// that finds no block to take counts as one that failed, and is told apart by `lacked_space`.
#[derive(Drop)]
pub struct TableObjects<D: Device, T: Taker + Drop> {
    disk: D,
    space: T,
    first: u32,
    slots: Vec<Slot>,
    refused: u64,
    ghost spare: { AreSpare (D.blocks disk) (T.left space) } by { Prim.hlevel props },
    ghost sound: { AreSound (D.blocks disk) (T.left space) slots.items } by { Prim.hlevel props },
    ghost lack: { 1 ≤ refused → T.left space ≡ [] } by { Prim.hlevel props },
}

/// The place of an object among so many, whose numbers go from a first one on.
fn place_of(first: u32, count: usize, object: u32) -> Option<usize>
    ensures found { IfSome result (λ place. (first + place ≡ object) × (place < count)) }
    ensures missing { IfNone result ((place : ℕ) → first + place ≡ object → count ≤ place) }
{
    let place = object.checked_sub(first)? as usize;
    if place < count { Some(place) } else { None }
}

impl<D: Device, T: Taker + Drop> PageSource for TableObjects<D, T> {
    ghost counts = { λ s object. count_in s.slots.items s.first object };

    ghost told = { λ s object. told_in (D.blocks s.disk) s.slots.items s.first object };

    ghost reads = { λ s. None };

    ghost writes = { λ s. None };

    ghost faults = { λ s. fault_count (D.faults s.disk) s.refused };

    fn pages(&self, object: u32) -> u32 {
        match place_of(self.first, self.slots.len(), object) {
            Some(place) => self.slots[place].object.len() as u32,
            None => 0,
        }
    }

    fn page(&mut self, object: u32, n: u32, into: &mut Page) -> Result<(), PageFault> {
        let before = self.faults();
        let Some(place) = place_of(self.first, self.slots.len(), object) else {
            unreachable!()
        };
        let outcome = self.slots[place].object.page(&mut self.disk, n, into);
        read_answer(&self.disk, self.refused, outcome, before, object, n)
    }

    fn faults(&self) -> u64 {
        count_faults(&self.disk, self.refused)
    }
}

impl<D: Device, T: Taker + Drop> PageSink for TableObjects<D, T> {
    fn set_page(&mut self, object: u32, n: u32, from: &Page) -> Result<(), PageFault> {
        let before = self.faults();
        let Some(place) = place_of(self.first, self.slots.len(), object) else {
            unreachable!()
        };
        let slot = &mut self.slots[place];
        let outcome = slot
            .object
            .set_page(&mut self.disk, &mut self.space, n, from);
        answer(&self.disk, &mut self.refused, outcome, before)
    }

    fn push_page(&mut self, object: u32, from: &Page) -> Result<(), PageFault> {
        let before = self.faults();
        let Some(place) = place_of(self.first, self.slots.len(), object) else {
            return Err(PageFault::BadPage { object, page: 0 });
        };
        let slot = &mut self.slots[place];
        let outcome = slot.object.push_page(&mut self.disk, &mut self.space, from);
        answer(&self.disk, &mut self.refused, outcome, before)
    }

    fn new_object(&mut self, object: u32) -> Result<(), PageFault> {
        let before = self.faults();
        let Some(place) = place_of(self.first, self.slots.len(), object) else {
            return Err(PageFault::BadPage { object, page: 0 });
        };
        let slot = &mut self.slots[place];
        let outcome = slot.object.clear();
        answer(&self.disk, &mut self.refused, outcome, before)
    }
}

impl<D: Device, T: Taker + Drop> TableObjects<D, T> {
    ghost use Rattle.std.specs.Prelude.{false, IsTrue, IfOk, OnOk};
    ghost use Rattle.iq_block_store.specs.Looks.{HasLooked};
    ghost use Rattle.iq_block_map.specs.Writing.{HasPut};
    ghost use Rattle.iq_objects.specs.Changes.{IsWriteFault};
    ghost use Rattle.iq_table_objects.specs.Opening.{MayOpenAll, IsOpenFault, AreStanding, AreSettled};
    ghost use Rattle.iq_table_objects.specs.Views.{device_of, space_of, first_of, size_of, lacked_by, seen_by, AreOpened, ReadAsTold};

    /// Opens the objects of references, which get the numbers from a first one on. It reads each map once and no page, and takes no
    /// block. Where it fails, the device and the blocks that may be taken are given back.
    pub fn open(
        alloc: Global,
        disk: D,
        space: T,
        first: u32,
        references: &[Ref],
    ) -> Result<TableObjects<D, T>, Unopened<D, T>>
        requires spare { AreSpare (D.blocks disk) (T.left space) }
        requires each { MayOpenAll (D.blocks disk) (T.left space) references.now }
        ensures opened { IfOk result (λ s.
            AreOpened (D.blocks disk) first references.now (seen_by D.Device s)) }
        ensures size { IfOk result (λ s. size_of s ≡ length references.now) }
        ensures first { IfOk result (λ s. first_of s ≡ first) }
        ensures fresh { IfOk result (λ s. lacked_by s ≡ false) }
        ensures device { IfOk result (λ s. HasLooked D.Device disk (device_of s)) }
        ensures space { IfOk result (λ s. space_of s ≡ space) }

        ensures device_back { IfErr result (λ u. HasLooked D.Device disk u.disk) }
        ensures space_back { IfErr result (λ u. u.space ≡ space) }
        ensures cause { IfErr result (λ u. IsOpenFault references.now (D.blocks disk)
            u.fault (D.faults disk) (D.faults u.disk)) }
    {
        let mut disk = disk;
        match open_all(alloc, &mut disk, references) {
            Ok(slots) => Ok(TableObjects {
                disk,
                space,
                first,
                slots,
                refused: 0,
            }),
            Err(fault) => Err(Unopened { disk, space, fault }),
        }
    }

    /// Whether a call failed since there was no block to take. There is none left then; and where there was no such call, the count of
    /// faults is the device's.
    pub fn lacked_space(&self) -> bool
        ensures is { result ≡ lacked_by self.now }
        ensures yes { IsTrue result → T.left (space_of self.now) ≡ [] }
        ensures no { result ≡ false → (seen_by D.Device self.now).faults
            ≡ fault_count (D.faults (device_of self.now)) 0 }
    {
        self.refused > 0
    }

    /// Writes the maps of all objects that changed, and gives each its new reference. It takes no memory but what room for lost blocks
    /// takes.
    pub fn close(self) -> Closed<D, T>
        ensures told { OnOk result.outcome (ReadAsTold (D.blocks result.disk) (first_of self)
            result.slots.items (seen_by D.Device self)) }
        ensures closed { OnOk result.outcome
            (AreSettled (D.blocks result.disk) (T.left result.space) result.slots.items) }
        ensures size { length result.slots.items ≡ size_of self }
        ensures put { HasPut D.Device (T.left (space_of self)) (T.left result.space)
            (device_of self) result.disk }
        ensures spare { AreSpare (D.blocks result.disk) (T.left result.space) }
        ensures stands { AreStanding (D.blocks result.disk) (T.left result.space) result.slots.items }
        ensures cause { IfErr result.outcome (λ e. IsWriteFault (T.left result.space ≡ [])
            e (D.faults (device_of self)) (D.faults result.disk)) }
    {
        let TableObjects {
            mut disk,
            mut space,
            mut slots,
            ..
        } = self;
        let outcome = close_all(&mut disk, &mut space, &mut slots);
        Closed {
            disk,
            space,
            slots,
            outcome,
        }
    }
}

/// The faults of a device and the refusals for want of a block.
fn count_faults<D: Device>(disk: &D, refused: u64) -> u64
    ensures { result ≡ fault_count (D.faults disk.now) refused }
{
    disk.faults().saturating_add(refused)
}

/// What a call that read a page answers.
fn read_answer<D: Device>(
    disk: &D,
    refused: u64,
    outcome: Result<(), MapFault>,
    before: u64,
    object: u32,
    n: u32,
) -> Result<(), PageFault>
    ensures variant { is_err result ≡ is_err outcome }
    ensures cause { IfErr outcome (λ fault.
        ReadsFault before (fault_count (D.faults disk.now) refused) object n fault result) }
{
    let Err(fault) = outcome else { return Ok(()) };
    let after = count_faults(disk, refused);
    Err(match fault {
        MapFault::StoreFault { .. } | MapFault::NoSpace => PageFault::Failed { before, after },
        MapFault::BadMap { .. } => PageFault::BadPage { object, page: n },
        MapFault::NoMemory => PageFault::NoMemory,
    })
}

/// What a call that wrote answers. A refusal for want of a block is counted.
fn answer<D: Device>(
    disk: &D,
    refused: &mut u64,
    outcome: Result<(), MapFault>,
    before: u64,
) -> Result<(), PageFault>
    ensures variant { is_err result ≡ is_err outcome }
    ensures later { refused.old ≤ refused.new }
    ensures lack { 1 ≤ refused.new → (1 ≤ refused.old) ⊎ (outcome ≡ Err NoSpace) }
    ensures cause { (first : ℕ) → first ≤ D.faults disk.now → before ≡ fault_count first refused.old
        → IfErr outcome (λ e. IsFailure e first (D.faults disk.now))
        → IfErr result (λ e. IsAnswer e before (fault_count (D.faults disk.now) refused.new)) }
{
    let Err(fault) = outcome else { return Ok(()) };
    if let MapFault::NoSpace = fault {
        *refused = refused.saturating_add(1);
    }
    let after = count_faults(disk, *refused);
    Err(match fault {
        MapFault::StoreFault { .. } | MapFault::NoSpace => PageFault::Failed { before, after },
        MapFault::BadMap { .. } | MapFault::NoMemory => PageFault::NoMemory,
    })
}
