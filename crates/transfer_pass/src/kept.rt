// What a run of a plan keeps.
ghost use Rattle.std.specs.Prelude.{◌≡◌, ◌<◌, ◌*◌, [], ◌∷◌, ◌++◌, IfOk, length, slice_index_or};
ghost use Rattle.transfer_plan.specs.Kept.{CanTell, has_bit, is_kept, item_count, kept_among, kept_count, kept_rows, last_of, written_by};

use rpt_base::{Listed, Memory};
use std::alloc::Global;
use std::marker::Model;
use transfer_core::{Pipe, Plan, Port, Sealed};

/// The sealed regions of a plan, and the plan's pipes. Contracts see both as lists.
#[derive(Drop)]
pub struct TransferRun {
    sealed: Sealed,
    pipes: Listed<Pipe>,
}

impl Model for TransferRun {
    ghost use Rattle.transfer_plan.specs.Kept.{Run};

    ghost Value = { Run };

    ghost view = { λ r. record { words = r.sealed; pipes = r.pipes } };
}

// A region, and how many items the pipe has that writes it.
#[derive(Clone, Copy)]
struct Written {
    region: u32,
    items: u32,
}

impl Model for Written {
    ghost use Rattle.transfer_plan.specs.Kept as kept;

    ghost Value = { kept.Written };

    ghost view = { λ w. record { region = w.region; items = w.items } };

    ghost inverse = { λ w. record { region = w.region; items = w.items } };
}

impl TransferRun {
    /// The run of a plan that gave these sealed regions.
    pub(crate) fn of<P: Drop>(sealed: Sealed, plan: Plan<P>) -> TransferRun
        ensures { result ≡ record { words = sealed; pipes = plan.pipes } }
    {
        let Plan {
            morsel: _,
            words: _,
            places: _,
            pipes,
        } = plan;
        TransferRun { sealed, pipes }
    }

    /// Whether an item of a relation is kept, both numbered from 0. Of the pipes that write with the placement of the relation's
    /// number, the latest says so, by the last of the regions that it writes with it: bit `item % 64` of word `item / 64`.
    pub fn keeps(&self, relation: u32, item: u32) -> bool
        requires told { CanTell self.now relation }
        requires item { item < item_count self.now relation }
        ensures { result ≡ is_kept self.now relation item }
    {
        let kept = kept_of(self.pipes.as_slice(), relation);
        has_item(&self.sealed, kept.region, item)
    }

    /// How many items of a relation are kept.
    pub fn reduced(&self, relation: u32) -> u32
        requires { CanTell self.now relation }
        ensures { result ≡ kept_count self.now relation }
    {
        let kept = kept_of(self.pipes.as_slice(), relation);
        let mut count = 0;
        for item in 0..kept.items {
            if has_item(&self.sealed, kept.region, item) {
                count += 1;
            }
        }
        count
    }

    /// The rows of a relation's items that are kept, in order, given the row of each item.
    pub fn kept_rows(&self, alloc: Global, relation: u32, rows: &[u32]) -> Result<Vec<u32>, Memory>
        requires told { CanTell self.now relation }
        requires rows { length rows.now ≡ item_count self.now relation }
        ensures { IfOk result (λ kept. kept.items ≡ kept_rows self.now relation rows.now) }
    {
        let kept = kept_of(self.pipes.as_slice(), relation);
        let mut list = Vec::new(alloc);
        for item in 0..kept.items {
            if has_item(&self.sealed, kept.region, item) {
                list.push(rows[item as usize])?;
            }
        }
        Ok(list)
    }

    /// The sealed regions.
    pub fn sealed(&self) -> &Sealed
        ensures { result.now ≡ self.now.words }
    {
        &self.sealed
    }
}

// Whether a region has the bit of an item, 64 items to a word.
fn has_item(sealed: &Sealed, region: u32, item: u32) -> bool
    requires region { region < length sealed.now }
    requires item { item < 64 * length (slice_index_or sealed.now region []) }
    ensures { result ≡ has_bit sealed.now region item }
{
    let mask = 1u64 << (item % 64);
    sealed.word(region, item / 64) & mask == mask
}

// The region that is written last with a placement, and how many items the pipe has that writes it.
fn kept_of(pipes: &[Pipe], places: u32) -> Written
    ensures { result ≡ kept_among places pipes.now }
{
    let mut kept = Written {
        region: 0,
        items: 0,
    };
    for pipe in pipes {
        kept = kept_by(pipe.writes.as_slice(), pipe.items, places, kept);
    }
    kept
}

// The same among the ports of one pipe, or what was found before.
fn kept_by(ports: &[Port], items: u32, places: u32, before: Written) -> Written
    ensures { result ≡ last_of before (written_by places items ports.now) }
{
    let mut kept = before;
    for port in ports {
        if port.places == places {
            kept = Written {
                region: port.region,
                items,
            };
        }
    }
    kept
}
