// How a board is made.
ghost use Rattle.std.specs.Prelude.{◌≡◌, ◌<◌, ◌≤◌, IfErr, IfOk, [], length, map, replicate, vec_capacity};
ghost use Rattle.rpt_base.specs.Limits.{AreWorkers};
ghost use Rattle.transfer_core.specs.Counts.{total};
ghost use Rattle.transfer_core.specs.Plans.{IsValid, shape_of};
ghost use Rattle.filter_board.specs.Layout.{AreRooms, AreStarts, first_words};
ghost use Rattle.filter_board.specs.Shares.{fresh, parts_of};
ghost use Rattle.filter_board.specs.Views.{first_hand};

use crate::board::Board;
use crate::hand::Hand;
use crate::rule::Deals;
use crate::setup::Setup;
use crate::share::Share;
use atomic_table::{Seat, Table};
use key_codes::Placement;
use rpt_base::Memory;
use std::alloc::{AllocError, Global};
use transfer_core::Plan;

// The memory of a board but for its table.
#[derive(Drop)]
struct Room {
    // A word for each that the table has, all 0.
    words: Vec<u64>,
    starts: Vec<usize>,
    rooms: Vec<Vec<u64>>,
    hands: Vec<Hand>,
}

// Where each region begins among the words of all regions, and how many these are.
fn starts_of(alloc: Global, words: &[u32]) -> Result<(Vec<usize>, usize), AllocError>
    ensures starts { IfOk result (λ r. AreStarts words.now r.0.items) }
    ensures all { IfOk result (λ r. r.1 ≡ total (λ n. n) words.now) }
{
    let mut starts = Vec::with_capacity(alloc, words.len())?;
    let mut next = 0usize;
    for count in words {
        starts.push(next)?;
        // Words that no address reaches have no memory.
        let Some(end) = next.checked_add(*count as usize) else {
            return Err(AllocError);
        };
        next = end;
    }
    Ok((starts, next))
}

// Room for the words of each region.
fn rooms_of(alloc: Global, words: &[u32]) -> Result<Vec<Vec<u64>>, AllocError>
    ensures { IfOk result (λ r. AreRooms words.now (map (λ w. w.items) r.items)) }
{
    let mut rooms = Vec::with_capacity(alloc, words.len())?;
    for count in words {
        rooms.push(vec![in alloc; 0u64; *count as usize]?)?;
    }
    Ok(rooms)
}

// All memory of a board but for its table.
fn room_of<P: Placement + Drop>(
    alloc: Global,
    plan: &Plan<P>,
    workers: u32,
) -> Result<Room, AllocError>
    requires { length plan.now.pipes ≤ 128 }
    ensures words { IfOk result (λ r. r.words.items ≡ first_words (shape_of P.seen plan.now)) }
    ensures starts { IfOk result (λ r. AreStarts plan.now.words r.starts.items) }
    ensures rooms { IfOk result (λ r. AreRooms plan.now.words (map (λ w. w.items) r.rooms.items)) }
    ensures hands { IfOk result (λ r. (r.hands.items ≡ []) × (workers ≤ vec_capacity r.hands)) }
{
    let (starts, all) = starts_of(alloc, plan.words.as_slice())?;
    let Some(count) = all.checked_add(2 * plan.pipes.as_slice().len()) else {
        return Err(AllocError);
    };
    Ok(Room {
        words: vec![in alloc; 0u64; count]?,
        starts,
        rooms: rooms_of(alloc, plan.words.as_slice())?,
        hands: Vec::with_capacity(alloc, workers as usize)?,
    })
}

impl<P: Placement + Drop> Board<P> {
    /// A board for a valid plan, and a hand for each of 1 to 32 workers, with 2^32 parts each. It takes all memory that the calls of
    /// the board need. Where there is too little the plan comes back.
    pub fn make(
        alloc: Global,
        plan: Plan<P>,
        workers: u32,
    ) -> Result<(Board<P>, Vec<Hand>), (Plan<P>, Memory)>
        requires valid { IsValid (shape_of P.seen plan) }
        requires workers { AreWorkers workers }
        ensures plan { IfOk result (λ r. r.0.plan ≡ plan) }
        ensures workers { IfOk result (λ r. r.0.workers ≡ workers) }

        // Each hand has the parts of one worker, and has made no step.
        ensures hands { IfOk result (λ r. r.1.items ≡ replicate workers (first_hand r.0.of)) }
        ensures back { IfErr result (λ e. e.0 ≡ plan) }
    {
        let Ok(room) = room_of(alloc, &plan, workers) else {
            return Err((plan, Memory));
        };
        let Room {
            words,
            starts,
            rooms,
            hands,
        } = room;
        let setup = Setup { plan, workers };
        match Table::of_words(alloc, &words, &setup) {
            Ok((table, seat)) => {
                let board = Board {
                    table,
                    setup,
                    starts,
                    rooms,
                };
                let hands = board.deal(seat, hands);
                Ok((board, hands))
            }
            Err(_) => {
                let Setup { plan, workers: _ } = setup;
                Err((plan, Memory))
            }
        }
    }

    // A hand for each worker, out of the seat that has the parts of all.
    fn deal(&self, mut seat: Seat<(), Share>, mut hands: Vec<Hand>) -> Vec<Hand>
        requires workers { 0 < self.now.workers }
        requires own { seat.table_id ≡ self.now.of }
        requires all { seat.me ≡ (fresh (parts_of self.now.workers), []) }
        requires room { (hands.items ≡ []) × (self.now.workers ≤ vec_capacity hands) }
        ensures { result.items ≡ replicate self.now.workers (first_hand self.now.of) }
    {
        for _ in 1..self.setup.workers {
            let other = self.table.shared.split_seat::<Deals>(&mut seat);
            hands.push_reserved(Hand::of(other));
        }
        hands.push_reserved(Hand::of(seat));
        hands
    }
}
