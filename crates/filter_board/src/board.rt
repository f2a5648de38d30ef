// The board, and where things stand among its words.
ghost use Rattle.std.specs.Prelude.{◌≡◌, ◌<◌, ◌^◌, length};
ghost use Rattle.transfer_core.specs.Job.{IsWord};
ghost use Rattle.filter_board.specs.Layout.{index_of};
ghost use Rattle.filter_board.specs.Views.{IsMade, job_in, shape_in};

use crate::rule::BoardRule;
use crate::setup::Setup;
use crate::share::Share;
use atomic_table::Table;
use key_codes::Placement;
use std::alloc::Global;
use std::marker::Model;
use transfer_core::Plan;

/// The words of a plan's pipes and regions, shared by reference. Contracts see the plan, the number of workers that the board was
/// made for, and by `of` which board a hand is one of.
#[derive(Drop)]
pub struct Board<P: Placement + Drop> {
    pub(crate) table: Table<(), Share, Setup<P>, BoardRule<P>, Global>,
    pub(crate) setup: Setup<P>,
    // Where each region begins among the words of all regions.
    pub(crate) starts: Vec<usize>,
    // The room for the sealed regions.
    pub(crate) rooms: Vec<Vec<u64>>,
}

impl<P: Placement + Drop> Model for Board<P> {
    ghost use Rattle.std.specs.Prelude.{map};
    ghost use Rattle.filter_board.specs.Laid.{IsLaidOut, board_of};
    ghost use Rattle.filter_board.specs.Views.{BoardView};

    ghost Value = { BoardView P };

    ghost view = { λ b. board_of b.table.shared.table_id b.setup };

    ghost invariant = { λ b. IsLaidOut P.seen b.table.shared.key b.setup b.table.shared.table_id
        b.starts.items (map (λ w. w.items) b.rooms.items) };
}

impl<P: Placement + Drop> Board<P> {
    /// The plan that the board was made for.
    pub fn plan(&self) -> &Plan<P>
        ensures plan { result.now ≡ self.now.plan }
        ensures made { IsMade P.seen self.now }
    {
        &self.setup.plan
    }

    // How many morsels a pipe has: its items divided by the morsel size, rounded up.
    pub(crate) fn morsels(&self, pipe: u32) -> u64
        requires { pipe < length self.now.plan.pipes }
        ensures morsels { result ≡ (job_in P.seen self.now).morsels pipe }
        ensures few { result < 2 ^ 32 }
        ensures within { pipe < 128 }
    {
        let from = &self.setup.plan.pipes.as_slice()[pipe as usize];
        u64::from(from.items.div_ceil(self.setup.plan.morsel))
    }

    // Where a word of a region stands among all words of the table.
    pub(crate) fn at(&self, region: u32, word: u32) -> usize
        requires { IsWord (job_in P.seen self.now) region word }
        ensures at { result ≡ index_of (shape_in P.seen self.now) region word }
        ensures inside { result < self.now.of.words }
    {
        2 * self.setup.plan.pipes.as_slice().len() + (self.starts[region as usize] + word as usize)
    }
}
