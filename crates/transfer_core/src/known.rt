// What an actor knows.
ghost use Rattle.std.specs.Prelude.{◌≡◌, ◌<◌, IfOk, length};
ghost use Rattle.std.specs.Vec.{vec_capacity};
ghost use Rattle.transfer_core.specs.Actors.{holding, idle, is_listed, is_marked, with_finished, with_morsel, with_put, with_seen};
ghost use Rattle.transfer_core.specs.Plans.{Shape};
ghost use Rattle.transfer_core.specs.States.{HasRoom, HasRoomForPut, actor_of};

use rpt_base::Memory;
use std::alloc::Global;

/// The morsel that an actor holds, with its pipe; the item and the port of each put for it; the morsels that the actor has finished, with
/// their pipes; and for each pipe whether it was seen full.
#[derive(Drop)]
pub struct Known {
    pub(crate) held: Option<(u32, u32)>,
    pub(crate) puts: Vec<(u32, u32)>,
    pub(crate) finished: Vec<(u32, u32)>,
    pub(crate) seen: Vec<bool>,
}

/// Whether a put is listed.
pub(crate) fn is_listed(puts: &[(u32, u32)], item: u32, port: usize) -> bool
    ensures { result ≡ is_listed item port puts.now }
{
    puts.iter()
        .any(|put| put.0 == item && put.1 as usize == port)
}

impl Known {
    /// Knows nothing yet, and has room for so many puts and finished morsels, and for a mark of each of so many pipes.
    pub(crate) fn start(
        alloc: Global,
        puts: usize,
        finished: usize,
        pipes: usize,
    ) -> Result<Known, Memory>
        ensures actor { IfOk result (λ k. actor_of k ≡ idle pipes) }
        ensures puts { IfOk result (λ k. vec_capacity k.puts ≡ puts) }
        ensures finished { IfOk result (λ k. vec_capacity k.finished ≡ finished) }
    {
        let puts = Vec::with_capacity(alloc, puts)?;
        let finished = Vec::with_capacity(alloc, finished)?;
        let seen = vec![in alloc; false; pipes]?;
        Ok(Known {
            held: None,
            puts,
            finished,
            seen,
        })
    }

    /// Whether the actor has seen a pipe full, by the pipe's number from 0.
    pub(crate) fn has_seen(&self, pipe: usize) -> bool
        ensures { result ≡ is_marked self.now.seen.items pipe }
    {
        let seen = self.seen.as_slice();
        pipe < seen.len() && seen[pipe]
    }

    /// Takes a morsel, for which nothing is put yet.
    pub(crate) fn hold(&mut self, pipe: u32, morsel: u32)
        ensures actor { actor_of self.new ≡ with_morsel pipe morsel (actor_of self.old) }
        ensures room { (s : Shape) → HasRoom s self.old → HasRoom s self.new }
    {
        self.held = Some((pipe, morsel));
        self.puts.clear();
    }

    /// Lists a put, if it isn't yet.
    pub(crate) fn list(&mut self, item: u32, port: u32)
        requires { HasRoomForPut item port self.old }
        ensures actor { actor_of self.new ≡ with_put item port (actor_of self.old) }
        ensures room { (s : Shape) → HasRoom s self.old → HasRoom s self.new }
    {
        if !is_listed(self.puts.as_slice(), item, port as usize) {
            // There is room.
            let _listed = self.puts.push((item, port)).is_ok();
        }
    }

    /// Is done with the morsel that it holds.
    pub(crate) fn end(&mut self, pipe: u32, morsel: u32)
        requires { length self.old.finished.items < vec_capacity self.old.finished }
        ensures actor { actor_of self.new
            ≡ with_finished (holding pipe morsel) (actor_of self.old) }
        ensures room { (s : Shape) → pipe < length s.pipes → HasRoom s self.old
            → HasRoom s self.new }
    {
        self.held = None;
        self.puts.clear();
        // There is room.
        let _listed = self.finished.push((pipe, morsel)).is_ok();
    }

    /// Has seen a pipe full.
    pub(crate) fn see(&mut self, pipe: u32)
        requires { pipe < length self.old.seen.items }
        ensures actor { actor_of self.new ≡ with_seen pipe (actor_of self.old) }
        ensures room { (s : Shape) → HasRoom s self.old → HasRoom s self.new }
    {
        self.seen[pipe as usize] = true;
    }
}
