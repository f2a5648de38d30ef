// Steps of actors.

/// One step of an actor. Actors, pipes, items, ports, regions and words are numbered from 0; a port is one of those by which the pipe writes.
#[derive(Clone, Copy)]
pub enum Step {
    /// The actor draws the pipe's next morsel, if one is left. It has to hold none, and to have seen full each pipe that this one reads from.
    Draw {
        actor: u32,
        pipe: u32,
    },
    /// It puts an item of the morsel that it holds into the region of a port. The item has to pass.
    Put {
        actor: u32,
        pipe: u32,
        item: u32,
        port: u32,
    },
    /// It is done with the morsel that it holds. Each item of it that passes has to be put into the region of each port.
    Finish {
        actor: u32,
        pipe: u32,
    },
    /// It looks whether all morsels of the pipe are finished, and if so has seen the pipe full.
    See {
        actor: u32,
        pipe: u32,
    },
    /// It reads a word of a region. It has to have seen full the pipe that writes the region.
    Look {
        actor: u32,
        region: u32,
        word: u32,
    },
}
