//! How much a command may take. Past a limit it is refused.
ghost use Rattle.std.specs.Prelude.{◌↔◌, IsTrue};
ghost use Rattle.rpt_base.specs.Limits.{AreWorkers, IsMorsel};

/// The bytes of a script.
pub const MAX_SCRIPT_BYTES: u32 = 1_048_576;

/// The bytes of all tables' files of a query together.
pub const MAX_TABLE_BYTES: u32 = 268_435_456;

/// The rows of all relations of a query together.
pub const MAX_ROWS: u32 = 8_388_608;

/// The columns of a table.
pub const MAX_COLUMNS: u32 = 64;

/// The bytes of a name.
pub const MAX_NAME_BYTES: usize = 63;

/// The levels of a script, one inside of the other.
pub const MAX_LEVELS: u32 = 64;

/// The relations of a query.
pub const MAX_RELATIONS: u32 = 16;

/// The workers of a command. There is at least one.
pub const MAX_WORKERS: u32 = 32;

/// The fewest items that a worker takes at a time, a morsel. Each morsel has a multiple of them.
pub const MIN_MORSEL: u32 = 64;

/// The most items of a morsel.
pub const MAX_MORSEL: u32 = 65_536;

/// Whether there can be so many workers: 1 to 32.
pub fn are_workers(workers: u32) -> bool
    ensures { IsTrue result ↔ AreWorkers workers }
{
    workers >= 1 && workers <= MAX_WORKERS
}

/// Whether a morsel can have so many items: 64 to 65,536, a multiple of 64.
pub fn is_morsel(size: u32) -> bool
    ensures { IsTrue result ↔ IsMorsel size }
{
    size >= MIN_MORSEL && size <= MAX_MORSEL && size % MIN_MORSEL == 0
}
