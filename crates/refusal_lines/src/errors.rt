// Why there is no text.
ghost use Rattle.std.specs.Prelude.{◌≡◌};

use rpt_base::{Memory, Str};
use script_rules::BindKind;

/// Why a command has no answer. Each has a status and a line of its own. Offsets are in bytes and rows are counted, both from
/// 0; row 0 is the first record after the header.
#[derive(Drop)]
pub enum Refusal {
    /// The words are no command.
    Usage,
    /// A call on the files failed for the file of this name.
    ReadFault { name: Str },
    /// The contents of the file of this name pass their limit.
    TooLarge { name: Str },
    /// At this offset of the script stands nothing that a script is made of.
    Lex { offset: u32 },
    /// The tokens before this offset begin a script, and with the token there they begin none.
    Syntax { offset: u32 },
    /// The token at this offset opens a 65th level inside of 64 open ones.
    TooDeep { offset: u32 },
    /// The script isn't bound, for what stands at this offset.
    Bind { kind: BindKind, offset: u32 },
    /// The query has no join list: its heaviest list of relations has this weight, and a join list needs that.
    Cyclic { best: u32, needed: u32 },
    /// The order's pieces aren't the names of all relations, each once.
    OrderNames,
    /// So many first relations of the order, and no fewer, can't be joined before the others without risk: they are no safe
    /// set.
    UnsafeOrder { prefix: u32 },
    /// This column doesn't stand exactly once in the header of this table's file.
    Header { table: Str, column: Str },
    /// The record of this row has another number of fields than the header.
    Ragged { table: Str, row: u32 },
    /// The field in this row and column of numbers isn't one.
    BadField { table: Str, row: u32, column: Str },
    /// The field in this row and column of texts isn't UTF-8.
    NotUtf8 { table: Str, row: u32, column: Str },
    /// A table has a row with the number 8,388,608, or the relations have more than 8,388,608 rows together.
    TooManyRows,
    /// The join of so many first relations of the order, and of no fewer, has 2^63 tuples or more.
    RowsOverflow { prefix: u32 },
    /// A put to the output failed.
    WriteFault,
    /// Want of memory.
    Memory,
}

impl From<Memory> for Refusal {
    ghost use Rattle.refusal_lines.specs.declared.errors.Refusal.TheVariants as refusal;

    ghost from_gives = { λ _ e. e ≡ refusal.Memory };

    fn from(_memory: Memory) -> Refusal {
        Refusal::Memory
    }
}
