// Conditions.
use rpt_base::{Comparison, Str, Value};
use sqlite_items::{Boxed, Items};

/// What stands on a side of a comparison.
#[derive(Drop)]
pub enum Operand {
    /// The row's value in a column, numbered from 0.
    Column(u32),
    Literal(Value),
}

/// A condition on a row.
#[derive(Drop)]
pub enum Pred {
    /// All of them are true, which none always are.
    And(Items<Pred>),
    /// One of them is true, which of none is never so.
    Or(Items<Pred>),
    Not(Boxed<Pred>),
    /// Numbers are compared by value, and texts by their bytes.
    Compare {
        op: Comparison,
        left: Operand,
        right: Operand,
    },
    /// The whole text is as the pattern says: `%` stands for any run of characters, `_` for one character, and every other
    /// character for itself. There is no escape.
    Like {
        left: Operand,
        pattern: Str,
    },
}
