// The syntax tree of a script. Offsets count the script's bytes from 0, and each `at` is that of the node's first token.
ghost use Rattle.std.specs.Prelude.{◌≡◌};
ghost use Rattle.sql_grammar.specs.Places.{place_of_expr};

use rpt_base::{ColumnType, Comparison, Listed, Name, Str, Value};
use sqlite_items::{Boxed, Items as Members};

/// A script: the tables that it declares, and what it selects.
#[derive(Drop)]
pub struct Script {
    pub tables: Listed<CreateTable>,
    pub select: Select,
}

/// A declared table. The place is that of its name.
#[derive(Drop)]
pub struct CreateTable {
    pub at: u32,
    pub name: Name,
    pub columns: Listed<ColumnItem>,
}

/// A declared column.
#[derive(Drop)]
pub struct ColumnItem {
    pub at: u32,
    pub name: Name,
    pub kind: ColumnType,
}

/// What is selected, from where, and under which condition.
#[derive(Drop)]
pub struct Select {
    pub items: Items,
    pub sources: Listed<Source>,
    pub filter: Option<Cond>,
}

/// The selected columns.
#[derive(Drop)]
pub enum Items {
    /// All columns of all sources in order.
    Star,
    /// These, at least one.
    List(Listed<Item>),
}

/// A selected column, and the title that is given to it.
#[derive(Drop)]
pub struct Item {
    pub column: ColumnName,
    pub title: Option<Name>,
}

/// A table that is selected from. The place is that of the table's name.
#[derive(Drop)]
pub struct Source {
    pub at: u32,
    pub table: Name,
    pub alias: Option<Alias>,
    /// The condition of a joined source. A source that follows FROM or a comma has none.
    pub on: Option<Cond>,
}

/// The name that a source goes by in place of its table's.
#[derive(Drop)]
pub struct Alias {
    pub at: u32,
    pub name: Name,
}

/// A column, named alone or with the source that has it.
#[derive(Drop)]
pub struct ColumnName {
    pub at: u32,
    pub relation: Option<Name>,
    pub column: Name,
}

/// An operand.
#[derive(Drop)]
pub enum Expr {
    Column(ColumnName),
    Literal { at: u32, value: Value },
}

/// A condition. No place is that of a parenthesis.
#[derive(Drop)]
pub enum Cond {
    /// Two conditions or more, all of which must hold.
    And(Members<Cond>),
    /// Two conditions or more, one of which must hold.
    Or(Members<Cond>),
    Not {
        at: u32,
        inner: Boxed<Cond>,
    },
    Compare {
        at: u32,
        op: Comparison,
        left: Expr,
        right: Expr,
    },
    Between {
        at: u32,
        negated: bool,
        operand: Expr,
        low: Expr,
        high: Expr,
    },
    InList {
        at: u32,
        negated: bool,
        operand: Expr,
        values: Listed<Value>,
    },
    Like {
        at: u32,
        negated: bool,
        operand: Expr,
        pattern: Str,
    },
}

impl Expr {
    /// The offset of the operand's first token.
    pub fn at(&self) -> u32
        ensures { result ≡ place_of_expr self.now }
    {
        match self {
            Expr::Column(column) => column.at,
            Expr::Literal { at, value: _ } => *at,
        }
    }
}
