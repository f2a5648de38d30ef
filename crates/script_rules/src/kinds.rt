// Why a script is refused.
ghost use Rattle.std.specs.Prelude.{◌≡◌};
ghost use Rattle.script_rules.specs.Violations.{rank_of};

/// Why a script is refused. Of two at one place the one that is listed first comes first.
#[derive(Clone, Copy, Debug, PartialEq, Eq)]
pub enum BindKind {
    /// A created table's name has a byte other than ASCII letters, digits, `_` and `-`.
    BadTableName,
    /// A table of this name was created before.
    DuplicateTable,
    /// A table's 65th column.
    TooManyColumns,
    /// A column is named as an earlier one of its table.
    DuplicateColumn,
    /// A source's table isn't created.
    UnknownTable,
    /// An earlier source goes by this name.
    DuplicateAlias,
    /// The 17th source.
    TooManyRelations,
    /// A reference names no column.
    UnknownColumn,
    /// A reference may resolve to columns of two relations or more.
    Ambiguous,
    /// A test's operands are of more than one type, or a LIKE is on a number.
    TypeMismatch,
    /// A condition on two relations or more is no equality of two columns.
    NotEquiJoin,
}

impl BindKind {
    // The place in the list, from 0.
    pub(crate) fn rank(self) -> u32
        ensures { result ≡ rank_of self }
    {
        match self {
            BindKind::BadTableName => 0,
            BindKind::DuplicateTable => 1,
            BindKind::TooManyColumns => 2,
            BindKind::DuplicateColumn => 3,
            BindKind::UnknownTable => 4,
            BindKind::DuplicateAlias => 5,
            BindKind::TooManyRelations => 6,
            BindKind::UnknownColumn => 7,
            BindKind::Ambiguous => 8,
            BindKind::TypeMismatch => 9,
            BindKind::NotEquiJoin => 10,
        }
    }
}
