// The selected rows of all relations.
ghost use Rattle.std.specs.Prelude.{◌≡◌, ◌<◌, ◌++◌, ◌∷◌, ◌^◌, [], IfOk, OnOk, length};
ghost use Rattle.bound_query.specs.Answer.{AreTables};
ghost use Rattle.join_laws.specs.Selected.{selected_counts};
ghost use Rattle.rpt_engine.specs.Answered.{AreSelected};

use bound_query::Bound;
use column_table::Table;
use row_selection::selected;
use rpt_base::{Listed, Memory};
use std::alloc::Global;

/// The rows of each relation that may take part in an answer, in the order of FROM, and how many these are.
#[derive(Drop)]
pub(crate) struct Selection {
    pub(crate) rows: Vec<Listed<u32>>,
    pub(crate) counts: Vec<u32>,
}

impl Selection {
    // Puts the rows of the next relation behind the others.
    fn add(&mut self, rows: Vec<u32>) -> Result<(), Memory>
        requires { length rows.items < 2 ^ 32 }
        ensures rows { OnOk result (self.new.rows.items ≡ self.old.rows.items ++ rows.items ∷ []) }
        ensures counts { OnOk result (self.new.counts.items
            ≡ self.old.counts.items ++ length rows.items ∷ []) }
    {
        let count = rows.len() as u32;
        self.counts.push(count)?;
        self.rows.push(Listed::from_vec(rows))?;
        Ok(())
    }
}

/// Selects the rows of all relations.
pub(crate) fn select_rows(
    alloc: Global,
    bound: &Bound,
    tables: &[Table],
) -> Result<Selection, Memory>
    requires { AreTables bound.now.query tables.now }
    ensures rows { IfOk result (λ selection.
        AreSelected bound.now tables.now selection.rows.items) }
    ensures counts { IfOk result (λ selection.
        selection.counts.items ≡ selected_counts bound.now tables.now) }
{
    let mut selection = Selection {
        rows: Vec::new(alloc),
        counts: Vec::new(alloc),
    };
    'relations: for relation in 0..bound.relations() {
        let rows = selected(alloc, bound, tables, relation)?;
        selection.add(rows)?;
    }
    Ok(selection)
}
