// The items that filters keep.
ghost use Rattle.std.specs.Prelude.{◌≤◌, EachIndex, length, slice_index};
ghost use Rattle.transfer_plan.specs.Kept.{CanTell, item_count};

use crate::plans::put_numbers;
use case_text::put;
use transfer_pass::TransferRun;

/// Puts how many rows of each relation are selected, and for each the places among these of the rows that filters keep.
pub fn put_kept(run: &TransferRun, selected: &[u32], given: &mut String)
    requires few { length selected.now ≤ 64 }
    requires told { EachIndex selected.now (CanTell run.now) }
    requires items { EachIndex selected.now (λ r.
        slice_index selected.now r ≤ item_count run.now r) }
{
    put(given, "selected");
    put_numbers(selected, given);
    for relation in 0..selected.len() {
        put_items(run, relation as u32, selected[relation], given);
    }
}

fn put_items(run: &TransferRun, relation: u32, items: u32, given: &mut String)
    requires told { CanTell run.now relation }
    requires items { items ≤ item_count run.now relation }
{
    put(given, format_args!("{relation} keeps:"));
    for item in 0..items {
        if run.keeps(relation, item) {
            put(given, format_args!(" {item}"));
        }
    }
    put(given, "\n");
}
