// Whether numbers are what the calls ask for.
ghost use Rattle.std.specs.Prelude.{◌≤◌, IsTrue, length, map};
ghost use Rattle.std.specs.List.{All};
ghost use Rattle.std.specs.List.Sorted.{IsStrictlyIncreasing};
ghost use Rattle.rpt_base.specs.declared.limits.TheConstants.{MAX_COLUMNS};
ghost use Rattle.join_graph.specs.JoinList.{IsGraph, IsSetOf};

use rpt_base::RelSet;
use rpt_base::limits::{MAX_COLUMNS, MAX_RELATIONS};

/// Whether relations can have these variables.
pub fn is_graph(sets: &[Vec<u32>]) -> bool
    ensures { IsTrue result → IsGraph (map (λ s. s.items) sets.now) }
{
    if sets.is_empty() || sets.len() > MAX_RELATIONS as usize {
        return false;
    }
    are_rising(sets) && are_short(sets)
}

fn are_rising(sets: &[Vec<u32>]) -> bool
    ensures { IsTrue result → All (λ s. IsStrictlyIncreasing s.items) sets.now }
{
    for set in sets {
        if !rises(set) {
            return false;
        }
    }
    true
}

fn are_short(sets: &[Vec<u32>]) -> bool
    ensures { IsTrue result → All (λ s. length s.items ≤ MAX_COLUMNS) sets.now }
{
    sets.iter().all(|set| set.len() <= MAX_COLUMNS as usize)
}

// Whether each number is below the next.
fn rises(numbers: &[u32]) -> bool
    ensures { IsTrue result → IsStrictlyIncreasing numbers.now }
{
    for place in 1..numbers.len() {
        if numbers[place] <= numbers[place - 1] {
            return false;
        }
    }
    true
}

/// Whether a set holds some of so many relations, and nothing else.
pub fn is_set_of(relations: u32, set: RelSet) -> bool
    ensures { IsTrue result → IsSetOf relations set }
{
    if relations > MAX_RELATIONS || set.0 >= 1 << relations {
        return false;
    }
    let least = set.0.trailing_zeros();
    least < 32 && (set.0 >> least) % 2 == 1
}
