// Walks over the grammar of conditions.
ghost use Rattle.std.specs.Prelude.{◌<◌};

use crate::printing::printed;
use case_text::{CaseError, pair_of, put};
use std::alloc::Global;

// A number that says which way is taken where several are open.
#[derive(Drop)]
struct Walk {
    state: u64,
}

impl Walk {
    // One of eight ways.
    fn way(&mut self) -> usize
        ensures { result < 8 }
    {
        self.state = self
            .state
            .wrapping_mul(6_364_136_223_846_793_005)
            .wrapping_add(1_442_695_040_888_963_407);
        (self.state >> 61) as usize
    }
}

const TESTS: [&str; 8] = [
    "a = 1",
    "t.b <> 'it''s'",
    "- 7 >= c",
    "a BETWEEN b AND -9223372036854775808",
    "x NOT BETWEEN 1 AND 2",
    "y IN (1, -2, 'z')",
    "\"the name\" NOT IN ('')",
    "d NOT LIKE '%_'",
];

// The levels of a walk's condition.
const LEVELS: u32 = 6;

/// Puts how many scripts are read, printed, and then read and printed to the same text: those of the walks that begin with
/// the numbers from the first to the last.
pub fn put_walks(alloc: Global, numbers: &str, given: &mut String) -> Result<(), CaseError> {
    let mut words = numbers.split_whitespace();
    let (first, last) = pair_of(words.next(), words.next())?;
    let mut same = 0u32;
    for number in first..=last {
        if is_read_back(alloc, u64::from(number))? {
            same = same.saturating_add(1);
        }
    }
    put(given, format_args!("{same} are read back\n"));
    Ok(())
}

fn is_read_back(alloc: Global, number: u64) -> Result<bool, CaseError> {
    let mut walk = Walk { state: number };
    let mut script = String::from_str(
        alloc,
        "CREATE TABLE t (a INT); SELECT a, t.b AS z FROM t, u AS v WHERE ",
    )?;
    put_cond(&mut walk, LEVELS, &mut script);
    let text = printed(alloc, script.as_bytes())?;
    let again = printed(alloc, &text)?;
    Ok(again == text)
}

fn put_cond(walk: &mut Walk, levels: u32, text: &mut String) {
    let way = walk.way();
    if levels == 0 || way < 2 {
        put(text, TESTS[walk.way()]);
        return;
    }
    if way < 4 {
        put(text, if way == 2 { "(" } else { "NOT (" });
        put_cond(walk, levels - 1, text);
        put(text, ")");
        return;
    }
    put_cond(walk, levels - 1, text);
    put(text, if way < 6 { " AND " } else { " OR " });
    put_cond(walk, levels - 1, text);
}
