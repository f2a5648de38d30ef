// The tuples of a run.
use case_text::put;
use morsel_pipeline::JoinRun;

/// Puts how many tuples each prefix has, and then each tuple of all relations in a line.
pub fn put_tuples(run: &JoinRun, given: &mut String) {
    put(given, "counts");
    for prefix in 1..=run.width() {
        put(given, format_args!(" {}", run.count(prefix)));
    }
    put(given, "\n");
    for morsel in 0..run.morsels() {
        put_each(run.tuples(morsel), run.width() as usize, given);
    }
}

// Puts tuples of so many numbers, which stand one after the other.
fn put_each(numbers: &[u32], width: usize, given: &mut String) {
    for place in 0..numbers.len() {
        if place.is_multiple_of(width) {
            put(given, if place == 0 { "tuple" } else { "\ntuple" });
        }
        put(given, format_args!(" {}", numbers[place]));
    }
    if !numbers.is_empty() {
        put(given, "\n");
    }
}
