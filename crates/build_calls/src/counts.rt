// Sums of numbers of tuples.
use case_text::{CaseError, put};
use morsel_pipeline::add_counts;

/// Puts the sum of two numbers of tuples, if there is one.
pub fn put_sum(text: &str, given: &mut String) -> Result<(), CaseError> {
    let Some((a, b)) = text.split_once(' ') else {
        return Err(CaseError::Word);
    };
    match add_counts(count_of(a)?, count_of(b)?) {
        Some(sum) => put(given, format_args!("{sum}\n")),
        None => put(given, "none\n"),
    }
    Ok(())
}

fn count_of(text: &str) -> Result<u64, CaseError> {
    text.parse::<u64>().map_err(|_| CaseError::Number)
}
