// Numbers, sets of them, and the variables of relations, as they are written.
use case_text::{CaseError, number_of, push_read};
use std::alloc::Global;

/// The variables of each relation. A blank stands between two relations and a comma between two variables, and a relation
/// without variables is a dash.
pub fn sets_of(alloc: Global, text: &str) -> Result<Vec<Vec<u32>>, CaseError> {
    let mut sets = Vec::new(alloc);
    for set in text.split_whitespace() {
        push_read(&mut sets, numbers_between(alloc, set))?;
    }
    Ok(sets)
}

fn numbers_between(alloc: Global, set: &str) -> Result<Vec<u32>, CaseError> {
    let mut numbers = Vec::new(alloc);
    if set == "-" {
        return Ok(numbers);
    }
    for number in set.split(',') {
        push_read(&mut numbers, number_of(Some(number)))?;
    }
    Ok(numbers)
}
