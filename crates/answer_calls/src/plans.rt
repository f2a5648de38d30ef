// How a query was answered.
use case_text::put;
use join_graph::Tree;

/// Puts the tree, the order, and for each of the order's prefixes its list, if there is one.
pub fn put_plan(tree: &Tree, order: &[u32], lists: &[Option<Tree>], given: &mut String) {
    put(given, "tree");
    put_tree(tree, given);
    put(given, "order");
    put_numbers(order, given);
    for place in 0..lists.len() {
        let prefix = place + 1;
        match &lists[place] {
            Some(list) => {
                put(given, format_args!("safe {prefix}:"));
                put_tree(list, given);
            }
            None => put(given, format_args!("unsafe {prefix}\n")),
        }
    }
}

fn put_tree(tree: &Tree, given: &mut String) {
    put(given, format_args!(" {}", tree.root));
    for link in tree.links.as_slice() {
        put(given, format_args!(" {}>{}", link.child, link.parent));
    }
    put(given, "\n");
}

/// Puts numbers, and ends the line.
pub fn put_numbers(numbers: &[u32], given: &mut String) {
    for number in numbers {
        put(given, format_args!(" {number}"));
    }
    put(given, "\n");
}
