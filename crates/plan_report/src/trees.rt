// The lines of the tree, and of the join lists of prefixes.
ghost use Rattle.std.specs.Prelude.{◌≡◌, ◌<◌, ◌++◌, IfSome, OnOk, length};
ghost use Rattle.join_graph.specs.JoinList.{HasParents};
ghost use Rattle.plan_report.specs.Report.{AreLists, link_text, list_text, prefix_line, prefix_lines};
ghost use Rattle.plan_report.specs.Report.{safe_line, tree_line, unsafe_line, weight_line};

use crate::pieces::{put, put_alias, put_number};
use bound_query::Bound;
use join_graph::{Graph, Link, Tree};
use rpt_base::Memory;

/// What the tree weighs, and what a join list weighs.
pub(crate) fn put_weight(out: &mut Vec<u8>, graph: &Graph, tree: &Tree) -> Result<(), Memory>
    requires { HasParents (length graph.now) tree.now.root tree.now.links }
    ensures { OnOk result (out.new.items ≡ out.old.items ++ weight_line graph.now tree.now) }
{
    put(out, b"weight ")?;
    put_number(out, graph.tree_weight(tree))?;
    put(out, b" of ")?;
    put_number(out, graph.needed())?;
    put(out, b"\n")
}

/// The tree.
pub(crate) fn put_tree(out: &mut Vec<u8>, bound: &Bound, tree: &Tree) -> Result<(), Memory>
    requires { HasParents (length bound.now.query.table_of) tree.now.root tree.now.links }
    ensures { OnOk result (out.new.items ≡ out.old.items ++ tree_line bound.now.query tree.now) }
{
    put(out, b"tree ")?;
    put_list(out, bound, tree)?;
    put(out, b"\n")
}

/// A line for each prefix, from that of one relation on.
pub(crate) fn put_prefixes(
    out: &mut Vec<u8>,
    bound: &Bound,
    lists: &[Option<Tree>],
) -> Result<(), Memory>
    requires each { length lists.now ≡ length bound.now.query.table_of }
    requires lists { AreLists (length bound.now.query.table_of) lists.now }
    ensures { OnOk result (out.new.items ≡ out.old.items
        ++ prefix_lines bound.now.query lists.now) }
{
    for index in 0..bound.relations() {
        put_prefix(out, bound, index + 1, &lists[index as usize])?;
    }
    Ok(())
}

// The join list that begins with the prefix of so many relations, or that there is none.
fn put_prefix(
    out: &mut Vec<u8>,
    bound: &Bound,
    count: u32,
    list: &Option<Tree>,
) -> Result<(), Memory>
    requires { IfSome list.now (λ tree. HasParents (length bound.now.query.table_of)
        tree.root tree.links) }
    ensures { OnOk result (out.new.items ≡ out.old.items
        ++ prefix_line bound.now.query (count, list.now)) }
{
    match list {
        Some(list) => put_safe(out, bound, count, list),
        None => put_unsafe(out, count),
    }
}

fn put_safe(out: &mut Vec<u8>, bound: &Bound, count: u32, list: &Tree) -> Result<(), Memory>
    requires { HasParents (length bound.now.query.table_of) list.now.root list.now.links }
    ensures { OnOk result (out.new.items ≡ out.old.items
        ++ safe_line bound.now.query count list.now) }
{
    put(out, b"safe ")?;
    put_number(out, count)?;
    put(out, b" ")?;
    put_list(out, bound, list)?;
    put(out, b"\n")
}

fn put_unsafe(out: &mut Vec<u8>, count: u32) -> Result<(), Memory>
    ensures { OnOk result (out.new.items ≡ out.old.items ++ unsafe_line count) }
{
    put(out, b"unsafe ")?;
    put_number(out, count)?;
    put(out, b"\n")
}

// The root, and then each link.
fn put_list(out: &mut Vec<u8>, bound: &Bound, tree: &Tree) -> Result<(), Memory>
    requires { HasParents (length bound.now.query.table_of) tree.now.root tree.now.links }
    ensures { OnOk result (out.new.items ≡ out.old.items ++ list_text bound.now.query tree.now) }
{
    put_alias(out, bound, tree.root)?;
    for link in tree.links.as_slice() {
        put_link(out, bound, *link)?;
    }
    Ok(())
}

// A child and its parent, behind a space.
fn put_link(out: &mut Vec<u8>, bound: &Bound, link: Link) -> Result<(), Memory>
    requires child { link.child < length bound.now.query.table_of }
    requires parent { link.parent < length bound.now.query.table_of }
    ensures { OnOk result (out.new.items ≡ out.old.items ++ link_text bound.now.query link) }
{
    put(out, b" ")?;
    put_alias(out, bound, link.child)?;
    put(out, b">")?;
    put_alias(out, bound, link.parent)
}
