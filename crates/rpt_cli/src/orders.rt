// The order of relations that words say.
ghost use Rattle.std.specs.Prelude.{◌≡◌, IfOk, IfSome, ◌+◌, ◌<◌, drop, length, map, nat_lt, position, take};
ghost use Rattle.std.specs.List.{list_all, range_with_len};
ghost use Rattle.rpt_base.specs.Lists.{has};
ghost use Rattle.rpt_cli.specs.Orders.{is_comma, is_name, order_of, pieces_of, relation_named};
ghost use Rattle.rpt_base.specs.Orders.{is_order, IsOrder};
ghost use Rattle.rpt_cli.specs.Steps.{SaysOrder};

use binder::Bound;
use refusal_lines::Refusal;
use rpt_base::{Listed, Memory, Name, Str};
use std::alloc::Global;

/// The order that is given, if any is. It is refused where its pieces aren't the names of all relations, each once.
pub(crate) fn order_of(
    alloc: Global,
    bound: &Bound,
    text: &Option<Str>,
) -> Result<Option<Listed<u32>>, Refusal>
    ensures says { SaysOrder (order_of bound.now.query text.now) result }
    ensures order { IfOk result (λ order.
        IfSome order (λ order. IsOrder (length bound.now.known.sets) order)) }
{
    let Some(text) = text else {
        return Ok(None);
    };
    let order = relations_named(alloc, bound, text.bytes())?;
    if !is_order(bound.relations(), &order) {
        return Err(Refusal::OrderNames);
    }
    Ok(Some(Listed::from_vec(order)))
}

// The relations that the pieces of a text name.
fn relations_named(alloc: Global, bound: &Bound, text: &[u8]) -> Result<Vec<u32>, Memory>
    ensures { IfOk result (λ order. order.items
        ≡ map (relation_named bound.now.query) (pieces_of text.now)) }
{
    let mut order = Vec::new(alloc);
    let mut rest = text;
    'pieces: while let Some(comma) = comma_in(rest) {
        order.push(relation_named(bound, before(rest, comma)))?;
        rest = behind(rest, comma);
    }
    order.push(relation_named(bound, rest))?;
    Ok(order)
}

// What stands before a place.
fn before(text: &[u8], place: usize) -> &[u8]
    requires { place < length text.now }
    ensures { result.now ≡ take place text.now }
{
    &text[..place]
}

// What stands behind a place.
fn behind(text: &[u8], place: usize) -> &[u8]
    requires { place < length text.now }
    ensures { result.now ≡ drop (place + 1) text.now }
{
    &text[place + 1..]
}

// Where the first comma stands.
fn comma_in(text: &[u8]) -> Option<usize>
    ensures { result ≡ position is_comma text.now }
{
    text.iter().position(|byte| *byte == b',')
}

// The number of the relation that a piece names; that of relations where it names none.
fn relation_named(bound: &Bound, piece: &[u8]) -> u32
    ensures { result ≡ relation_named bound.now.query piece.now }
{
    for relation in 0..bound.relations() {
        if is_name(piece, bound.alias(relation)) {
            return relation;
        }
    }
    bound.relations()
}

// Whether a piece is a relation's name, whatever the case of its ASCII letters.
fn is_name(piece: &[u8], alias: &Name) -> bool
    ensures { result ≡ is_name piece.now alias.now }
{
    piece.eq_ignore_ascii_case(alias.bytes())
}

// Whether there are as many as so many relations, none but these, and each of them.
fn is_order(relations: u32, order: &[u32]) -> bool
    ensures { result ≡ is_order relations order.now }
{
    order.len() == relations as usize && are_below(relations, order) && have_all(relations, order)
}

fn are_below(relations: u32, order: &[u32]) -> bool
    ensures { result ≡ list_all (λ r. nat_lt r relations) order.now }
{
    order.iter().all(|relation| *relation < relations)
}

fn have_all(relations: u32, order: &[u32]) -> bool
    ensures { result ≡ list_all (λ r. has r order.now) (range_with_len 0 relations) }
{
    for relation in 0..relations {
        if !has(order, relation) {
            return false;
        }
    }
    true
}

fn has(order: &[u32], relation: u32) -> bool
    ensures { result ≡ has relation order.now }
{
    order.iter().any(|other| relation == *other)
}
