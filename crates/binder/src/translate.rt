// Conditions over the columns of their relations.
ghost use Rattle.std.specs.Prelude.{◌≡◌, ◌++◌, ◌∷◌, [], IfOk, map};
ghost use Rattle.predicate.specs.declared.tree.Operand.TheVariants as operand;
ghost use Rattle.rpt_base.specs.declared.comparisons.Comparison.TheVariants as op;
ghost use Rattle.predicate.specs.declared.tree.Pred.TheVariants as pred;
ghost use Rattle.script_rules.specs.Scope.{resolve};
ghost use Rattle.script_rules.specs.Conjuncts.{found};
ghost use Rattle.binder.specs.Binding.{between_of, condition_of, conditions_in, conditions_of, is_condition_of};
ghost use Rattle.binder.specs.Binding.{is_in, negated_if, operand_of, pred_of, resolved_place};

use predicate::{Operand, Pred};
use rpt_base::{Comparison, Listed, Memory, Str, Value};
use script_rules::{Scope, first_relation, is_equality};
use sql_text::{ColumnName, Cond, Expr};
use sqlite_items::{Boxed, Items};
use std::alloc::Global;

/// The condition of each relation, of these conjuncts.
pub(crate) fn conditions(
    alloc: Global,
    scope: &Scope,
    conjuncts: &[&Cond],
) -> Result<Listed<Pred>, Memory>
    ensures { IfOk result (λ preds. preds
        ≡ conditions_of scope.now (map (λ c. c.now) conjuncts.now)) }
{
    let mut found = Vec::new(alloc);
    for relation in 0..scope.relations() {
        let condition = condition_of(alloc, scope, relation, conjuncts)?;
        found = pushed(found, condition)?;
    }
    Ok(Listed::from_vec(found))
}

// The condition of the relation of this number.
#[tactic(auto, unfolding(crate::specs::Binding::condition_of))]
fn condition_of(
    alloc: Global,
    scope: &Scope,
    relation: u32,
    conjuncts: &[&Cond],
) -> Result<Pred, Memory>
    ensures { IfOk result (λ p. p ≡ condition_of scope.now (map (λ c. c.now) conjuncts.now)
        relation) }
{
    let mut all = Vec::new(alloc);
    for conjunct in conjuncts {
        all = push_conjunct(alloc, scope, relation, conjunct, all)?;
    }
    Ok(Pred::And(Items::from_vec(all)))
}

// What was kept, and a conjunct if it is the relation's.
fn push_conjunct(
    alloc: Global,
    scope: &Scope,
    relation: u32,
    cond: &Cond,
    into: Vec<Pred>,
) -> Result<Vec<Pred>, Memory>
    ensures { IfOk result (λ all. all.items
        ≡ into.items ++ conditions_in scope.now relation (cond.now ∷ [])) }
{
    if is_condition_of(scope, relation, cond) {
        pushed(into, translated(alloc, scope, cond)?)
    } else {
        Ok(into)
    }
}

// Whether a conjunct is of this relation, and is no written equality.
fn is_condition_of(scope: &Scope, relation: u32, cond: &Cond) -> bool
    ensures { result ≡ is_condition_of scope.now relation cond.now }
{
    let of = match first_relation(scope, cond) {
        Some(first) => first,
        None => 0,
    };
    !is_equality(cond) && of == relation
}

// A condition over the columns of its relation.
#[cycle(translated)]
fn translated(alloc: Global, scope: &Scope, cond: &Cond) -> Result<Pred, Memory>
    ensures { IfOk result (λ p. p ≡ pred_of scope.now cond.now) }
{
    match cond {
        Cond::And(members) => {
            let all = all_translated(alloc, scope, members.as_slice())?;
            Ok(Pred::And(Items::from_vec(all)))
        }
        Cond::Or(members) => {
            let any = all_translated(alloc, scope, members.as_slice())?;
            Ok(Pred::Or(Items::from_vec(any)))
        }
        Cond::Not { at: _, inner } => {
            let pred = translated(alloc, scope, inner.get())?;
            negated_if(alloc, true, pred)
        }
        Cond::Compare {
            at: _,
            op,
            left,
            right,
        } => compare(alloc, scope, *op, left, right),
        Cond::Between {
            at: _,
            negated,
            operand,
            low,
            high,
        } => between(alloc, scope, *negated, operand, low, high),
        Cond::InList {
            at: _,
            negated,
            operand,
            values,
        } => in_list(alloc, scope, *negated, operand, values.as_slice()),
        Cond::Like {
            at: _,
            negated,
            operand,
            pattern,
        } => like(alloc, scope, *negated, operand, pattern),
    }
}

#[cycle(translated)]
fn all_translated(alloc: Global, scope: &Scope, conds: &[Cond]) -> Result<Vec<Pred>, Memory>
    ensures { IfOk result (λ all. all.items ≡ map (pred_of scope.now) conds.now) }
{
    let mut all = Vec::new(alloc);
    for cond in conds {
        let pred = translated(alloc, scope, cond)?;
        all = pushed(all, pred)?;
    }
    Ok(all)
}

fn compare(
    alloc: Global,
    scope: &Scope,
    op: Comparison,
    left: &Expr,
    right: &Expr,
) -> Result<Pred, Memory>
    ensures { IfOk result (λ p. p ≡ pred.Compare op (operand_of scope.now left.now)
        (operand_of scope.now right.now)) }
{
    Ok(Pred::Compare {
        op,
        left: operand(alloc, scope, left)?,
        right: operand(alloc, scope, right)?,
    })
}

fn between(
    alloc: Global,
    scope: &Scope,
    negated: bool,
    operand: &Expr,
    low: &Expr,
    high: &Expr,
) -> Result<Pred, Memory>
    ensures { IfOk result (λ p. p ≡ negated_if negated
        (between_of scope.now operand.now low.now high.now)) }
{
    let least = compare(alloc, scope, Comparison::Ge, operand, low)?;
    let most = compare(alloc, scope, Comparison::Le, operand, high)?;
    let first = pushed(Vec::new(alloc), least)?;
    let both = pushed(first, most)?;
    negated_if(alloc, negated, Pred::And(Items::from_vec(both)))
}

fn in_list(
    alloc: Global,
    scope: &Scope,
    negated: bool,
    operand: &Expr,
    values: &[Value],
) -> Result<Pred, Memory>
    ensures { IfOk result (λ p. p ≡ negated_if negated
        (is_in (operand_of scope.now operand.now) values.now)) }
{
    let mut any = Vec::new(alloc);
    for value in values {
        let equality = equals(alloc, scope, operand, value)?;
        any = pushed(any, equality)?;
    }
    negated_if(alloc, negated, Pred::Or(Items::from_vec(any)))
}

// An operand is equal to a value.
fn equals(alloc: Global, scope: &Scope, left: &Expr, value: &Value) -> Result<Pred, Memory>
    ensures { IfOk result (λ p. p ≡ pred.Compare op.Eq (operand_of scope.now left.now)
        (operand.Literal value.now)) }
{
    Ok(Pred::Compare {
        op: Comparison::Eq,
        left: operand(alloc, scope, left)?,
        right: Operand::Literal(copy_of(alloc, value)?),
    })
}

fn like(
    alloc: Global,
    scope: &Scope,
    negated: bool,
    left: &Expr,
    pattern: &Str,
) -> Result<Pred, Memory>
    ensures { IfOk result (λ p. p ≡ negated_if negated
        (pred.Like (operand_of scope.now left.now) pattern.now)) }
{
    let like = Pred::Like {
        left: operand(alloc, scope, left)?,
        pattern: pattern.copy(alloc)?,
    };
    negated_if(alloc, negated, like)
}

// An operand over the columns of its relation.
#[tactic(auto, unfolding(crate::specs::Binding::operand_of))]
fn operand(alloc: Global, scope: &Scope, expr: &Expr) -> Result<Operand, Memory>
    ensures { IfOk result (λ o. o ≡ operand_of scope.now expr.now) }
{
    match expr {
        Expr::Column(name) => Ok(Operand::Column(resolved_place(scope, name))),
        Expr::Literal { at: _, value } => Ok(Operand::Literal(copy_of(alloc, value)?)),
    }
}

// The place of the column that a reference resolves to; 0 where it resolves to none.
fn resolved_place(scope: &Scope, name: &ColumnName) -> u32
    ensures { result ≡ resolved_place (found (resolve scope.now name.now)) }
{
    match scope.resolve(name) {
        Ok(column) => column.column,
        Err(_) => 0,
    }
}

// The condition, or its negation.
fn negated_if(alloc: Global, negated: bool, pred: Pred) -> Result<Pred, Memory>
    ensures { IfOk result (λ p. p ≡ negated_if negated pred) }
{
    if !negated {
        return Ok(pred);
    }
    Ok(Pred::Not(Boxed::new(alloc, pred)?))
}

// The conditions and one more.
fn pushed(conditions: Vec<Pred>, pred: Pred) -> Result<Vec<Pred>, Memory>
    ensures { IfOk result (λ all. all.items ≡ conditions.items ++ pred ∷ []) }
{
    let mut all = conditions;
    all.push(pred)?;
    Ok(all)
}

// The same value once more.
fn copy_of(alloc: Global, value: &Value) -> Result<Value, Memory>
    ensures { IfOk result (λ v. v ≡ value.now) }
{
    Ok(match value {
        Value::Int(number) => Value::Int(*number),
        Value::Text(text) => Value::Text(text.copy(alloc)?),
    })
}
