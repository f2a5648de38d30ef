// What the course of a command says of its outcome.
ghost use Rattle.std.specs.Prelude.{◌≡◌, ℕ, List, Option, IsSome};
ghost use Rattle.rpt_cli.specs.Course.{Reply, Course as Steps, IsOutcome};
ghost use Rattle.rpt_cli.specs.Command.{course};

use column_classes::has_variables;
use largest_root::has_tree;
use rpt_engine::has_plan;
use safe_subjoin::has_first_unsafe;
use sql_grammar::{has_a_reading, has_one_reading};
use sql_lex::tokens_are_read;

/// The theorem that there is an outcome; the call does nothing. Over files that tell their contents, the course of all
/// words leads to one: the text or the refusal that is due, so that no clause on the outcome speaks of nothing.
pub fn has_outcome()
    ensures there { (told : List ℕ → Option (List ℕ)) (words : List (List ℕ))
        → ((name : List ℕ) → IsSome (told name)) → (reply : Reply) × IsOutcome told (course words) reply }
{
    tokens_are_read();
    has_a_reading();
    has_one_reading();
    has_variables();
    has_tree();
    has_first_unsafe();
    has_plan();
}

/// The theorem that there is no second outcome; the call does nothing. Whatever the files tell, any course has one at most.
pub fn has_one_outcome()
    ensures one { (told : List ℕ → Option (List ℕ)) (course : Steps) (a b : Reply)
        → IsOutcome told course a → IsOutcome told course b → a ≡ b }
{
    tokens_are_read();
    has_a_reading();
    has_one_reading();
    has_variables();
    has_tree();
    has_first_unsafe();
    has_plan();
}
