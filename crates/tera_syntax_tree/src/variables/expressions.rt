// The names that expressions look up. They are found from the right to the left.
// The loops over rows want to know that nothing is left behind the last part, which a lemma of `std` says.
#![tactic(auto, using(std::proofs::lemmas::List::drop_all))]

ghost use Rattle.tera_syntax_tree.specs.Prelude.{expr_of, optional_of, items_of, entries_of, arguments_of, filters_of};
ghost use Rattle.tera_syntax_tree.specs.Free.{expr_free, optional_free, items_free, entries_free, arguments_free, filters_free};
ghost use Rattle.tera_syntax_tree.specs.Sets.{Adds, applied_free, collected_free, bounds_free};

use crate::expression::{Applied, Argument, Bounds, Collected, EntryExpression, Expression, Item};
use crate::node::SectionFilter;
use crate::variables::sets::{NameSet, add, join, remove_loop_names};
use std::alloc::{AllocError, Global};
use std::collections::BTreeSet;

// Puts those of what each part of a row holds among those that were found.
macro_rules! add_each {
    ($alloc:ident, $parts:ident, $found:ident) => {{
        for part in $parts {
            add_expression($alloc, &part.value, $found)?;
        }
        Ok(())
    }};
}

/// Puts those of an expression among those that were found.
#[cycle(expressions)]
pub fn add_expression(
    alloc: Global,
    expression: &Expression,
    found: &mut NameSet,
) -> Result<(), AllocError>
    ensures { Adds result (expr_free (expr_of expression.now)) found.old found.new }
{
    match expression {
        Expression::None { .. }
        | Expression::Bool { .. }
        | Expression::Int { .. }
        | Expression::Text { .. } => Ok(()),
        Expression::Name { name, .. } => add(alloc, name, found),
        Expression::Attribute { target, .. } => add_expression(alloc, target, found),
        Expression::Index { parts, .. } => {
            add_expression(alloc, &parts.index, found)?;
            add_expression(alloc, &parts.target, found)
        }
        Expression::Slice { sliced, .. } => {
            add_bounds(alloc, &sliced.bounds, found)?;
            add_expression(alloc, &sliced.target, found)
        }
        Expression::Not { operand, .. } | Expression::Negate { operand, .. } => {
            add_expression(alloc, operand, found)
        }
        Expression::Binary { operands, .. }
        | Expression::And { operands, .. }
        | Expression::Or { operands, .. } => {
            add_expression(alloc, &operands.right, found)?;
            add_expression(alloc, &operands.left, found)
        }
        Expression::Ternary { choice, .. } => {
            add_expression(alloc, &choice.other, found)?;
            add_expression(alloc, &choice.condition, found)?;
            add_expression(alloc, &choice.value, found)
        }
        Expression::Array { items, .. } => add_items(alloc, items.as_slice(), found),
        Expression::Map { entries, .. } => add_entries(alloc, entries.as_slice(), found),
        Expression::Comprehension { collected, .. } => add_collected(alloc, collected, found),
        Expression::Super { arguments, .. } => add_arguments(alloc, arguments.as_slice(), found),
        Expression::Filter { applied, .. } | Expression::Test { applied, .. } => {
            add_applied(alloc, applied, found)
        }
        Expression::Call { called, .. } => add_arguments(alloc, called.arguments.as_slice(), found),
        Expression::Component { tag, .. } => add_entries(alloc, tag.attributes.as_slice(), found),
    }
}

// Puts those of a comprehension among those that were found.
#[cycle(expressions)]
#[inline(never)]
fn add_collected(
    alloc: Global,
    collected: &Collected,
    found: &mut NameSet,
) -> Result<(), AllocError>
    ensures { Adds result (collected_free collected.now) found.old found.new }
{
    add_expression(alloc, &collected.heading.target, found)?;
    let mut inside = BTreeSet::new(alloc);
    add_optional(alloc, &collected.condition, &mut inside)?;
    add_expression(alloc, &collected.value, &mut inside)?;
    remove_loop_names(&collected.heading, &mut inside);
    join(inside, found)
}

// Puts those of a filter or a test among those that were found.
#[cycle(expressions)]
fn add_applied(alloc: Global, applied: &Applied, found: &mut NameSet) -> Result<(), AllocError>
    ensures { Adds result (applied_free applied.now) found.old found.new }
{
    add_arguments(alloc, applied.arguments.as_slice(), found)?;
    add_expression(alloc, &applied.value, found)
}

// Puts those of the bounds of a slice among those that were found.
#[cycle(expressions)]
fn add_bounds(alloc: Global, bounds: &Bounds, found: &mut NameSet) -> Result<(), AllocError>
    ensures { Adds result (bounds_free bounds.now) found.old found.new }
{
    add_optional(alloc, &bounds.step, found)?;
    add_optional(alloc, &bounds.end, found)?;
    add_optional(alloc, &bounds.start, found)
}

#[cycle(expressions)]
fn add_optional(
    alloc: Global,
    expression: &Option<Box<Expression>>,
    found: &mut NameSet,
) -> Result<(), AllocError>
    ensures { Adds result (optional_free (optional_of expression.now)) found.old found.new }
{
    match expression {
        None => Ok(()),
        Some(expression) => add_expression(alloc, expression, found),
    }
}

#[cycle(expressions)]
fn add_items(alloc: Global, items: &[Item], found: &mut NameSet) -> Result<(), AllocError>
    ensures { Adds result (items_free (items_of items.now)) found.old found.new }
{
    add_each!(alloc, items, found)
}

/// Puts those of entries among those that were found.
#[cycle(expressions)]
pub fn add_entries(
    alloc: Global,
    entries: &[EntryExpression],
    found: &mut NameSet,
) -> Result<(), AllocError>
    ensures { Adds result (entries_free (entries_of entries.now)) found.old found.new }
{
    add_each!(alloc, entries, found)
}

#[cycle(expressions)]
fn add_arguments(
    alloc: Global,
    arguments: &[Argument],
    found: &mut NameSet,
) -> Result<(), AllocError>
    ensures { Adds result (arguments_free (arguments_of arguments.now)) found.old found.new }
{
    add_each!(alloc, arguments, found)
}

/// Puts those of filters among those that were found.
pub fn add_filters(
    alloc: Global,
    filters: &[SectionFilter],
    found: &mut NameSet,
) -> Result<(), AllocError>
    ensures { Adds result (filters_free (filters_of filters.now)) found.old found.new }
{
    for filter in filters {
        add_arguments(alloc, filter.arguments.as_slice(), found)?;
    }
    Ok(())
}
