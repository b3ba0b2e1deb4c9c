// Signatures of components.
ghost use Rattle.std.specs.Prelude.{◌≡◌, [], map, bytes_eq, IfOk, IfErr};
ghost use Rattle.std.specs.Option.{option_copied};
ghost use Rattle.tera_syntax_tree.specs.Prelude.{has_fit_parameters, is_among, parameter_of, signature_of, written_option};
ghost use Rattle.tera_syntax_tokens.specs.Prelude.{left, Takes, input};
ghost use Rattle.tera_syntax_tokens.specs.declared.refusal.Refusal.TheVariants.{OutOfMemory};
ghost use Rattle.tera_syntax_expressions.specs.Parameters as spec;
ghost use Rattle.tera_syntax_expressions.specs.Parts.{parameters_of, signature_names};

use crate::headings::name;
use crate::literals::written_value;
use std::alloc::Global;
use std::collections::BTreeSet;
use tera_syntax_tokens::refusal::{Reason, Refusal};
use tera_syntax_tokens::token::Kind;
use tera_syntax_tokens::tokens::{Tokens, is_word};
use tera_syntax_tree::{ArgumentType, Literal, Parameter, Signature};

/// Up to so many parameters are compared with one another, which takes less than to build a tree of their names.
const FEW_PARAMETERS: usize = 16;

/// What reading parameters gives: each, and the name of what takes all other arguments.
type Parameters<'s> = Result<(Vec<Parameter<'s>>, Option<&'s str>), Refusal>;

/// What reading one of them gives.
type OneParameter<'s> = Result<Parameter<'s>, Refusal>;

/// A component's name and its parameters in parentheses, with defaults no deeper than `limit`.
#[tactic(auto, unfolding(crate::specs::Parameters::signature, crate::specs::Parameters::signature_from))]
pub fn signature<'s>(
    alloc: Global,
    tokens: &mut Tokens<'_, 's>,
    limit: usize,
) -> Result<Signature<'s>, Refusal>
    ensures { Takes signature_of (spec.signature limit (input tokens.old)) result tokens.new }
{
    if !is_word(tokens.kind()) {
        return Err(tokens.refuse(Reason::Expected(Kind::Name)));
    }
    let name = tokens.text();
    tokens.take();
    tokens.expect(Kind::LeftParenthesis)?;
    let (parameters, rest) = all_parameters(alloc, tokens, limit)?;
    tokens.expect(Kind::RightParenthesis)?;
    let signature = Signature {
        name,
        parameters,
        rest,
    };
    if !is_fit(alloc, &signature)? {
        return Err(tokens.refuse(Reason::ParameterTwice));
    }
    Ok(signature)
}

/// What stands in the parentheses.
#[tactic(auto, unfolding(crate::specs::Parameters::all_parameters))]
fn all_parameters<'s>(alloc: Global, tokens: &mut Tokens<'_, 's>, limit: usize) -> Parameters<'s>
    ensures { let meant = spec.all_parameters limit (input tokens.old) in
        Takes parameters_of meant result tokens.new }
{
    if tokens.kind() == Kind::RightParenthesis {
        return Ok((Vec::new(alloc), None));
    }
    parameters(alloc, tokens, limit)
}

/// Parameters with commas between, and last at will the name of what takes all other arguments.
#[tactic(auto, unfolding(crate::specs::Parameters::parameters_from))]
fn parameters<'s>(alloc: Global, tokens: &mut Tokens<'_, 's>, limit: usize) -> Parameters<'s>
    ensures { let i = input tokens.old in
        Takes parameters_of (spec.parameters_from limit (left i) [] i) result tokens.new }
{
    let mut found = Vec::new(alloc);
    for _round in 0..tokens.count_left() {
        if tokens.kind() == Kind::Spread {
            tokens.take();
            match name(tokens) {
                Ok(rest) => return Ok((found, Some(rest))),
                Err(refusal) => return Err(refusal),
            }
        }
        let parameter = match parameter(alloc, tokens, limit) {
            Ok(parameter) => parameter,
            Err(refusal) => return Err(refusal),
        };
        found.push(parameter)?;
        if tokens.kind() != Kind::Comma {
            return Ok((found, None));
        }
        tokens.take();
    }
    Err(tokens.refuse(Reason::Expected(Kind::Name)))
}

/// `name: Type = default`, or the same with `@` before it.
#[tactic(auto, unfolding(crate::specs::Parameters::parameter))]
fn parameter<'s>(alloc: Global, tokens: &mut Tokens<'_, 's>, limit: usize) -> OneParameter<'s>
    ensures { Takes parameter_of (spec.parameter limit (input tokens.old)) result tokens.new }
{
    if tokens.kind() == Kind::At {
        tokens.take();
        parameter_by_name(alloc, tokens, limit, true)
    } else {
        parameter_by_name(alloc, tokens, limit, false)
    }
}

/// A parameter, from its name on.
#[tactic(auto, unfolding(crate::specs::Parameters::parameter_by_name, crate::specs::Parameters::named_parameter))]
fn parameter_by_name<'s>(
    alloc: Global,
    tokens: &mut Tokens<'_, 's>,
    limit: usize,
    is_implicit: bool,
) -> OneParameter<'s>
    ensures { let meant = spec.parameter_by_name limit is_implicit (input tokens.old) in
        Takes parameter_of meant result tokens.new }
{
    let name = name(tokens)?;
    let of_type = parameter_type(tokens)?;
    let default = default_value(alloc, tokens, limit)?;
    Ok(Parameter {
        name,
        is_implicit,
        of_type,
        default,
    })
}

/// The type of a parameter, if it is written.
#[tactic(auto, unfolding(crate::specs::Parameters::parameter_type))]
fn parameter_type(tokens: &mut Tokens<'_, '_>) -> Result<Option<ArgumentType>, Refusal>
    ensures { Takes (λ t. t) (spec.parameter_type (input tokens.old)) result tokens.new }
{
    if tokens.kind() != Kind::Colon {
        return Ok(None);
    }
    tokens.take();
    if !is_word(tokens.kind()) {
        return Err(tokens.refuse(Reason::Expected(Kind::Name)));
    }
    match type_of(tokens.text()) {
        Some(of_type) => {
            tokens.take();
            Ok(Some(of_type))
        }
        None => Err(tokens.refuse(Reason::NoType)),
    }
}

/// The type of this name, whose first letter may be small.
fn type_of(word: &str) -> Option<ArgumentType>
    ensures { result ≡ spec.type_of word.now }
{
    match word {
        "String" | "string" => Some(ArgumentType::String),
        "Bool" | "bool" => Some(ArgumentType::Bool),
        "Integer" | "integer" => Some(ArgumentType::Integer),
        "Number" | "number" => Some(ArgumentType::Number),
        "Array" | "array" => Some(ArgumentType::Array),
        "Map" | "map" => Some(ArgumentType::Map),
        _ => None,
    }
}

/// The default of a parameter, if it is written.
#[tactic(auto, unfolding(crate::specs::Parameters::default_value))]
fn default_value<'s>(
    alloc: Global,
    tokens: &mut Tokens<'_, 's>,
    limit: usize,
) -> Result<Option<Literal<'s>>, Refusal>
    ensures { Takes written_option (spec.default_value limit (input tokens.old)) result tokens.new }
{
    if tokens.kind() != Kind::Assign {
        return Ok(None);
    }
    tokens.take();
    let value = written_value(alloc, tokens, limit)?;
    Ok(Some(value))
}

/// Whether no two parameters have one name, and none is called `body`.
fn is_fit(alloc: Global, signature: &Signature<'_>) -> Result<bool, Refusal>
    ensures ok { IfOk result (λ fit. fit ≡ has_fit_parameters (signature_of signature.now)) }
    ensures lacks { IfErr result (λ refusal. refusal ≡ OutOfMemory) }
{
    if signature.parameters.len() > FEW_PARAMETERS {
        return are_many_fit(alloc, signature);
    }
    Ok(are_few_fit(signature))
}

/// The same where they are few: each is compared with those behind it.
fn are_few_fit(signature: &Signature<'_>) -> bool
    ensures { result ≡ has_fit_parameters (signature_of signature.now) }
{
    let parameters = signature.parameters.as_slice();
    if is_taken("body", parameters, signature.rest) {
        return false;
    }
    for at in 0..parameters.len() {
        if is_taken(parameters[at].name, &parameters[at + 1..], signature.rest) {
            return false;
        }
    }
    true
}

/// Whether one of the parameters has this name, or what takes all other arguments.
fn is_taken(name: &str, parameters: &[Parameter<'_>], rest: Option<&str>) -> bool
    ensures { let names = signature_names parameters.now (option_copied rest.entry) in
        result ≡ is_among name.now names }
{
    for parameter in parameters {
        if is_same(name, parameter.name) {
            return true;
        }
    }
    match rest {
        Some(rest) => is_same(name, rest),
        None => false,
    }
}

/// Whether the names are the same. Their order is told in fewer steps than `==` takes where they are equally long.
#[inline(always)]
pub fn is_same(name: &str, other: &str) -> bool
    ensures { result ≡ bytes_eq name.now other.now }
{
    name.as_bytes().cmp(&other.as_bytes()).is_eq()
}

/// The same where they may be many: each is looked up among those before it.
fn are_many_fit(alloc: Global, signature: &Signature<'_>) -> Result<bool, Refusal>
    ensures ok { IfOk result (λ fit. fit ≡ has_fit_parameters (signature_of signature.now)) }
    ensures lacks { IfErr result (λ refusal. refusal ≡ OutOfMemory) }
{
    let mut seen: BTreeSet<&str> = BTreeSet::new(alloc);
    seen.insert("body")?;
    for parameter in signature.parameters.iter() {
        if !seen.insert(parameter.name)? {
            return Ok(false);
        }
    }
    match signature.rest {
        Some(rest) => Ok(seen.insert(rest)?),
        None => Ok(true),
    }
}
