// Trees, components, loops and code.
use super::is_true;
use std::alloc::Global;
use tera::{
    Block, Chunk, Compiler, Delimiters, Expression, ForLoop, ForLoopIterator, Instruction, Name,
    Node, ParserOutput, Steps, Template, TeraResult, Value, parse,
};

/// Whether the loop goes over three items.
fn goes_over_three(opened: &ForLoop) -> bool {
    let mut items: ForLoopIterator<'_> = opened.items();
    items.next().is_some()
        && items.next().is_some()
        && items.next().is_some()
        && items.next().is_none()
}

fn is_looped(alloc: Global) -> TeraResult<bool> {
    let name = Name::new(alloc, "c")?;
    let letters = ForLoop::new(alloc, name, None, Value::string(alloc, "abc")?)?;
    let name = Name::new(alloc, "c")?;
    let none = ForLoop::new_comprehension(alloc, name, None, Value::string(alloc, "")?)?;
    match letters {
        Some(letters) => Ok(none.is_none() && goes_over_three(&letters)),
        None => Ok(false),
    }
}

#[test]
fn loops_go_over_letters(rt: HostRuntime) {
    assert!(rt; is_true(is_looped(rt.alloc())));
}

/// Whether this is the number that a template's author wrote.
fn is_one(expression: &Expression<'_>) -> bool {
    matches!(expression, Expression::Int { value: 1, .. })
}

/// Whether the block has this name and prints 1.
fn prints_one(block: &Block<'_>, name: &str) -> bool {
    match block.body.as_slice().first() {
        Some(Node::Print { value }) => block.name == name && is_one(value),
        _ => false,
    }
}

fn is_block(alloc: Global) -> TeraResult<bool> {
    let delimiters = Delimiters::standard(alloc)?;
    let output = parse(
        alloc,
        "t",
        "{% block b %}{{ 1 }}{% endblock %}",
        &delimiters,
    )?;
    match output.nodes.as_slice().first() {
        Some(Node::Block(block)) => Ok(prints_one(block, "b")),
        _ => Ok(false),
    }
}

#[test]
fn blocks_are_nodes(rt: HostRuntime) {
    assert!(rt; is_true(is_block(rt.alloc())));
}

/// Whether the code is one instruction that puts out a text.
fn puts_out(chunk: &Chunk) -> bool {
    let mut steps = Steps::new();
    match chunk.get(0, &mut steps) {
        Some(instruction) => {
            matches!(instruction.unpack(), Instruction::WriteText(_))
                && chunk.get(1, &mut steps).is_none()
        }
        None => false,
    }
}

fn is_compiled(alloc: Global, output: &ParserOutput<'_>) -> TeraResult<bool> {
    let mut compiler = Compiler::new(alloc, "t")?;
    compiler.compile(output.nodes.as_slice())?;
    let mut again = Compiler::new(alloc, "t")?;
    match output.nodes.as_slice().first() {
        Some(node) => again.compile_node(node)?,
        None => return Ok(false),
    }
    Ok(puts_out(&compiler.into_chunk()) && puts_out(&again.into_chunk()))
}

fn is_parsed(alloc: Global) -> TeraResult<bool> {
    let delimiters = Delimiters::standard(alloc)?;
    delimiters.validate(alloc)?;
    let output = parse(alloc, "t", "text", &delimiters)?;
    is_compiled(alloc, &output)
}

#[test]
fn texts_are_compiled(rt: HostRuntime) {
    assert!(rt; is_true(is_parsed(rt.alloc())));
}

/// The name of a template, where one is at hand.
pub fn name_of(template: &Template) -> &str {
    template.name.as_str()
}
