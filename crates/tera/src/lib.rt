//! Tera's template engine: compile, link, render.
#![tactic(auto)]

mod budgets;
pub mod components;
pub mod engine;
pub mod laws;
mod refusals;
pub mod registering;
mod rendering;
mod sources;
pub mod templates;
mod texts;

// The engine.
pub use engine::{Tera, TeraOver};
// Values, names and errors.
pub use tera_errors::{Place, Sources, alloc_result, place_of};
pub use tera_value_types::copy_items;
pub use tera_values::{
    ArgFromValue, Arguments, Context, Counter, Error, ErrorKind, Key, Kwargs, Map, Name, NameRef,
    ReportError, Shape, Span, StringInput, TeraResult, Value, ValueKind, WritesValues, escape_html,
    escape_xml, number,
};
// Templates as trees, and components.
pub use tera_components::{ComponentArg, ComponentDefinition, ComponentInfo};
pub use tera_syntax::parse;
pub use tera_syntax_tree::{
    Applied, Argument, ArgumentType, BinaryOperator, Block, Bounds, Captured, Choice, Collected,
    ComponentTag, DefinedComponent, Delimiters, EntryExpression, Expression, FunctionCall, Heading,
    Indexed, Item, Literal, LiteralEntry, LiteralKey, Node, Operands, OwnedKey, Parameter,
    ParserOutput, Quoted, SectionFilter, Signature, Sliced,
};
// What a template calls, and the state that it sees.
pub use tera_built_ins::{BuiltInFilter, BuiltInFunction, BuiltInTest, EscapeFn, Escaping};
pub use tera_operators::{Entries, LentOperand, Operand};
pub use tera_state::{
    BuiltInKind, CallerObjects, Filter, ForLoop, ForLoopIterator, FoundValue, Function, HtmlEscape,
    Implicits, ObjectCall, ObjectTable, Objects, ObjectsOver, OwnFilters, Stack, State, StateOver,
    Stored, StoredFilter, StoredFunction, StoredTest, Test, UnboxedObjects, write_value,
};
// Code, templates by name, and what runs.
pub use tera_code::{
    Allowance, BlockCode, Budget, CallKind, Callee, Chunk, Comparison, Compiler, Constant,
    Instruction, Keys, LentInstruction, LentName, LentText, Names, Spreads, Steps, Tally, Untold,
    compile_body,
};
pub use tera_machine::{
    BlockRequest, ComponentRequest, Configuration, EndedBlocks, IncludeRequest, LoopPlace,
    Numbered, OpenBlock, OpenBodies, OpenThings, RenderedText, VirtualMachine, WantedBlock,
};
pub use tera_registry::{
    Body, Code, Component, Defined, Definer, Definers, FoundTemplate, Template, Templates,
    TextTable,
};
