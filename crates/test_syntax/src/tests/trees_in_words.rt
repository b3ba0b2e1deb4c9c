//! Trees in words, for tests: each node with its parts and its span.
use std::alloc::{AllocError, Global};
use tera_errors::Span;
use tera_syntax::{
    Argument, Block, DefinedComponent, EntryExpression, Expression, Heading, Literal, LiteralKey,
    Node, SectionFilter, Signature,
};

/// Words that are written one behind another.
#[derive(Drop)]
pub struct Shown {
    alloc: Global,
    text: String,
    /// Whether memory was wanting, so that words are missing.
    is_short: bool,
}

impl Shown {
    pub fn new(alloc: Global) -> Shown {
        Shown {
            alloc,
            text: String::new(alloc),
            is_short: false,
        }
    }

    pub fn is(&self, want: &str) -> bool {
        !self.is_short && self.text.as_str() == want
    }

    fn put(&mut self, text: &str) {
        if self.text.push_str(text).is_err() {
            self.is_short = true;
        }
    }

    fn put_made(&mut self, made: Result<String, AllocError>) {
        match made {
            Ok(text) => self.put(text.as_str()),
            Err(_) => self.is_short = true,
        }
    }

    /// What a text extends.
    pub fn parent(&mut self, name: &str) {
        self.put_made(format!(in self.alloc; "<{name}>"));
    }

    fn put_span(&mut self, span: Span) {
        let Span { start, end } = span;
        self.put_made(format!(in self.alloc; " {start}-{end})"));
    }

    /// What a leaf or an operator is.
    fn put_value(&mut self, expression: &Expression) {
        match expression {
            Expression::Bool { value, .. } => self.put_made(format!(in self.alloc; "{value}")),
            Expression::Int { value, .. } => self.put_made(format!(in self.alloc; "{value}")),
            Expression::Text { text, .. } => {
                let text = text.as_str();
                self.put_made(format!(in self.alloc; "'{text}'"));
            }
            Expression::Name { name, .. } => self.put(name),
            Expression::None { .. } => self.put("none"),
            Expression::Binary { operator, .. } => {
                self.put_made(format!(in self.alloc; "{operator:?}"));
            }
            Expression::Not { .. } => self.put("not"),
            Expression::Negate { .. } => self.put("-"),
            Expression::And { .. } => self.put("and"),
            Expression::Or { .. } => self.put("or"),
            _ => {}
        }
    }

    /// What stands before the value of an argument or an attribute.
    fn put_named(&mut self, name: &str) {
        self.put(" ");
        self.put(name);
        self.put("=");
    }

    #[cycle(expression)]
    fn put_bound(&mut self, bound: &Option<Box<Expression>>) {
        match bound {
            Some(part) => self.expression(part),
            None => self.put("_"),
        }
    }

    /// What a loop calls its items and what it goes over.
    #[cycle(expression)]
    fn heading(&mut self, heading: &Heading) {
        if let Some(key) = &heading.key {
            self.put(key);
            self.put(", ");
        }
        self.put(heading.name);
        self.put(" in ");
        self.expression(&heading.target);
    }

    /// Arguments, each with its name.
    #[cycle(expression)]
    fn arguments(&mut self, arguments: &[Argument]) {
        for argument in arguments {
            self.put_named(argument.name);
            self.expression(&argument.value);
        }
    }

    /// Attributes of a component, each with its name, or the dots of a map that is spread.
    #[cycle(expression)]
    fn attributes(&mut self, attributes: &[EntryExpression]) {
        for attribute in attributes {
            match &attribute.key {
                Some(LiteralKey::Text(name)) => self.put_named(name.as_str()),
                _ => self.put(" ..."),
            }
            self.expression(&attribute.value);
        }
    }

    /// An expression: its word, its parts and its span.
    #[cycle(expression)]
    pub fn expression(&mut self, expression: &Expression) {
        self.put("(");
        self.put(word(expression));
        self.put_value(expression);
        match expression {
            Expression::Not { operand, .. } | Expression::Negate { operand, .. } => {
                self.expression(operand);
            }
            Expression::Binary { operands, .. }
            | Expression::And { operands, .. }
            | Expression::Or { operands, .. } => {
                self.expression(&operands.left);
                self.expression(&operands.right);
            }
            Expression::Attribute { target, name, .. } => {
                self.expression(target);
                self.put(name);
            }
            Expression::Index { parts, .. } => {
                self.expression(&parts.target);
                self.expression(&parts.index);
            }
            Expression::Slice { sliced, .. } => {
                self.expression(&sliced.target);
                self.put_bound(&sliced.bounds.start);
                self.put_bound(&sliced.bounds.end);
                self.put_bound(&sliced.bounds.step);
            }
            Expression::Ternary { choice, .. } => {
                self.expression(&choice.value);
                self.expression(&choice.condition);
                self.expression(&choice.other);
            }
            Expression::Array { items, .. } => {
                for item in items {
                    self.put(if item.is_spread { "..." } else { "" });
                    self.expression(&item.value);
                }
            }
            Expression::Map { entries, .. } => {
                for entry in entries {
                    self.put(if entry.key.is_some() { ":" } else { "..." });
                    self.expression(&entry.value);
                }
            }
            Expression::Comprehension { collected, .. } => {
                self.expression(&collected.value);
                self.put(" for ");
                self.heading(&collected.heading);
                self.put(" if ");
                self.put_bound(&collected.condition);
            }
            Expression::Super { arguments, .. } => self.arguments(arguments),
            Expression::Filter { applied, .. } | Expression::Test { applied, .. } => {
                self.expression(&applied.value);
                self.put(applied.name);
                self.arguments(&applied.arguments);
            }
            Expression::Call { called, .. } => {
                self.put(called.name);
                self.arguments(&called.arguments);
            }
            Expression::Component { tag, .. } => {
                self.put(tag.name);
                self.attributes(&tag.attributes);
            }
            _ => {}
        }
        self.put_span(span_of(expression));
    }

    /// What begins a statement that binds this name.
    fn put_set(&mut self, name: &str, is_global: bool) {
        self.put(if is_global { "(set_global " } else { "(set " });
        self.put(name);
    }

    /// Filters of a body, each with its arguments and its span.
    fn filters(&mut self, filters: &[SectionFilter]) {
        for filter in filters {
            self.put("(|");
            self.put(filter.name);
            self.arguments(&filter.arguments);
            self.put_span(filter.span);
        }
    }

    fn put_key(&mut self, key: &LiteralKey) {
        match key {
            LiteralKey::Bool(value) => self.put_made(format!(in self.alloc; "{value}")),
            LiteralKey::Int(value) => self.put_made(format!(in self.alloc; "{value}")),
            LiteralKey::Text(text) => {
                let text = text.as_str();
                self.put_made(format!(in self.alloc; "'{text}'"));
            }
        }
    }

    /// A value that is written out, with a comma behind each part.
    fn literal(&mut self, value: &Literal) {
        match value {
            Literal::None => self.put("none"),
            Literal::Bool(value) => self.put_made(format!(in self.alloc; "{value}")),
            Literal::Int(value) => self.put_made(format!(in self.alloc; "{value}")),
            Literal::Text(text) => {
                let text = text.as_str();
                self.put_made(format!(in self.alloc; "'{text}'"));
            }
            Literal::Array(items) => {
                self.put("[");
                for item in items {
                    self.literal(item);
                    self.put(",");
                }
                self.put("]");
            }
            Literal::Map(entries) => {
                self.put("{");
                for entry in entries {
                    self.put_key(&entry.key);
                    self.put(":");
                    self.literal(&entry.value);
                    self.put(",");
                }
                self.put("}");
            }
        }
    }

    /// A component's name and its parameters.
    fn signature(&mut self, signature: &Signature) {
        self.put(signature.name);
        self.put("(");
        let mut between = "";
        for parameter in &signature.parameters {
            self.put(between);
            between = ",";
            self.put(if parameter.is_implicit { "@" } else { "" });
            self.put(parameter.name);
            if let Some(of_type) = &parameter.of_type {
                self.put_made(format!(in self.alloc; ": {of_type:?}"));
            }
            if let Some(value) = &parameter.default {
                self.put("=");
                self.literal(value);
            }
        }
        if let Some(rest) = &signature.rest {
            self.put(between);
            self.put("...");
            self.put(rest);
        }
        self.put(")");
    }

    /// Nodes, one behind another.
    pub fn nodes(&mut self, nodes: &[Node]) {
        for node in nodes {
            match node {
                Node::Content { text, span } => {
                    self.put("(");
                    self.put(text);
                    self.put_span(*span);
                }
                Node::Print { value } => self.expression(value),
                Node::PrintName { name, span } => {
                    self.put("(");
                    self.put(name);
                    self.put_span(*span);
                }
                Node::If {
                    condition,
                    body,
                    other,
                } => {
                    self.put("(if ");
                    self.expression(condition);
                    self.put(" then ");
                    self.nodes(body);
                    self.put(" else ");
                    self.nodes(other);
                    self.put(")");
                }
                Node::Set {
                    name,
                    value,
                    is_global,
                } => {
                    self.put_set(name, *is_global);
                    self.expression(value);
                    self.put(")");
                }
                Node::Capture {
                    is_global,
                    captured,
                    body,
                } => {
                    self.put_set(captured.name, *is_global);
                    self.filters(&captured.filters);
                    self.put(" to ");
                    self.nodes(body);
                    self.put(")");
                }
                Node::FilterSection { filters, body } => {
                    self.put("(filter");
                    self.filters(filters);
                    self.put(" of ");
                    self.nodes(body);
                    self.put(")");
                }
                Node::For {
                    heading,
                    body,
                    other,
                } => {
                    self.put("(for ");
                    self.heading(heading);
                    self.put(" do ");
                    self.nodes(body);
                    self.put(" else ");
                    self.nodes(other);
                    self.put(")");
                }
                Node::Block(Block { name, body, span }) => {
                    self.put("(block ");
                    self.put(name);
                    self.put(" of ");
                    self.nodes(body);
                    self.put_span(*span);
                }
                Node::Include { name, span } => {
                    self.put("(include ");
                    self.put(name.as_str());
                    self.put_span(*span);
                }
                Node::ComponentCall { tag, body, span } => {
                    self.put("(<");
                    self.put(tag.name);
                    self.attributes(&tag.attributes);
                    self.put(" of ");
                    self.nodes(body);
                    self.put_span(*span);
                }
                Node::Break => self.put("(break)"),
                Node::Continue => self.put("(continue)"),
            }
        }
    }

    /// Components that are defined, one behind another.
    pub fn definitions(&mut self, definitions: &[DefinedComponent]) {
        for definition in definitions {
            self.put("(component ");
            self.signature(&definition.signature);
            self.put(" of ");
            self.nodes(&definition.body);
            self.put(")");
        }
    }
}

fn span_of(expression: &Expression) -> Span {
    match expression {
        Expression::None { span }
        | Expression::Bool { span, .. }
        | Expression::Int { span, .. }
        | Expression::Text { span, .. }
        | Expression::Name { span, .. }
        | Expression::Attribute { span, .. }
        | Expression::Index { span, .. }
        | Expression::Slice { span, .. }
        | Expression::Not { span, .. }
        | Expression::Negate { span, .. }
        | Expression::Binary { span, .. }
        | Expression::And { span, .. }
        | Expression::Or { span, .. }
        | Expression::Ternary { span, .. }
        | Expression::Array { span, .. }
        | Expression::Map { span, .. }
        | Expression::Comprehension { span, .. }
        | Expression::Super { span, .. }
        | Expression::Filter { span, .. }
        | Expression::Test { span, .. }
        | Expression::Call { span, .. }
        | Expression::Component { span, .. } => *span
    }
}

/// What begins any other form.
fn word(expression: &Expression) -> &'static str {
    match expression {
        Expression::Attribute { optional, .. } => if *optional { "?." } else { "." },
        Expression::Index { optional, .. } => if *optional { "?[]" } else { "[]" },
        Expression::Slice { optional, .. } => if *optional { "?[:]" } else { "[:]" },
        Expression::Ternary { .. } => "if",
        Expression::Array { .. } => "array",
        Expression::Map { .. } => "map",
        Expression::Comprehension { .. } => "each",
        Expression::Super { .. } => "super",
        Expression::Filter { .. } => "|",
        Expression::Test { .. } => "is",
        Expression::Call { .. } => "call ",
        Expression::Component { .. } => "<",
        _ => "",
    }
}
