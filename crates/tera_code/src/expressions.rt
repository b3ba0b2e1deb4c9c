// Expressions.
ghost use Rattle.std.specs.Prelude.{◌≡◌, ◌∷◌, [], ◌++◌, OnOk, cond};
ghost use Rattle.tera_code.specs.declared.instruction.Instruction.TheVariants as instruction;
ghost use Rattle.tera_code.specs.Code.{expr_code, bound_code, entries_code, lengthened};
ghost use Rattle.tera_syntax_tree.specs.Prelude.{Index, Not, Negate, Binary, And, Or, Ternary, Array, Map, expr_of, optional_of, items_of, entries_of};

use crate::call_kind::CallKind;
use crate::compiler::Compiler;
use crate::constant::Constant;
use crate::instruction::Instruction;
use std::alloc::AllocError;
use tera_syntax_tree::{
    BinaryOperator, Bounds, Choice, EntryExpression, Expression, Indexed, Item, Operands,
};
use tera_values::Span;

impl Compiler {
    // Each form with parts has a function of its own, so that what one needs is not made ready for all.
    #[cycle(expressions)]
    pub(crate) fn expression(&mut self, expression: &Expression) -> Result<(), AllocError>
        ensures ok { OnOk result (self.new ≡ lengthened self.old
            (expr_code (expr_of expression.now))) }
    {
        match expression {
            Expression::None { span } => self.constant(Constant::none(), *span),
            Expression::Bool { value, span } => self.constant(Constant::from_bool(*value), *span),
            Expression::Int { value, span } => self.integer(*value, *span),
            Expression::Text { text, span } => self.text(text.as_str(), *span),
            Expression::Name { name, span } => self.load(name, *span),
            Expression::Attribute {
                optional,
                target,
                name,
                span,
            } => {
                self.expression(target)?;
                self.attribute(name, *optional, *span)
            }
            Expression::Index {
                optional,
                parts,
                span,
            } => self.index(parts, *optional, *span),
            Expression::Slice {
                optional,
                sliced,
                span,
            } => {
                self.expression(&sliced.target)?;
                self.slice(&sliced.bounds, *optional, *span)
            }
            Expression::Not { operand, .. } => self.unary_operation(operand, true),
            Expression::Negate { operand, .. } => self.unary_operation(operand, false),
            Expression::Binary {
                operator,
                operands,
                span,
            } => self.binary_operation(*operator, operands, *span),
            Expression::And { operands, .. } => self.logical_operation(operands, false),
            Expression::Or { operands, .. } => self.logical_operation(operands, true),
            Expression::Ternary { choice, .. } => self.choice(choice),
            Expression::Array { items, span } => self.array(items.as_slice(), *span),
            Expression::Map { entries, span } => self.map(entries.as_slice(), *span),
            Expression::Comprehension { collected, span } => self.comprehension(collected, *span),
            Expression::Super { arguments, span } => self.super_call(arguments.as_slice(), *span),
            Expression::Filter { applied, span } => self.application(
                CallKind::Filter,
                applied,
                *span,
            ),
            Expression::Test { applied, span } => self.application(CallKind::Test, applied, *span),
            Expression::Call { called, span } => self.function_call(called, *span),
            Expression::Component { tag, span } => self.tag(tag, *span),
        }
    }

    #[cycle(expressions)]
    #[inline(never)]
    fn index(&mut self, parts: &Indexed, optional: bool, span: Span) -> Result<(), AllocError>
        ensures ok { OnOk result (self.new ≡ lengthened self.old (expr_code
            (Index (expr_of parts.now.target) (expr_of parts.now.index) optional span))) }
    {
        self.expression(&parts.target)?;
        self.expression(&parts.index)?;
        self.emit(Instruction::LoadItem { optional, span })
    }

    #[cycle(expressions)]
    #[inline(never)]
    fn slice(&mut self, bounds: &Bounds, optional: bool, span: Span) -> Result<(), AllocError>
        ensures ok { OnOk result (self.new ≡ lengthened self.old
            (bound_code (optional_of bounds.now.start) ++ (bound_code (optional_of bounds.now.end)
            ++ (bound_code (optional_of bounds.now.step)
            ++ instruction.Slice optional span ∷ [])))) }
    {
        self.slice_bound(&bounds.start)?;
        self.slice_bound(&bounds.end)?;
        self.slice_bound(&bounds.step)?;
        self.emit(Instruction::Slice { optional, span })
    }

    // The operand, and what turns its truth value or its sign around.
    #[cycle(expressions)]
    #[inline(never)]
    fn unary_operation(&mut self, operand: &Expression, is_not: bool) -> Result<(), AllocError>
        ensures ok { (span : Span) → OnOk result (self.new ≡ lengthened self.old (expr_code
            (cond is_not (Not (expr_of operand.now) span) (Negate (expr_of operand.now) span)))) }
    {
        self.expression(operand)?;
        if is_not {
            self.emit(Instruction::Not)
        } else {
            self.emit(Instruction::Negate)
        }
    }

    #[cycle(expressions)]
    #[inline(never)]
    fn binary_operation(
        &mut self,
        operator: BinaryOperator,
        operands: &Operands,
        span: Span,
    ) -> Result<(), AllocError>
        ensures ok { OnOk result (self.new ≡ lengthened self.old (expr_code
            (Binary operator (expr_of operands.now.left) (expr_of operands.now.right) span))) }
    {
        self.expression(&operands.left)?;
        self.expression(&operands.right)?;
        self.emit(Instruction::Binary(operator, span))
    }

    // The right operand is passed by a jump where the left one decides: a truthy one of `or`, a falsy one of `and`.
    #[cycle(expressions)]
    #[inline(never)]
    fn logical_operation(&mut self, operands: &Operands, is_or: bool) -> Result<(), AllocError>
        ensures ok { (span : Span) → OnOk result (self.new ≡ lengthened self.old (expr_code
            (cond is_or (Or (expr_of operands.now.left) (expr_of operands.now.right) span)
            (And (expr_of operands.now.left) (expr_of operands.now.right) span)))) }
    {
        self.expression(&operands.left)?;
        let position = self.keep_position()?;
        self.expression(&operands.right)?;
        let count = self.count_after(position);
        if is_or {
            self.fill(position, Instruction::JumpIfTrueOrPop(count))
        } else {
            self.fill(position, Instruction::JumpIfFalseOrPop(count))
        }
    }

    // The value that is not chosen is passed by a jump.
    #[cycle(expressions)]
    #[inline(never)]
    fn choice(&mut self, choice: &Choice) -> Result<(), AllocError>
        ensures ok { (span : Span) → OnOk result (self.new ≡ lengthened self.old (expr_code
            (Ternary (expr_of choice.now.value) (expr_of choice.now.condition)
            (expr_of choice.now.other) span))) }
    {
        self.expression(&choice.condition)?;
        let position = self.keep_position()?;
        self.expression(&choice.value)?;
        let position = self.divide(position)?;
        self.expression(&choice.other)?;
        self.fill(position, Instruction::Jump(self.count_after(position)))
    }

    #[cycle(expressions)]
    #[inline(never)]
    fn array(&mut self, items: &[Item], span: Span) -> Result<(), AllocError>
        ensures ok { OnOk result (self.new ≡ lengthened self.old
            (expr_code (Array (items_of items.now) span))) }
    {
        for item in items {
            self.expression(&item.value)?;
        }
        self.make_array(items, span)
    }

    #[cycle(expressions)]
    #[inline(never)]
    fn map(&mut self, entries: &[EntryExpression], span: Span) -> Result<(), AllocError>
        ensures ok { OnOk result (self.new ≡ lengthened self.old
            (expr_code (Map (entries_of entries.now) span))) }
    {
        self.entries(entries)?;
        self.make_map(entries, span)
    }

    #[cycle(expressions)]
    fn slice_bound(&mut self, bound: &Option<Box<Expression>>) -> Result<(), AllocError>
        ensures ok { OnOk result (self.new ≡ lengthened self.old
            (bound_code (optional_of bound.now))) }
    {
        match bound {
            None => self.constant(Constant::none(), Span { start: 0, end: 0 }),
            Some(expression) => self.expression(expression),
        }
    }

    #[cycle(expressions)]
    pub(crate) fn entries(&mut self, entries: &[EntryExpression]) -> Result<(), AllocError>
        ensures ok { OnOk result (self.new ≡ lengthened self.old
            (entries_code (entries_of entries.now))) }
    {
        for entry in entries {
            self.expression(&entry.value)?;
        }
        Ok(())
    }
}
