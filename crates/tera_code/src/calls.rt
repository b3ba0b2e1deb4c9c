// Filters, tests, functions, `super` and components, which are given by name what they are made of.
ghost use Rattle.std.specs.Prelude.{◌≡◌, [], ◌∷◌, OnOk, IfOk};
ghost use Rattle.tera_code.specs.declared.instruction.Instruction.TheVariants as instruction;
ghost use Rattle.tera_code.specs.Calls.{applied_code, call_of};
ghost use Rattle.tera_code.specs.Code.{expr_code, arguments_code, argument_names, filters_code, keys_in, lengthened};
ghost use Rattle.tera_syntax_tree.specs.Prelude.{Super, MoreFilters, NoFilters, called_of, tag_of, entries_of, arguments_of, filters_of};

use crate::call_kind::CallKind;
use crate::compiler::Compiler;
use crate::instruction::Instruction;
use crate::instruction_parts::{Keys, LentName, Names};
use crate::single_instructions::keys;
use std::alloc::{AllocError, Global};
use tera_errors::alloc_result;
use tera_syntax_tree::{
    Applied, Argument, ComponentTag, EntryExpression, FunctionCall, SectionFilter,
};
use tera_values::{Name, Span};

impl Compiler {
    // `super`
    #[cycle(expressions)]
    #[inline(never)]
    pub(crate) fn super_call(
        &mut self,
        arguments: &[Argument],
        span: Span,
    ) -> Result<(), AllocError>
        ensures ok { OnOk result (self.new ≡ lengthened self.old
            (expr_code (Super (arguments_of arguments.now) span))) }
    {
        self.arguments(arguments)?;
        self.emit(Instruction::TakeSuper {
            arguments: arguments.len(),
            span,
        })
    }

    // A value, and what a filter or a test makes of it.
    #[cycle(expressions)]
    #[inline(never)]
    pub(crate) fn application(
        &mut self,
        kind: CallKind,
        applied: &Applied,
        span: Span,
    ) -> Result<(), AllocError>
        ensures ok { OnOk result (self.new ≡ lengthened self.old
            (applied_code kind applied.now span)) }
    {
        let arguments = applied.arguments.as_slice();
        self.expression(&applied.value)?;
        self.arguments(arguments)?;
        self.call(kind, applied.name, arguments, span)
    }

    #[cycle(expressions)]
    #[inline(never)]
    pub(crate) fn function_call(
        &mut self,
        called: &FunctionCall,
        span: Span,
    ) -> Result<(), AllocError>
        ensures ok { OnOk result (self.new ≡ lengthened self.old
            (expr_code (called_of called.now span))) }
    {
        let arguments = called.arguments.as_slice();
        self.arguments(arguments)?;
        self.call(CallKind::Function, called.name, arguments, span)
    }

    #[cycle(expressions)]
    #[inline(never)]
    pub(crate) fn tag(&mut self, tag: &ComponentTag, span: Span) -> Result<(), AllocError>
        ensures ok { OnOk result (self.new ≡ lengthened self.old
            (expr_code (tag_of tag.now span))) }
    {
        self.entries(tag.attributes.as_slice())?;
        self.take_component(tag.name, tag.attributes.as_slice(), false, span)
    }

    #[cycle(expressions)]
    fn arguments(&mut self, arguments: &[Argument]) -> Result<(), AllocError>
        ensures ok { OnOk result (self.new
            ≡ lengthened self.old (arguments_code (arguments_of arguments.now))) }
    {
        for argument in arguments {
            self.expression(&argument.value)?;
        }
        Ok(())
    }

    // Each filter takes what is on top of the operands, and puts its answer there.
    pub(crate) fn filters(&mut self, filters: &[SectionFilter]) -> Result<(), AllocError>
        ensures ok { OnOk result (self.new
            ≡ lengthened self.old (filters_code (filters_of filters.now))) }
    {
        for filter in filters {
            self.filter(filter)?;
        }
        Ok(())
    }

    fn filter(&mut self, filter: &SectionFilter) -> Result<(), AllocError>
        ensures ok { OnOk result (self.new ≡ lengthened self.old (filters_code (MoreFilters
            filter.now.name.now (arguments_of filter.now.arguments.items)
            filter.now.span NoFilters))) }
    {
        let arguments = filter.arguments.as_slice();
        self.arguments(arguments)?;
        self.call(CallKind::Filter, filter.name, arguments, filter.span)
    }

    // What calls by this name, with the names of the arguments.
    fn call(
        &mut self,
        kind: CallKind,
        name: &str,
        arguments: &[Argument],
        span: Span,
    ) -> Result<(), AllocError>
        ensures ok { OnOk result (self.new ≡ lengthened self.old (call_of kind
            name.now (argument_names (arguments_of arguments.now)) span ∷ [])) }
    {
        let name = self.name(name)?;
        let names = argument_names(self.alloc(), arguments)?;
        let name = LentName::new(&name);
        let arguments = Names::new(names.as_slice());
        self.emit(Instruction::call(kind, name, arguments, span))
    }

    pub(crate) fn take_component(
        &mut self,
        name: &str,
        attributes: &[EntryExpression],
        has_body: bool,
        span: Span,
    ) -> Result<(), AllocError>
        ensures ok { OnOk result (self.new ≡ lengthened self.old (instruction.TakeComponent
            name.now (keys_in (entries_of attributes.now)) has_body span ∷ [])) }
    {
        let name = self.name(name)?;
        let keys = keys(self.alloc(), attributes)?;
        self.emit(Instruction::TakeComponent {
            name: LentName::new(&name),
            keys: Keys::new(keys.as_slice()),
            has_body,
            span,
        })
    }
}

fn argument_names(alloc: Global, arguments: &[Argument]) -> Result<Vec<Name>, AllocError>
    ensures { IfOk result (λ names. names.items
        ≡ argument_names (arguments_of arguments.now)) }
{
    let mut names = Vec::new(alloc);
    for argument in arguments {
        names.push(alloc_result(Name::new(alloc, argument.name))?)?;
    }
    Ok(names)
}
