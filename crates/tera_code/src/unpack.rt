// What packed instructions mean.
ghost use Rattle.std.specs.Prelude.{◌≡◌, ◌<◌, ◌≤◌, ◌-◌, [], get_or, length, take, drop, string_bytes};
ghost use Rattle.std.specs.Str.{IsCharBoundary};
ghost use Rattle.tera_built_ins.specs.Prelude.{filter_named, test_named};
ghost use Rattle.tera_code.specs.Calls.{call_of};
ghost use Rattle.tera_code.specs.Packed.{Within, tables_of, span_at, name_at, call_at, loop_at, target_at, constant_of, unpacked};

use crate::call_kind::CallKind;
use crate::constant::Constant;
use crate::instruction::Instruction;
use crate::instruction_parts::{Keys, LentName, LentText, Names, Spreads};
use crate::packed::{Packed, Tables};
use tera_built_ins::{BuiltInFilter, BuiltInTest};
use tera_values::{Name, NameRef, Span};

impl Tables {
    #[inline(always)]
    pub(crate) fn span(&self, number: u32) -> Span
        requires { number < length self.now.spans.items }
        ensures { result ≡ span_at (tables_of self.now) number }
    {
        self.spans[number as usize]
    }

    #[inline(always)]
    pub(crate) fn name(&self, number: u32) -> NameRef<'_>
        requires { number < length self.now.names.items }
        ensures { result ≡ name_at (tables_of self.now) number }
    {
        self.full_name(number).as_name_ref()
    }

    #[inline(always)]
    pub(crate) fn attribute(&self, number: u32) -> LentText<'_>
        requires { number < length self.now.names.items }
        ensures { result ≡ name_at (tables_of self.now) number }
    {
        LentText::new(self.full_name(number).as_str())
    }

    #[inline(always)]
    pub(crate) fn full_name(&self, number: u32) -> &Name
        requires { number < length self.now.names.items }
        ensures { result.now ≡ name_at (tables_of self.now) number }
    {
        &self.names[number as usize]
    }

    // What is called.
    pub(crate) fn callee_name(&self, number: u32) -> &str
        requires { number < length self.now.calls.items }
        ensures { result.now ≡ (call_at (tables_of self.now) number).0 }
    {
        self.calls[number as usize].name.as_str()
    }

    // The filter that is built in under the name of what is called.
    #[inline(always)]
    pub(crate) fn built_in_filter(&self, number: u32) -> Option<BuiltInFilter>
        requires { number < length self.now.calls.items }
        ensures { result ≡ filter_named (call_at (tables_of self.now) number).0 }
    {
        self.calls[number as usize].filter()
    }

    // The test that is built in under the name of what is called.
    #[inline(always)]
    pub(crate) fn built_in_test(&self, number: u32) -> Option<BuiltInTest>
        requires { number < length self.now.calls.items }
        ensures { result ≡ test_named (call_at (tables_of self.now) number).0 }
    {
        self.calls[number as usize].test()
    }

    #[inline(always)]
    pub(crate) fn lent_callee_name(&self, number: u32) -> LentName<'_>
        requires { number < length self.now.calls.items }
        ensures { result ≡ (call_at (tables_of self.now) number).0 }
    {
        LentName::new(&self.calls[number as usize].name)
    }

    /// What is taken and stands elsewhere.
    #[inline(always)]
    pub(crate) fn target(&self, number: u32) -> &Name
        requires { number < length self.now.targets.items }
        ensures { result.now ≡ target_at (tables_of self.now) number }
    {
        &self.targets[number as usize]
    }

    /// What a loop calls the keys, if it does, and the values of its items.
    pub(crate) fn loop_names(&self, number: u32) -> (Option<LentName<'_>>, LentName<'_>)
        requires { number < length self.now.loops.items }
        ensures key { result.0 ≡ (loop_at (tables_of self.now) number).key }
        ensures name { result.1 ≡ (loop_at (tables_of self.now) number).name }
    {
        let names = &self.loops[number as usize];
        (
            LentName::from_option(&names.key),
            LentName::new(&names.name),
        )
    }

    /// The constant that it loads, where it loads one.
    #[inline(always)]
    pub(crate) fn constant_of(&self, packed: Packed) -> Constant<'_>
        requires { Within (tables_of self.now) packed }
        ensures { result ≡ constant_of (tables_of self.now) packed }
    {
        match packed {
            Packed::LoadBool { flag, .. } => Constant::from_bool(flag),
            Packed::LoadInt { number, .. } => Constant::from_int(number),
            Packed::LoadConst { constant, .. } => {
                Constant::from_shared(&self.constants[constant as usize])
            }
            _ => Constant::none(),
        }
    }

    #[inline(always)]
    pub(crate) fn argument_names(&self, number: u32) -> Names<'_>
        requires { number < length self.now.calls.items }
        ensures { result ≡ (call_at (tables_of self.now) number).1 }
    {
        Names::new(self.calls[number as usize].arguments.as_slice())
    }

    // The instruction that calls by the name, and with the arguments, that stand at this position.
    #[inline(always)]
    fn call_of(&self, kind: CallKind, call: u32, span: u32) -> Instruction<'_>
        requires call { call < length self.now.calls.items }
        requires span { span < length self.now.spans.items }
        ensures { result ≡ call_of kind (call_at (tables_of self.now) call).0
            (call_at (tables_of self.now) call).1 (span_at (tables_of self.now) span) }
    {
        Instruction::call(
            kind,
            self.lent_callee_name(call),
            self.argument_names(call),
            self.span(span),
        )
    }

    // The keys of a map, or of a component's attributes.
    #[inline(always)]
    pub(crate) fn lent_keys(&self, number: u32) -> Keys<'_>
        requires { number < length self.now.keys.items }
        ensures { result ≡ get_or (tables_of self.now).keys number [] }
    {
        Keys::new(self.keys[number as usize].as_slice())
    }

    #[inline(always)]
    pub(crate) fn text_between(&self, start: u32, end: u32) -> &str
        requires order { start ≤ end }
        requires start { IsCharBoundary (string_bytes self.now.pool) start }
        requires end { IsCharBoundary (string_bytes self.now.pool) end }
        ensures { result.now ≡ take (end - start) (drop start (string_bytes self.now.pool)) }
    {
        &self.pool[start as usize..end as usize]
    }

    /// The instruction that is meant.
    #[inline(always)]
    pub(crate) fn unpack(&self, packed: Packed) -> Instruction<'_>
        requires { Within (tables_of self.now) packed }
        ensures { result ≡ unpacked (tables_of self.now) packed }
    {
        match packed {
            Packed::WriteText { start, end } => {
                Instruction::WriteText(LentText::new(self.text_between(start, end)))
            }
            Packed::WriteTop => Instruction::WriteTop,
            Packed::WriteName { name, span } => {
                Instruction::WriteName(self.name(name), self.span(span))
            }
            Packed::LoadNone { span }
            | Packed::LoadBool { span, .. }
            | Packed::LoadInt { span, .. }
            | Packed::LoadConst { span, .. } => {
                Instruction::LoadConst(self.constant_of(packed), self.span(span))
            }
            Packed::LoadName { name, span, .. } => {
                Instruction::LoadName(self.name(name), self.span(span))
            }
            Packed::LoadContext { span } => Instruction::LoadContext(self.span(span)),
            Packed::LoadAttribute {
                name,
                optional,
                span,
            } => Instruction::LoadAttribute {
                name: self.attribute(name),
                optional,
                span: self.span(span),
            },
            Packed::LoadItem { optional, span } => Instruction::LoadItem {
                optional,
                span: self.span(span),
            },
            Packed::Slice { optional, span } => Instruction::Slice {
                optional,
                span: self.span(span),
            },
            Packed::Not => Instruction::Not,
            Packed::Negate => Instruction::Negate,
            Packed::Binary { operator, span } => Instruction::Binary(operator, self.span(span)),
            Packed::MakeArray { start, end, span } => {
                let spreads = &self.spreads[start as usize..end as usize];
                Instruction::MakeArray(Spreads::new(spreads), self.span(span))
            }
            Packed::MakeMap { keys, span } => {
                Instruction::MakeMap(self.lent_keys(keys), self.span(span))
            }
            Packed::Store { name, is_global } => Instruction::Store {
                name: LentName::new(self.full_name(name)),
                is_global,
            },
            Packed::StartLoop {
                counts,
                names,
                size,
                ..
            } => {
                let (key, name) = self.loop_names(names);
                Instruction::StartLoop {
                    key,
                    name,
                    counts,
                    size,
                }
            }
            Packed::NextTurn => Instruction::NextTurn,
            Packed::EndLoop(skip) => Instruction::EndLoop(skip),
            Packed::Keep => Instruction::Keep,
            Packed::EndComprehension { span } => Instruction::EndComprehension(self.span(span)),
            Packed::StartCapture => Instruction::StartCapture,
            Packed::EndCapture { span } => Instruction::EndCapture(self.span(span)),
            Packed::LeaveLoop(drops) => Instruction::LeaveLoop(drops),
            Packed::LeaveTurn(drops) => Instruction::LeaveTurn(drops),
            Packed::Jump(skip) => Instruction::Jump(skip),
            Packed::PopJumpIfFalse(skip) => Instruction::PopJumpIfFalse(skip),
            Packed::JumpIfFalseOrPop(skip) => Instruction::JumpIfFalseOrPop(skip),
            Packed::JumpIfTrueOrPop(skip) => Instruction::JumpIfTrueOrPop(skip),
            Packed::TakeBlock { name, span } => Instruction::TakeBlock {
                name: LentName::new(self.full_name(name)),
                span: self.span(span),
            },
            Packed::TakeInclude { target, span } => Instruction::TakeInclude {
                name: LentName::new(self.target(target)),
                span: self.span(span),
            },
            Packed::TakeComponent {
                has_body,
                target,
                keys,
                span,
            } => Instruction::TakeComponent {
                name: LentName::new(self.target(target)),
                keys: self.lent_keys(keys),
                has_body,
                span: self.span(span),
            },
            Packed::TakeSuper { span, arguments } => Instruction::TakeSuper {
                arguments,
                span: self.span(span),
            },
            Packed::ApplyFilter { call, span } => self.call_of(CallKind::Filter, call, span),
            Packed::ApplyTest { call, span } => self.call_of(CallKind::Test, call, span),
            Packed::CallFunction { call, span } => self.call_of(CallKind::Function, call, span),
        }
    }
}
