// How a body's instructions are kept: small ones in a row, and beside them what they name by number.
ghost use Rattle.std.specs.Prelude.{◌≡◌, ◌<◌, ◌-◌, IfOk};
ghost use Rattle.tera_code.specs.Calls.{call_of};
ghost use Rattle.tera_code.specs.Code.{spreads_of};
ghost use Rattle.tera_code.specs.Packed.{Grows, Longer, IsAt, Packs, tables_of};
ghost use Rattle.tera_code.specs.Settled.{has_notes, reads_on, printing_size};
ghost use Rattle.tera_syntax_tree.specs.Prelude.{items_of, keys_of};
ghost use Rattle.tera_code.specs.declared.instruction.Instruction.TheVariants as instruction;

use crate::call_kind::CallKind;
use crate::call_names::CallNames;
use crate::constant::{Constant, Kept, small_integer};
use crate::instruction::Instruction;
use crate::instruction_parts::{Keys, LentName, Names, Spreads};
use crate::name_cache::{NameCache, SLOTS};
use crate::single_instructions::{add_spreads, copy_key};
use std::alloc::{AllocError, Global};
use tera_errors::alloc_result;
use tera_syntax_tree::{BinaryOperator, Item, OwnedKey};
use tera_values::{Name, NameRef, Span, Value};

/// An instruction that names by number what it needs.
#[derive(Clone, Copy)]
pub(crate) enum Packed {
    WriteText {
        start: u32,
        end: u32,
    },
    WriteTop,
    WriteName {
        name: u32,
        span: u32,
    },
    LoadNone {
        span: u32,
    },
    LoadBool {
        flag: bool,
        span: u32,
    },
    LoadInt {
        span: u32,
        number: i64,
    },
    LoadConst {
        constant: u32,
        span: u32,
    },
    LoadName {
        // whether what stands behind uses the value up
        reads_on: bool,
        name: u32,
        span: u32,
    },
    LoadContext {
        span: u32,
    },
    LoadAttribute {
        name: u32,
        optional: bool,
        span: u32,
    },
    LoadItem {
        optional: bool,
        span: u32,
    },
    Slice {
        optional: bool,
        span: u32,
    },
    Not,
    Negate,
    Binary {
        operator: BinaryOperator,
        span: u32,
    },
    MakeArray {
        start: u32,
        end: u32,
        span: u32,
    },
    MakeMap {
        keys: u32,
        span: u32,
    },
    Store {
        name: u32,
        is_global: bool,
    },
    StartLoop {
        counts: bool,
        // whether the body puts out texts and items alone
        prints: bool,
        names: u32,
        size: usize,
    },
    NextTurn,
    EndLoop(usize),
    Keep,
    EndComprehension {
        span: u32,
    },
    StartCapture,
    EndCapture {
        span: u32,
    },
    LeaveLoop(usize),
    LeaveTurn(usize),
    Jump(usize),
    PopJumpIfFalse(usize),
    JumpIfFalseOrPop(usize),
    JumpIfTrueOrPop(usize),
    TakeBlock {
        name: u32,
        span: u32,
    },
    TakeInclude {
        target: u32,
        span: u32,
    },
    TakeComponent {
        has_body: bool,
        target: u32,
        keys: u32,
        span: u32,
    },
    TakeSuper {
        span: u32,
        arguments: usize,
    },
    ApplyFilter {
        call: u32,
        span: u32,
    },
    ApplyTest {
        call: u32,
        span: u32,
    },
    CallFunction {
        call: u32,
        span: u32,
    },
}

// The layout follows the order of the fields.
const _: () = prove!(size_of::<Packed>() == 16);

impl Packed {
    /// Whether something is noted in it of those behind it.
    #[inline(always)]
    pub(crate) fn has_notes(&self) -> bool
        ensures { result ≡ has_notes self.now }
    {
        matches!(self, Packed::LoadName { .. } | Packed::StartLoop { .. })
    }

    /// Whether it loads a name of which is noted that it is used up.
    #[inline(always)]
    pub(crate) fn reads_on(&self) -> bool
        ensures { result ≡ reads_on self.now }
    {
        matches!(self, Packed::LoadName { reads_on: true, .. })
    }

    /// The size of the body of the loop that it opens, of which is noted that it puts out texts and items alone.
    #[inline(always)]
    pub(crate) fn printing_size(&self) -> Option<usize>
        ensures { result ≡ printing_size self.now }
    {
        match *self {
            Packed::StartLoop {
                prints: true,
                size,
                ..
            } => Some(size),
            _ => None,
        }
    }
}

/// What a loop calls its items.
#[derive(Drop)]
pub(crate) struct LoopNames {
    pub(crate) key: Option<Name>,
    pub(crate) name: Name,
}

/// What instructions name by number.
#[derive(Drop)]
pub(crate) struct Tables {
    pub(crate) pool: String,
    pub(crate) names: Vec<Name>,
    pub(crate) constants: Vec<Value>,
    // which items are spread, of one array behind the other
    pub(crate) spreads: Vec<bool>,
    pub(crate) keys: Vec<Vec<Option<OwnedKey>>>,
    pub(crate) spans: Vec<Span>,
    pub(crate) loops: Vec<LoopNames>,
    pub(crate) calls: Vec<CallNames>,
    // the names of what is taken and stands elsewhere
    pub(crate) targets: Vec<Name>,
}

/// A number that instructions hold. More than they can hold is want of memory.
fn to_u32(number: usize) -> Result<u32, AllocError>
    ensures ok { IfOk result (λ n. n ≡ number) }
{
    match u32::try_from(number) {
        Ok(number) => Ok(number),
        Err(_) => Err(AllocError),
    }
}

/// Puts the item behind the others, and tells its position.
fn number<T: Drop>(items: &mut Vec<T>, item: T) -> Result<u32, AllocError>
    ensures grows { Longer items.old.items items.new.items }
    ensures ok { IfOk result (λ n. IsAt items.new.items n item) }
{
    let position = to_u32(items.len())?;
    items.push(item)?;
    Ok(position)
}

/// The position of the name among the names, to which it is added where it isn't found at the position that was seen last.
fn name_number(
    alloc: Global,
    names: &mut Vec<Name>,
    seen: &mut NameCache,
    name: &NameRef<'_>,
) -> Result<u32, AllocError>
    ensures grows { Longer names.old.items names.new.items }
    ensures ok { IfOk result (λ n. IsAt names.new.items n name.now) }
{
    let slot = (name.hash() % SLOTS as u64) as usize;
    let position = seen.positions[slot];
    if let Some(known) = names.get(position as usize) {
        if name.is(known) {
            return Ok(position);
        }
    }
    let position = number(names, alloc_result(Name::from_name_ref(alloc, name))?)?;
    seen.positions[slot] = position;
    Ok(position)
}

impl Tables {
    /// No number stands for anything yet; takes no memory.
    pub(crate) fn new(alloc: Global) -> Tables {
        Tables {
            pool: String::new(alloc),
            names: Vec::new(alloc),
            constants: Vec::new(alloc),
            spreads: Vec::new(alloc),
            keys: Vec::new(alloc),
            spans: Vec::new(alloc),
            loops: Vec::new(alloc),
            calls: Vec::new(alloc),
            targets: Vec::new(alloc),
        }
    }

    /// Room for so many spans and bytes of text.
    pub(crate) fn make_room(&mut self, spans: usize, bytes: usize) -> Result<(), AllocError>
        ensures same { tables_of self.new ≡ tables_of self.old }
    {
        self.spans.reserve(spans)?;
        self.pool.reserve(bytes)?;
        Ok(())
    }

    #[inline(always)]
    pub(crate) fn text(&mut self, text: &str) -> Result<Packed, AllocError>
        ensures grows { Grows (tables_of self.old) (tables_of self.new) }
        ensures ok { IfOk result (λ p. Packs (tables_of self.new) p
            (instruction.WriteText text.now)) }
    {
        let start = to_u32(self.pool.len())?;
        self.pool.push_str(text)?;
        let end = to_u32(self.pool.len())?;
        Ok(Packed::WriteText { start, end })
    }

    #[inline(always)]
    fn constant(&mut self, constant: &Constant<'_>, span: Span) -> Result<Packed, AllocError>
        ensures grows { Grows (tables_of self.old) (tables_of self.new) }
        ensures ok { IfOk result (λ p. Packs (tables_of self.new) p
            (instruction.LoadConst constant.now span)) }
    {
        let span = number(&mut self.spans, span)?;
        match constant.kept {
            Kept::None => Ok(Packed::LoadNone { span }),
            Kept::Bool(flag) => Ok(Packed::LoadBool { flag, span }),
            Kept::Int(number) => Ok(Packed::LoadInt { span, number }),
            Kept::Shared(value) => match small_integer(value) {
                Some(number) => Ok(Packed::LoadInt { span, number }),
                None => {
                    let value = alloc_result(value.try_clone())?;
                    let constant = number(&mut self.constants, value)?;
                    Ok(Packed::LoadConst { constant, span })
                }
            },
        }
    }
}

impl Tables {
    /// Puts a name and a span beside the others, and tells their positions.
    fn name_and_span(
        &mut self,
        alloc: Global,
        seen: &mut NameCache,
        name: &NameRef<'_>,
        span: Span,
    ) -> Result<(u32, u32), AllocError>
        ensures grows { Grows (tables_of self.old) (tables_of self.new) }
        ensures name { IfOk result (λ p. IsAt (tables_of self.new).names p.0 name.now) }
        ensures span { IfOk result (λ p. IsAt (tables_of self.new).spans p.1 span) }
    {
        let name = name_number(alloc, &mut self.names, seen, name)?;
        let span = number(&mut self.spans, span)?;
        Ok((name, span))
    }

    #[inline(always)]
    pub(crate) fn written_name(
        &mut self,
        alloc: Global,
        seen: &mut NameCache,
        name: &NameRef<'_>,
        span: Span,
    ) -> Result<Packed, AllocError>
        ensures grows { Grows (tables_of self.old) (tables_of self.new) }
        ensures ok { IfOk result
            (λ p. Packs (tables_of self.new) p (instruction.WriteName name.now span)) }
    {
        let (name, span) = self.name_and_span(alloc, seen, name, span)?;
        Ok(Packed::WriteName { name, span })
    }

    fn make_array(&mut self, spreads: &Spreads<'_>, span: Span) -> Result<Packed, AllocError>
        ensures grows { Grows (tables_of self.old) (tables_of self.new) }
        ensures ok { IfOk result (λ p. Packs (tables_of self.new) p
            (instruction.MakeArray spreads.now span)) }
    {
        let start = to_u32(self.spreads.len())?;
        self.spreads.extend_from_slice(spreads.as_slice())?;
        let end = to_u32(self.spreads.len())?;
        let span = number(&mut self.spans, span)?;
        Ok(Packed::MakeArray { start, end, span })
    }

    /// The same for an array of these items, of which the flags stand in the pool alone.
    pub(crate) fn array_of(&mut self, items: &[Item], span: Span) -> Result<Packed, AllocError>
        ensures grows { Grows (tables_of self.old) (tables_of self.new) }
        ensures ok { IfOk result (λ p. Packs (tables_of self.new) p
            (instruction.MakeArray (spreads_of (items_of items.now)) span)) }
    {
        let start = to_u32(self.spreads.len())?;
        add_spreads(&mut self.spreads, items)?;
        let end = to_u32(self.spreads.len())?;
        let span = number(&mut self.spans, span)?;
        Ok(Packed::MakeArray { start, end, span })
    }

    fn make_map(&mut self, alloc: Global, keys: &Keys<'_>, span: Span) -> Result<Packed, AllocError>
        ensures grows { Grows (tables_of self.old) (tables_of self.new) }
        ensures ok { IfOk result (λ p. Packs (tables_of self.new) p
            (instruction.MakeMap keys.now span)) }
    {
        let keys = copy_keys(alloc, keys.as_slice())?;
        let keys = number(&mut self.keys, keys)?;
        let span = number(&mut self.spans, span)?;
        Ok(Packed::MakeMap { keys, span })
    }

    fn take_block(&mut self, name: &LentName<'_>, span: Span) -> Result<Packed, AllocError>
        ensures grows { Grows (tables_of self.old) (tables_of self.new) }
        ensures ok { IfOk result (λ p. Packs (tables_of self.new) p
            (instruction.TakeBlock name.now span)) }
    {
        let name = number(&mut self.names, alloc_result(name.share())?)?;
        let span = number(&mut self.spans, span)?;
        Ok(Packed::TakeBlock { name, span })
    }

    fn take_include(&mut self, name: &LentName<'_>, span: Span) -> Result<Packed, AllocError>
        ensures grows { Grows (tables_of self.old) (tables_of self.new) }
        ensures ok { IfOk result
            (λ p. Packs (tables_of self.new) p (instruction.TakeInclude name.now span)) }
    {
        let target = number(&mut self.targets, alloc_result(name.share())?)?;
        let span = number(&mut self.spans, span)?;
        Ok(Packed::TakeInclude { target, span })
    }

    fn take_component(
        &mut self,
        alloc: Global,
        name: &LentName<'_>,
        keys: &Keys<'_>,
        has_body: bool,
        span: Span,
    ) -> Result<Packed, AllocError>
        ensures grows { Grows (tables_of self.old) (tables_of self.new) }
        ensures ok { IfOk result (λ p. Packs (tables_of self.new) p
            (instruction.TakeComponent name.now keys.now has_body span)) }
    {
        let target = number(&mut self.targets, alloc_result(name.share())?)?;
        let keys = copy_keys(alloc, keys.as_slice())?;
        let keys = number(&mut self.keys, keys)?;
        let span = number(&mut self.spans, span)?;
        Ok(Packed::TakeComponent {
            has_body,
            target,
            keys,
            span,
        })
    }

    /// Puts what a loop calls its items beside the others, and tells its position.
    fn add_loop(
        &mut self,
        key: &Option<LentName<'_>>,
        name: &LentName<'_>,
    ) -> Result<u32, AllocError>
        ensures grows { Grows (tables_of self.old) (tables_of self.new) }
        ensures ok { IfOk result (λ n. IsAt (tables_of self.new).loops n
            (record { key = key.now; name = name.now })) }
    {
        let names = LoopNames {
            key: alloc_result(LentName::share_option(key))?,
            name: alloc_result(name.share())?,
        };
        number(&mut self.loops, names)
    }

    /// A call of this kind by numbers: its names and its span are put beside the others.
    fn call(
        &mut self,
        alloc: Global,
        kind: CallKind,
        name: &LentName<'_>,
        arguments: &Names<'_>,
        span: Span,
    ) -> Result<Packed, AllocError>
        ensures grows { Grows (tables_of self.old) (tables_of self.new) }
        ensures ok { IfOk result (λ p. Packs (tables_of self.new) p
            (call_of kind name.now arguments.now span)) }
    {
        let name = alloc_result(name.share())?;
        let names = CallNames::new(name, share_names(alloc, arguments.as_slice())?);
        let call = number(&mut self.calls, names)?;
        let span = number(&mut self.spans, span)?;
        Ok(match kind {
            CallKind::Filter => Packed::ApplyFilter { call, span },
            CallKind::Test => Packed::ApplyTest { call, span },
            CallKind::Function => Packed::CallFunction { call, span },
        })
    }

    /// The instruction by numbers, with all that it names put where they find it. Inlined, so that a caller that names the form is
    /// left with what that form needs.
    #[inline(always)]
    pub(crate) fn pack(
        &mut self,
        alloc: Global,
        seen: &mut NameCache,
        instruction: Instruction<'_>,
    ) -> Result<Packed, AllocError>
        ensures grows { Grows (tables_of self.old) (tables_of self.new) }
        ensures ok { IfOk result (λ p. Packs (tables_of self.new) p instruction.entry) }
    {
        match instruction {
            Instruction::WriteText(text) => self.text(text.as_str()),
            Instruction::WriteTop => Ok(Packed::WriteTop),
            Instruction::WriteName(name, span) => self.written_name(alloc, seen, &name, span),
            Instruction::LoadConst(constant, span) => self.constant(&constant, span),
            Instruction::LoadName(name, span) => {
                let (name, span) = self.name_and_span(alloc, seen, &name, span)?;
                Ok(Packed::LoadName {
                    reads_on: false,
                    name,
                    span,
                })
            }
            Instruction::LoadContext(span) => {
                let span = number(&mut self.spans, span)?;
                Ok(Packed::LoadContext { span })
            }
            Instruction::LoadAttribute {
                name,
                optional,
                span,
            } => {
                let name = NameRef::new(name.as_str());
                let (name, span) = self.name_and_span(alloc, seen, &name, span)?;
                Ok(Packed::LoadAttribute {
                    name,
                    optional,
                    span,
                })
            }
            Instruction::LoadItem { optional, span } => {
                let span = number(&mut self.spans, span)?;
                Ok(Packed::LoadItem { optional, span })
            }
            Instruction::Slice { optional, span } => {
                let span = number(&mut self.spans, span)?;
                Ok(Packed::Slice { optional, span })
            }
            Instruction::Not => Ok(Packed::Not),
            Instruction::Negate => Ok(Packed::Negate),
            Instruction::Binary(operator, span) => {
                let span = number(&mut self.spans, span)?;
                Ok(Packed::Binary { operator, span })
            }
            Instruction::MakeArray(spreads, span) => self.make_array(&spreads, span),
            Instruction::MakeMap(keys, span) => self.make_map(alloc, &keys, span),
            Instruction::Store { name, is_global } => {
                let name = number(&mut self.names, alloc_result(name.share())?)?;
                Ok(Packed::Store { name, is_global })
            }
            Instruction::StartLoop {
                key,
                name,
                counts,
                size,
            } => {
                let names = self.add_loop(&key, &name)?;
                Ok(Packed::StartLoop {
                    counts,
                    prints: false,
                    names,
                    size,
                })
            }
            Instruction::NextTurn => Ok(Packed::NextTurn),
            Instruction::EndLoop(skip) => Ok(Packed::EndLoop(skip)),
            Instruction::Keep => Ok(Packed::Keep),
            Instruction::EndComprehension(span) => {
                let span = number(&mut self.spans, span)?;
                Ok(Packed::EndComprehension { span })
            }
            Instruction::StartCapture => Ok(Packed::StartCapture),
            Instruction::EndCapture(span) => {
                let span = number(&mut self.spans, span)?;
                Ok(Packed::EndCapture { span })
            }
            Instruction::LeaveLoop(drops) => Ok(Packed::LeaveLoop(drops)),
            Instruction::LeaveTurn(drops) => Ok(Packed::LeaveTurn(drops)),
            Instruction::Jump(skip) => Ok(Packed::Jump(skip)),
            Instruction::PopJumpIfFalse(skip) => Ok(Packed::PopJumpIfFalse(skip)),
            Instruction::JumpIfFalseOrPop(skip) => Ok(Packed::JumpIfFalseOrPop(skip)),
            Instruction::JumpIfTrueOrPop(skip) => Ok(Packed::JumpIfTrueOrPop(skip)),
            Instruction::TakeBlock { name, span } => self.take_block(&name, span),
            Instruction::TakeInclude { name, span } => self.take_include(&name, span),
            Instruction::TakeComponent {
                name,
                keys,
                has_body,
                span,
            } => self.take_component(alloc, &name, &keys, has_body, span),
            Instruction::TakeSuper { arguments, span } => {
                let span = number(&mut self.spans, span)?;
                Ok(Packed::TakeSuper { span, arguments })
            }
            Instruction::ApplyFilter {
                name,
                arguments,
                span,
            } => self.call(alloc, CallKind::Filter, &name, &arguments, span),
            Instruction::ApplyTest {
                name,
                arguments,
                span,
            } => self.call(alloc, CallKind::Test, &name, &arguments, span),
            Instruction::CallFunction {
                name,
                arguments,
                span,
            } => self.call(alloc, CallKind::Function, &name, &arguments, span),
        }
    }
}

fn copy_keys(alloc: Global, keys: &[Option<OwnedKey>]) -> Result<Vec<Option<OwnedKey>>, AllocError>
    ensures { IfOk result (λ k. keys_of k.items ≡ keys_of keys.now) }
{
    let mut all = Vec::new(alloc);
    for key in keys {
        all.push(copy_key(alloc, key)?)?;
    }
    Ok(all)
}

// The names once more: counts, and no copies of their texts.
fn share_names(alloc: Global, names: &[Name]) -> Result<Vec<Name>, AllocError>
    ensures { IfOk result (λ all. all.items ≡ names.now) }
{
    let mut all = Vec::new(alloc);
    for name in names {
        all.push(alloc_result(name.share())?)?;
    }
    Ok(all)
}
