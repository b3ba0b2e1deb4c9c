// Instructions of single forms.
ghost use Rattle.std.specs.Prelude.{◌≡◌, ◌<◌, [], ◌∷◌, ◌++◌, OnOk, IfOk, length, false};
ghost use Rattle.tera_values.specs.Val as val;
ghost use Rattle.tera_code.specs.declared.instruction.Instruction.TheVariants as instruction;
ghost use Rattle.tera_code.specs.Code.{lengthened, is_context, name_code, spreads_of, keys_in};
ghost use Rattle.tera_code.specs.Packed.{Longer};
ghost use Rattle.tera_code.specs.Filling.{divided};
ghost use Rattle.tera_syntax_tree.specs.Prelude.{items_of, entries_of, keys_of, key_option, literal_option};

use crate::compiler::Compiler;
use crate::constant::Constant;
use crate::instruction::Instruction;
use crate::instruction_parts::{Keys, LentText};
use std::alloc::{AllocError, Global};
use tera_errors::alloc_result;
use tera_syntax_tree::{EntryExpression, Item, LiteralKey, OwnedKey, Quoted};
use tera_values::{NameRef, Span, Value};

impl Compiler {
    pub(crate) fn text(&mut self, text: &str, span: Span) -> Result<(), AllocError>
        ensures ok { OnOk result (self.new ≡ lengthened self.old
            (instruction.LoadConst (val.text text.now false) span ∷ [])) }
    {
        let value = alloc_result(Value::string(self.alloc(), text))?;
        let value = alloc_result(value.into_shared(self.alloc()))?;
        self.constant(Constant::from_shared(&value), span)
    }

    pub(crate) fn load(&mut self, name: &str, span: Span) -> Result<(), AllocError>
        ensures ok { OnOk result (self.new ≡ lengthened self.old (name_code name.now span)) }
    {
        if is_context(name) {
            self.emit(Instruction::LoadContext(span))
        } else {
            self.emit(Instruction::LoadName(NameRef::new(name), span))
        }
    }

    pub(crate) fn attribute(
        &mut self,
        name: &str,
        optional: bool,
        span: Span,
    ) -> Result<(), AllocError>
        ensures ok { OnOk result (self.new ≡ lengthened self.old
            (instruction.LoadAttribute name.now optional span ∷ [])) }
    {
        self.emit(Instruction::LoadAttribute {
            name: LentText::new(name),
            optional,
            span,
        })
    }

    // The first of two parts ends, which starts behind the position; the position that was kept behind it.
    pub(crate) fn divide(&mut self, position: usize) -> Result<usize, AllocError>
        requires { position < length self.old.code }
        ensures position { IfOk result (λ next. next ≡ length self.old.code) }
        ensures ok { OnOk result (self.new ≡ divided position self.old) }
    {
        let next = self.keep_position()?;
        self.fill(
            position,
            Instruction::PopJumpIfFalse(self.count_after(position)),
        )?;
        Ok(next)
    }

    pub(crate) fn make_map(
        &mut self,
        entries: &[EntryExpression],
        span: Span,
    ) -> Result<(), AllocError>
        ensures ok { OnOk result (self.new ≡ lengthened self.old
            (instruction.MakeMap (keys_in (entries_of entries.now)) span ∷ [])) }
    {
        let keys = keys(self.alloc(), entries)?;
        self.emit(Instruction::MakeMap(Keys::new(keys.as_slice()), span))
    }
}

// The map of all that is bound has this name.
pub(crate) fn is_context(name: &str) -> bool
    ensures { result ≡ is_context name.now }
{
    name == "__tera_context"
}

// Puts behind the flags which of the items are spread.
pub(crate) fn add_spreads(flags: &mut Vec<bool>, items: &[Item]) -> Result<(), AllocError>
    ensures grows { Longer flags.old.items flags.new.items }
    ensures ok { OnOk result
        (flags.new.items ≡ flags.old.items ++ spreads_of (items_of items.now)) }
{
    for item in items {
        flags.push(item.is_spread)?;
    }
    Ok(())
}

pub(crate) fn keys(
    alloc: Global,
    entries: &[EntryExpression],
) -> Result<Vec<Option<OwnedKey>>, AllocError>
    ensures { IfOk result (λ k. keys_of k.items ≡ keys_in (entries_of entries.now)) }
{
    let mut keys = Vec::new(alloc);
    for entry in entries {
        keys.push(own_key(alloc, &entry.key)?)?;
    }
    Ok(keys)
}

// The key with a text of its own.
fn own_key(alloc: Global, key: &Option<LiteralKey<'_>>) -> Result<Option<OwnedKey>, AllocError>
    ensures { IfOk result (λ k. key_option k ≡ literal_option key.now) }
{
    match key {
        None => Ok(None),
        Some(LiteralKey::Bool(flag)) => Ok(Some(OwnedKey::Bool(*flag))),
        Some(LiteralKey::Int(number)) => Ok(Some(OwnedKey::Int(*number))),
        Some(LiteralKey::Text(text)) => {
            let text = String::from_str(alloc, text.as_str())?;
            Ok(Some(OwnedKey::Text(text)))
        }
    }
}

// The key with a text of its own, like the other's.
pub(crate) fn copy_key(
    alloc: Global,
    key: &Option<OwnedKey>,
) -> Result<Option<OwnedKey>, AllocError>
    ensures { IfOk result (λ k. key_option k ≡ key_option key.now) }
{
    let key = literal_key(key);
    own_key(alloc, &key)
}

// The key with the same text, which is not copied.
fn literal_key(key: &Option<OwnedKey>) -> Option<LiteralKey<'_>>
    ensures { literal_option result ≡ key_option key.now }
{
    match key {
        None => None,
        Some(OwnedKey::Bool(flag)) => Some(LiteralKey::Bool(*flag)),
        Some(OwnedKey::Int(number)) => Some(LiteralKey::Int(*number)),
        Some(OwnedKey::Text(text)) => Some(LiteralKey::Text(Quoted::Lent(text.as_str()))),
    }
}
