// From trees to instructions.
ghost use Rattle.std.specs.Prelude.{◌≡◌, ◌<◌, [], ◌∷◌, OnOk, IfOk, length};
ghost use Rattle.tera_values.specs.Val as val;
ghost use Rattle.tera_code.specs.declared.instruction.Instruction.TheVariants as instruction;
ghost use Rattle.tera_code.specs.Code.{lengthened, spreads_of};
ghost use Rattle.tera_syntax_tree.specs.Prelude.{items_of};
ghost use Rattle.tera_code.specs.Filling.{filled, behind};

use crate::chunk::Chunk;
use crate::constant::Constant;
use crate::draft::Draft;
use crate::instruction::Instruction;
use crate::name_cache::NameCache;
use crate::size_guess::SizeGuess;
use std::alloc::{AllocError, Global};
use std::marker::Model;
use tera_errors::alloc_result;
use tera_syntax_tree::Item;
use tera_values::{Name, NameRef, Span, Value};

/// Writes the instructions of one body. A contract sees those that are written so far.
#[derive(Drop)]
pub struct Compiler {
    alloc: Global,
    draft: Draft,
    seen: NameCache,
}

impl Model for Compiler {
    ghost use Rattle.tera_code.specs.Listing.{Listing};
    ghost use Rattle.std.specs.Coded.{codes};
    ghost use Rattle.tera_values.specs.Coding.{val_coding};

    ghost Value = { Listing };

    ghost coded = { Prim.hlevel (codes, val_coding) };

    ghost view = { λ c. c.draft };
}

impl Compiler {
    ghost use Rattle.tera_code.specs.Listing.{Listing};

    /// A compiler of a body in the text of the template of this name.
    pub fn new(alloc: Global, file: &str) -> Result<Compiler, AllocError>
        ensures { IfOk result (λ c. c ≡ record { file = file.now; code = [] }) }
    {
        Ok(Compiler::with_file(alloc, alloc_result(Name::new(alloc, file))?))
    }

    // The same where the name is there. A compiler is large, so that this makes it where it stays.
    #[inline(always)]
    pub(crate) fn with_file(alloc: Global, file: Name) -> Compiler
        ensures { result ≡ record { file = file; code = [] } }
    {
        Compiler {
            alloc,
            draft: Draft::new(alloc, file),
            seen: NameCache::new(),
        }
    }

    /// The body, with all that is written.
    pub fn into_chunk(self) -> Chunk
        ensures { result ≡ self }
    {
        let Compiler { draft, .. } = self;
        draft.into_chunk()
    }

    pub(crate) fn alloc(&self) -> Global {
        self.alloc
    }

    // A name of its own, which an instruction lends where it is emitted.
    pub(crate) fn name(&self, name: &str) -> Result<Name, AllocError>
        ensures { IfOk result (λ n. n ≡ name.now) }
    {
        alloc_result(Name::new(self.alloc, name))
    }

    // So that what is written moves less often as it grows.
    pub(crate) fn make_room(&mut self, room: SizeGuess) -> Result<(), AllocError>
        ensures same { self.new ≡ self.old }
    {
        self.draft.make_room(room)
    }

    #[inline(always)]
    pub(crate) fn emit(&mut self, instruction: Instruction<'_>) -> Result<(), AllocError>
        ensures ok { OnOk result (self.new ≡ lengthened self.old (instruction.entry ∷ [])) }
    {
        self.draft.emit(self.alloc, &mut self.seen, instruction)
    }

    #[inline(always)]
    pub(crate) fn emit_text(&mut self, text: &str) -> Result<(), AllocError>
        ensures ok { OnOk result
            (self.new ≡ lengthened self.old (instruction.WriteText text.now ∷ [])) }
    {
        self.draft.emit_text(text)
    }

    #[inline(always)]
    pub(crate) fn emit_name(&mut self, name: &str, span: Span) -> Result<(), AllocError>
        ensures ok { OnOk result
            (self.new ≡ lengthened self.old (instruction.WriteName name.now span ∷ [])) }
    {
        self.draft
            .emit_name(self.alloc, &mut self.seen, NameRef::new(name), span)
    }

    // The array of these items, which are loaded already.
    #[inline(always)]
    pub(crate) fn make_array(&mut self, items: &[Item], span: Span) -> Result<(), AllocError>
        ensures ok { OnOk result (self.new ≡ lengthened self.old
            (instruction.MakeArray (spreads_of (items_of items.now)) span ∷ [])) }
    {
        self.draft.emit_array(items, span)
    }

    // Keeps a position for a jump, whose length is known once what it passes is written.
    #[inline(always)]
    pub(crate) fn keep_position(&mut self) -> Result<usize, AllocError>
        ensures position { IfOk result (λ position. position ≡ length self.old.code) }
        ensures ok { OnOk result (self.new ≡ lengthened self.old (instruction.Jump 0 ∷ [])) }
    {
        let position = self.draft.len();
        self.emit(Instruction::Jump(0))?;
        Ok(position)
    }

    // How many instructions stand behind the position.
    pub(crate) fn count_after(&self, position: usize) -> usize
        requires { position < length self.now.code }
        ensures { result ≡ behind position self.now }
    {
        self.draft.len() - position - 1
    }

    // Puts the instruction at the position that was kept for it.
    #[inline(always)]
    pub(crate) fn fill(
        &mut self,
        position: usize,
        instruction: Instruction<'_>,
    ) -> Result<(), AllocError>
        requires { position < length self.old.code }
        ensures ok { OnOk result (self.new ≡ filled position instruction.entry self.old) }
    {
        self.draft
            .fill(self.alloc, &mut self.seen, position, instruction)
    }

    #[inline(always)]
    pub(crate) fn constant(&mut self, constant: Constant<'_>, span: Span) -> Result<(), AllocError>
        ensures ok { OnOk result (self.new ≡ lengthened self.old
            (instruction.LoadConst constant.entry span ∷ [])) }
    {
        self.emit(Instruction::LoadConst(constant, span))
    }

    pub(crate) fn integer(&mut self, number: i128, span: Span) -> Result<(), AllocError>
        ensures ok { OnOk result (self.new ≡ lengthened self.old
            (instruction.LoadConst (val.int number) span ∷ [])) }
    {
        match i64::try_from(number) {
            Ok(number) => self.constant(Constant::from_int(number), span),
            Err(_) => self.constant(Constant::from_shared(&Value::from_int(number)), span),
        }
    }
}
