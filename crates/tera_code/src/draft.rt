// A body that is being written.
ghost use Rattle.std.specs.Prelude.{◌≡◌, ◌<◌, [], ◌∷◌, length, OnOk};
ghost use Rattle.tera_code.specs.Code.{lengthened, spreads_of};
ghost use Rattle.tera_code.specs.declared.instruction.Instruction.TheVariants as instruction;
ghost use Rattle.tera_code.specs.Filling.{filled};
ghost use Rattle.tera_syntax_tree.specs.Prelude.{items_of};

use crate::chunk::Chunk;
use crate::instruction::Instruction;
use crate::name_cache::NameCache;
use crate::packed::{Packed, Tables};
use crate::size_guess::SizeGuess;
use std::alloc::{AllocError, Global};
use std::marker::Model;
use tera_syntax_tree::Item;
use tera_values::{Name, NameRef, Span};

/// The instructions of a body as far as they are written, and the name of the template in whose text it stands. Nothing is noted yet in
/// one of those behind it, which may change.
#[derive(Drop)]
pub(crate) struct Draft {
    file: Name,
    tables: Tables,
    code: Vec<Packed>,
}

impl Model for Draft {
    ghost use Rattle.std.specs.Prelude.{map};
    ghost use Rattle.std.specs.List.{All};
    ghost use Rattle.tera_code.specs.Listing.{Listing};
    ghost use Rattle.tera_code.specs.Packed.{Within, tables_of, unpacked};
    ghost use Rattle.std.specs.Coded.{codes};
    ghost use Rattle.tera_values.specs.Coding.{val_coding};

    ghost Value = { Listing };

    ghost coded = { Prim.hlevel (codes, val_coding) };

    ghost view = { λ d. record {
      file = d.file;
      code = map (unpacked (tables_of d.tables))
          d.code.items;
    } };

    ghost invariant = { λ d. All (Within (tables_of d.tables)) d.code.items };
}

impl Draft {
    ghost use Rattle.tera_code.specs.Listing.{Listing};

    #[inline(always)]
    pub(crate) fn new(alloc: Global, file: Name) -> Draft
        ensures { result ≡ record { file = file; code = [] } }
    {
        Draft {
            file,
            tables: Tables::new(alloc),
            code: Vec::new(alloc),
        }
    }

    /// The body, when all of it is written.
    pub(crate) fn into_chunk(self) -> Chunk
        ensures { result ≡ self }
    {
        let Draft { file, tables, code } = self;
        Chunk::new(file, tables, code)
    }

    /// How many instructions there are.
    pub(crate) fn len(&self) -> usize
        ensures { result ≡ length self.now.code }
    {
        self.code.len()
    }

    pub(crate) fn make_room(&mut self, room: SizeGuess) -> Result<(), AllocError>
        ensures same { self.new ≡ self.old }
    {
        self.code.reserve(room.instructions)?;
        self.tables.make_room(room.spans, room.bytes)
    }

    // Inlined, as is what it stands on: each caller names one form, and no other one is looked for.
    #[inline(always)]
    pub(crate) fn emit(
        &mut self,
        alloc: Global,
        seen: &mut NameCache,
        instruction: Instruction<'_>,
    ) -> Result<(), AllocError>
        ensures { OnOk result (self.new ≡ lengthened self.old (instruction.entry ∷ [])) }
    {
        let packed = self.tables.pack(alloc, seen, instruction)?;
        self.code.push(packed)?;
        Ok(())
    }

    // The same for a text that is put out, which is most of a template: no other form is looked for.
    #[tactic(auto, using(crate::proofs::Growth::all_stay, crate::proofs::Growth::all_grow))]
    #[inline(always)]
    pub(crate) fn emit_text(&mut self, text: &str) -> Result<(), AllocError>
        ensures { OnOk result
            (self.new ≡ lengthened self.old (instruction.WriteText text.now ∷ [])) }
    {
        let packed = self.tables.text(text)?;
        self.code.push(packed)?;
        Ok(())
    }

    // The same for a name whose value is put out.
    #[tactic(auto, using(crate::proofs::Growth::all_stay, crate::proofs::Growth::all_grow))]
    #[inline(always)]
    pub(crate) fn emit_name(
        &mut self,
        alloc: Global,
        seen: &mut NameCache,
        name: NameRef<'_>,
        span: Span,
    ) -> Result<(), AllocError>
        ensures { OnOk result
            (self.new ≡ lengthened self.old (instruction.WriteName name.entry span ∷ [])) }
    {
        let packed = self.tables.written_name(alloc, seen, &name, span)?;
        self.code.push(packed)?;
        Ok(())
    }

    // The same for an array of these items, whose flags are noted where they stay.
    #[tactic(auto, using(crate::proofs::Growth::all_stay, crate::proofs::Growth::all_grow))]
    pub(crate) fn emit_array(&mut self, items: &[Item], span: Span) -> Result<(), AllocError>
        ensures { OnOk result (self.new ≡ lengthened self.old
            (instruction.MakeArray (spreads_of (items_of items.now)) span ∷ [])) }
    {
        let packed = self.tables.array_of(items, span)?;
        self.code.push(packed)?;
        Ok(())
    }

    #[inline(always)]
    pub(crate) fn fill(
        &mut self,
        alloc: Global,
        seen: &mut NameCache,
        position: usize,
        instruction: Instruction<'_>,
    ) -> Result<(), AllocError>
        requires { position < length self.old.code }
        ensures { OnOk result (self.new ≡ filled position instruction.entry self.old) }
    {
        let packed = self.tables.pack(alloc, seen, instruction)?;
        self.code[position] = packed;
        Ok(())
    }
}
