ghost use Rattle.std.specs.Prelude.{◌≡◌, IfOk, IfErr};
ghost use Rattle.aso_mdx.specs.declared.query.SetText.{SetText as Set};
ghost use Rattle.aso_mdx.specs.Grammar.{SpellsSet, IsSetFault};
ghost use Rattle.aso_mdx.specs.Answer.{Reads, HasFault};

use crate::fault::SyntaxFault;
use crate::query::SetText;
use crate::sets::set_tokens;
use aso_memory::NoMemory;
use aso_token::{Stop, cut_text};
use std::alloc::Global;

/// The set that a text spells: members, tuples, functions of members, braces and crossings, as docs/FORMATS.md says. Where it
/// spells none, the answer is the byte at fault. It takes time in proportion to the text, whatever nests in it.
pub fn read_set(alloc: Global, text: &str) -> Result<SetText, SyntaxFault>
    ensures found { IfOk result (λ s. SpellsSet text.now s) }
    ensures only { (s : Set) → SpellsSet text.now s → Reads result s }
    ensures fault { IfErr result (HasFault (IsSetFault text.now)) }
    ensures one_value { (s t : Set) → SpellsSet text.now s → SpellsSet text.now t → s ≡ t }
{
    let cut = cut_text(alloc, true, text)?;
    match set_tokens(alloc, cut.placed.items()) {
        Ok(set) => {
            if cut.whole {
                Ok(set)
            } else {
                Err(SyntaxFault::Syntax { at: cut.stop })
            }
        }
        Err(Stop::At(rest)) => Err(SyntaxFault::Syntax {
            at: cut.start(rest.len()),
        }),
        Err(Stop::NoMemory) => Err(SyntaxFault::NoMemory(NoMemory)),
    }
}
