ghost use Rattle.std.specs.Prelude.{◌≡◌, IfOk, IfErr};
ghost use Rattle.aso_mdx.specs.declared.query.Query.{Query as AQuery};
ghost use Rattle.aso_mdx.specs.Grammar.{SpellsQuery, IsQueryFault};
ghost use Rattle.aso_mdx.specs.Answer.{Reads, HasFault};

use crate::fault::SyntaxFault;
use crate::queries::query_tokens;
use crate::query::Query;
use aso_memory::NoMemory;
use aso_token::{Stop, cut_text};
use std::alloc::Global;

/// The query that a text spells: members of its own, its axes, its database and its slicer, as docs/FORMATS.md says. Where it
/// spells none, the answer is the byte at fault. It takes time in proportion to the text, whatever nests in it.
pub fn read(alloc: Global, text: &str) -> Result<Query, SyntaxFault>
    ensures found { IfOk result (λ q. SpellsQuery text.now q) }
    ensures only { (q : AQuery) → SpellsQuery text.now q → Reads result q }
    ensures fault { IfErr result (HasFault (IsQueryFault text.now)) }
    ensures one_value { (q r : AQuery) → SpellsQuery text.now q → SpellsQuery text.now r → q ≡ r }
{
    let cut = cut_text(alloc, true, text)?;
    match query_tokens(alloc, cut.placed.items()) {
        Ok(query) => {
            if cut.whole {
                Ok(query)
            } else {
                Err(SyntaxFault::Syntax { at: cut.stop })
            }
        }
        Err(Stop::At(rest)) => Err(SyntaxFault::Syntax {
            at: cut.start(rest.len()),
        }),
        Err(Stop::NoMemory) => Err(SyntaxFault::NoMemory(NoMemory)),
    }
}
