// Laws of the grammar.
ghost use Rattle.std.specs.Prelude.{◌≡◌, ℕ, List};
ghost use Rattle.aso_mdx.specs.declared.query.Query.{Query};
ghost use Rattle.aso_mdx.specs.Grammar.{SpellsQuery};

/// A text spells at most one query.
pub fn spells_one_query()
    ensures { (text : List ℕ) (q r : Query) → SpellsQuery text q → SpellsQuery text r → q ≡ r }
{}
