// Laws of the definitions.
ghost use Rattle.std.specs.Prelude.{◌≡◌, ℕ, List};
ghost use Rattle.aso_script.specs.Script.{Addition, Spells};

/// A line spells at most one addition.
pub fn spells_one_addition()
    ensures { (line : List ℕ) (a b : Addition) → Spells line a → Spells line b → a ≡ b }
{}
