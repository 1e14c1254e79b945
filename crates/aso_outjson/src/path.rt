use aso_memory::NoMemory;
use aso_num::Text;
use std::alloc::Global;
use std::marker::Model;

/// Which names of fields and numbers of items lead to a part of a JSON value. They are kept from the inside out, since a fault is
/// found inside and told outwards.
#[derive(Debug, Drop)]
pub struct Path {
    names: Vec<Text>,
}

impl Model for Path {
    ghost use Rattle.std.specs.Prelude.{List, ℕ, reverse};

    ghost Value = { List (List ℕ) };

    ghost view = { λ p. reverse p.names.items };
}

impl Path {
    ghost use Rattle.std.specs.Prelude.{◌≡◌, [], ◌∷◌, IfOk, reverse};

    /// The part itself.
    pub fn here(alloc: Global) -> Path
        ensures { result ≡ [] }
    {
        Path {
            names: Vec::new(alloc),
        }
    }

    /// The path from the part that has this one's under a name.
    pub fn under(self, alloc: Global, name: &str) -> Result<Path, NoMemory>
        ensures { IfOk result (λ p. p ≡ name.now ∷ self) }
    {
        let mut names = self.names;
        let mut copy = String::new(alloc);
        copy.push_str(name)?;
        names.push(Text::of(copy))?;
        Ok(Path { names })
    }

    /// The names, the innermost first.
    pub fn names(&self) -> &[Text]
        ensures { reverse result.now ≡ self.now }
    {
        &self.names
    }
}
