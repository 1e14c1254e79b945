use std::marker::Model;

/// A list of values that are taken out again. To a contract it is the list.
#[derive(Debug, Drop)]
pub struct Parts<T> {
    entries: Vec<T>,
}

impl<T> Model for Parts<T> {
    ghost use Rattle.std.specs.Prelude.{List};
    ghost use Rattle.std.specs.Coded.{coded_list};

    ghost Value = { List T };

    ghost coded = { coded_list T.code };

    ghost view = { λ p. p.entries.items };
}

impl<T> Parts<T> {
    ghost use Rattle.std.specs.Prelude.{◌≡◌, length};

    pub fn of(entries: Vec<T>) -> Parts<T>
        ensures { result ≡ entries.items }
    {
        Parts { entries }
    }

    pub fn len(&self) -> usize
        ensures { result ≡ length self.now }
    {
        self.entries.len()
    }

    pub fn into_vec(self) -> Vec<T>
        ensures { result.items ≡ self }
    {
        self.entries
    }
}
