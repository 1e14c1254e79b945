use aso_num::Amount;
use std::marker::Model;

/// A name in a script, borrowed from its text. To a contract it is its bytes.
#[derive(Debug, Drop)]
pub struct Name<'a> {
    text: &'a str,
}

impl<'a> Model for Name<'a> {
    ghost use Rattle.std.specs.Prelude.{List, ℕ};

    ghost Value = { List ℕ };

    ghost view = { λ a. a.text.now };
}

impl<'a> Name<'a> {
    ghost use Rattle.std.specs.Prelude.{◌≡◌};

    pub(crate) fn of(text: &'a str) -> Name<'a>
        ensures { result ≡ text.now }
    {
        Name { text }
    }

    pub fn as_str(&self) -> &str
        ensures { result.now ≡ self.now }
    {
        self.text
    }
}

/// An amount as a script writes it. To a contract it is that text.
#[derive(Debug, Drop)]
pub struct WrittenAmount<'a> {
    text: &'a str,
    amount: Amount,
}

impl<'a> Model for WrittenAmount<'a> {
    ghost use Rattle.std.specs.Prelude.{◌≡◌, List, ℕ, Ok};
    ghost use Rattle.aso_num.specs.AmountText.{amount_of};

    ghost Value = { List ℕ };

    ghost view = { λ a. a.text.now };

    ghost invariant = { λ a. amount_of a.text.now ≡ Ok a.amount };
}

impl<'a> WrittenAmount<'a> {
    ghost use Rattle.std.specs.Prelude.{◌≡◌, Ok};
    ghost use Rattle.aso_num.specs.AmountText.{amount_of};

    pub(crate) fn of(text: &'a str, amount: Amount) -> WrittenAmount<'a>
        requires { amount_of text.now ≡ Ok amount }
        ensures { result ≡ text.now }
    {
        WrittenAmount { text, amount }
    }

    pub fn as_str(&self) -> &str
        ensures { result.now ≡ self.now }
    {
        self.text
    }

    /// The amount that the text writes, in units of 1/10000.
    pub fn amount(&self) -> Amount
        ensures { amount_of self.now ≡ Ok result }
    {
        self.amount
    }
}
