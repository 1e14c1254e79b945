// The attributes that data leaves carry.
use crate::outline::Outline;
use crate::seat::Seat;
use aso_num::Text;

impl Outline {
    ghost use Rattle.std.specs.Prelude.{◌≡◌, ◌<◌, false, length, unwrap_or, IfSome};
    ghost use Rattle.std.specs.List.{list_any};
    ghost use Rattle.std.specs.Option.{option_map};
    ghost use Rattle.aso_outline.specs.declared.seat.Seat.TheVariants.{Carried};
    ghost use Rattle.aso_outline.specs.Classes.{carried_names, carries, is_attr_below, leaf_count};
    ghost use Rattle.aso_outline.specs.Members.{seats};
    ghost use Rattle.aso_outline.specs.Numbers.{IsSeat, seat_of};
    ghost use Rattle.aso_outline.specs.Ranks.{named};

    /// The member of a name; a shared member has none of its own.
    pub fn named(&self, name: &str) -> Option<Seat>
        ensures value { result ≡ named self.now name.now }
        ensures there { IfSome result (IsSeat self.now) }
    {
        match self.find(name) {
            Some(number) => Some(self.seat(number)),
            None => None,
        }
    }

    /// The member is the one at a place of an attribute dimension, or lies below it.
    fn is_below(&self, attr: u32, at: u32, seat: Seat) -> bool
        requires top { IsSeat self.now (Carried attr at) }
        requires seat { IsSeat self.now seat }
        ensures { result ≡ is_attr_below self.now (Carried attr at) seat }
    {
        match seat {
            Seat::Carried {
                attr: other,
                at: place,
            } => {
                if attr == other {
                    self.attr_table(other).forest.is_under(place, at)
                } else {
                    false
                }
            }
            _ => false,
        }
    }

    fn names_below(&self, attr: u32, at: u32, name: &str) -> bool
        requires { IsSeat self.now (Carried attr at) }
        ensures { result ≡ unwrap_or (option_map (is_attr_below self.now (Carried attr at)) (named self.now name.now)) false }
    {
        match self.named(name) {
            Some(seat) => self.is_below(attr, at, seat),
            None => false,
        }
    }

    fn any_below(&self, names: &[Text], attr: u32, at: u32) -> bool
        requires { IsSeat self.now (Carried attr at) }
        ensures { result ≡ list_any (λ name. unwrap_or (option_map (is_attr_below self.now (Carried attr at)) (named self.now name)) false) names.now }
    {
        names
            .iter()
            .any(|name| self.names_below(attr, at, name.as_str()))
    }

    fn carried(&self, dim: u32, leaf: u32) -> &[Text]
        requires dim { dim < length self.now.dims }
        requires leaf { leaf < leaf_count self.now dim }
        ensures { result.now ≡ carried_names self.now dim leaf }
    {
        let members = self.tree(Seat::Inner {
            dim,
            hier: 0,
            at: 0,
        });
        members[self.own_place(dim, leaf) as usize].carries.items()
    }

    /// The data leaf carries the member of an attribute dimension, or one below it. No leaf carries another member.
    pub fn carries(&self, dim: u32, leaf: u32, attr: u32) -> bool
        requires dim { dim < length self.now.dims }
        requires leaf { leaf < leaf_count self.now dim }
        requires attr { attr < length (seats self.now) }
        ensures { result ≡ carries self.now dim leaf (seat_of self.now attr) }
    {
        match self.seat(attr) {
            Seat::Carried { attr, at } => self.any_below(self.carried(dim, leaf), attr, at),
            _ => false,
        }
    }
}
