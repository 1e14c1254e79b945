// What members stand for in a tuple.
use crate::kinds::is_shared;
use crate::look::name_at;
use crate::outline::Outline;

impl Outline {
    ghost use Rattle.std.specs.Prelude.{◌≡◌, ◌<◌, ℕ, length};
    ghost use Rattle.aso_outline.specs.declared.seat.Seat.{Seat as Member};
    ghost use Rattle.aso_outline.specs.Members.{seats};
    ghost use Rattle.aso_outline.specs.Numbers.{IsNumberOf, seat_of};
    ghost use Rattle.aso_outline.specs.Targets.{number_of, target_of};

    /// A member's number is the count of the members before it.
    pub fn keeps_numbers(&self)
        ensures { (s : Member) (m : ℕ) → IsNumberOf self.now s m → m ≡ number_of self.now s }
    {}

    /// What a member stands for in a tuple: a label-only one for its first child, and a shared one for its data leaf.
    pub fn target(&self, m: u32) -> u32
        requires { m < length (seats self.now) }
        ensures { result ≡ target_of self.now m }
    {
        self.keeps_numbers();
        let draft = self.sound_draft();
        let seat = self.resolved(self.seat(m));
        if !is_shared(draft, seat) {
            return self.resolve(m);
        }
        match self.find(name_at(draft, seat)) {
            Some(found) => found,
            None => m,
        }
    }
}
