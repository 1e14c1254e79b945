// What stands at a member: its formula, operator and solve order.
ghost use Rattle.std.specs.Prelude.{◌≡◌, is_some, unwrap_or, if◌then◌else◌};

use crate::draft::{DraftMember, Expr, Op};
use crate::look::member_at;
use crate::outline::Outline;

fn solve_order(member: &DraftMember) -> u8
    ensures { result ≡ unwrap_or member.now.solve (if is_some member.now.formula then 20 else 10) }
{
    match member.solve {
        Some(order) => order,
        None => if member.formula.is_some() { 20 } else { 10 },
    }
}

impl Outline {
    ghost use Rattle.std.specs.Prelude.{◌≡◌, ◌<◌, length};
    ghost use Rattle.std.specs.Option.{option_map};
    ghost use Rattle.aso_outline.specs.Marks.{op_of, solve_of};
    ghost use Rattle.aso_outline.specs.Ranks.{formula_of};
    ghost use Rattle.aso_outline.specs.Members.{member_at, seats};
    ghost use Rattle.aso_outline.specs.Numbers.{seat_of};

    fn member(&self, m: u32) -> Option<&DraftMember>
        requires { m < length (seats self.now) }
        ensures { option_map (λ found. found.now) result ≡ member_at self.now (seat_of self.now m) }
    {
        member_at(self.sound_draft(), self.seat(m))
    }

    /// The formula that stands at a member.
    pub fn formula(&self, m: u32) -> Option<&Expr>
        requires { m < length (seats self.now) }
        ensures { option_map (λ e. e.now) result ≡ formula_of self.now (seat_of self.now m) }
    {
        match self.member(m) {
            Some(member) => member.formula.as_ref(),
            None => None,
        }
    }

    /// How a member enters its parent.
    pub fn op(&self, m: u32) -> Op
        requires { m < length (seats self.now) }
        ensures { result ≡ op_of self.now (seat_of self.now m) }
    {
        match self.member(m) {
            Some(member) => member.op,
            None => Op::Plus,
        }
    }

    /// The given solve order of a computed member; else 20 with a formula, and 10 without one. Of a stored member it says nothing.
    pub fn solve(&self, m: u32) -> u8
        requires { m < length (seats self.now) }
        ensures { result ≡ solve_of self.now (seat_of self.now m) }
    {
        match self.member(m) {
            Some(member) => solve_order(member),
            None => 10,
        }
    }
}
