// Heights, the tops of hierarchies, and children.
ghost use Rattle.std.specs.Prelude.{◌≡◌, max};

use crate::outline::Outline;
use crate::seat::Seat;

fn larger(a: u32, b: u32) -> u32
    ensures { result ≡ max a b }
{
    if a < b { b } else { a }
}

impl Outline {
    ghost use Rattle.std.specs.Prelude.{◌≡◌, ◌<◌, ◌≤◌, length, map, IfSome};
    ghost use Rattle.aso_tree.specs.Trees.{greatest, places_of};
    ghost use Rattle.aso_outline.specs.declared.seat.Seat.TheVariants.{Inner, Carried};
    ghost use Rattle.aso_outline.specs.Heights.{first_child_of, height_of, next_child_of, root_height, top_of};
    ghost use Rattle.aso_outline.specs.Members.{dim_at, seats};
    ghost use Rattle.aso_outline.specs.Numbers.{IsNumberIf, IsSeat, seat_of};

    fn root_height(&self, dim: u32, hier: u32) -> u32
        requires dim { dim < length self.now.dims }
        requires hier { hier < length (dim_at self.now dim).hiers }
        ensures value { result ≡ root_height self.now dim hier }
        ensures bound { result ≤ 31 }
    {
        self.keeps();
        self.tree_table(dim, hier).forest.height(0)
    }

    fn greatest_root(&self, dim: u32) -> u32
        requires { dim < length self.now.dims }
        ensures value { result ≡ greatest (map (root_height self.now dim) (places_of (dim_at self.now dim).hiers)) }
        ensures bound { result ≤ 31 }
    {
        let mut height = 0;
        for hier in 0..self.hiers(dim) {
            height = larger(height, self.root_height(dim, hier));
        }
        height
    }

    /// How far the deepest member below it lies below it; 0 for a leaf. The roots of several hierarchies lie one below the
    /// dimension's own member.
    pub fn height(&self, m: u32) -> u32
        requires { m < length (seats self.now) }
        ensures { result ≡ height_of self.now (seat_of self.now m) }
    {
        match self.seat(m) {
            Seat::Whole { dim } => self.greatest_root(dim) + 1,
            Seat::Inner { dim, hier, at } => self.tree_table(dim, hier).forest.height(at),
            Seat::Carried { attr, at } => self.attr_table(attr).forest.height(at),
        }
    }

    /// The greatest height of a hierarchy's members that aren't label only.
    pub fn top(&self, dim: u32, hier: u32) -> u32
        requires dim { dim < length self.now.dims }
        requires hier { hier < length (dim_at self.now dim).hiers }
        ensures { result ≡ top_of self.now dim hier }
    {
        self.tree_table(dim, hier).top
    }

    fn number_if(&self, seat: Option<Seat>) -> Option<u32>
        requires { IfSome seat (IsSeat self.now) }
        ensures { IsNumberIf self.now seat result }
    {
        match seat {
            Some(seat) => Some(self.number(seat)),
            None => None,
        }
    }

    fn first_inner(&self, dim: u32, hier: u32, at: u32) -> Option<Seat>
        requires { IsSeat self.now (Inner dim hier at) }
        ensures value { result ≡ first_child_of self.now (Inner dim hier at) }
        ensures there { IfSome result (IsSeat self.now) }
    {
        match self.tree_table(dim, hier).forest.first_child(at) {
            Some(at) => Some(Seat::Inner { dim, hier, at }),
            None => None,
        }
    }

    fn first_carried(&self, attr: u32, at: u32) -> Option<Seat>
        requires { IsSeat self.now (Carried attr at) }
        ensures value { result ≡ first_child_of self.now (Carried attr at) }
        ensures there { IfSome result (IsSeat self.now) }
    {
        match self.attr_table(attr).forest.first_child(at) {
            Some(at) => Some(Seat::Carried { attr, at }),
            None => None,
        }
    }

    fn first_child_seat(&self, seat: Seat) -> Option<Seat>
        requires { IsSeat self.now seat }
        ensures value { result ≡ first_child_of self.now seat }
        ensures there { IfSome result (IsSeat self.now) }
    {
        self.keeps_roots();
        match seat {
            Seat::Whole { dim } => Some(Seat::Inner {
                dim,
                hier: 0,
                at: 0,
            }),
            Seat::Inner { dim, hier, at } => self.first_inner(dim, hier, at),
            Seat::Carried { attr, at } => self.first_carried(attr, at),
        }
    }

    /// The first child of a member. That of a dimension above several hierarchies is the root of the first.
    pub fn first_child(&self, m: u32) -> Option<u32>
        requires { m < length (seats self.now) }
        ensures { IsNumberIf self.now (first_child_of self.now (seat_of self.now m)) result }
    {
        self.number_if(self.first_child_seat(self.seat(m)))
    }

    fn next_inner(&self, dim: u32, hier: u32, at: u32) -> Option<Seat>
        requires there { IsSeat self.now (Inner dim hier at) }
        requires child { 0 < at }
        ensures value { result ≡ next_child_of self.now (Inner dim hier at) }
        ensures there { IfSome result (IsSeat self.now) }
    {
        match self.tree_table(dim, hier).forest.next_child(at) {
            Some(at) => Some(Seat::Inner { dim, hier, at }),
            None => None,
        }
    }

    fn next_root(&self, dim: u32, hier: u32) -> Option<Seat>
        requires { IsSeat self.now (Inner dim hier 0) }
        ensures value { result ≡ next_child_of self.now (Inner dim hier 0) }
        ensures there { IfSome result (IsSeat self.now) }
    {
        self.keeps_roots();
        if hier + 1 < self.hiers(dim) {
            Some(Seat::Inner {
                dim,
                hier: hier + 1,
                at: 0,
            })
        } else {
            None
        }
    }

    fn next_carried(&self, attr: u32, at: u32) -> Option<Seat>
        requires { IsSeat self.now (Carried attr at) }
        ensures value { result ≡ next_child_of self.now (Carried attr at) }
        ensures there { IfSome result (IsSeat self.now) }
    {
        match self.attr_table(attr).forest.next_child(at) {
            Some(at) => Some(Seat::Carried { attr, at }),
            None => None,
        }
    }

    fn next_child_seat(&self, seat: Seat) -> Option<Seat>
        requires { IsSeat self.now seat }
        ensures value { result ≡ next_child_of self.now seat }
        ensures there { IfSome result (IsSeat self.now) }
    {
        match seat {
            Seat::Whole { .. } => None,
            Seat::Inner { dim, hier, at: 0 } => self.next_root(dim, hier),
            Seat::Inner { dim, hier, at } => self.next_inner(dim, hier, at),
            Seat::Carried { attr, at } => self.next_carried(attr, at),
        }
    }

    /// The child behind a member of the same parent. Behind a hierarchy's root comes that of the next hierarchy.
    pub fn next_child(&self, m: u32) -> Option<u32>
        requires { m < length (seats self.now) }
        ensures { IsNumberIf self.now (next_child_of self.now (seat_of self.now m)) result }
    {
        self.number_if(self.next_child_seat(self.seat(m)))
    }
}
