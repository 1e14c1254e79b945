// Members by number.
use crate::build::hier_count;
use crate::look::name_at;
use crate::outline::Outline;
use crate::resolve::is_computed;
use crate::seat::{DimRef, Seat};
use crate::tables::{AttrTable, DimTable, TreeTable};

impl Outline {
    ghost use Rattle.std.specs.Prelude.{◌≡◌, ◌<◌, ◌≤◌, length, not};
    ghost use Rattle.aso_outline.specs.Classes.{is_stored};
    ghost use Rattle.aso_outline.specs.Members.{dim_at, resolve, seats};
    ghost use Rattle.aso_outline.specs.Numbers.{IsDim, IsNumberOf, IsSeat, dim_ref, hier_of, root_of, seat_of};
    ghost use Rattle.aso_outline.specs.Ranks.{rank_of};
    ghost use Rattle.aso_outline.specs.Rules.{name_at};
    ghost use Rattle.aso_outline.specs.Tables.{IsAttrTable, IsDimTable, IsTreeTable};

    /// How many members there are. Their numbers are those below.
    pub fn members(&self) -> u32
        ensures { result ≡ length (seats self.now) }
    {
        self.keeps_counts();
        self.tables().seats.len() as u32
    }

    /// How many base dimensions there are.
    pub fn dims(&self) -> u32
        ensures { result ≡ length self.now.dims }
    {
        self.sound_draft().dims.items().len() as u32
    }

    /// How many attribute dimensions there are.
    pub fn attrs(&self) -> u32
        ensures { result ≡ length self.now.attrs }
    {
        self.sound_draft().attrs.items().len() as u32
    }

    pub(crate) fn dim_table(&self, dim: u32) -> &DimTable
        requires { dim < length self.now.dims }
        ensures { IsDimTable self.now dim result.now }
    {
        let tables = self.tables();
        &tables.dims[dim as usize]
    }

    pub(crate) fn tree_table(&self, dim: u32, hier: u32) -> &TreeTable
        requires dim { dim < length self.now.dims }
        requires hier { hier < length (dim_at self.now dim).hiers }
        ensures { IsTreeTable self.now dim hier result.now }
    {
        let table = self.dim_table(dim);
        &table.trees[hier as usize]
    }

    pub(crate) fn attr_table(&self, attr: u32) -> &AttrTable
        requires { attr < length self.now.attrs }
        ensures { IsAttrTable self.now attr result.now }
    {
        let tables = self.tables();
        &tables.attrs[attr as usize]
    }

    /// How many hierarchies a base dimension has.
    pub fn hiers(&self, dim: u32) -> u32
        requires { dim < length self.now.dims }
        ensures { result ≡ length (dim_at self.now dim).hiers }
    {
        hier_count(self.sound_draft(), dim)
    }

    /// What a member number stands for.
    pub fn seat(&self, m: u32) -> Seat
        requires { m < length (seats self.now) }
        ensures value { result ≡ seat_of self.now m }
        ensures there { IsSeat self.now result }
    {
        let tables = self.tables();
        tables.seats[m as usize]
    }

    /// The number of a member.
    pub fn number(&self, seat: Seat) -> u32
        requires { IsSeat self.now seat }
        ensures { IsNumberOf self.now seat result }
    {
        self.keeps_counts();
        match seat {
            Seat::Whole { dim } => self.dim_table(dim).first,
            Seat::Inner { dim, hier, at } => self.tree_table(dim, hier).first + at,
            Seat::Carried { attr, at } => self.attr_table(attr).first + at,
        }
    }

    /// The name that stands at a member, a shared member's too.
    pub fn name(&self, m: u32) -> &str
        requires { m < length (seats self.now) }
        ensures { result.now ≡ name_at self.now (seat_of self.now m) }
    {
        name_at(self.sound_draft(), self.seat(m))
    }

    /// The dimension of a member.
    pub fn dim_of(&self, m: u32) -> DimRef
        requires { m < length (seats self.now) }
        ensures { result ≡ dim_ref (seat_of self.now m) }
    {
        match self.seat(m) {
            Seat::Whole { dim } => DimRef::Base(dim),
            Seat::Inner { dim, .. } => DimRef::Base(dim),
            Seat::Carried { attr, .. } => DimRef::Attr(attr),
        }
    }

    /// The hierarchy in which a member of a base dimension stands; 0 for another member.
    pub fn hier_of(&self, m: u32) -> u32
        requires { m < length (seats self.now) }
        ensures { result ≡ hier_of (seat_of self.now m) }
    {
        match self.seat(m) {
            Seat::Inner { hier, .. } => hier,
            _ => 0,
        }
    }

    fn root_seat(&self, dim: DimRef) -> Seat
        requires { IsDim self.now dim }
        ensures value { result ≡ root_of self.now dim }
        ensures there { IsSeat self.now result }
    {
        self.keeps_roots();
        match dim {
            DimRef::Base(dim) => if self.hiers(dim) > 1 {
                Seat::Whole { dim }
            } else {
                Seat::Inner {
                    dim,
                    hier: 0,
                    at: 0,
                }
            },
            DimRef::Attr(attr) => Seat::Carried { attr, at: 0 },
        }
    }

    /// A dimension's own member.
    pub fn root(&self, dim: DimRef) -> u32
        requires { IsDim self.now dim }
        ensures { IsNumberOf self.now (root_of self.now dim) result }
    {
        self.number(self.root_seat(dim))
    }

    /// The member itself, or what a label-only member stands for.
    pub fn resolve(&self, m: u32) -> u32
        requires { m < length (seats self.now) }
        ensures { IsNumberOf self.now (resolve self.now (seat_of self.now m)) result }
    {
        self.keeps();
        self.number(self.resolved(self.seat(m)))
    }

    /// The member isn't computed: what it stands for has no formula and, in a dynamic hierarchy, no children.
    pub fn is_stored(&self, m: u32) -> bool
        requires { m < length (seats self.now) }
        ensures { result ≡ is_stored self.now (seat_of self.now m) }
    {
        !is_computed(self.sound_draft(), self.seat(m))
    }

    /// The rank of a member: 0 for a stored one, that of what it stands for for a label-only one, and for another one more than the
    /// greatest rank of those that its value needs. The laws of ranks are those of `keeps_ranks`.
    pub fn rank(&self, m: u32) -> u32
        requires { m < length (seats self.now) }
        ensures value { result ≡ rank_of self.now m }
        ensures bound { result ≤ 64 }
    {
        self.keeps_ranks();
        let tables = self.tables();
        match tables.ranks[m as usize] {
            Some(rank) => rank,
            None => unreachable!(),
        }
    }
}
