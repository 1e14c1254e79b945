// The members that are asked, each once.
use aso_memory::NoMemory;
use aso_outline::Outline;
use std::alloc::Global;

const NOWHERE: u32 = u32::MAX;

/// Members in the order in which they were first asked, and of each member of the outline, by number, its place among them.
#[derive(Debug, Drop)]
pub struct Asked {
    pub members: Vec<u32>,
    pub places: Vec<u32>,
}

impl Asked {
    ghost use Rattle.std.specs.Prelude.{◌≡◌, ◌<◌, [], Some, length, slice_get, IfOk, OnOk};
    ghost use Rattle.aso_outline.specs.Members.{seats};
    ghost use Rattle.aso_sums.specs.Asking.{Extends, IsAsking};

    /// No member is asked yet.
    pub fn new(alloc: Global, outline: &Outline) -> Result<Asked, NoMemory>
        ensures none { IfOk result (λ a. a.members.items ≡ []) }
        ensures asking { IfOk result (IsAsking outline.now) }
    {
        let mut places = Vec::new(alloc);
        for _member in 0..outline.members() {
            places.push(NOWHERE)?;
        }
        Ok(Asked {
            members: Vec::new(alloc),
            places,
        })
    }

    // Asks a member that wasn't asked.
    fn add(&mut self, _outline: &Outline, m: u32) -> Result<u32, NoMemory>
        requires asking { IsAsking _outline.now self.old }
        requires member { m < length (seats _outline.now) }
        ensures place { IfOk result (λ k. slice_get self.new.members.items k ≡ Some m) }
        ensures asking { OnOk result (IsAsking _outline.now self.new) }
        ensures extends { OnOk result (Extends self.old.members.items self.new.members.items) }
    {
        let place = self.members.len();
        if place >= NOWHERE as usize {
            return Err(NoMemory);
        }
        self.members.push(m)?;
        self.places[m as usize] = place as u32;
        Ok(place as u32)
    }

    /// The place of a member, which is asked from now on.
    pub fn place_of(&mut self, outline: &Outline, m: u32) -> Result<u32, NoMemory>
        requires asking { IsAsking outline.now self.old }
        requires member { m < length (seats outline.now) }
        ensures place { IfOk result (λ k. slice_get self.new.members.items k ≡ Some m) }
        ensures asking { OnOk result (IsAsking outline.now self.new) }
        ensures extends { OnOk result (Extends self.old.members.items self.new.members.items) }
    {
        let place = self.places[m as usize];
        if place != NOWHERE {
            return Ok(place);
        }
        self.add(outline, m)
    }
}
