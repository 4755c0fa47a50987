// How many containers are open, and the limits on them. Ports container_depths.rs.
#![tactic(auto)]

ghost use Rattle.std.specs.Prelude.{◌≡◌, ◌+◌, ◌<◌};
ghost use Rattle.meaning.specs.Depths.{structure, array, variant, maybe, depths, none_open, depth_refusal, opened, closed};
ghost use Rattle.meaning.specs.Refused.{refusal_in};
ghost use Rattle.container_depths.specs.Opening.{depths_of, raised_in, Raises};

use meaning::limits::{MOST_ARRAYS, MOST_CONTAINERS, MOST_STRUCTURES};
use meaning::refusals::Refusal;

#[derive(Clone, Copy)]
pub struct ContainerDepths {
    pub structure: u8,
    pub array: u8,
    pub variant: u8,
    pub maybe: u8,
}

// Which limit, if any, these counts are over.
#[tactic(auto, unfolding(meaning::specs::Depths::depth_refusal))]
fn check(structure: usize, array: usize, variant: usize, maybe: usize) -> Result<(), Refusal>
    requires { structure + array + variant + maybe < 65536 }
    ensures { refusal_in result ≡ depth_refusal (depths structure array variant maybe) }
{
    if ContainerDepths::MAX_STRUCTURE < structure {
        return Err(Refusal::StructuresTooDeep);
    }
    if ContainerDepths::MAX_ARRAY < array {
        return Err(Refusal::ArraysTooDeep);
    }
    if ContainerDepths::MAX_TOTAL < structure + array + variant + maybe {
        return Err(Refusal::ContainersTooDeep);
    }
    Ok(())
}

impl ContainerDepths {
    pub const MAX_STRUCTURE: usize = MOST_STRUCTURES;

    pub const MAX_ARRAY: usize = MOST_ARRAYS;

    pub const MAX_TOTAL: usize = MOST_CONTAINERS;

    pub fn new() -> Self
        ensures { depths_of result ≡ none_open }
    {
        ContainerDepths {
            structure: 0,
            array: 0,
            variant: 0,
            maybe: 0,
        }
    }

    // So many more of each kind, where no limit is in the way.
    #[tactic(auto, using(meaning::proofs::DepthLaws::limits))]
    fn raised(
        self,
        structure: usize,
        array: usize,
        variant: usize,
        maybe: usize,
    ) -> Result<Self, Refusal>
        requires { structure + array + variant + maybe < 2 }
        ensures { Raises (depths_of self) (depths (self.structure + structure) (self.array + array) (self.variant + variant) (self.maybe + maybe)) (raised_in self result) }
    {
        let structures = usize::from(self.structure) + structure;
        let arrays = usize::from(self.array) + array;
        let variants = usize::from(self.variant) + variant;
        let maybes = usize::from(self.maybe) + maybe;
        check(structures, arrays, variants, maybes)?;
        Ok(ContainerDepths {
            structure: structures as u8,
            array: arrays as u8,
            variant: variants as u8,
            maybe: maybes as u8,
        })
    }

    pub fn inc_structure(self) -> Result<Self, Refusal>
        ensures { Raises (depths_of self) (opened structure (depths_of self)) (raised_in self result) }
    {
        self.raised(1, 0, 0, 0)
    }

    pub fn inc_array(self) -> Result<Self, Refusal>
        ensures { Raises (depths_of self) (opened array (depths_of self)) (raised_in self result) }
    {
        self.raised(0, 1, 0, 0)
    }

    pub fn inc_variant(self) -> Result<Self, Refusal>
        ensures { Raises (depths_of self) (opened variant (depths_of self)) (raised_in self result) }
    {
        self.raised(0, 0, 1, 0)
    }

    pub fn inc_maybe(self) -> Result<Self, Refusal>
        ensures { Raises (depths_of self) (opened maybe (depths_of self)) (raised_in self result) }
    {
        self.raised(0, 0, 0, 1)
    }

    pub fn dec_structure(mut self) -> Self
        ensures { depths_of result ≡ closed structure (depths_of self) }
    {
        self.structure = self.structure.saturating_sub(1);
        self
    }

    pub fn dec_array(mut self) -> Self
        ensures { depths_of result ≡ closed array (depths_of self) }
    {
        self.array = self.array.saturating_sub(1);
        self
    }

    pub fn dec_maybe(mut self) -> Self
        ensures { depths_of result ≡ closed maybe (depths_of self) }
    {
        self.maybe = self.maybe.saturating_sub(1);
        self
    }
}
