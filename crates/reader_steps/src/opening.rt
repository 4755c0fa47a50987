// Opening a container: one more is open, and the refusal where that is one too many.
ghost use Rattle.std.specs.Prelude.{◌≡◌, ◌+◌, ◌≤◌, nat_le};
ghost use Rattle.meaning.specs.Limits.{largest_number};
ghost use Rattle.meaning.specs.Depths.{structure, array, variant, maybe, total, depth_refusal};
ghost use Rattle.container_depths.specs.Opening.{depths_of};
ghost use Rattle.reader_steps.specs.Rides.{context_of};
ghost use Rattle.reader_steps.specs.Openings.{Opens, inner, inside};

use crate::ride::{ONE_ARRAY, ONE_MAYBE, ONE_STRUCTURE, ONE_VARIANT};
use container_depths::ContainerDepths;
use meaning::refusals::Refusal;

// A one in each of four bytes.
const ONE_OF_EACH: usize = 16843009;

// Whether as many containers are open as may be: by a one in each of four bytes, the fourth byte of the product is the sum of all.
fn is_full(ride: usize) -> bool
    requires { depth_refusal (depths_of (context_of ride).depths) ≡ 0 }
    ensures { result ≡ nat_le 64 (total (depths_of (context_of ride).depths)) }
{
    ContainerDepths::MAX_TOTAL <= ride / ONE_STRUCTURE * ONE_OF_EACH / 16777216 % 256
}

// What rides along inside one more container, where one may be opened.
fn inside(ride: usize, one: usize) -> Result<usize, Refusal>
    requires { (depth_refusal (depths_of (context_of ride).depths) ≡ 0) × (ride + one ≤ largest_number) }
    ensures { result ≡ inside ride one }
{
    if is_full(ride) {
        return Err(Refusal::ContainersTooDeep);
    }
    Ok(ride + one)
}

pub fn in_maybe(ride: usize) -> Result<usize, Refusal>
    requires { depth_refusal (depths_of (context_of ride).depths) ≡ 0 }
    ensures { Opens maybe (context_of ride) (inner result) }
{
    inside(ride, ONE_MAYBE)
}

pub fn in_variant(ride: usize) -> Result<usize, Refusal>
    requires { depth_refusal (depths_of (context_of ride).depths) ≡ 0 }
    ensures { Opens variant (context_of ride) (inner result) }
{
    inside(ride, ONE_VARIANT)
}

pub fn in_array(ride: usize) -> Result<usize, Refusal>
    requires { depth_refusal (depths_of (context_of ride).depths) ≡ 0 }
    ensures { Opens array (context_of ride) (inner result) }
{
    if ContainerDepths::MAX_ARRAY <= ride / ONE_ARRAY % 256 {
        return Err(Refusal::ArraysTooDeep);
    }
    inside(ride, ONE_ARRAY)
}

pub fn in_structure(ride: usize) -> Result<usize, Refusal>
    requires { depth_refusal (depths_of (context_of ride).depths) ≡ 0 }
    ensures { Opens structure (context_of ride) (inner result) }
{
    if ContainerDepths::MAX_STRUCTURE <= ride / ONE_STRUCTURE % 256 {
        return Err(Refusal::StructuresTooDeep);
    }
    inside(ride, ONE_STRUCTURE)
}
