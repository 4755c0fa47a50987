// What rides along, in one number: the position of the frame, its byte order, and a byte for each kind of container that is open. A number is
// handed on in a register, where a context is copied by every function that gets it.
ghost use Rattle.std.specs.Prelude.{◌≡◌, ◌≤◌};
ghost use Rattle.meaning.specs.Limits.{largest_frame};
ghost use Rattle.reader_steps.specs.Rides.{open_in, context_of, Begins};

use container_depths::ContainerDepths;
use reader_basic::Context;

// What one more open container of each kind adds.
pub const ONE_STRUCTURE: usize = 4294967296;

pub const ONE_ARRAY: usize = 1099511627776;

pub const ONE_VARIANT: usize = 281474976710656;

pub const ONE_MAYBE: usize = 72057594037927936;

// Of a frame at a position, with no container open.
pub fn ride_of(position: usize, big: bool) -> usize
    requires { position ≤ largest_frame }
    ensures { Begins position big result }
{
    if big { position + 2147483648 } else { position }
}

fn depths_of(counts: usize) -> ContainerDepths
    ensures { result ≡ open_in counts }
{
    ContainerDepths {
        structure: (counts % 256) as u8,
        array: (counts / 256 % 256) as u8,
        variant: (counts / 65536 % 256) as u8,
        maybe: (counts / 16777216 % 256) as u8,
    }
}

// The context that a number stands for.
pub fn context_of(ride: usize) -> Context
    ensures { result ≡ context_of ride }
{
    let depths = depths_of(ride / 4294967296);
    Context {
        position: ride % 2147483648,
        big: ride / 2147483648 % 2 == 1,
        depths,
    }
}
