// The small writers: what stands below the writers that call each other. Here: their answers, and what rides along.
// Events and their texts, and the output and its ends, share no struct: every contract would have to name what stands in it at entry and exit.
#![tactic(auto)]

pub mod basic;
pub mod closing;
pub mod numbers;
pub mod texts_run;

ghost use Rattle.std.specs.Prelude.{◌≡◌, ◌≤◌, ◌<◌, ◌^◌};
ghost use Rattle.writer_store.specs.Stores.{cap, sum};

use container_depths::ContainerDepths;
use writer_store::add;

// What was written of a value: the number of the next event's first number, and how many bytes.
#[derive(Clone, Copy)]
pub struct Wrote {
    pub next: usize,
    pub size: usize,
}

// The same of children in a row, and how many ends are kept of them.
#[derive(Clone, Copy)]
pub struct Row {
    pub next: usize,
    pub size: usize,
    pub count: usize,
}

// Where a value is written: the number of its first event's first number, the place of its first byte, and how many ends are kept already.
#[derive(Clone, Copy)]
pub struct Spot {
    pub next: usize,
    pub start: usize,
    pub top: usize,
}

// What rides along: the byte order, and how many containers are open.
#[derive(Clone, Copy)]
pub struct Context {
    pub big: bool,
    pub depths: ContainerDepths,
}

// Where a child is written whose first event's number is `next`: so many bytes behind the spot, and so many ends more are kept.
pub fn child_spot(spot: Spot, next: usize, place: usize, count: usize) -> Spot
    requires { (spot.start ≤ cap) × (spot.top ≤ cap) × (place < 2 ^ 32) × (count ≤ cap) }
    ensures { result ≡ record { next = next; start = sum spot.start place; top = sum spot.top count } }
{
    Spot {
        next,
        start: add(spot.start, place),
        top: add(spot.top, count),
    }
}
