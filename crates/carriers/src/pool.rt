// A pool: places for copies in memory that is lent to it, and the number of the next copy.
ghost use Rattle.std.specs.Prelude.{◌*◌, ◌≤◌, length};
ghost use Rattle.carriers.specs.Places.{Distinct, Numbered};

use crate::places::Places;
use crate::shape::Shape;

mod calls;
mod open;
mod steps;

#[derive(Drop)]
pub struct Pool<'a, P: Places> {
    memory: &'a mut [P],
    shape: Shape,
    next: u32,
    // The memory is long enough for the places.
    ghost fitting: { shape.capacity * P.width shape.switches shape.nodes ≤ length memory.now },
    // No place has a number that was not given out, and no two places have the same.
    ghost numbered: { Numbered (P.flags shape memory.now) shape.capacity next },
    ghost distinct: { Distinct (P.flags shape memory.now) shape.capacity },
}
