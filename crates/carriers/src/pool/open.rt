// New pools.
ghost use Rattle.std.specs.Prelude.{◌≡◌, length};
ghost use Rattle.carriers.specs.CopyCalls.{in_range};
ghost use Rattle.carriers.specs.Memory.{zeroed};
ghost use Rattle.carriers.specs.Pools.{meaning_of, opened, places_in};

use crate::format::Format;
use crate::places::Places;
use crate::pool::Pool;
use crate::shape::Shape;

impl<'a, P: Places> Pool<'a, P> {
    // A new pool in this memory, which it zeroes; without places, and with nothing written,
    // for numbers of switches or nodes that are out of range.
    pub fn open(code: u32, switches: u32, nodes: u32, memory: &'a mut [P]) -> Pool<'a, P>
        ensures meaning { meaning_of result.shape result.next (P.flags result.shape result.memory.now) (P.copies result.shape result.memory.now) ≡ opened code switches nodes (places_in (in_range switches nodes) (P.width switches nodes) (length memory.old)) }
        ensures memory { result.memory.now ≡ zeroed P.zero (in_range switches nodes) memory.old }
    {
        let Some(format) = Format::of(code, switches, nodes) else {
            let shape = Shape {
                code,
                switches,
                nodes,
                capacity: 0,
            };
            return Pool {
                memory,
                shape,
                next: 0,
            };
        };
        P::clear(memory);
        let shape = Shape {
            code,
            switches,
            nodes,
            capacity: memory.len() / P::width(format),
        };
        Pool {
            memory,
            shape,
            next: 0,
        }
    }
}
