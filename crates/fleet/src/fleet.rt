// A fleet: a carrier, and whether the fleet is live. Table, memory and hand are handed to every call anew, by a rule of
// the project.
mod events;
mod look;
mod open;
mod ready;
mod retire;
mod run;

use std::marker::PhantomData;

// It cannot be let go, only closed: until then the table's bytes stay lent.
pub struct Fleet<'a, K, C> {
    carrier: C,
    // Beside the carrier and no `Option` of it: a shut fleet gives its carrier back too.
    live: bool,
    table: PhantomData<(&'a [u8], K)>,
}
