// Runs the calls of a rehearsal on a new fleet.
ghost use Rattle.std.specs.Prelude.{◌≡◌, ◌*◌, ◌<◌, ◌≤◌, length, replicate, IfOk, if◌then◌else◌};
ghost use Rattle.carriers.specs.FramePlaces.{frame_place};
ghost use Rattle.fleet.specs.Shapes.{state};
ghost use Rattle.listing.specs.Rehearsals.{RehearsalLaw, RunLaw, StartsAs, entry_count, known_after, known_after_run, look_entry, looks_from, place_of, rehearsal, run_answers, unknown};
ghost use Rattle.listing.specs.Stops.{Gives};
ghost use Rattle.step.specs.Nodes.{on_words};
ghost use Rattle.step.specs.Records.{block_length, hand_length};
ghost use Rattle.table.specs.Views.{view};

use crate::stop::Stop;
use carriers::carrier::Carrier;
use carriers::frame_pool::FramePool;
use fleet::call::{Call, Known, Reply};
use fleet::fleet::Fleet;
use readings::reading::Reading;
use std::alloc::{AllocError, Global};
use step::lengths::{block_length, hand_length};
use table::fault::Fault;
use table::table::Checked;

// The copies that the fleet's carrier can hold.
pub const POOL_COPIES: usize = 16;

// The words of a fleet's memory: one product, for which the fleet has no call.
fn memory_length(table: &Checked) -> usize
    ensures { result ≡ (view table.now).switches * block_length (view table.now).switches (length (view table.now).nodes) }
{
    table.switches() * block_length(table)
}

// The bytes of a copy in a frame pool. By hand: a pool says the length of a place to its own crate alone.
fn frame_length(table: &Checked) -> usize
    ensures value { result ≡ frame_place (view table.now).switches (length (view table.now).nodes) }
    ensures small { result < 4096 }
{
    4 + 12 + table.switches() * (8 + table.nodes().len() * 4)
}

fn zeros(heap: Global, count: usize) -> Result<Vec<u32>, AllocError>
    ensures { IfOk result (λ v. v.items ≡ replicate count 0) }
{
    vec![in heap; 0; count]
}

// How many entries are looked at: each node of each switch at each switch, or none.
fn entries(table: &Checked, knows: bool) -> u32
    ensures { result ≡ (if knows then entry_count (view table.now) else 0) }
{
    let switches = table.switches() as u32;
    if knows {
        switches * switches * table.nodes().len() as u32
    } else {
        0
    }
}

// Whose entry it is: at which switch, of which switch, and of which node of that.
pub(crate) struct Place {
    pub(crate) switch: usize,
    pub(crate) of: usize,
    pub(crate) node: usize,
}

impl Place {
    // The place of entry `i`: each node of each switch at each switch, in order.
    pub(crate) fn of_entry(table: &Checked, i: usize) -> Place
        ensures place { result ≡ place_of (view table.now) i }
        ensures node { result.node < length (view table.now).nodes }
        ensures small { (result.switch ≤ i) × ((result.of ≤ i) × (result.node ≤ i)) }
    {
        let switches = table.switches();
        let nodes = table.nodes().len();
        Place {
            switch: i / (switches * nodes),
            of: i / nodes % switches,
            node: i % nodes,
        }
    }
}

// What a rehearsal gives.
#[derive(Drop)]
pub struct Rehearsed {
    // One answer for each call.
    pub replies: Vec<Result<Reply, Fault>>,
    // What each switch knows of each node of each switch at the end, or nothing: one list, as it is printed.
    pub known: Vec<Known>,
}

// A table, and what a fleet on it is handed with each call: the memory of its switches, and the hand.
#[derive(Drop)]
struct Workspace<'w, 'a> {
    table: &'w Checked<'a>,
    memory: Vec<u32>,
    hand: Vec<u32>,
}

impl<'w, 'a> Workspace<'w, 'a> {
    // One for a new fleet.
    fn new(heap: Global, table: &'w Checked<'a>) -> Result<Workspace<'w, 'a>, AllocError>
        ensures table { IfOk result (λ w. w.table.now ≡ table.now) }
        ensures starts { IfOk result (λ w. StartsAs (view table.now) w.memory.items w.hand.items) }
    {
        Ok(Workspace {
            table,
            memory: zeros(heap, memory_length(table))?,
            hand: zeros(heap, hand_length(table))?,
        })
    }

    // What a look finds for entry `i`, or nothing.
    fn look_entry<K: Reading, C: Carrier>(&self, fleet: &Fleet<'_, K, C>, i: u32) -> Known
        ensures { C.sound fleet.now.carrier → result ≡ look_entry fleet.now.live K.CODE (view self.now.table.now) (state self.now.memory.items self.now.hand.items (C.meaning fleet.now.carrier)) i unknown }
    {
        let Place { switch, of, node } = Place::of_entry(self.table, i as usize);
        let found = fleet.look(
            self.table,
            &self.memory,
            &self.hand,
            switch as u32,
            of as u32,
            node as u32,
        );
        // Zeros where a look finds nothing, as `rehearse` promises them; so no `Option`.
        found.unwrap_or(Known { count: 0, word: 0 })
    }

    // What looks find for the first `count` entries.
    fn look_all<K: Reading, C: Carrier>(
        &self,
        heap: Global,
        fleet: &Fleet<'_, K, C>,
        count: u32,
    ) -> Result<Vec<Known>, AllocError>
        ensures { IfOk result (λ v. C.sound fleet.now.carrier → v.items ≡ looks_from fleet.now.live K.CODE (view self.now.table.now) (state self.now.memory.items self.now.hand.items (C.meaning fleet.now.carrier)) 0 (replicate count unknown)) }
    {
        let mut known = Vec::new(heap);
        // `i` is the number of an entry: there is no list to go over.
        for i in 0..count {
            known.push(self.look_entry(fleet, i))?;
        }
        Ok(known)
    }

    // Runs the calls on a new fleet with this carrier, and then looks at what the switches know, where that is asked
    // for.
    fn run<K: Reading, C: Carrier + Drop>(
        &mut self,
        heap: Global,
        carrier: C,
        calls: &[Call],
        knows: bool,
    ) -> Result<Rehearsed, Stop>
        ensures replies { C.sound carrier → Gives (λ v. v.replies.items) result (run_answers K.CODE (on_words K.kind) (view self.old.table.now) (state self.old.memory.items self.old.hand.items (C.meaning carrier)) calls.now) }
        ensures known { C.sound carrier → IfOk result (λ v. v.known.items ≡ known_after_run K.CODE (on_words K.kind) (view self.old.table.now) (state self.old.memory.items self.old.hand.items (C.meaning carrier)) calls.now knows) }
        ensures law { C.sound carrier → IfOk result (λ v. RunLaw K.kind (view self.old.table.now) (state self.old.memory.items self.old.hand.items (C.meaning carrier)) calls.now v.replies.items) }
    {
        let mut replies = vec![in heap; Ok(Reply::default()); calls.len()]?;
        let mut fleet: Fleet<K, C> = Fleet::open(self.table, &mut self.memory, &self.hand, carrier);
        let ran = fleet.run(
            self.table,
            &mut self.memory,
            &mut self.hand,
            calls,
            &mut replies,
        );
        let known = self.look_all(heap, &fleet, entries(self.table, knows));
        let _ = fleet.close();
        ran?;
        Ok(Rehearsed {
            replies,
            known: known?,
        })
    }
}

// What the calls answer on a new fleet with a carrier for `POOL_COPIES` copies, and what the switches know then, where
// that is asked for. The answers obey the law for every allowed order.
pub fn rehearse<K: Reading>(
    heap: Global,
    table: &Checked,
    calls: &[Call],
    knows: bool,
) -> Result<Rehearsed, Stop>
    ensures replies { Gives (λ v. v.replies.items) result (rehearsal K.CODE (on_words K.kind) (view table.now) calls.now) }
    ensures known { IfOk result (λ v. v.known.items ≡ known_after K.CODE (on_words K.kind) (view table.now) calls.now knows) }
    ensures law { IfOk result (λ v. RehearsalLaw K.kind (view table.now) calls.now v.replies.items) }
{
    let switches = table.switches() as u32;
    let nodes = table.nodes().len() as u32;
    let mut frames = vec![in heap; 0; POOL_COPIES * frame_length(table)]?;
    let pool = FramePool::open(table.code(), switches, nodes, &mut frames);
    Workspace::new(heap, table)?.run::<K, FramePool>(heap, pool, calls, knows)
}
