// Reads the calls of a rehearsal file.
ghost use Rattle.std.specs.Prelude.{◌≡◌, ◌*◌, ◌≤◌, [], is_ok, IfOk, vec_items};
ghost use Rattle.listing.specs.EventLaws.{EventLaws};
ghost use Rattle.listing.specs.Events.{call_at, call_size, calls_from, count_at, events_at, most_calls, receive_at, retire_at, send_at, set_at, unused_at};
ghost use Rattle.listing.specs.Stops.{Gives};
ghost use Rattle.table.specs.Readers.{Advanced};
ghost use Rattle.table.specs.declared.fault.Reason.TheVariants.{Events};

use crate::stop::Stop;
use fleet::call::Call;
use std::alloc::Global;
use table::fault::{Fault, Reason};
use table::reader::{Reader, Refusals};

// As many calls as a rehearsal file can have.
pub const MAX_CALLS: u32 = 1024;

// Why a reader of a rehearsal's calls refuses. A type of its own, so that no function has to ask which reason its reader has.
#[derive(Drop)]
struct EventRefusals;

impl Refusals for EventRefusals {
    ghost short = { λ _. Events };

    ghost wrong = { λ _. Events };

    fn short(&self) -> Reason {
        Reason::Events
    }

    fn wrong(&self) -> Reason {
        Reason::Events
    }
}

type EventReader<'a> = Reader<'a, EventRefusals>;

// Reads past a word that the call does not use.
#[tactic(auto, unfolding(crate::specs::Events::unused_at, table::specs::Wire::tested_field))]
fn read_unused(reader: &mut EventReader) -> Result<(), Fault>
    ensures value { result ≡ unused_at reader.old.bytes.now reader.old.at }
    ensures reader { Advanced reader.old reader.new (is_ok result) 4 }
{
    reader.field_between(0, 0)?;
    Ok(())
}

// A set, of which the operation has been read.
fn read_set(reader: &mut EventReader) -> Result<Call, Fault>
    ensures value { result ≡ set_at reader.old.bytes.now reader.old.at }
    ensures reader { Advanced reader.old reader.new (is_ok result) 12 }
{
    let switch = reader.field()?;
    let register = reader.field()?;
    let word = reader.field()?;
    Ok(Call::Set {
        switch,
        register,
        word,
    })
}

// A send, likewise.
fn read_send(reader: &mut EventReader) -> Result<Call, Fault>
    ensures value { result ≡ send_at reader.old.bytes.now reader.old.at }
    ensures reader { Advanced reader.old reader.new (is_ok result) 12 }
{
    let switch = reader.field()?;
    read_unused(reader)?;
    read_unused(reader)?;
    Ok(Call::Send { switch })
}

// A receive, likewise.
fn read_receive(reader: &mut EventReader) -> Result<Call, Fault>
    ensures value { result ≡ receive_at reader.old.bytes.now reader.old.at }
    ensures reader { Advanced reader.old reader.new (is_ok result) 12 }
{
    let switch = reader.field()?;
    let number = reader.field()?;
    read_unused(reader)?;
    Ok(Call::Receive { switch, number })
}

// A retire, likewise.
fn read_retire(reader: &mut EventReader) -> Result<Call, Fault>
    ensures value { result ≡ retire_at reader.old.bytes.now reader.old.at }
    ensures reader { Advanced reader.old reader.new (is_ok result) 12 }
{
    read_unused(reader)?;
    let number = reader.field()?;
    read_unused(reader)?;
    Ok(Call::Retire { number })
}

// The next call.
fn read_call(reader: &mut EventReader) -> Result<Call, Fault>
    ensures value { result ≡ call_at reader.old.bytes.now reader.old.at }
    ensures reader { Advanced reader.old reader.new (is_ok result) call_size }
{
    let at = reader.offset();
    match reader.field()? {
        1 => read_set(reader),
        2 => read_send(reader),
        3 => read_receive(reader),
        4 => read_retire(reader),
        _ => Err(Reason::Events.at(at)),
    }
}

// The number of calls.
#[tactic(auto, unfolding(crate::specs::Events::count_at, table::specs::Wire::tested_field))]
fn read_count(reader: &mut EventReader) -> Result<usize, Fault>
    ensures value { result ≡ count_at reader.old.bytes.now reader.old.at }
    ensures few { IfOk result (λ count. count ≤ most_calls) }
    ensures reader { Advanced reader.old reader.new (is_ok result) 4 }
{
    Ok(reader.field_between(0, MAX_CALLS)? as usize)
}

// The next `count` calls.
fn read_calls(heap: Global, reader: &mut EventReader, count: usize) -> Result<Vec<Call>, Stop>
    ensures value { Gives vec_items result (calls_from reader.old.bytes.now reader.old.at count []) }
    ensures reader { Advanced reader.old reader.new (is_ok result) (count * call_size) }
{
    let mut calls = Vec::new(heap);
    for _i in 0..count {
        calls.push(read_call(reader)?)?;
    }
    Ok(calls)
}

// The calls that stand at offset `at` of the input, which they end.
pub fn read_events(heap: Global, bytes: &[u8], at: usize) -> Result<Vec<Call>, Stop>
    ensures value { Gives vec_items result (events_at bytes.now at) }
    ensures laws { EventLaws bytes.now at }
{
    let mut reader = Reader::new(bytes, EventRefusals);
    reader.move_to(at)?;
    let count = read_count(&mut reader)?;
    let calls = read_calls(heap, &mut reader, count)?;
    let end = reader.offset();
    if end != bytes.len() {
        return Err(Stop::Refused(Reason::Events.at(end)));
    }
    Ok(calls)
}
