// What is printed of a whole input.
ghost use Rattle.listing.specs.Events.{events_at};
ghost use Rattle.listing.specs.Outputs.{Shows, events_refused, printed, rendered};
ghost use Rattle.listing.specs.Stops.{Gives};
ghost use Rattle.std.specs.Prelude.{◌≡◌, string_bytes};
ghost use Rattle.step.specs.Nodes.{on_words};
ghost use Rattle.table.specs.Tables.{table_length};
ghost use Rattle.table.specs.Views.{view};

use crate::events::read_events;
use crate::knowledge::knowledge;
use crate::rehearsal::rehearse;
use crate::stop::Stop;
use crate::text::{Refusal, listing};
use readings::number::Number;
use readings::ports::Ports;
use readings::reading::Reading;
use std::alloc::Global;
use table::kind::{Kind, check_front_delivered};
use table::table::{Checked, Draft};

// What is printed of the calls that follow the table in the input.
fn render_calls<K: Reading>(
    heap: Global,
    table: &Checked,
    bytes: &[u8],
    knows: bool,
) -> Result<String, Stop>
    ensures { Gives string_bytes result (rendered K.CODE (on_words K.kind) (view table.now) knows (events_at bytes.now (table_length (view table.now)))) }
{
    let calls = read_events(heap, bytes, table.length())?;
    let rehearsed = rehearse::<K>(heap, table, &calls, knows)?;
    let mut text = listing(heap, &calls, &rehearsed.replies)?;
    if knows {
        let known = knowledge(heap, table, &rehearsed.known)?;
        text.push_str(known.as_str())?;
    }
    Ok(text)
}

// The calls are what is refused. No `From`: not every fault is of the calls.
fn of_events(stop: Stop) -> Stop<Refusal>
    ensures { result ≡ events_refused stop }
{
    match stop {
        Stop::Refused(fault) => Stop::Refused(Refusal::Events(fault)),
        Stop::Memory => Stop::Memory,
    }
}

// What is printed of the input: the listing of its calls, with what the switches know then where that is asked for, or
// that its table or its calls are refused, of which `Refusal` has the text.
pub fn render(heap: Global, bytes: &[u8], knows: bool) -> Result<String, Stop<Refusal>>
    ensures { Shows result (printed bytes.now knows) }
{
    let mut table = Checked::worked();
    let kind = check_front_delivered(Draft::new(bytes), &mut table).map_err(Refusal::Table)?;
    // A match: a kind of reading is a type, and no value stands for it.
    let rendered = match kind {
        Kind::Numbers => render_calls::<Number>(heap, &table, bytes, knows),
        Kind::Ports => render_calls::<Ports>(heap, &table, bytes, knows),
    };
    rendered.map_err(of_events)
}
