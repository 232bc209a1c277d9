// What is printed of a rehearsal.
ghost use Rattle.listing.specs.Texts.{copy_text, event_text, line_text, listing_text, newline, refusal_text};
ghost use Rattle.std.specs.Prelude.{◌≡◌, ◌++◌, IfOk, Some, string_bytes, OnOk};
ghost use Rattle.std.specs.Fmt.{WritesOnOk};

use fleet::call::{Call, Reply};
use std::alloc::{AllocError, Global};
use std::error::Error;
use std::fmt;
use table::fault::Fault;

const HEADING: &str = "line switch count broken number\n";

// The number of a send's copy.
#[derive(Clone, Copy, Debug, PartialEq)]
pub struct Copied {
    pub number: Option<u32>,
}

impl fmt::Display for Copied {
    ghost output = { λ c. Some (copy_text c.number) };

    fn fmt<W: fmt::Write>(&self, f: &mut fmt::Formatter<W>) -> fmt::Result {
        match self.number {
            Some(number) => write!(f, "{number}"),
            None => write!(f, "-"),
        }
    }
}

// A call with its answer, and the number of its line.
#[derive(Clone, Copy, Debug, PartialEq)]
pub struct Line {
    pub line: usize,
    pub call: Call,
    pub reply: Result<Reply, Fault>,
}

// Writes the line of an event at a switch.
fn write_event<W: fmt::Write>(
    line: usize,
    switch: u32,
    reply: Reply,
    f: &mut fmt::Formatter<W>,
) -> fmt::Result
    ensures { WritesOnOk W.write_str_gives f.old result (event_text line switch reply) f.new }
{
    let Reply {
        count,
        broken,
        number,
    } = reply;
    let copied = Copied { number };
    write!(f, "{line} {switch} {count} {broken} {copied}")
}

impl fmt::Display for Line {
    ghost output = { λ l. Some (line_text l.line l.call l.reply) };

    fn fmt<W: fmt::Write>(&self, f: &mut fmt::Formatter<W>) -> fmt::Result {
        let line = self.line;
        match self.reply {
            Ok(reply) => match self.call {
                Call::Set { switch, .. } | Call::Send { switch } | Call::Receive { switch, .. } =>
                    write_event(line, switch, reply, f),
                Call::Retire { number } => write!(f, "{line} retired {number}"),
            },
            Err(fault) => write!(f, "{line} refused {}", fault.reason.number()),
        }
    }
}

// Writes a line to the end of a text. Not one function with `push_entry`: over `Display` it would need a clause on the output of
// its type, for this one line.
fn push_line(text: &mut String, line: Line) -> Result<(), AllocError>
    ensures { OnOk result (string_bytes text.new ≡ string_bytes text.old ++ (line_text line.line line.call line.reply ++ newline)) }
{
    writeln!(text, "{line}")
}

// The listing of calls with their answers.
pub fn listing(
    heap: Global,
    calls: &[Call],
    replies: &[Result<Reply, Fault>],
) -> Result<String, AllocError>
    ensures { IfOk result (λ s. string_bytes s ≡ listing_text calls.now replies.now) }
{
    let mut text = String::from_str(heap, HEADING)?;
    for (i, (call, reply)) in calls.iter().zip(replies).enumerate() {
        let line = Line {
            line: i + 1,
            call: *call,
            reply: *reply,
        };
        push_line(&mut text, line)?;
    }
    Ok(text)
}

// The part of the input that is refused, and why.
#[derive(Clone, Copy, Debug, PartialEq)]
pub enum Refusal {
    Table(Fault),
    Events(Fault),
}

impl Error for Refusal {}

impl fmt::Display for Refusal {
    ghost output = { λ r. Some (refusal_text r) };

    fn fmt<W: fmt::Write>(&self, f: &mut fmt::Formatter<W>) -> fmt::Result {
        let (name, fault) = match *self {
            Refusal::Table(fault) => ("table", fault),
            Refusal::Events(fault) => ("events", fault),
        };
        let number = fault.reason.number();
        let place = fault.place;
        write!(f, "{name} refused {number} {place}")
    }
}

// What is printed of an input that is refused.
pub fn refused(heap: Global, refusal: Refusal) -> Result<String, AllocError>
    ensures { IfOk result (λ s. string_bytes s ≡ refusal_text refusal ++ newline) }
{
    format!(in heap; "{refusal}\n")
}
