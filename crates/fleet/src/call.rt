// The calls of a fleet by value, and what they answer.
ghost use Rattle.fleet.specs.FleetCalls.{reply_with};
ghost use Rattle.std.specs.Prelude.{◌≡◌};

use step::Outcome;

// A call of a listing.
#[derive(Clone, Copy, Debug, PartialEq)]
pub enum Call {
    Set {
        switch: u32,
        register: u32,
        word: u32,
    },
    Send {
        switch: u32,
    },
    Receive {
        switch: u32,
        number: u32,
    },
    Retire {
        number: u32,
    },
}

// What an accepted call answers; a retire answers zeros, as the listing's definition has it.
#[derive(Clone, Copy, Debug, Default, PartialEq)]
pub struct Reply {
    // The own count after the step.
    pub count: u32,
    // Bit r is set where rule r is broken now.
    pub broken: u32,
    // The number of the copy that a send put.
    pub number: Option<u32>,
}

impl Reply {
    // The reply of an event. No `From`: an outcome and a number are two values.
    pub(crate) fn of(outcome: Outcome, number: Option<u32>) -> Reply
        ensures { result ≡ reply_with outcome number }
    {
        Reply {
            count: outcome.count,
            broken: outcome.broken,
            number,
        }
    }
}

// What a switch knows of one node of a switch.
#[derive(Clone, Copy, Debug, PartialEq)]
pub struct Known {
    pub count: u32,
    pub word: u32,
}
