// A refusal: why, and where.
ghost use Rattle.table.specs.Refusals.{answer, most_word, number};
ghost use Rattle.table.specs.Wire.{fault};
ghost use Rattle.std.specs.Prelude.{◌≡◌, min};

// Why a call refuses. The values are the refusals' numbers.
#[derive(Clone, Copy, Debug, PartialEq)]
pub enum Reason {
    // The table ends early or has bytes left.
    TableLength = 1,
    // The code is foreign, or a count is out of range.
    TableField = 2,
    // A node is against the node kinds.
    Node = 3,
    // A rule's switch or node is out of range, or its node is no truth node.
    Rule = 4,
    // Memory, hand, table or carrier of the wrong shape.
    Shape = 5,
    // The fleet is shut.
    Shut = 6,
    // A switch that the table lacks.
    Switch = 7,
    // A register or node number that is too large.
    Operand = 8,
    // No space in the carrier.
    Full = 9,
    // The copy is not held.
    NotHeld = 10,
    // The own count cannot grow.
    Count = 11,
    // Bytes of a copy that are short, left over, or not as given.
    Copy = 12,
    // The events of a rehearsal are short, left over, too many, or no calls.
    Events = 13,
}

impl Reason {
    // The refusal's number, as programs and C callers see it.
    pub fn number(self) -> u32
        ensures { result ≡ number self }
    {
        self as u32
    }

    // The refusal for this reason at a place.
    pub fn at(self, place: usize) -> Fault
        ensures { result ≡ fault self place }
    {
        Fault {
            reason: self,
            place,
        }
    }
}

// A reason with its place: an offset in bytes, or the number of a node or rule.
#[derive(Clone, Copy, Debug, PartialEq)]
pub struct Fault {
    pub reason: Reason,
    pub place: usize,
}

impl Fault {
    // The refusal as one number, for callers in C: the place times 256, and the refusal's number; at most the largest word.
    pub fn packed(self) -> u32
        ensures { result ≡ min (answer self) most_word }
    {
        let answer = self
            .place
            .saturating_mul(256)
            .saturating_add(self.reason.number() as usize);
        u32::try_from(answer).unwrap_or(u32::MAX)
    }
}

// A refusal that names no place.
impl From<Reason> for Fault {
    ghost from_gives = { λ reason r. r ≡ fault reason 0 };

    fn from(reason: Reason) -> Fault {
        reason.at(0)
    }
}
