// The limits of a rule table.
pub const MAX_SWITCHES: u32 = 16;

pub const MAX_NODES: u32 = 48;

pub const MAX_RULES: u32 = 16;

// The registers of one switch.
pub const REGISTERS: usize = 8;
