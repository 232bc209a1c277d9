// The delivered kinds of reading, picked by a table's code.
ghost use Rattle.std.specs.Prelude.{◌≡◌, ◌≤◌, false, is_ok, IfOk, IfErr};
ghost use Rattle.table.specs.Delivered.{delivered, delivered_front, kind_code, kind_of, named_by};
ghost use Rattle.table.specs.Tables.{longest_table};
ghost use Rattle.table.specs.Views.{view};
ghost use Rattle.table.specs.Wire.{counted};

use crate::fault::{Fault, Reason};
use crate::table::{Checked, Draft, check, check_front};
use readings::number::Number;
use readings::ports::Ports;
use readings::reading::Reading;

// A delivered kind of reading.
#[derive(Clone, Copy, Debug, PartialEq)]
pub enum Kind {
    Numbers,
    Ports,
}

// The delivered kind with this code.
impl TryFrom<u32> for Kind {
    type Error = Reason;

    ghost try_from_gives = { λ code r. r ≡ named_by code };

    fn try_from(code: u32) -> Result<Kind, Reason> {
        match code {
            Number::CODE => Ok(Kind::Numbers),
            Ports::CODE => Ok(Kind::Ports),
            _ => Err(Reason::TableField),
        }
    }
}

impl Kind {
    // The delivered kind with this code.
    pub fn of_code(code: u32) -> Option<Kind>
        ensures { result ≡ kind_of code }
    {
        Kind::try_from(code).ok()
    }
}

// Checks a draft of the delivered kind that its code names, as `check` does, and answers the kind.
// A match, and once more in the next function: a kind of reading is a type, and no value, closure or `dyn` stands for all kinds.
pub fn check_delivered<'a>(draft: Draft<'a>, place: &mut Checked<'a>) -> Result<Kind, Fault>
    ensures value { counted result (λ kind. view place.new) ≡ delivered draft.entry.bytes.now }
    ensures kind { IfOk result (λ kind. (view place.new).code ≡ kind_code kind) }
    ensures places { IfErr result (λ e. e.place ≤ longest_table) }
    ensures kept { is_ok result ≡ false → place.new ≡ place.old }
{
    let kind = draft.kind()?;
    match kind {
        Kind::Numbers => check::<Number>(draft, place)?,
        Kind::Ports => check::<Ports>(draft, place)?,
    }
    Ok(kind)
}

// Checks the table at the front of a draft likewise, as `check_front` does, and answers the kind.
pub fn check_front_delivered<'a>(draft: Draft<'a>, place: &mut Checked<'a>) -> Result<Kind, Fault>
    ensures value { counted result (λ kind. view place.new) ≡ delivered_front draft.entry.bytes.now }
    ensures kind { IfOk result (λ kind. (view place.new).code ≡ kind_code kind) }
    ensures places { IfErr result (λ e. e.place ≤ longest_table) }
    ensures kept { is_ok result ≡ false → place.new ≡ place.old }
{
    let kind = draft.kind()?;
    match kind {
        Kind::Numbers => check_front::<Number>(draft, place)?,
        Kind::Ports => check_front::<Ports>(draft, place)?,
    };
    Ok(kind)
}
