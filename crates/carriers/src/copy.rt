// A copy as bytes: code, sender, and an array of records, each a count and an array of words.
ghost use Rattle.std.specs.Prelude.{◌≡◌, ◌≤◌, IfErr};
ghost use Rattle.carriers.specs.Copies.{copy_bytes, hand_in};
ghost use Rattle.carriers.specs.CopyCalls.{after, check_answer, longest_copy, read_answer, write_answer};
ghost use Rattle.carriers.specs.CopyLaws.{CopyLaws};

use crate::format::Format;
use table::fault::{Fault, Reason};

pub(crate) mod checking;
pub(crate) mod filling;
pub(crate) mod writing;

// Whether the bytes are a copy with this code, for so many switches and nodes. The three numbers are the caller's; `Format` is
// what they make, if they make one.
#[tactic(auto, using(crate::proofs::CopyCodec::copy_laws, crate::proofs::CopyPlaces::copy_places, table::proofs::Filling::slice_bytes), unfolding(crate::specs::CopyCalls::check_answer))]
pub fn check(code: u32, switches: u32, nodes: u32, bytes: &[u8]) -> Result<(), Fault>
    ensures value { result ≡ check_answer code switches nodes bytes.now }
    ensures places { IfErr result (λ e. e.place ≤ longest_copy) }
    ensures laws { CopyLaws code switches nodes bytes.now }
{
    let format = Format::known(code, switches, nodes)?;
    format.check(bytes)
}

// Fills the hand with the copy that the bytes are, or refuses and leaves the hand.
pub fn read(
    code: u32,
    switches: u32,
    nodes: u32,
    bytes: &[u8],
    hand: &mut [u32],
) -> Result<(), Fault>
    ensures value { result ≡ read_answer code switches nodes bytes.now hand.old }
    ensures hand { hand.new ≡ after result (hand_in switches nodes bytes.now) hand.old }
{
    let format = Format::known(code, switches, nodes)?;
    if hand.len() != format.hand_length() {
        return Err(Reason::Shape.into());
    }
    format.check(bytes)?;
    format.fill(bytes, hand);
    Ok(())
}

// Writes the hand as a copy over all of the bytes, or refuses and leaves them.
pub fn write(
    code: u32,
    switches: u32,
    nodes: u32,
    hand: &[u32],
    bytes: &mut [u8],
) -> Result<(), Fault>
    ensures value { result ≡ write_answer code switches nodes hand.now bytes.old }
    ensures bytes { bytes.new ≡ after result (copy_bytes code switches nodes hand.now) bytes.old }
{
    let format = Format::known(code, switches, nodes)?;
    if hand.len() != format.hand_length()
        || hand[0] >= switches
        || bytes.len() != format.copy_length()
    {
        return Err(Reason::Shape.into());
    }
    format.write(hand, bytes);
    Ok(())
}
