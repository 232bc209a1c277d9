// The reader's calls.
ghost use Rattle.std.specs.Prelude.{◌≡◌, ◌+◌, ◌≤◌, length, is_ok, IfOk, IfErr, if◌then◌else◌, Ok, nat_le};
ghost use Rattle.table.specs.Readers.{Advanced};
ghost use Rattle.table.specs.Wire.{between, field, refuse, tested_field, word_at};

use crate::fault::Fault;
use crate::reader::{Reader, Refusals};

// The word at offset `at`. By the standard library's call: `byteorder` would be one more library, and a lemma, for this one line.
#[tactic(auto, unfolding(crate::specs::Wire::word_at))]
pub(crate) fn word(bytes: &[u8], at: usize) -> u32
    requires { at + 4 ≤ length bytes.now }
    ensures { result ≡ word_at bytes.now at }
{
    u32::from_be_bytes([bytes[at], bytes[at + 1], bytes[at + 2], bytes[at + 3]])
}

impl<'a, R: Refusals> Reader<'a, R> {
    // A reader at the front of `bytes`.
    pub fn new(bytes: &'a [u8], refusals: R) -> Reader<'a, R>
        ensures bytes { result.bytes.now ≡ bytes.now }
        ensures at { result.at ≡ 0 }
        ensures refusals { result.refusals ≡ refusals }
    {
        Reader {
            bytes,
            at: 0,
            refusals,
        }
    }

    // The offset of the next field.
    pub fn offset(&self) -> usize
        ensures { result ≡ self.now.at }
    {
        self.at
    }

    // Moves to the field at offset `at`; or refuses it as missing, where the bytes end before it, and stays.
    pub fn move_to(&mut self, at: usize) -> Result<(), Fault>
        ensures value { result ≡ (if nat_le at (length self.old.bytes.now) then Ok tt else refuse (R.short self.old.refusals) at) }
        ensures at { self.new.at ≡ (if is_ok result then at else self.old.at) }
        ensures bytes { self.new.bytes.now ≡ self.old.bytes.now }
        ensures refusals { self.new.refusals ≡ self.old.refusals }
    {
        if at > self.bytes.len() {
            return Err(self.refusals.short().at(at));
        }
        self.at = at;
        Ok(())
    }

    // The next field, or the place where it is missing; the reader then stays there.
    #[tactic(auto, unfolding(crate::specs::Wire::field))]
    pub fn field(&mut self) -> Result<u32, Fault>
        ensures value { result ≡ field (R.short self.old.refusals) self.old.bytes.now self.old.at }
        ensures missing { IfErr result (λ e. e.place ≡ self.old.at) }
        ensures at { self.new.at ≡ (if is_ok result then self.old.at + 4 else self.old.at) }
        ensures bytes { self.new.bytes.now ≡ self.old.bytes.now }
        ensures refusals { self.new.refusals ≡ self.old.refusals }
    {
        let at = self.at;
        let bytes = self.bytes;
        if bytes.len() - at < 4 {
            return Err(self.refusals.short().at(at));
        }
        self.at = at + 4;
        Ok(word(bytes, at))
    }

    // The next field, if it lies between `low` and `high`; or the place where it does not.
    #[tactic(auto, unfolding(crate::specs::Wire::tested_field))]
    pub fn field_between(&mut self, low: u32, high: u32) -> Result<u32, Fault>
        ensures value { result ≡ tested_field (R.short self.old.refusals) (R.wrong self.old.refusals) (between low high) self.old.bytes.now self.old.at }
        ensures range { IfOk result (λ w. (low ≤ w) × (w ≤ high)) }
        ensures place { IfErr result (λ e. e.place ≡ self.old.at) }
        ensures reader { Advanced self.old self.new (is_ok result) 4 }
        ensures refusals { self.new.refusals ≡ self.old.refusals }
    {
        let at = self.at;
        let word = self.field()?;
        if word < low || word > high {
            return Err(self.refusals.wrong().at(at));
        }
        Ok(word)
    }
}
