// What a register holds, for every kind of reading.
ghost use Rattle.std.specs.Prelude.{◌≡◌, ℕ, ◌^◌, ◌<◌, ◌==◌};
ghost use Rattle.readings.specs.Kinds.{Kind};

// A kind of reading. Its meaning stands in the ghost members; each function equals one part of `kind`.
pub trait Reading: Copy {
    // The kind's own number, which a table and a copy of that kind carry.
    const CODE: u32;

    ghost CODE: { ℕ };

    // The readings that a value of the type can have.
    ghost held: { Self → Type 0 };

    // What the functions compute.
    ghost kind: { Kind Self };

    // Whether `w` is this kind's code.
    fn native(w: u32) -> bool
        ensures { result ≡ (w == CODE) }
    {
        w == Self::CODE
    }

    // Not `From<u32>`: its contract is a relation, and this one says the kind's own function. So for `to_word`.
    fn from_word(w: u32) -> Self
        ensures { result ≡ kind.reading w };

    fn to_word(self) -> u32
        ensures { result ≡ kind.word self };

    fn join(self, other: Self) -> Self
        ensures { result ≡ kind.joined self other };

    fn cut(self, other: Self) -> Self
        ensures { result ≡ kind.less self other };

    // No order of the language: no kind is asked that it be one.
    fn within(self, other: Self) -> bool
        ensures { result ≡ kind.inside self other };

    // A relation of the kind's own: `==` would have to be symmetric and transitive, which no kind is asked for.
    fn same(self, other: Self) -> bool
        ensures { result ≡ kind.equal self other };

    // A reading turned into a word and back is that reading.
    ghost back: { (r : Self) → held r → kind.reading (kind.word r) ≡ r };

    // A reading's word is a word.
    ghost fits: { (r : Self) → held r → kind.word r < 2 ^ 32 };

    // Every word is read as a reading that the type holds, and join and cut stay among these.
    ghost reads: { (w : ℕ) → w < 2 ^ 32 → held (kind.reading w) };

    ghost joins: { (a b : Self) → held a → held b → held (kind.joined a b) };

    ghost cuts: { (a b : Self) → held a → held b → held (kind.less a b) };
}
