// Records in a slice of words.
ghost use Rattle.std.specs.Prelude.{◌≡◌, ◌+◌, ◌*◌, ◌<◌, ◌≤◌, length};
ghost use Rattle.step.specs.Nodes.{word_in};
ghost use Rattle.step.specs.Records.{count_of, record_of, record_start, records_length};
ghost use Rattle.step.specs.StepLaws.{Words, record_words};
ghost use Rattle.table.specs.Views.{view};

use table::table::Checked;

// The records of all switches, one after another: each is a count, and then a word for each node. They lie in one slice, since
// the memory is lent; a switch is a number, for which each method asks, as an index is.
#[derive(Clone, Copy)]
pub(crate) struct Records<'a> {
    pub(crate) switches: usize,
    pub(crate) nodes: usize,
    pub(crate) words: &'a [u32],
    ghost room: { switches * (nodes + 1) ≤ length words.now },
}

impl<'a> Records<'a> {
    // The records of a table's switches, at the front of some words.
    #[tactic(auto, using(crate::proofs::Laws::slice_words))]
    pub(crate) fn new(table: &Checked, words: &'a [u32]) -> Records<'a>
        requires { records_length (view table.now).switches (length (view table.now).nodes) ≤ length words.now }
        ensures switches { result.switches ≡ (view table.now).switches }
        ensures nodes { result.nodes ≡ length (view table.now).nodes }
        ensures words { result.words.now ≡ words.now }
        ensures small { Words words.now }
    {
        Records {
            switches: table.switches(),
            nodes: table.nodes().len(),
            words,
        }
    }

    // Where the record of switch `j` begins.
    pub(crate) fn start(&self, j: usize) -> usize
        requires { j < self.now.switches }
        ensures value { result ≡ record_start self.now.nodes j }
        ensures inside { result + (self.now.nodes + 1) ≤ length self.now.words.now }
    {
        j * (self.nodes + 1)
    }

    // The record of switch `j`.
    pub(crate) fn record(&self, j: usize) -> &'a [u32]
        requires { j < self.now.switches }
        ensures { result.now ≡ record_of self.now.nodes self.now.words.now j }
    {
        let at = self.start(j);
        &self.words[at..at + self.nodes + 1]
    }

    // Its count.
    pub(crate) fn count_of(&self, j: usize) -> u32
        requires { j < self.now.switches }
        ensures { result ≡ count_of (record_of self.now.nodes self.now.words.now j) }
    {
        self.words[self.start(j)]
    }

    // Its words, after the count.
    pub(crate) fn words_of(&self, j: usize) -> &'a [u32]
        requires { j < self.now.switches }
        ensures value { result.now ≡ record_words self.now.nodes self.now.words.now j }
        ensures every { length result.now ≡ self.now.nodes }
    {
        &self.record(j)[1..]
    }

    // Its word of node `i`.
    pub(crate) fn word(&self, j: usize, i: usize) -> u32
        requires there { j < self.now.switches }
        requires below { i < self.now.nodes }
        ensures { result ≡ word_in self.now.nodes self.now.words.now j i }
    {
        self.words[self.start(j) + 1 + i]
    }
}
