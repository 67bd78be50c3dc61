// The words of the lent list: where each stands, and which of them a word is.
ghost use Rattle.std.specs.Prelude.{◌≡◌, ◌+◌, ◌<◌, replicate};
ghost use Rattle.splitter.specs.Items.{word_kind};
ghost use Rattle.splitter.specs.Listing.{same_bytes?};
ghost use Rattle.splitter.specs.inside.Index.{start_count, link_count, run_of, bucket_from, word_at, words_at, Indexed, New, Added};

use crate::runs::Run;

// The most words of a list.
pub const MAX_WORDS: usize = 66;

// The kind of a word that is not listed, and of the list's first word. specs/Items has the same.
pub const WORD: usize = 1;

pub const FIRST_LISTED: usize = 35;

// The starts of the words, and behind the last the end of the list and one more.
pub const STARTS: usize = MAX_WORDS + 1;

// For each word the one before it in its bucket, counted from 1; then for each bucket its last word.
pub const LINKS: usize = MAX_WORDS + crate::runs::BUCKETS;

// The words of a list: how many, where each starts, and what links them.
#[derive(Clone, Copy)]
pub struct Words<'a> {
    pub list: &'a [u8],
    pub starts: [usize; STARTS],
    pub links: [u8; LINKS],
    pub count: usize,
    ghost indexed: { Indexed list.now starts links count },
}

// A count of words as a byte.
fn low(count: usize) -> u8
    requires { count < 256 }
    ensures { result ≡ count }
{
    count as u8
}

// No words yet.
pub fn none(list: &[u8]) -> Words
    ensures { (result.list.now ≡ list.now) × (result.count ≡ 0) × (result.starts ≡ replicate start_count 0) × (result.links ≡ replicate link_count 0) }
{
    let starts = [0; STARTS];
    let links = [0; LINKS];
    Words {
        list,
        starts,
        links,
        count: 0,
    }
}

impl<'a> Words<'a> {
    // Word k.
    fn word(&self, k: usize) -> &[u8]
        requires { k < self.now.count }
        ensures { result.now ≡ word_at self.now.list.now self.now.starts k }
    {
        &self.list[self.starts[k]..self.starts[k + 1] - 1]
    }

    // Whether word k is this one, byte for byte.
    #[tactic(auto, using(crate::proofs::WordLaws::same_is))]
    fn is_word(&self, k: usize, word: &[u8]) -> bool
        requires { k < self.now.count }
        ensures { result ≡ same_bytes? (word_at self.now.list.now self.now.starts k) word.now }
    {
        self.word(k) == word
    }

    // The kind of a word in this bucket, by the words that are listed so far. Always inlined: it is asked for every word, and mostly finds none in the bucket.
    #[inline(always)]
    pub fn kind_of(&self, word: &[u8], bucket: usize) -> usize
        requires { bucket ≡ bucket_from 0 word.now }
        ensures { result ≡ word_kind (words_at self.now.list.now self.now.starts self.now.count) word.now }
    {
        let mut p = usize::from(self.links[MAX_WORDS + bucket]);
        // a chain of links is gone along, and no index counted
        while 0 < p {
            let k = p - 1;
            if self.is_word(k, word) {
                return FIRST_LISTED + k;
            }
            p = usize::from(self.links[k]);
        }
        WORD
    }

    // One word more, the one that begins at `at`: behind it the next one starts, and it comes first in its bucket.
    pub fn add(&mut self, at: usize, run: Run)
        requires { New self.old.list.now self.old.starts self.old.count at × (run ≡ run_of self.old.list.now at) }
        ensures { (self.new.list.now ≡ self.old.list.now) × (self.new.count ≡ self.old.count + 1)
            × Added self.old.list.now self.old.starts self.new.starts self.new.links self.old.count at run.end }
    {
        let bucket = MAX_WORDS + run.bucket;
        let next = self.count + 1;
        self.links[self.count] = self.links[bucket];
        self.starts[next] = run.end + 1;
        self.links[bucket] = low(next);
        self.count = next;
    }
}
