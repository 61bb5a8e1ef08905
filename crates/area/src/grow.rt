// Growing: the records of a path are found or made, and a rule's bit is set at the path's end.
ghost use Rattle.std.specs.Prelude.{◌≡◌, ◌+◌, ◌*◌, ◌≤◌, ◌<◌, length};
ghost use Rattle.area.specs.Shape.{record_words};
ghost use Rattle.area.specs.Grow.{zeroed, mk, down, walked, inserted, with_bit, Kids, Kids-prop};

use crate::{RECORD_WORDS, VECTOR_START};
use bits::Prefix;

// Zeros go to the words from `start` up to, not including, `end`.
pub fn clear(area: &mut [u32], start: usize, end: usize)
    requires { (start ≤ end) × (end ≤ length area.old) }
    ensures { area.new ≡ zeroed start end area.old }
{
    area[start..end].fill(0);
}

// An area whose records grow: its first `next` records are made, and each one's children are among them. That the words are the ones
// that were lent (`same_words`) and have room for what is to come (`HasRoom`) stands at each method: an invariant knows one value alone.
#[derive(Drop)]
pub struct Growth<'a> {
    pub words: &'a mut [u32],
    pub next: usize,
    ghost roots: { 5 ≤ next },
    ghost whole: { record_words * next ≤ length words.now },
    ghost kids: { Kids words.now next } by { Kids-prop words.now next },
}

impl Growth<'_> {
    ghost use Rattle.area.specs.Growing.{standing, HasRoom, IsGrown};

    // Makes the next record, cleared.
    fn make(&mut self) -> usize
        requires { record_words * (self.old.next + 1) ≤ length self.old.words.now }
        ensures same_words { self.new.words.ghost_name ≡ self.old.words.ghost_name }
        ensures next { (result ≡ self.old.next) × (self.new.next ≡ result + 1) }
        ensures cleared { self.new.words.now ≡ zeroed (record_words * result) (record_words * result + record_words) self.old.words.now }
    {
        let made = self.next;
        let start = RECORD_WORDS * made;
        clear(self.words, start, start + RECORD_WORDS);
        self.next += 1;
        made
    }

    // One step down by a bit. A child that is missing is made first.
    fn step(&mut self, at: usize, bit: usize) -> usize
        requires { (bit < 2) × (at < self.old.next) × HasRoom self.old (down bit (standing self.old at)) }
        ensures same_words { self.new.words.ghost_name ≡ self.old.words.ghost_name }
        ensures moved { standing self.new result ≡ down bit (standing self.old at) }
    {
        let word = RECORD_WORDS * at + bit;
        let child = self.words[word] as usize;
        if child != 0 {
            return child;
        }
        let made = self.make();
        self.words[word] = made as u32;
        made
    }

    // Down by a prefix's bits, from a field's root.
    fn walk(&mut self, root: usize, prefix: Prefix) -> usize
        requires { (root < self.old.next) × HasRoom self.old (walked prefix.width prefix.value prefix.len (standing self.old root)) }
        ensures same_words { self.new.words.ghost_name ≡ self.old.words.ghost_name }
        ensures moved { standing self.new result ≡ walked prefix.width prefix.value prefix.len (standing self.old root) }
    {
        let mut at = root;
        // By number: an iterator over a prefix's bits would be a type with laws of its own, for two loops.
        for j in 0..prefix.len {
            at = self.step(at, prefix.bit(j));
        }
        at
    }

    // A rule's bit in the vector of record `at`. The rule stays a number below 256: it is divided into a word and a bit.
    fn set_bit(&mut self, at: usize, rule: usize)
        requires { (at < self.old.next) × (rule < 256) }
        ensures same_words { self.new.words.ghost_name ≡ self.old.words.ghost_name }
        ensures set { standing self.new at ≡ mk (with_bit at rule self.old.words.now) at self.old.next }
    {
        let word = RECORD_WORDS * at + VECTOR_START + rule / 32;
        self.words[word] |= 1u32 << (rule % 32);
    }

    // A rule's prefix goes into a field's records: its path, and the rule's bit at the path's end.
    pub fn insert(&mut self, root: usize, prefix: Prefix, rule: usize)
        requires in_reach { (root < self.old.next) × (rule < 256) }
        requires room { HasRoom self.old (walked prefix.width prefix.value prefix.len (standing self.old root)) }
        ensures same_words { self.new.words.ghost_name ≡ self.old.words.ghost_name }
        ensures inserted { IsGrown self.new (inserted prefix.width prefix.value prefix.len rule (standing self.old root)) }
    {
        let at = self.walk(root, prefix);
        self.set_bit(at, rule);
    }
}
