// Pieces of text, put into a lent buffer one after the other by a writer that keeps the place behind the last one. Promised is that exactly the
// text's bytes are set. Assumes space for them. The bytes are put by hand, since exactly these are promised, with nothing allocated.
#![tactic(auto)]

pub mod listing;

ghost use Rattle.std.specs.Prelude.{◌≡◌, [], ◌∷◌, ◌+◌, ◌/◌, ◌%◌, ◌<◌, ◌≤◌, length, take};
ghost use Rattle.model.specs.Lines.{decimal};
ghost use Rattle.model.specs.Answer.{behind};
ghost use Rattle.text.specs.Puts.{Space};
ghost use Rattle.text.specs.Writes.{Writes};

use itoa::Buffer;

// A lent buffer with the place where the next piece goes: from the start on, so many bytes are put.
#[derive(Drop)]
pub struct Writer<'a> {
    lent: &'a mut [u8],
    pub at: usize,
}

impl<'a> Writer<'a> {
    // At the buffer's start.
    pub fn new(lent: &'a mut [u8]) -> Writer<'a>
        ensures same { result.lent.ghost_name ≡ lent.entry.ghost_name }
        ensures unchanged { result.lent.now ≡ lent.old }
        ensures start { result.at ≡ 0 }
    {
        Writer { lent, at: 0 }
    }

    // What is put so far.
    pub fn written(&self) -> &[u8]
        requires { self.now.at ≤ length self.now.lent.now }
        ensures { result.now ≡ take self.now.at self.now.lent.now }
    {
        &self.lent[..self.at]
    }

    // One byte.
    pub fn byte(&mut self, b: u8)
        requires { self.old.at < length self.old.lent.now }
        ensures { Writes (b ∷ []) self.old self.new }
    {
        self.lent[self.at] = b;
        self.at += 1;
    }

    // Bytes as they stand.
    fn bytes(&mut self, text: &[u8])
        requires { Space text.now self.old.at self.old.lent.now }
        ensures { Writes text.now self.old self.new }
    {
        let end = self.at + text.len();
        self.lent[self.at..end].copy_from_slice(text);
        self.at = end;
    }

    // A number of at most ten digits: those in front of the last ten are left out. Up to three digits, as most numbers have, are put at once.
    pub fn number(&mut self, x: u64)
        requires { Space (decimal x) self.old.at self.old.lent.now }
        ensures { Writes (decimal x) self.old self.new }
    {
        if x < 10 {
            self.byte(b'0' + x as u8);
        } else if x < 100 {
            self.two(x);
        } else if x < 1000 {
            self.byte(b'0' + (x / 100) as u8);
            self.two(x % 100);
        } else {
            self.many(x);
        }
    }

    // The two digits of a number below a hundred.
    fn two(&mut self, x: u64)
        requires { (x < 100) × (self.old.at + 2 ≤ length self.old.lent.now) }
        ensures { Writes ((48 + x / 10) ∷ (48 + x % 10) ∷ []) self.old self.new }
    {
        self.byte(b'0' + (x / 10) as u8);
        self.byte(b'0' + (x % 10) as u8);
    }

    // The same for any number, by way of a buffer of its digits.
    fn many(&mut self, x: u64)
        requires { Space (decimal x) self.old.at self.old.lent.now }
        ensures { Writes (decimal x) self.old self.new }
    {
        let mut buffer = Buffer::new();
        let all = buffer.format(x).as_bytes();
        self.bytes(&all[all.len().saturating_sub(10)..]);
    }

    // A number behind a space.
    fn behind(&mut self, x: u64)
        requires { Space (behind x) self.old.at self.old.lent.now }
        ensures { Writes (behind x) self.old self.new }
    {
        self.byte(b' ');
        self.number(x);
    }
}
