// A reader kept over the bytes of an operation (document 01: 'a small reader kept over the caller's bytes'): the bytes
// and a place in them. Every number and all raw bytes of an operation go through it.
ghost use Rattle.std.specs.Prelude.{◌≡◌, ◌≤◌, length};
ghost use Rattle.std.specs.Bool.{Decides};
ghost use Rattle.std.specs.Option.{IfSome};
ghost use Rattle.model.specs.Number.{most_number, number_at};
ghost use Rattle.model.specs.Operation.{most_items, count_at};
ghost use Rattle.operation.specs.Reader.{reader_at, Reads, ReadsRaw};

use model::{CONTENT_BYTES, MOST_ITEMS};

#[derive(Clone, Copy)]
pub struct Reader<'a> {
    src: &'a [u8],
    at: usize,
}

impl<'a> Reader<'a> {
    // A reader at the start of `src`.
    pub fn new(src: &'a [u8]) -> Reader<'a>
        ensures { result ≡ reader_at src.entry 0 }
    {
        Reader { src, at: 0 }
    }

    // The number at the reader's place, which moves on past it.
    #[tactic(auto, using(crate::proofs::Parsing::number_small))]
    pub fn number(&mut self) -> Option<usize>
        ensures value { Reads result self.new.at (number_at self.old.src.now self.old.at) }
        ensures bound { IfSome result (λ n. n ≤ most_number) }
        ensures src { self.new.src ≡ self.old.src }
    {
        let (n, next) = varint::decode(self.src, self.at).ok()?;
        self.at = next;
        Some(n)
    }

    // A count: a number from 1 to the most items.
    #[tactic(auto, unfolding(model::specs::Operation::count_at_by, model::specs::Operation::counting))]
    pub fn count(&mut self) -> Option<usize>
        ensures value { Reads result self.new.at (count_at self.old.src.now self.old.at) }
        ensures bound { IfSome result (λ n. n ≤ most_items) }
        ensures src { self.new.src ≡ self.old.src }
    {
        let n = self.number()?;
        if 1 <= n && n <= MOST_ITEMS {
            Some(n)
        } else {
            None
        }
    }

    // The sixteen raw bytes at the reader's place, which moves on past them.
    pub fn raw(&mut self) -> Option<&'a [u8]>
        ensures value { ReadsRaw result self.new.at self.old.src.now self.old.at }
        ensures src { self.new.src ≡ self.old.src }
    {
        let bytes = self.src.get(self.at..)?.get(..CONTENT_BYTES)?;
        self.at += CONTENT_BYTES;
        Some(bytes)
    }

    // Whether nothing is left to read.
    pub fn is_done(&self) -> bool
        ensures { Decides result (self.now.at ≡ length self.now.src.now) }
    {
        self.at == self.src.len()
    }
}
