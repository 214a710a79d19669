// A buffer before an output.

ghost use Rattle.std.specs.Prelude.{◌≡◌, ◌+◌, ◌≤◌, length, [], false, Ok, Err, if◌then◌else◌};
ghost use Rattle.ded_io.specs.pages.Pages.{Drew, over};

use crate::{Sink, SinkError};
use std::marker::Model;

const ROOM: usize = 4096;

/// A buffer of 4,096 bytes before an output, which is handed to each call. After the first write that failed nothing more is written; all
/// bytes are counted.
#[derive(Drop)]
pub struct Page {
    buffer: [u8; 4096],
    filled: usize,
    failed: bool,
    count: u64,
}

impl Model for Page {
    ghost use Rattle.std.specs.Prelude.{◌≤◌, take};
    ghost use Rattle.ded_io.specs.pages.Pages.{Sheet};

    ghost Value = { Sheet };

    ghost view = { λ a. record { waiting = take a.filled a.buffer; failed = a.failed; count = a.count } };

    ghost invariant = { λ a. a.filled ≤ 4096 };
}

impl Page {
    /// An empty page.
    pub fn new() -> Page
        ensures { result ≡ record { waiting = []; failed = false; count = 0 } }
    {
        Page {
            buffer: [0; 4096],
            filled: 0,
            failed: false,
            count: 0,
        }
    }

    // What waits is written. Nothing is put where nothing waits.
    fn flush<K: Sink>(&mut self, out: &mut K)
        ensures drew { Drew (over self.old (K.told out.old) (K.faults out.old)) (over self.new (K.told out.new) (K.faults out.new)) [] }
        ensures empty { self.new.waiting ≡ [] }
    {
        if self.filled == 0 {
            return;
        }
        if self.failed {
            self.filled = 0;
            return;
        }
        match out.put(&self.buffer[..self.filled]) {
            Ok(()) => self.filled = 0,
            Err(_) => {
                self.filled = 0;
                self.failed = true;
            }
        }
    }

    // Bytes that fit wait behind the others.
    fn keep(&mut self, bytes: &[u8])
        requires { length self.now.waiting + length bytes.now ≤ 4096 }
        ensures { (told : _) (faults : _) → Drew (over self.old told faults) (over self.new told faults) bytes.now }
    {
        self.count = self.count.saturating_add(bytes.len() as u64);
        let end = self.filled + bytes.len();
        self.buffer[self.filled..end].copy_from_slice(bytes);
        self.filled = end;
    }

    // Bytes are written at once, where nothing waits.
    fn pass<K: Sink>(&mut self, bytes: &[u8], out: &mut K)
        requires { self.now.waiting ≡ [] }
        ensures { Drew (over self.old (K.told out.old) (K.faults out.old)) (over self.new (K.told out.new) (K.faults out.new)) bytes.now }
    {
        self.count = self.count.saturating_add(bytes.len() as u64);
        if self.failed {
            return;
        }
        match out.put(bytes) {
            Ok(()) => {}
            Err(_) => self.failed = true,
        }
    }

    /// Puts bytes on the page. It takes no memory, and answers nothing: [`close`](Page::close) says whether all was written.
    #[tactic(auto, using(crate::proofs::pages::Drawn::drew_behind))]
    pub fn put<K: Sink>(&mut self, bytes: &[u8], out: &mut K)
        ensures { Drew (over self.old (K.told out.old) (K.faults out.old)) (over self.new (K.told out.new) (K.faults out.new)) bytes.now }
    {
        if bytes.len() <= ROOM - self.filled {
            self.keep(bytes);
            return;
        }
        self.flush(out);
        if bytes.len() <= ROOM {
            self.keep(bytes);
        } else {
            self.pass(bytes, out);
        }
    }

    /// How many bytes were put, or 18446744073709551615 where there were more.
    pub fn count(&self) -> u64
        ensures { result ≡ self.now.count }
    {
        self.count
    }

    /// Writes what waits, and says whether all was written.
    pub fn close<K: Sink>(&mut self, out: &mut K) -> Result<(), SinkError>
        ensures drew { Drew (over self.old (K.told out.old) (K.faults out.old)) (over self.new (K.told out.new) (K.faults out.new)) [] }
        ensures empty { self.new.waiting ≡ [] }
        ensures answer { result ≡ (if self.new.failed then Err SinkError.Failed else Ok tt) }
    {
        self.flush(out);
        if self.failed {
            Err(SinkError::Failed)
        } else {
            Ok(())
        }
    }
}
