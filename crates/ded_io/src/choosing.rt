//! Choices among numbers, as a run takes them.
ghost use Rattle.std.specs.Prelude.{◌≡◌, ◌<◌, ◌%◌};

use std::marker::Model;

/// Who picks one of `n` places each time. The ghost members `word` and `next` are functions of the chooser's state: the word that the
/// next pick goes by, and the state behind that pick. So the picks of a run are fixed by the state at its start.
pub trait Chooser {
    ghost use Rattle.std.specs.Prelude.{ℕ};

    ghost word: { Self → ℕ };

    ghost next: { Self → Self };

    /// One of the places from 0 to `n - 1`. It cannot fail and takes no memory.
    fn pick(&mut self, n: u32) -> u32
        requires { 0 < n }
        ensures picked { result ≡ word self.old % n }
        ensures below { result < n }
        ensures after { self.new ≡ next self.old };
}

impl<C: Chooser> Chooser for &mut C {
    ghost word = { λ chooser. C.word chooser.now };

    ghost next = { λ chooser. record chooser { now = C.next chooser.now } };

    fn pick(&mut self, n: u32) -> u32 {
        (**self).pick(n)
    }
}

/// The words of a list one after the other, and 0 behind its end; contracts see it as the list of the words that are left.
#[derive(Drop)]
pub struct ListChooser {
    words: Vec<u32>,
    at: usize,
}

impl Model for ListChooser {
    ghost use Rattle.std.specs.Prelude.{ℕ, List, drop};

    ghost Value = { List ℕ };

    ghost view = { λ a. drop a.at a.words.items };
}

impl ListChooser {
    /// A chooser whose picks go by the words of `list`, the first one first.
    pub fn new(list: Vec<u32>) -> ListChooser
        ensures { result ≡ list.items }
    {
        ListChooser { words: list, at: 0 }
    }
}

impl Chooser for ListChooser {
    ghost use Rattle.ded_io.specs.Stored.{first_choice, behind_choice};

    ghost word = { first_choice };

    ghost next = { behind_choice };

    fn pick(&mut self, n: u32) -> u32 {
        match self.words.get(self.at) {
            Some(word) => {
                let word = *word;
                self.at += 1;
                word % n
            }
            None => 0,
        }
    }
}
