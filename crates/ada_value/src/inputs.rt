//! What the tasks of a program read.

use std::marker::Model;

/// The input of each task, by its number from 0: the integers that it reads, in order. A task past the end has no input.
/// A contract sees the list of these lists.
#[derive(Drop)]
pub struct Inputs {
    pub lists: Vec<Vec<i32>>,
}

impl Model for Inputs {
    ghost use Rattle.std.specs.Prelude.{ℤ, List, map};

    ghost Value = { List (List ℤ) };

    ghost view = { λ a. map (λ v. v.items) a.lists.items };
}
