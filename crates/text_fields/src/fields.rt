//! The fields of a line.
ghost use Rattle.std.specs.Prelude.{◌≡◌, ◌≢◌, ◌↔◌, ℕ, List, [], ◌∷◌, IfSome, IsNone};
ghost use Rattle.std.specs.Iterator.{YieldsFirstBy, item_count};
ghost use Rattle.text_fields.specs.Lines.{fields_of};

use crate::lines::split_at_first;
use std::marker::Model;

/// The byte at which a line is cut into its fields.
const SPACE: u8 = b' ';

/// The fields of a line that are left, in order. A contract sees it as the list of these fields.
#[derive(Drop)]
pub struct Fields<'a> {
    /// What is left of the line; none where its last field was taken.
    rest: Option<&'a [u8]>,
}

impl<'a> Model for Fields<'a> {
    ghost use Rattle.std.specs.Prelude.{List, ℕ, []};
    ghost use Rattle.std.specs.Option.{option_map_or};
    ghost use Rattle.text_fields.specs.Lines.{fields_of};

    ghost Value = { List (List ℕ) };

    ghost view = { λ a. option_map_or (λ line. fields_of line.now) a.rest [] };
}

impl<'a> Fields<'a> {
    /// All the fields of a line.
    pub fn new(line: &'a [u8]) -> Fields<'a>
        ensures { result ≡ fields_of line.now }
    {
        Fields { rest: Some(line) }
    }

    /// The same fields once more.
    pub fn again(&self) -> Fields<'a>
        ensures { result ≡ self.now }
    {
        Fields { rest: self.rest }
    }

    /// The part of the line that has the fields that are left; none exactly where no field is left.
    #[tactic(auto, using(crate::proofs::LineLaws::some_piece))]
    pub fn into_rest(self) -> Option<&'a [u8]>
        ensures value { IfSome result (λ line. self.entry ≡ fields_of line.now) }
        ensures none { IsNone result ↔ (self.entry ≡ []) }
    {
        self.rest
    }
}

impl<'a> Iterator for Fields<'a> {
    type Item = &'a [u8];

    ghost next_gives = { YieldsFirstBy (λ field. field.now) (λ fields. fields) };

    ghost remaining = { item_count (λ fields. fields) };

    fn next(&mut self) -> Option<&'a [u8]> {
        let line = self.rest?;
        let Some((field, rest)) = split_at_first(line, SPACE) else {
            self.rest = None;
            return Some(line);
        };
        self.rest = Some(rest);
        Some(field)
    }
}
