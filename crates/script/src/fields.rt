//! The fields of a line, one after the other.
ghost use Rattle.std.specs.Prelude.{◌≡◌};
ghost use Rattle.std.specs.Iterator.{YieldsFirstRef, item_count};
ghost use Rattle.script.specs.Fields.{first, others, split, number, end};
ghost use Rattle.script.specs.Lines.{letter_of};

use crate::bytes::{cut, first_number};
use std::marker::Model;

/// The fields that are left of a line; a blank stands between two.
#[derive(Drop)]
pub struct Fields<'a> {
    rest: Option<&'a [u8]>,
}

impl<'a> Model for Fields<'a> {
    ghost use Rattle.std.specs.Prelude.{ℕ, List};
    ghost use Rattle.std.specs.Option.{option_map};
    ghost use Rattle.script.specs.Fields.{left};

    ghost Value = { List (List ℕ) };

    ghost view = { λ fields. left 32 (option_map (λ x. x.now) fields.rest) };
}

impl<'a> Iterator for Fields<'a> {
    type Item = &'a [u8];

    ghost next_gives = { YieldsFirstRef (λ fields. fields) };

    ghost remaining = { item_count (λ fields. fields) };

    fn next(&mut self) -> Option<&'a [u8]> {
        let (field, rest) = cut(self.rest?, b' ');
        self.rest = rest;
        Some(field)
    }
}

impl<'a> Fields<'a> {
    pub(crate) fn new(line: &'a [u8]) -> Fields<'a>
        ensures { result ≡ split 32 line.now }
    {
        Fields { rest: Some(line) }
    }

    /// The number of the next field.
    pub(crate) fn number(&mut self) -> Option<u32>
        ensures value { result ≡ number (first self.old) }
        ensures after { self.new ≡ others self.old }
    {
        match first_number(self.rest?) {
            Some((number, rest)) => {
                self.rest = rest;
                Some(number)
            }
            None => {
                self.next();
                None
            }
        }
    }

    /// The letter that the next field is.
    pub(crate) fn letter(&mut self) -> Option<u8>
        ensures value { result ≡ letter_of (first self.old) }
        ensures after { self.new ≡ others self.old }
    {
        match self.next()? {
            [letter] => Some(*letter),
            _ => None,
        }
    }

    /// `x`, where no field is left.
    #[tactic(auto, using(crate::proofs::Splits::end_left))]
    pub(crate) fn end<T: Drop>(&self, x: T) -> Option<T>
        ensures { result ≡ end x self.now }
    {
        self.rest.is_none().then_some(x)
    }
}
