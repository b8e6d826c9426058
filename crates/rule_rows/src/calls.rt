use crate::books::Shelf;
use crate::parts::Parts;
use crate::{captures, containers, options, rules, sets, setups};
use rows::{Calls, RowFault, Said, Words};
use std::alloc::Global;

/// The calls of this program: the book of the last row that made one, and the parts of texts that have names.
#[derive(Debug, Drop)]
pub struct RuleCalls {
    shelf: Shelf,
    parts: Parts,
}

impl RuleCalls {
    pub fn new(alloc: Global) -> RuleCalls {
        RuleCalls {
            shelf: Shelf::new(),
            parts: Parts::new(alloc),
        }
    }
}

impl Calls for RuleCalls {
    fn answer(
        &mut self,
        alloc: Global,
        verb: &str,
        words: &mut Words<'_>,
        said: &mut Said,
    ) -> Result<(), RowFault> {
        let Some((subject, call)) = verb.split_once('.') else {
            return self.parts.answer(alloc, verb, words, said);
        };
        match subject {
            "set" => sets::answer(call, words, said),
            "rule" => rules::of_rule(alloc, call, words, said),
            "dmr" => rules::of_dmr(alloc, call, words, said),
            "line" => rules::of_line(alloc, call, words, said),
            "book" => self.shelf.answer(alloc, call, words, said),
            "hex" => options::of_hex(alloc, call, words, said),
            "subs" => options::of_subs(alloc, call, words, said),
            "container" => containers::answer(alloc, call, words, said),
            "setup" => setups::answer(alloc, &self.parts, call, words, said),
            "script" => captures::answer(alloc, &self.parts, call, words, said),
            _ => Err(RowFault::NotARow),
        }
    }
}
