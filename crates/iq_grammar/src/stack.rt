//! The symbols that have to follow.
ghost use Rattle.std.specs.Prelude.{◌≡◌, ◌+◌, ◌++◌, [], length, MatchOption, IfOk};
ghost use Rattle.std.specs.Option.{option_to_list};

use crate::grammar::Symbol;
use std::alloc::{AllocError, Global};
use std::marker::Model;

/// The symbols that have to follow, which contracts see in their order. The next one lies last, so that one is taken, and others come before
/// it, without a move of the rest.
#[derive(Drop)]
pub struct Stack {
    symbols: Vec<Symbol>,
}

impl Model for Stack {
    ghost use Rattle.std.specs.Prelude.{List, reverse};
    ghost use Rattle.iq_grammar.specs.declared.grammar.Symbol.{Symbol};

    ghost Value = { List Symbol };

    ghost view = { λ s. reverse s.symbols.items };
}

impl Stack {
    /// No symbols. It takes no memory.
    pub fn new(alloc: Global) -> Stack
        ensures { result ≡ [] }
    {
        Stack {
            symbols: Vec::new(alloc),
        }
    }

    /// Takes the next symbol.
    pub fn pop(&mut self) -> Option<Symbol>
        ensures items { self.old ≡ option_to_list result ++ self.new }
        ensures cases { MatchOption result ((self.old ≡ []) × (self.new ≡ [])) (λ _. length self.new + 1 ≡ length self.old) }
    {
        self.symbols.pop()
    }

    /// Puts symbols before the others. Where memory is wanting, some may stand there.
    pub fn put(&mut self, symbols: &[Symbol]) -> Result<(), AllocError>
        ensures { IfOk result (λ _. self.new ≡ symbols.now ++ self.old) }
    {
        for symbol in symbols.iter().rev() {
            self.symbols.push(*symbol)?;
        }
        Ok(())
    }
}
