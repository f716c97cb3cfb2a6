ghost use Rattle.std.specs.Prelude.{◌≡◌, List, [], ◌∷◌, ◌++◌, IfOk, IfErr, OnOk};
ghost use Rattle.control_lines.specs.Lines.{lines_of};
ghost use Rattle.control_lines.specs.Script.{IsRefusal};
ghost use Rattle.adopted_words.specs.Rules.{GivesRule};
ghost use Rattle.adopted_words.specs.Files.{IsRulesFault, SayRules};
ghost use Rattle.adopted_words.specs.declared.rules.Rule.{Rule as AnyRule};

use crate::Rule;
use crate::rules::read_line;
use control_lines::{OrderRefusal, next_line};
use owned_lists::ListOf;
use std::alloc::Global;

/// The rules of a file, in its order.
pub type RuleList = ListOf<Rule>;

/// Why a file has no rules.
#[derive(Clone, Copy, Debug, PartialEq, Eq)]
pub enum RulesFault {
    /// This line, counted from 1, is the first that isn't of the grammar.
    BadLine(u64),
    NoMemory,
}

/// Adds the rule that a line says to those before it, and nothing for a line that is skipped.
fn take_line(alloc: Global, rules: &mut RuleList, line: &[u8]) -> Result<(), OrderRefusal>
    ensures taken { OnOk result ((said : List AnyRule) × SayRules (line.now ∷ []) said
        × (rules.new ≡ rules.old ++ said)) }
    ensures refused { IfErr result (IsRefusal (GivesRule line.now)) }
{
    match read_line(alloc, line)? {
        None => Ok(()),
        Some(rule) => {
            rules.push(rule)?;
            Ok(())
        }
    }
}

/// The rules that the lines of a file say: `never NAME`, `restart-only NAME` or `command NAME WORD..`,
/// with one blank between two words. An empty line and one that begins with `#` say nothing.
pub fn read_rules(alloc: Global, text: &[u8]) -> Result<RuleList, RulesFault>
    ensures says { IfOk result (SayRules (lines_of text.now)) }
    ensures bad { IfErr result (IsRulesFault text.now) }
{
    let mut rules = RuleList::new(alloc);
    let mut left = text;
    let mut number = 0u64;
    while !left.is_empty() {
        let (line, rest) = next_line(left);
        number += 1;
        match take_line(alloc, &mut rules, line) {
            Ok(()) => {}
            Err(OrderRefusal::BadLine) => return Err(RulesFault::BadLine(number)),
            Err(OrderRefusal::NoMemory) => return Err(RulesFault::NoMemory),
        }
        left = rest;
    }
    Ok(rules)
}
