ghost use Rattle.std.specs.Prelude.{◌≡◌, None, Some, MatchOption, find, option_copied};
ghost use Rattle.adopted_words.specs.Choice.{are_never as of_never, are_restart_only as of_restart, command_of, never_of, restart_of, words_for as chosen};

use crate::Rule;
use owned_lists::Octets;

fn is_never(rule: &Rule, name: &[u8]) -> bool
    ensures { result ≡ never_of name.now rule.now }
{
    match rule {
        Rule::Never(other) => other.as_slice() == name,
        Rule::RestartOnly(_) => false,
        Rule::Command { .. } => false,
    }
}

fn is_restart_only(rule: &Rule, name: &[u8]) -> bool
    ensures { result ≡ restart_of name.now rule.now }
{
    match rule {
        Rule::Never(_) => false,
        Rule::RestartOnly(other) => other.as_slice() == name,
        Rule::Command { .. } => false,
    }
}

fn is_command(rule: &Rule, name: &[u8]) -> bool
    ensures { result ≡ command_of name.now rule.now }
{
    match rule {
        Rule::Never(_) => false,
        Rule::RestartOnly(_) => false,
        Rule::Command { name: other, .. } => other.as_slice() == name,
    }
}

/// Whether the programs of this name aren't adopted.
pub fn are_never(rules: &[Rule], name: &[u8]) -> bool
    ensures { result ≡ of_never name.now rules.now }
{
    rules.iter().any(|rule| is_never(rule, name))
}

/// Whether the programs of this name are started again, and nobody asks them to close.
pub fn are_restart_only(rules: &[Rule], name: &[u8]) -> bool
    ensures { result ≡ of_restart name.now rules.now }
{
    rules.iter().any(|rule| is_restart_only(rule, name))
}

fn command_rule<'a>(rules: &'a [Rule], name: &[u8]) -> Option<&'a Rule>
    ensures { option_copied result ≡ find (command_of name.now) rules.now }
{
    rules.iter().find(|rule| is_command(rule, name))
}

/// The words by which the programs of this name are started; the first line that says them counts.
pub fn words_for<'a>(rules: &'a [Rule], name: &[u8]) -> Option<&'a [Octets]>
    ensures { MatchOption result (chosen name.now rules.now ≡ None) (λ words.
        chosen name.now rules.now ≡ Some words.now) }
{
    match command_rule(rules, name) {
        Some(Rule::Command { words, .. }) => Some(words.as_slice()),
        Some(Rule::Never(_)) => None,
        Some(Rule::RestartOnly(_)) => None,
        None => None,
    }
}
