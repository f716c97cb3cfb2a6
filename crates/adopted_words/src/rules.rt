ghost use Rattle.std.specs.Prelude.{◌≡◌, ℕ, List, IfOk, IfErr, MatchOption};
ghost use Rattle.control_lines.specs.Script.{IsRefusal};
ghost use Rattle.adopted_words.specs.Rules.{GivesRule, SaysCommand, SaysRule};

use crate::words::{is_word, read_words};
use control_lines::{OrderRefusal, split_once};
use owned_lists::{NoMemory, Octets, OctetsList};
use std::alloc::Global;

/// What is to be done about the programs of a name.
#[derive(Debug, Drop)]
pub enum Rule {
    /// They aren't adopted.
    Never(Octets),
    /// They are started again, and nobody asks them to close.
    RestartOnly(Octets),
    /// They are started by these words.
    Command { name: Octets, words: OctetsList },
}

/// The name and the words of a command.
fn read_command(alloc: Global, fields: &[u8]) -> Result<Option<(Octets, OctetsList)>, NoMemory>
    ensures { IfOk result (λ found.
        MatchOption found ((name : List ℕ) (words : List (List ℕ)) →
        ¬ (SaysCommand fields.now name words)) (λ found. SaysCommand fields.now found.0 found.1)) }
{
    let Some((name, text)) = split_once(fields, b' ') else {
        return Ok(None);
    };
    if !is_word(name) {
        return Ok(None);
    }
    let Some(words) = read_words(alloc, text)? else {
        return Ok(None);
    };
    Ok(Some((Octets::from_slice(alloc, name)?, words)))
}

/// The rule that a line says.
fn read_rule(alloc: Global, line: &[u8]) -> Result<Rule, OrderRefusal>
    ensures says { IfOk result (SaysRule line.now) }
    ensures refused { IfErr result (IsRefusal (SaysRule line.now)) }
{
    if let Some(name) = line.strip_prefix(b"never ") {
        if is_word(name) {
            return Ok(Rule::Never(Octets::from_slice(alloc, name)?));
        }
        return Err(OrderRefusal::BadLine);
    }
    if let Some(name) = line.strip_prefix(b"restart-only ") {
        if is_word(name) {
            return Ok(Rule::RestartOnly(Octets::from_slice(alloc, name)?));
        }
        return Err(OrderRefusal::BadLine);
    }
    if let Some(fields) = line.strip_prefix(b"command ") {
        return match read_command(alloc, fields)? {
            Some((name, words)) => Ok(Rule::Command { name, words }),
            None => Err(OrderRefusal::BadLine),
        };
    }
    Err(OrderRefusal::BadLine)
}

/// The rule that a line says, without its newline; `None` for an empty line and for one that begins
/// with `#`.
pub(crate) fn read_line(alloc: Global, line: &[u8]) -> Result<Option<Rule>, OrderRefusal>
    ensures gives { IfOk result (GivesRule line.now) }
    ensures refused { IfErr result (IsRefusal (GivesRule line.now)) }
{
    if line.is_empty() || line[0] == b'#' {
        return Ok(None);
    }
    Ok(Some(read_rule(alloc, line)?))
}
