ghost use Rattle.std.specs.Prelude.{◌≡◌, ◌++◌, ◌∷◌, [], List, IfOk, OnOk, codes, decimal, option_copied, true};
ghost use Rattle.std.specs.List.{flat_map};
ghost use Rattle.json.specs.Layout.{pretty};
ghost use Rattle.json.specs.Reads.{token_of};
ghost use Rattle.json.specs.Token.{Token as JsonToken, begin_array, begin_object, end_array, end_object, key, number, string};
ghost use Rattle.shown_text.specs.Shown.{is_whole};
ghost use Rattle.store_report.specs.Tokens.{book_tokens, byte_number, bytes_tokens, command_tokens, entry_tokens, finding_tokens, if_any, listed, names_tokens, other_tokens, pair_tokens, property_tokens, report_tokens, start_tokens, call_tokens};

use crate::Finding;
use crate::lines::{hint_text, program_of, starts_of};
use checkpoint_records::{Book, Entry, Named, SharedEntries};
use ice_values::Property;
use json::{Pretty, Token};
use owned_lists::{Command, ListOf, NoMemory, Octets};
use shown_text::is_whole;
use std::alloc::Global;
use xsmp_properties::{command_of, hint_of};

/// A value as it stands in JSON.
trait Shown {
    ghost tokens: { Self → List JsonToken };

    /// Appends its tokens.
    fn put(&self, alloc: Global, out: &mut Pretty) -> Result<(), NoMemory>
        ensures { OnOk result (out.new ≡ out.old ++ tokens self.now) };
}

fn put_key(out: &mut Pretty, name: &str) -> Result<(), NoMemory>
    ensures { OnOk result (out.new ≡ out.old ++ key name.now ∷ []) }
{
    Ok(out.token(Token::Key(name))?)
}

fn begin_object(out: &mut Pretty) -> Result<(), NoMemory>
    ensures { OnOk result (out.new ≡ out.old ++ begin_object ∷ []) }
{
    Ok(out.token(Token::BeginObject)?)
}

fn end_object(out: &mut Pretty) -> Result<(), NoMemory>
    ensures { OnOk result (out.new ≡ out.old ++ end_object ∷ []) }
{
    Ok(out.token(Token::EndObject)?)
}

fn begin_array(out: &mut Pretty) -> Result<(), NoMemory>
    ensures { OnOk result (out.new ≡ out.old ++ begin_array ∷ []) }
{
    Ok(out.token(Token::BeginArray)?)
}

fn end_array(out: &mut Pretty) -> Result<(), NoMemory>
    ensures { OnOk result (out.new ≡ out.old ++ end_array ∷ []) }
{
    Ok(out.token(Token::EndArray)?)
}

fn put_string(out: &mut Pretty, text: &str) -> Result<(), NoMemory>
    ensures { OnOk result (out.new ≡ out.old ++ string text.now ∷ []) }
{
    Ok(out.token(Token::String(text))?)
}

fn put_number(alloc: Global, out: &mut Pretty, value: u64) -> Result<(), NoMemory>
    ensures { OnOk result (out.new ≡ out.old ++ number (decimal value) ∷ []) }
{
    let digits = value.to_string(alloc)?;
    Ok(out.token(Token::Number(digits.as_str()))?)
}

/// Appends bytes that are a whole text.
fn put_text(out: &mut Pretty, bytes: &[u8]) -> Result<(), NoMemory>
    requires { is_whole bytes.now ≡ true }
    ensures { OnOk result (out.new ≡ out.old ++ string bytes.now ∷ []) }
{
    match str::from_utf8(bytes) {
        Ok(text) => put_string(out, text),
        Err(_) => unreachable!(),
    }
}

/// Appends the numbers of bytes.
fn put_numbers(alloc: Global, out: &mut Pretty, bytes: &[u8]) -> Result<(), NoMemory>
    ensures { OnOk result (out.new ≡ out.old ++ flat_map byte_number bytes.now) }
{
    for &byte in bytes {
        put_number(alloc, out, byte.into())?;
    }
    Ok(())
}

/// Appends an array of the numbers of bytes.
#[tactic(auto, unfolding(crate::specs::Tokens::listed))]
fn put_byte_array(alloc: Global, out: &mut Pretty, bytes: &[u8]) -> Result<(), NoMemory>
    ensures { OnOk result (out.new ≡ out.old ++ listed byte_number bytes.now) }
{
    begin_array(out)?;
    put_numbers(alloc, out, bytes)?;
    end_array(out)
}

/// Appends what stands for items, one after the other.
fn put_items<T: Shown>(alloc: Global, out: &mut Pretty, items: &[T]) -> Result<(), NoMemory>
    ensures { OnOk result (out.new ≡ out.old ++ flat_map T.tokens items.now) }
{
    for item in items {
        item.put(alloc, out)?;
    }
    Ok(())
}

/// Appends what there is, or `null`.
#[tactic(auto, unfolding(crate::specs::Tokens::if_any))]
fn put_any<T: Shown>(alloc: Global, out: &mut Pretty, found: Option<&T>) -> Result<(), NoMemory>
    ensures { OnOk result (out.new ≡ out.old ++ if_any T.tokens (option_copied found.entry)) }
{
    match found {
        Some(item) => item.put(alloc, out),
        None => Ok(out.token(Token::Null)?),
    }
}

/// Appends a member of an object.
fn put_member<T: Shown>(
    alloc: Global,
    out: &mut Pretty,
    name: &str,
    value: &T,
) -> Result<(), NoMemory>
    ensures { OnOk result (out.new ≡ out.old ++ key name.now ∷ T.tokens value.now) }
{
    put_key(out, name)?;
    value.put(alloc, out)
}

fn put_count(alloc: Global, out: &mut Pretty, name: &str, value: u64) -> Result<(), NoMemory>
    ensures { OnOk result (out.new ≡ out.old ++ key name.now ∷ number (decimal value) ∷ []) }
{
    put_key(out, name)?;
    put_number(alloc, out, value)
}

impl Shown for Octets {
    ghost tokens = { bytes_tokens };

    #[tactic(auto, unfolding(crate::specs::Tokens::bytes_tokens))]
    fn put(&self, alloc: Global, out: &mut Pretty) -> Result<(), NoMemory> {
        if is_whole(self.as_slice()) {
            put_text(out, self.as_slice())
        } else {
            put_byte_array(alloc, out, self.as_slice())
        }
    }
}

/// Appends a name and a value as an array of two.
fn put_pair(alloc: Global, out: &mut Pretty, pair: &(Octets, Octets)) -> Result<(), NoMemory>
    ensures { OnOk result (out.new ≡ out.old ++ pair_tokens pair.now) }
{
    begin_array(out)?;
    pair.0.put(alloc, out)?;
    pair.1.put(alloc, out)?;
    end_array(out)
}

fn put_pairs(alloc: Global, out: &mut Pretty, pairs: &[(Octets, Octets)]) -> Result<(), NoMemory>
    ensures { OnOk result (out.new ≡ out.old ++ flat_map pair_tokens pairs.now) }
{
    for pair in pairs {
        put_pair(alloc, out, pair)?;
    }
    Ok(())
}

/// Appends an array of names and values.
#[tactic(auto, unfolding(crate::specs::Tokens::listed))]
fn put_environment(
    alloc: Global,
    out: &mut Pretty,
    pairs: &[(Octets, Octets)],
) -> Result<(), NoMemory>
    ensures { OnOk result (out.new ≡ out.old ++ listed pair_tokens pairs.now) }
{
    begin_array(out)?;
    put_pairs(alloc, out, pairs)?;
    end_array(out)
}

/// Appends an array of items.
#[tactic(auto, unfolding(crate::specs::Tokens::listed))]
fn put_array<T: Shown>(alloc: Global, out: &mut Pretty, items: &[T]) -> Result<(), NoMemory>
    ensures { OnOk result (out.new ≡ out.old ++ listed T.tokens items.now) }
{
    begin_array(out)?;
    put_items(alloc, out, items)?;
    end_array(out)
}

impl<T: Shown + Drop> Shown for ListOf<T> {
    ghost tokens = { listed T.tokens };

    fn put(&self, alloc: Global, out: &mut Pretty) -> Result<(), NoMemory> {
        put_array(alloc, out, self.as_slice())
    }
}

impl Shown for SharedEntries {
    ghost tokens = { listed entry_tokens };

    fn put(&self, alloc: Global, out: &mut Pretty) -> Result<(), NoMemory> {
        put_array(alloc, out, self.as_slice())
    }
}

/// Appends what a command starts, and where.
fn put_call(alloc: Global, out: &mut Pretty, command: &Command) -> Result<(), NoMemory>
    ensures { OnOk result (out.new ≡ out.old ++ call_tokens command.now) }
{
    put_member(alloc, out, "words", &command.words)?;
    put_member(alloc, out, "directory", &command.directory)?;
    Ok(())
}

impl Shown for Command {
    ghost tokens = { command_tokens };

    #[tactic(auto, unfolding(crate::specs::Tokens::command_tokens))]
    fn put(&self, alloc: Global, out: &mut Pretty) -> Result<(), NoMemory> {
        begin_object(out)?;
        put_call(alloc, out, self)?;
        put_key(out, "environment")?;
        put_environment(alloc, out, self.environment.as_slice())?;
        end_object(out)
    }
}

impl Shown for Property {
    ghost tokens = { property_tokens };

    #[tactic(auto, unfolding(crate::specs::Tokens::property_tokens))]
    fn put(&self, alloc: Global, out: &mut Pretty) -> Result<(), NoMemory> {
        begin_object(out)?;
        put_member(alloc, out, "name", &self.name)?;
        put_member(alloc, out, "kind", &self.kind)?;
        put_member(alloc, out, "values", &self.values)?;
        end_object(out)
    }
}

/// Appends an entry's ID and its program.
fn put_names(alloc: Global, out: &mut Pretty, entry: &Entry) -> Result<(), NoMemory>
    ensures { OnOk result (out.new ≡ out.old ++ names_tokens entry.now) }
{
    put_member(alloc, out, "id", &entry.id)?;
    put_key(out, "program")?;
    put_any(alloc, out, program_of(&entry.table))
}

/// Appends when and by what an entry's program is started again.
fn put_start(alloc: Global, out: &mut Pretty, entry: &Entry) -> Result<(), NoMemory>
    ensures { OnOk result (out.new ≡ out.old ++ start_tokens entry.now) }
{
    let restart = command_of(alloc, &entry.table, b"RestartCommand")?;
    put_key(out, "hint")?;
    put_string(out, hint_text(hint_of(&entry.table)))?;
    put_key(out, "restart")?;
    put_any(alloc, out, restart.as_ref())?;
    Ok(())
}

impl Shown for Entry {
    ghost tokens = { entry_tokens };

    #[tactic(auto, unfolding(crate::specs::Tokens::entry_tokens))]
    fn put(&self, alloc: Global, out: &mut Pretty) -> Result<(), NoMemory> {
        let properties = self.table.list()?;
        begin_object(out)?;
        put_names(alloc, out, self)?;
        put_start(alloc, out, self)?;
        put_member(alloc, out, "properties", &properties)?;
        end_object(out)
    }
}

impl Shown for Named {
    ghost tokens = { other_tokens };

    #[tactic(auto, unfolding(crate::specs::Tokens::other_tokens))]
    fn put(&self, alloc: Global, out: &mut Pretty) -> Result<(), NoMemory> {
        begin_object(out)?;
        put_member(alloc, out, "name", &self.name)?;
        put_member(alloc, out, "entries", &self.entries)?;
        end_object(out)
    }
}

fn put_book(alloc: Global, out: &mut Pretty, book: &Book) -> Result<(), NoMemory>
    ensures { OnOk result (out.new ≡ out.old ++ book_tokens book.now) }
{
    let starts = starts_of(alloc, book)?;
    put_count(alloc, out, "epoch", book.epoch.into())?;
    put_count(alloc, out, "starts", starts)?;
    put_member(alloc, out, "entries", &book.entries)?;
    put_member(alloc, out, "others", &book.others)?;
    put_member(alloc, out, "pending", &book.pending)?;
    Ok(())
}

fn put_finding(alloc: Global, out: &mut Pretty, finding: &Finding) -> Result<(), NoMemory>
    ensures { OnOk result (out.new ≡ out.old ++ finding_tokens finding.now) }
{
    match finding {
        Finding::Opens(book) => put_book(alloc, out, book),
        Finding::Damaged(at) => put_count(alloc, out, "damaged", *at),
        Finding::WrongSize(size) => put_count(alloc, out, "size", *size),
    }
}

fn put_report(
    alloc: Global,
    out: &mut Pretty,
    finding: &Finding,
    is_living: bool,
) -> Result<(), NoMemory>
    ensures { OnOk result (out.new ≡ out.old ++ report_tokens is_living finding.now) }
{
    begin_object(out)?;
    put_key(out, "living")?;
    out.token(Token::Bool(is_living))?;
    put_finding(alloc, out, finding)?;
    end_object(out)
}

/// What was found in a store, as the text of a JSON object without a newline behind it. `is_living`
/// tells that a manager has the store.
pub fn report_json(alloc: Global, finding: &Finding, is_living: bool) -> Result<Octets, NoMemory>
    ensures { IfOk result (λ text. text ≡ pretty (report_tokens is_living finding.now)) }
{
    let mut out = Pretty::new(alloc);
    put_report(alloc, &mut out, finding, is_living)?;
    Ok(Octets::from_vec(out.into_inner()))
}
