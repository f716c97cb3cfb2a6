ghost use Rattle.std.specs.Prelude.{◌≡◌, ◌∷◌, ◌++◌, ◌≤◌, ◌==◌, [], List, Some, false, true, length, map, if◌then◌else◌, IfOk, IfSome, IfNone, OnOk};
ghost use Rattle.std.specs.List.{AllByRecursion, IsDistinct, list_any};
ghost use Rattle.std.specs.Str.{bytes_eq};
ghost use Rattle.std.specs.Cmp.Lexicographic.{pointwise};
ghost use Rattle.owned_lists.specs.declared.commands.Command.{Command as AnyCommand};
ghost use Rattle.checkpoint_records.specs.Books.{default_name, entries_of, same_command, sessions as all_sessions};
ghost use Rattle.checkpoint_records.specs.declared.head.Format.TheVariants.{Several};
ghost use Rattle.checkpoint_records.specs.Rules.{IsCommand, KeepsRules};
ghost use Rattle.checkpoint_records.specs.declared.records.Entry.{Entry as AnyEntry};
ghost use Rattle.checkpoint_changes.specs.Changes.{IsChange, apply};
ghost use Rattle.checkpoint_changes.specs.Differences.{TurnsPending, all_gone, all_placed, changed_entry, delta_between, gone, placed};
ghost use Rattle.checkpoint_changes.specs.Plain.{IsPlain, KeepOrder, equal_command as are_equal_commands, equal_entry as are_equal_entries, equal_pair};
ghost use Rattle.checkpoint_changes.specs.declared.changes.Change.{Change as AnyChange};
ghost use Rattle.checkpoint_changes.specs.declared.changes.Change.TheVariants.{Epoch, Pend, Put};

use crate::{Change, Delta};
use checkpoint_records::{Book, Entry, Named, place_among};
use owned_lists::{Command, Duplicate, NoMemory, Octets};
use std::alloc::Global;
use xsmp_properties::{same_bytes, same_texts};

fn equal_pairs(first: &[(Octets, Octets)], second: &[(Octets, Octets)]) -> bool
    ensures { result ≡ pointwise equal_pair first.now second.now }
{
    let mut left = second;
    for (name, value) in first {
        let [(other, another), others @ ..] = left else {
            return false;
        };
        if !same_bytes(name.as_slice(), other.as_slice())
            || !same_bytes(value.as_slice(), another.as_slice())
        {
            return false;
        }
        left = others;
    }
    left.is_empty()
}

fn equal_command(first: &Command, second: &Command) -> bool
    ensures { result ≡ are_equal_commands first.now second.now }
{
    same_texts(first.words.as_slice(), second.words.as_slice())
        && same_bytes(first.directory.as_slice(), second.directory.as_slice())
        && equal_pairs(first.environment.as_slice(), second.environment.as_slice())
}

fn change_epoch(old: u32, new: u32, delta: &mut Delta) -> Result<(), NoMemory>
    ensures { OnOk result (delta.new ≡ delta.old ++ (if old == new then [] else (Epoch new ∷ []))) }
{
    if old == new {
        return Ok(());
    }
    delta.push(Change::Epoch(new))
}

/// The next of these entries and those behind it, if it has this ID.
fn next_with<'a>(id: &[u8], entries: &'a [Entry]) -> Option<(&'a Entry, &'a [Entry])>
    ensures some { IfSome result (λ x. (entries.now ≡ x.0.now ∷ x.1.now)
        × (bytes_eq id.now x.0.now.id ≡ true)) }
    ensures none { IfNone result ((entry : AnyEntry) (others : List AnyEntry) →
        entries.now ≡ entry ∷ others → bytes_eq id.now entry.id ≡ false) }
{
    let (entry, others) = entries.split_first()?;
    if same_bytes(id, entry.id.as_slice()) {
        Some((entry, others))
    } else {
        None
    }
}

/// Puts an entry in the place of the one with its ID, unless they are equal.
fn change_entry(name: &Octets, old: &Entry, new: &Entry, delta: &mut Delta) -> Result<(), NoMemory>
    requires { bytes_eq old.now.id new.now.id ≡ true }
    ensures { OnOk result (delta.new ≡ delta.old ++ changed_entry name.now old.now new.now) }
{
    if old.table.is_same(&new.table) {
        return Ok(());
    }
    delta.push(Change::Put(name.copy()?, new.copy()?))
}

fn put_all(name: &Octets, entries: &[Entry], delta: &mut Delta) -> Result<(), NoMemory>
    ensures { OnOk result (delta.new ≡ delta.old ++ map (λ entry. Put name.now entry) entries.now) }
{
    for entry in entries {
        delta.push(Change::Put(name.copy()?, entry.copy()?))?;
    }
    Ok(())
}

/// Takes out the entries of a session that don't stay. An entry stays where it is the next of the
/// new ones.
fn remove_gone(old: &[Entry], new: &[Entry], delta: &mut Delta) -> Result<(), NoMemory>
    ensures { OnOk result (delta.new ≡ delta.old ++ gone old.now new.now) }
{
    let mut left = new;
    for entry in old {
        match next_with(entry.id.as_slice(), left) {
            Some((_next, others)) => left = others,
            None => delta.push(Change::Remove(entry.id.copy()?))?,
        }
    }
    Ok(())
}

/// Puts the entries of a session that stay and aren't equal in their places, and then those that
/// are new.
fn put_placed(
    name: &Octets,
    old: &[Entry],
    new: &[Entry],
    delta: &mut Delta,
) -> Result<(), NoMemory>
    ensures { OnOk result (delta.new ≡ delta.old ++ placed name.now old.now new.now) }
{
    let mut left = new;
    for entry in old {
        match next_with(entry.id.as_slice(), left) {
            Some((next, others)) => {
                change_entry(name, entry, next, delta)?;
                left = others;
            }
            None => {}
        }
    }
    put_all(name, left, delta)
}

/// The entries that the session of this name has among these.
fn entries_among<'a>(sessions: &'a [Named], name: &[u8]) -> &'a [Entry]
    ensures { result.now ≡ entries_of name.now sessions.now }
{
    for session in sessions {
        if name == session.name.as_slice() {
            return session.entries.as_slice();
        }
    }
    &[]
}

/// The entries that the session of this name has in a book.
fn entries_in<'a>(book: &'a Book, name: &[u8]) -> &'a [Entry]
    requires { list_any (λ other. bytes_eq book.now.name other.name) book.now.others ≡ false }
    ensures { result.now ≡ entries_of name.now (all_sessions book.now) }
{
    if name == book.name.as_slice() {
        return book.entries.as_slice();
    }
    entries_among(book.others.as_slice(), name)
}

fn remove_from_each(sessions: &[Named], new: &Book, delta: &mut Delta) -> Result<(), NoMemory>
    requires { list_any (λ other. bytes_eq new.now.name other.name) new.now.others ≡ false }
    ensures { OnOk result (delta.new ≡ delta.old ++ all_gone sessions.now (all_sessions new.now)) }
{
    for session in sessions {
        let left = entries_in(new, session.name.as_slice());
        remove_gone(session.entries.as_slice(), left, delta)?;
    }
    Ok(())
}

fn put_into_each(old: &Book, sessions: &[Named], delta: &mut Delta) -> Result<(), NoMemory>
    requires { list_any (λ other. bytes_eq old.now.name other.name) old.now.others ≡ false }
    ensures { OnOk result (delta.new ≡ delta.old ++ all_placed (all_sessions old.now) sessions.now) }
{
    for session in sessions {
        let before = entries_in(old, session.name.as_slice());
        put_placed(&session.name, before, session.entries.as_slice(), delta)?;
    }
    Ok(())
}

/// Takes out what goes, of all sessions. What goes into another session has to be out before.
fn change_gone(old: &Book, new: &Book, delta: &mut Delta) -> Result<(), NoMemory>
    requires old_rules { KeepsRules old.now }
    requires new_rules { KeepsRules new.now }
    ensures { OnOk result
        (delta.new ≡ delta.old ++ all_gone (all_sessions old.now) (all_sessions new.now)) }
{
    let others = old.others.as_slice();
    let (before, behind) = others.split_at(place_among(others, old.name.as_slice()));
    remove_from_each(before, new, delta)?;
    let left = entries_in(new, old.name.as_slice());
    remove_gone(old.entries.as_slice(), left, delta)?;
    remove_from_each(behind, new, delta)
}

/// Puts what comes, into all sessions.
fn change_placed(old: &Book, new: &Book, delta: &mut Delta) -> Result<(), NoMemory>
    requires old_rules { KeepsRules old.now }
    requires new_rules { KeepsRules new.now }
    ensures { OnOk result
        (delta.new ≡ delta.old ++ all_placed (all_sessions old.now) (all_sessions new.now)) }
{
    let others = new.others.as_slice();
    let (before, behind) = others.split_at(place_among(others, new.name.as_slice()));
    put_into_each(old, before, delta)?;
    let stays = entries_in(old, new.name.as_slice());
    put_placed(&new.name, stays, new.entries.as_slice(), delta)?;
    put_into_each(old, behind, delta)
}

/// Those behind the next of these commands, if it is equal to this one.
fn behind_equal<'a>(command: &Command, commands: &'a [Command]) -> Option<&'a [Command]>
    ensures some { IfSome result (λ others. (next : AnyCommand) × (commands.now ≡ next ∷ others.now)
        × (are_equal_commands command.now next ≡ true)) }
    ensures none { IfNone result ((next : AnyCommand) (others : List AnyCommand) →
        commands.now ≡ next ∷ others → are_equal_commands command.now next ≡ false) }
{
    let (next, others) = commands.split_first()?;
    if equal_command(command, next) {
        Some(others)
    } else {
        None
    }
}

fn pend_all(commands: &[Command], delta: &mut Delta) -> Result<(), NoMemory>
    ensures { OnOk result (delta.new ≡ delta.old ++ map (λ command. Pend command) commands.now) }
{
    for command in commands {
        delta.push(Change::Pend(command.copy()?))?;
    }
    Ok(())
}

/// Adds the changes that make the new pending commands of the old ones. A command stays where it
/// is the next of the new ones. The others are taken out, and what is then left of the new ones
/// goes last.
fn change_pending(old: &[Command], new: &[Command], delta: &mut Delta) -> Result<(), NoMemory>
    requires few { length old.now ≤ 320 }
    requires fit { AllByRecursion IsCommand new.now }
    requires old_differ { IsDistinct same_command old.now }
    requires new_differ { IsDistinct same_command new.now }
    ensures { OnOk result ((added : List AnyChange) × (delta.new ≡ delta.old ++ added)
        × TurnsPending old.now new.now added) }
{
    let mut left = new;
    let mut kept = 0_u32;
    for command in old {
        match behind_equal(command, left) {
            Some(others) => {
                left = others;
                kept += 1;
            }
            None => delta.push(Change::Unpend(kept))?,
        }
    }
    pend_all(left, delta)
}

/// The changes that make the new book of the old one, in both of which `default` is chosen: the
/// epoch where it differs, then the entries that go, of all sessions, then those that come or change,
/// and then those of the pending commands. Entries and pending commands that come in another order,
/// or into another session, go and come again. Otherwise the delta holds what differs and nothing
/// else.
pub fn delta_of(alloc: Global, old: &Book, new: &Book) -> Result<Delta, NoMemory>
    requires old_rules { KeepsRules old.now }
    requires new_rules { KeepsRules new.now }
    requires old_chosen { old.now.name ≡ default_name }
    requires new_chosen { new.now.name ≡ default_name }
    ensures applies { IfOk result (λ delta. apply old.now delta ≡ Some new.now) }
    ensures changes { IfOk result (λ delta. AllByRecursion (IsChange Several) delta) }
    ensures plain { IfOk result (λ delta. KeepOrder old.now new.now →
        IsPlain old.now new.now delta) }
    ensures exact { IfOk result (λ delta. delta ≡ delta_between old.now new.now) }
{
    let mut delta = Delta::new(alloc);
    change_epoch(old.epoch, new.epoch, &mut delta)?;
    change_gone(old, new, &mut delta)?;
    change_placed(old, new, &mut delta)?;
    change_pending(old.pending.as_slice(), new.pending.as_slice(), &mut delta)?;
    Ok(delta)
}
