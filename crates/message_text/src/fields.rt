ghost use Rattle.std.specs.Prelude.{◌≡◌, ◌++◌, ◌∷◌, [], ℕ, List, codes, OnOk};
ghost use Rattle.std.specs.List.{flat_map};
ghost use Rattle.std.specs.Fmt.{decimal};
ghost use Rattle.message_text.specs.declared.words.Writing.{Writing as AnyWriting};
ghost use Rattle.message_text.specs.Words.{bytes_text};
ghost use Rattle.message_text.specs.Fields.{bool_text, dialog_text, error_text, field, kind_text, list_text, order_text, property_text, severity_text, style_text, version_text};

use crate::words::{Writing, put_bytes, put_choice, put_number};
use ice_values::{
    Dialog, Endian, Enumerated, ErrorBody, Property, SaveKind, SaveStyle, Severity, Text16, Version,
};
use owned_lists::{ListOf, NoMemory, Octets};
use std::alloc::Global;

/// A value as it stands in a line.
pub trait Shown {
    ghost text: { AnyWriting → Self → List ℕ };

    /// Appends its text.
    fn put(&self, alloc: Global, writing: Writing, out: &mut Octets) -> Result<(), NoMemory>
        ensures { OnOk result (out.new ≡ out.old ++ text writing self.now) };
}

impl Shown for u8 {
    ghost text = { λ writing. decimal };

    fn put(&self, alloc: Global, writing: Writing, out: &mut Octets) -> Result<(), NoMemory> {
        put_number(alloc, out, (*self).into())
    }
}

impl Shown for u16 {
    ghost text = { λ writing. decimal };

    fn put(&self, alloc: Global, writing: Writing, out: &mut Octets) -> Result<(), NoMemory> {
        put_number(alloc, out, (*self).into())
    }
}

impl Shown for u32 {
    ghost text = { λ writing. decimal };

    fn put(&self, alloc: Global, writing: Writing, out: &mut Octets) -> Result<(), NoMemory> {
        put_number(alloc, out, (*self).into())
    }
}

impl Shown for bool {
    ghost text = { bool_text };

    fn put(&self, alloc: Global, writing: Writing, out: &mut Octets) -> Result<(), NoMemory> {
        let word = if *self { "yes" } else { "no" };
        put_choice(alloc, writing, out, (*self).number(), word)
    }
}

impl Shown for Endian {
    ghost text = { order_text };

    fn put(&self, alloc: Global, writing: Writing, out: &mut Octets) -> Result<(), NoMemory> {
        let word = match self {
            Endian::Lsb => "LSBfirst",
            Endian::Msb => "MSBfirst",
        };
        put_choice(alloc, writing, out, self.number(), word)
    }
}

impl Shown for Severity {
    ghost text = { severity_text };

    fn put(&self, alloc: Global, writing: Writing, out: &mut Octets) -> Result<(), NoMemory> {
        let word = match self {
            Severity::CanContinue => "CanContinue",
            Severity::FatalToProtocol => "FatalToProtocol",
            Severity::FatalToConnection => "FatalToConnection",
        };
        put_choice(alloc, writing, out, self.number(), word)
    }
}

impl Shown for SaveKind {
    ghost text = { kind_text };

    fn put(&self, alloc: Global, writing: Writing, out: &mut Octets) -> Result<(), NoMemory> {
        let word = match self {
            SaveKind::Global => "Global",
            SaveKind::Local => "Local",
            SaveKind::Both => "Both",
        };
        put_choice(alloc, writing, out, self.number(), word)
    }
}

impl Shown for SaveStyle {
    ghost text = { style_text };

    fn put(&self, alloc: Global, writing: Writing, out: &mut Octets) -> Result<(), NoMemory> {
        let word = match self {
            SaveStyle::Nothing => "None",
            SaveStyle::Errors => "Errors",
            SaveStyle::Any => "Any",
        };
        put_choice(alloc, writing, out, self.number(), word)
    }
}

impl Shown for Dialog {
    ghost text = { dialog_text };

    fn put(&self, alloc: Global, writing: Writing, out: &mut Octets) -> Result<(), NoMemory> {
        let word = match self {
            Dialog::Error => "Error",
            Dialog::Normal => "Normal",
        };
        put_choice(alloc, writing, out, self.number(), word)
    }
}

impl Shown for Octets {
    ghost text = { bytes_text };

    fn put(&self, alloc: Global, writing: Writing, out: &mut Octets) -> Result<(), NoMemory> {
        put_bytes(alloc, writing, out, self.as_slice())
    }
}

impl Shown for Text16 {
    ghost text = { bytes_text };

    fn put(&self, alloc: Global, writing: Writing, out: &mut Octets) -> Result<(), NoMemory> {
        put_bytes(alloc, writing, out, self.as_slice())
    }
}

impl Shown for Version {
    ghost text = { λ writing. version_text };

    fn put(&self, alloc: Global, writing: Writing, out: &mut Octets) -> Result<(), NoMemory> {
        self.major.put(alloc, writing, out)?;
        out.append(b".")?;
        self.minor.put(alloc, writing, out)
    }
}

/// Appends items, each behind a comma.
fn put_others<T: Shown>(
    alloc: Global,
    writing: Writing,
    out: &mut Octets,
    items: &[T],
) -> Result<(), NoMemory>
    ensures { OnOk result (out.new ≡ out.old ++ flat_map (λ item.
        codes "," ++ T.text writing item) items.now) }
{
    for item in items {
        out.append(b",")?;
        item.put(alloc, writing, out)?;
    }
    Ok(())
}

impl<T: Shown + Drop> Shown for ListOf<T> {
    ghost text = { λ writing. list_text (T.text writing) };

    fn put(&self, alloc: Global, writing: Writing, out: &mut Octets) -> Result<(), NoMemory> {
        let Some((first, others)) = self.as_slice().split_first() else {
            return out.append(b"[]");
        };
        out.append(b"[")?;
        first.put(alloc, writing, out)?;
        put_others(alloc, writing, out, others)?;
        out.append(b"]")
    }
}

impl Shown for Property {
    ghost text = { property_text };

    fn put(&self, alloc: Global, writing: Writing, out: &mut Octets) -> Result<(), NoMemory> {
        self.name.put(alloc, writing, out)?;
        out.append(b":")?;
        self.kind.put(alloc, writing, out)?;
        out.append(b":")?;
        self.values.put(alloc, writing, out)
    }
}

/// Appends a field: a space, its key, `=` and its value.
pub fn put_field<T: Shown>(
    alloc: Global,
    writing: Writing,
    out: &mut Octets,
    key: &str,
    value: &T,
) -> Result<(), NoMemory>
    ensures { OnOk result (out.new ≡ out.old ++ field key.now (T.text writing value.now)) }
{
    out.append(b" ")?;
    out.append(key.as_bytes())?;
    out.append(b"=")?;
    value.put(alloc, writing, out)
}

/// Appends what an Error says.
pub fn put_error(
    alloc: Global,
    writing: Writing,
    out: &mut Octets,
    error: &ErrorBody,
) -> Result<(), NoMemory>
    ensures { OnOk result (out.new ≡ out.old ++ error_text writing error.now) }
{
    put_field(alloc, writing, out, "class", &error.class)?;
    put_field(alloc, writing, out, "minor", &error.minor)?;
    put_field(alloc, writing, out, "severity", &error.severity)?;
    put_field(alloc, writing, out, "sequence", &error.sequence)?;
    put_field(alloc, writing, out, "values", &error.values)
}
