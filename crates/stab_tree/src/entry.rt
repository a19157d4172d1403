ghost use Rattle.std.specs.Prelude.{◌≡◌, option_copied};
ghost use Rattle.stab_tree.specs.Entry.{entry_of};
ghost use Rattle.serde_json.specs.View.{view};

use serde_json::Value;
use stab_json::Entry;
use std::alloc::{AllocError, Global};
use std::marker::Model;

/// What one object of the list says, lent by its value.
#[derive(Drop)]
pub(crate) struct EntryRef<'v> {
    name: &'v str,
    parent: Option<&'v str>,
}

impl<'v> Model for EntryRef<'v> {
    ghost use Rattle.std.specs.Option.{option_copied};
    ghost use Rattle.stab_tree.specs.Entry.{Entry};

    ghost Value = { Entry };

    ghost view = { λ e. record { name = e.name.now; parent = option_copied e.parent } };
}

impl<'v> Entry<'v> for EntryRef<'v> {
    ghost use Rattle.stab_tree.specs.Entry.{entry_of};

    type Read = EntryRef<'v>;

    ghost meaning = { entry_of };

    fn read(_alloc: Global, value: &'v Value) -> Result<Option<EntryRef<'v>>, AllocError> {
        Ok(entry(value))
    }
}

/// What the value says, where it is an object with a text `name` and a lawful `parent`.
fn entry<'v>(value: &'v Value) -> Option<EntryRef<'v>>
    ensures { result ≡ entry_of (view value.now) }
{
    let name = value.get("name")?.as_str()?;
    let parent = match value.get("parent") {
        None => None,
        Some(parent) if parent.is_null() => None,
        Some(parent) => Some(parent.as_str()?),
    };
    Some(EntryRef { name, parent })
}

impl<'v> EntryRef<'v> {
    /// The name of the node.
    pub(crate) fn name(&self) -> &'v str
        ensures { result.now ≡ self.now.name }
    {
        self.name
    }

    /// The name of its parent, where it names one.
    pub(crate) fn parent(&self) -> Option<&'v str>
        ensures { option_copied result ≡ self.now.parent }
    {
        self.parent
    }
}
