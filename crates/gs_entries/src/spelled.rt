// What has a spelling, and lists of it.
ghost use Rattle.std.specs.Prelude.{◌≡◌, ◌++◌, true, OnOk};
ghost use Rattle.gs_fields.specs.Format.{Format, times, all_fit, spell_all};
ghost use Rattle.gs_entries.specs.Gives.{Gives};

use crate::failure::Failure;
use gs_fields::Fields;
use gs_types::{NoMemory, Sequence};
use std::alloc::Global;

/// What has a spelling as fields.
pub trait Spelled: Sized + Drop {
    ghost format: { Format Self };

    /// Reads a value from the front. `NotEntry` exactly where none of this format stands there.
    fn read(alloc: Global, f: &mut Fields) -> Result<Self, Failure>
        ensures { Gives f.new result (format.read f.old.rest) };

    /// Appends the spelling of a value that has one. After want of memory a part of it may stand
    /// there.
    fn put(&self, to: &mut Vec<u8>) -> Result<(), NoMemory>
        requires { format.fits self.now ≡ true }
        ensures { OnOk result (to.new.items ≡ to.old.items ++ format.spell self.now) };
}

/// Reads so many values, one after the other.
pub fn read_times<T: Spelled>(
    alloc: Global,
    count: u32,
    f: &mut Fields,
) -> Result<Sequence<T>, Failure>
    ensures { Gives f.new result (times T.format count f.old.rest) }
{
    let mut items = Sequence::new(alloc);
    for _ in 0..count {
        let item = T::read(alloc, f)?;
        items.push(item)?;
    }
    Ok(items)
}

/// Appends the spellings of values that have one, one after the other.
pub fn put_all<T: Spelled>(items: &[T], to: &mut Vec<u8>) -> Result<(), NoMemory>
    requires { all_fit T.format items.now ≡ true }
    ensures { OnOk result (to.new.items ≡ to.old.items ++ spell_all T.format items.now) }
{
    for item in items {
        item.put(to)?;
    }
    Ok(())
}
