ghost use Rattle.std.specs.Prelude.{◌≡◌, ◌++◌, OnOk, string_bytes};
ghost use Rattle.std.specs.List.{flat_map};

use qu_base::NoMemory;

/// What is told in a line behind others of its kind.
pub trait LinePart {
    ghost use Rattle.std.specs.Prelude.{List, ℕ};

    ghost text_of: { Self → List ℕ };

    fn put(&self, text: &mut String) -> Result<(), NoMemory>
        ensures { OnOk result (string_bytes text.new ≡ string_bytes text.old ++ text_of self.now) };
}

/// Writes all of them, in their order.
pub fn put_all<T: LinePart>(text: &mut String, items: &[T]) -> Result<(), NoMemory>
    ensures { OnOk result (string_bytes text.new ≡ string_bytes text.old ++ flat_map T.text_of items.now) }
{
    for item in items {
        item.put(text)?;
    }
    Ok(())
}
