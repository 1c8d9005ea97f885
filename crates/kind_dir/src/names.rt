ghost use Rattle.std.specs.Prelude.{◌≡◌};
ghost use Rattle.std.specs.List.{list_any};
ghost use Rattle.kind_dir.specs.Names.{is_barred, is_dots, is_good_name};

use qu_base::NAME_LIMIT;

/// Whether an entry may have this name: 1 to `NAME_LIMIT` bytes without the bytes 0 and `/`, and neither `.` nor `..`.
#[tactic(auto, unfolding(crate::specs::Names::is_good_name))]
pub fn is_good_name(name: &[u8]) -> bool
    ensures { result ≡ is_good_name name.now }
{
    let limit = usize::from(NAME_LIMIT);
    !name.is_empty() && name.len() <= limit && !has_barred(name) && !is_dots(name)
}

/// Whether one of the bytes may be in no name.
fn has_barred(name: &[u8]) -> bool
    ensures { result ≡ list_any is_barred name.now }
{
    name.iter().any(|byte| is_barred(*byte))
}

/// Whether the byte may be in no name.
fn is_barred(byte: u8) -> bool
    ensures { result ≡ is_barred byte }
{
    byte == 0 || byte == b'/'
}

/// Whether the name is `.` or `..`.
fn is_dots(name: &[u8]) -> bool
    ensures { result ≡ is_dots name.now }
{
    name == b".".as_slice() || name == b"..".as_slice()
}
