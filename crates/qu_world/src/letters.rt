ghost use Rattle.std.specs.Prelude.{◌≡◌, ◌≤◌, ◌-◌, ◌^◌};
ghost use Rattle.qu_trace.specs.Letters.{bytes_of};

use qu_frames::Letter;

/// How many bytes these letters have together.
pub fn bytes_in(letters: &[Letter]) -> u128
    ensures value { result ≡ bytes_of letters.now }
    ensures most { result ≤ 2 ^ 128 - 2 ^ 64 }
{
    let mut bytes = 0;
    for letter in letters {
        bytes += letter.text.len() as u128;
    }
    bytes
}
