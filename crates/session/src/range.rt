// What refusal 2 is about: the numbers and letters of a call.
ghost use Rattle.model.specs.Calls.{good_letters};
ghost use Rattle.session.specs.Range.{counted as all_counted, in_range};
ghost use Rattle.std.specs.Prelude.{◌≡◌, ◌&&◌, ◌||◌, ◌==◌, nat_le, nat_lt};

use codec::Call;
use model::Way;

// Whether a call's numbers and letters are in range.
pub fn within(call: Call, letters: &[u8]) -> bool
    ensures { result ≡ in_range call letters.now }
{
    match call {
        Call::Put { author, style, .. } => (author < 256 && style < 256)
            && (all_good(letters) && counted(letters.len(), 1024)),
        Call::Strike { author, count, .. } => author < 256 && 1 <= count,
        Call::Style { count, style, .. } => style < 256 && 1 <= count,
        Call::Show {
            way,
            width,
            count,
            ..
        } => is_way(way) && (counted(width as usize, 256) && counted(count as usize, 64)),
        Call::Find { way, .. } => is_way(way) && (all_good(letters) && counted(letters.len(), 256)),
        Call::Count { way } => is_way(way),
        Call::Save { count, .. } => counted(count as usize, 1024),
        Call::Accept { .. } | Call::Reject { .. } | Call::Undo | Call::Redo | Call::Change { .. } =>
            true,
    }
}

// Whether a number names a way to look.
fn is_way(number: u32) -> bool
    ensures { result ≡ nat_lt number 3 }
{
    Way::try_from(number).is_ok()
}

// At least one, and at most so many.
fn counted(n: usize, most: usize) -> bool
    ensures { result ≡ all_counted n most }
{
    1 <= n && n <= most
}

// Whether each letter is printable ASCII or the end of a paragraph.
fn all_good(letters: &[u8]) -> bool
    ensures { result ≡ good_letters letters.now }
{
    letters.iter().all(|letter| good(*letter))
}

fn good(letter: u8) -> bool
    ensures { result ≡ (letter == 10 || (nat_le 32 letter && nat_le letter 126)) }
{
    letter == 10 || (32 <= letter && letter <= 126)
}
