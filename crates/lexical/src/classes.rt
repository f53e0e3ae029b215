// The classes of bytes, and the runs of letters and digits.
ghost use Rattle.std.specs.Prelude.{◌≡◌, length, drop, get_or};
ghost use Rattle.lexical.specs.Symbols.{class_of, in_run, run};
ghost use Rattle.lexical.specs.Promises.{class_is};

use crate::Class;

// The class of a byte, by ranges.
pub fn class_of(b: u8) -> Class
    ensures { class_is result ≡ class_of b }
{
    match b {
        b'a'..=b'z' | b'A'..=b'Z' => Class::Letter,
        b'0'..=b'9' => Class::Digit,
        b' ' | b'\n' => Class::Blank,
        b'#' | b'('..=b'/' | b':'..=b'>' | b'@' | b'[' | b']' | b'{'..=b'}' => Class::Mark,
        _ => Class::Other,
    }
}

// Letters and digits stand in one symbol.
// Form 4: by the classes, as the definition has it; `is_ascii_alphanumeric` would need a law that it tells the same bytes apart, where none is needed now.
pub fn in_run(b: u8) -> bool
    ensures { result ≡ in_run (class_of b) }
{
    matches!(class_of(b), Class::Letter | Class::Digit)
}

// How many letters and digits stand from `at` on.
// Form 3: the rest of the text is taken first, since `skip(at)` passes over each byte before `at`: with it `read` took 22 to 63 times as long.
pub fn run_from(s: &[u8], at: usize) -> usize
    ensures { result ≡ length (run (drop at s.now)) }
{
    let Some(rest) = s.get(at..) else {
        return 0;
    };
    rest.iter().take_while(|b| in_run(**b)).count()
}

// What stands at a place of a list, or `none` past its end.
// Form 1: every call goes on with a value, of which `none` is one: with an Option each of them would carry `.unwrap_or(none)` behind it.
pub fn at_or<T: Copy>(s: &[T], at: usize, none: T) -> T
    ensures { result ≡ get_or s.now at none }
{
    s.get(at).copied().unwrap_or(none)
}
