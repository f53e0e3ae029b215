// Bytes to symbols (document 01, "Symbols"): the lowest layer of the reader.
#![tactic(auto)]

ghost use Rattle.lexical.specs.Promises.{Scans};

use crate::texts::scan_symbols;
use lexical::bounds::{SYMBOLS, TEXT_BYTES};
use name_numbers::numbering::number_names;
use refusals::{Fault, Refusal};

mod texts;

// The symbols of a text: their codes, the places of their first bytes, and their values.
// Form 6: these are three arrays of fixed length, which the caller of `read` lends (document 01).
pub fn scan(
    text: &[u8],
    codes: &mut [u8; SYMBOLS],
    starts: &mut [u16; SYMBOLS],
    values: &mut [u16; SYMBOLS],
) -> Result<usize, Fault>
    ensures { Scans text.now codes.old starts.old values.old codes.new starts.new values.new result }
{
    if TEXT_BYTES < text.len() {
        return Err(Fault {
            place: TEXT_BYTES,
            refusal: Refusal::LongText,
        });
    }
    let n = scan_symbols(text, codes, starts, values)?;
    number_names(text, codes, starts, values, n);
    Ok(n)
}
