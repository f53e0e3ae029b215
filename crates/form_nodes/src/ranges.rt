// Ends, ranges and what a bound name ranges over.
// Form 5: that a place is inside is one clause, which `Reads` gives back for each place that is read up to; a type of places inside would hold the symbols too,
// a field and a lifetime more.
ghost use Rattle.std.specs.Prelude.{◌≡◌, [], ◌∷◌, ◌≤◌, ◌<◌, length};
ghost use Rattle.lexical.specs.Kinds as kind;
ghost use Rattle.form.specs.Machine.{exact, an_end, a_domain};
ghost use Rattle.form_nodes.specs.FormPromises.{Closes, Reads, Advances, Ranged, RangeEnd, Shown, range_below};
ghost use Rattle.form_nodes.specs.Derivations.{EndAt, RangeAt, DomainAt};

use crate::kinds::{is_membership, kind_at};
use crate::{Read, Symbols, no_dossier};
use lexical::codes;
use lexical::codes::is_name;
use refusals::Fault;

// A symbol of the kind with the code k.
// Form 2: the literal is the body of `skip`, which asks that the place is at most 4,100: by it `close` would ask so of its callers.
pub fn close(s: &[u8], from: Read, k: u8) -> Result<Read, Fault>
    requires { from.at ≤ length s.now }
    ensures { Closes s.now from.at k from.count result }
{
    if s.get(from.at) == Some(&k) {
        return Ok(Read {
            at: from.at + 1,
            ..from
        });
    }
    Err(no_dossier(from.at))
}

// A number, which may carry -.
pub fn end(y: &Symbols<'_>, from: Read) -> Result<Read, Fault>
    requires { from.at ≤ length y.now.kinds.now }
    ensures { Advances y.now.kinds.now from.at from.count (an_end ∷ []) [] result × Shown (EndAt y.now.kinds.now from.at) from.count result }
{
    if kind_at(y.kinds, from.at) == codes::DASH {
        return close(y.kinds, from.skip(), codes::NUMBER);
    }
    close(y.kinds, from, codes::NUMBER)
}

// Do -, a number and .. stand here?
fn is_below(y: &Symbols<'_>, at: usize) -> bool
    requires { at ≤ length y.now.kinds.now }
    ensures { result ≡ range_below y.now.kinds.now at }
{
    kind_at(y.kinds, at) == codes::DASH
        && kind_at(y.kinds, at + 1) == codes::NUMBER
        && kind_at(y.kinds, at + 2) == codes::UP_TO
}

// Is the symbol the - of a range after `in` or `notin`?
pub fn range_end(y: &Symbols<'_>, at: usize) -> bool
    requires { at < length y.now.kinds.now }
    ensures { RangeEnd y.now.kinds.now at result }
{
    0 < at && is_membership(kind_at(y.kinds, at - 1)) && is_below(y, at)
}

// Does a range stand here, and no term?
pub fn is_range(y: &Symbols<'_>, at: usize) -> bool
    requires { at ≤ length y.now.kinds.now }
    ensures { Ranged y.now.kinds.now at result }
{
    is_below(y, at)
        || (kind_at(y.kinds, at) == codes::NUMBER && kind_at(y.kinds, at + 1) == codes::UP_TO)
}

// a..b
pub fn range(y: &Symbols<'_>, from: Read) -> Result<Read, Fault>
    requires { from.at ≤ length y.now.kinds.now }
    ensures { Advances y.now.kinds.now from.at from.count (an_end ∷ exact kind.up_to ∷ an_end ∷ []) [] result × Shown (RangeAt y.now.kinds.now from.at) from.count result }
{
    let first = end(y, from)?;
    let dots = close(y.kinds, first, codes::UP_TO)?;
    end(y, dots)
}

// What a bound name ranges over.
pub fn domain(y: &Symbols<'_>, from: Read) -> Result<Read, Fault>
    requires { from.at ≤ length y.now.kinds.now }
    ensures { Reads y.now.kinds.now from.at from.count (a_domain ∷ []) [] result × Shown (DomainAt y.now.kinds.now from.at) from.count result }
{
    if is_name(kind_at(y.kinds, from.at)) {
        return Ok(from.skip());
    }
    range(y, from)
}
