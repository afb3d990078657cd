// What a form says of a known name, in the terms in which the endpoints ask it.
//
// A place comes from form::read, and lies within its form.
ghost use Rattle.std.specs.Prelude.{◌≡◌, ◌≤◌, length};
ghost use Rattle.std.proofs.lemmas.List.Edits.{sets};
ghost use Rattle.form.specs.Content.{is_missing, is_repeated, only_value, is_once};
ghost use Rattle.form.specs.Places.{view_of, Within, any_repeated};

use crate::{Count, PLACES, Place};

// Whether the name did not come.
#[tactic(auto, unfolding(crate::specs::Content::is_missing, crate::specs::Places::view_as))]
pub fn is_missing(s: &[u8], p: Place) -> bool
    ensures { result ≡ is_missing (view_of s.now p) }
{
    p.count == Count::Missing
}

// Whether the name came more than once.
#[tactic(auto, unfolding(crate::specs::Content::is_repeated, crate::specs::Places::view_as))]
pub fn is_repeated(s: &[u8], p: Place) -> bool
    ensures { result ≡ is_repeated (view_of s.now p) }
{
    p.count == Count::Repeated
}

// Whether some name came more than once.
pub fn any_repeated(s: &[u8], places: [Place; PLACES]) -> bool
    ensures { result ≡ any_repeated s.now places }
{
    places.iter().any(|p| is_repeated(s, *p))
}

// Whether the name came once, with the bytes of e. All of the value is looked at, wherever the two differ, but for a longer e.
#[tactic(auto, unfolding(crate::specs::Content::is_once, crate::specs::Places::view_as))]
pub fn is_once(s: &[u8], p: Place, e: &[u8]) -> bool
    requires { Within s.now p }
    ensures { result ≡ is_once e.now (view_of s.now p) }
{
    match p.count {
        Count::Once => form_coding::value_equals(&s[p.start..p.end], e),
        Count::Missing | Count::Repeated => false,
    }
}

// Writes the name's one value to out, decoded, and gives its length: nothing where it is missing or repeated.
#[tactic(auto, unfolding(crate::specs::Content::only_value, crate::specs::Places::view_as))]
pub fn value_into(s: &[u8], p: Place, out: &mut [u8]) -> usize
    requires { Within s.now p × (length s.now ≤ length out.old) }
    ensures count { result ≡ length (only_value (view_of s.now p)) }
    ensures bytes { out.new ≡ sets out.old 0 (only_value (view_of s.now p)) }
{
    match p.count {
        Count::Once => form_coding::decode_into(&s[p.start..p.end], out),
        Count::Missing | Count::Repeated => 0,
    }
}
