// A known name of a form that is read, and what the form says of it.
ghost use Rattle.std.specs.Prelude.{◌≡◌, ◌≤◌, length};
ghost use Rattle.form_coding.specs.Coding.{decode};
ghost use Rattle.form.specs.Content.{is_missing, is_repeated, is_once, only_value};
ghost use Rattle.form.specs.Places.{Within};
ghost use Rattle.protocol.specs.Limits.{most_form};

use form::{Count, Place};

// What a form that is read says of one known name. The place lies within its form, which is no longer than a form that is read.
#[derive(Clone, Copy)]
pub struct Field<'a> {
    pub form: &'a [u8],
    pub place: Place,
    pub ghost within: { Within form.now place },
    pub ghost short: { length form.now ≤ most_form },
}

impl Field<'_> {
    ghost use Rattle.parameters.specs.Fields.{said_by};

    // Whether the name did not come.
    pub fn is_missing(&self) -> bool
        ensures { result ≡ is_missing (said_by self.now) }
    {
        form::is_missing(self.form, self.place)
    }

    // Whether the name came more than once.
    pub fn is_repeated(&self) -> bool
        ensures { result ≡ is_repeated (said_by self.now) }
    {
        form::is_repeated(self.form, self.place)
    }

    // Whether the name came once, with the bytes of e. All of the value is looked at, wherever the two differ, but for a longer e.
    pub fn is_once(&self, e: &[u8]) -> bool
        ensures { result ≡ is_once e.now (said_by self.now) }
    {
        form::is_once(self.form, self.place, e)
    }

    // The bytes of the value as they stand in the form: none where the name is missing or repeated.
    #[tactic(auto, unfolding(form::specs::Content::only_value, form::specs::Places::view_as, form_coding::specs::Coding::decode_after))]
    pub(crate) fn coded_value(&self) -> &[u8]
        ensures short { length result.now ≤ length self.now.form.now }
        ensures value { decode result.now ≡ only_value (said_by self.now) }
    {
        match self.place.count {
            Count::Once => &self.form[self.place.start..self.place.end],
            Count::Missing | Count::Repeated => b"",
        }
    }
}
