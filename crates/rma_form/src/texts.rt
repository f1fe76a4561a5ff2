//! Parts of a list of texts.
ghost use Rattle.std.specs.Prelude.{◌≡◌, ◌≤◌, ◌+◌, length, drop, take};
ghost use Rattle.rma_field.specs.Texts.{texts_at};

/// The first texts.
pub fn first_of<'w, 'a>(texts: &'w [&'a [u8]], count: usize) -> &'w [&'a [u8]]
    requires { count ≤ length texts.now }
    ensures texts { texts_at result.now ≡ take count (texts_at texts.now) }
    ensures number { length result.now ≡ count }
{
    &texts[..count]
}

/// The texts from an index on.
pub fn behind<'w, 'a>(texts: &'w [&'a [u8]], from: usize) -> &'w [&'a [u8]]
    requires { from ≤ length texts.now }
    ensures texts { texts_at result.now ≡ drop from (texts_at texts.now) }
    ensures number { length result.now + from ≡ length texts.now }
{
    &texts[from..]
}
