//! The forms of a word.

ghost use Rattle.std.specs.Prelude.{◌≡◌};
ghost use Rattle.plan_options.specs.Reading.{form_of};

/// The form of a word.
#[derive(Clone, Copy, PartialEq, Eq)]
pub(crate) enum Form {
    /// It isn't an option: the name of a target.
    Name,
    /// It is `--`.
    Dashes,
    /// It is `--` followed by a name.
    Long,
    /// It is `-` followed by letters.
    Letters,
}

/// Returns the form of a word.
pub(crate) fn form_of(word: &[u8]) -> Form
    ensures { result ≡ form_of word.now }
{
    match word {
        [b'-', b'-'] => Form::Dashes,
        [b'-', b'-', ..] => Form::Long,
        [b'-', _, ..] => Form::Letters,
        _ => Form::Name,
    }
}
