//! The formats of a delta.

ghost use Rattle.std.specs.Prelude.{◌≡◌, Option, IfSome, Some};
ghost use Rattle.lw_delta.specs.declared.form.Form.{Form as Forms};
ghost use Rattle.lw_delta.specs.Form.{magic_of, has_attributes, has_end, latest};

/// A format of a delta, by its first four bytes.
#[derive(Clone, Copy)]
pub(crate) enum Form {
    First,
    Second,
    Third,
}

/// The format that is written.
pub(crate) fn latest() -> Form
    ensures { result ≡ latest }
{
    Form::Third
}

/// The four bytes that a format begins with.
pub(crate) fn magic(form: Form) -> [u8; 4]
    ensures { result ≡ magic_of form }
{
    match form {
        Form::First => *b"LWD1",
        Form::Second => *b"LWD2",
        Form::Third => *b"LWD3",
    }
}

/// The format that begins with these bytes.
pub(crate) fn form_of(magic: &[u8]) -> Option<Form>
    ensures known { IfSome result (λ form. magic_of form ≡ magic.now) }
    ensures only { (form : Forms) → magic_of form ≡ magic.now → result ≡ Some form }
{
    match magic {
        b"LWD1" => Some(Form::First),
        b"LWD2" => Some(Form::Second),
        b"LWD3" => Some(Form::Third),
        _ => None,
    }
}

/// Whether a slot of that format has attributes.
pub(crate) fn has_attributes(form: Form) -> bool
    ensures { result ≡ has_attributes form }
{
    match form {
        Form::First => false,
        Form::Second | Form::Third => true,
    }
}

/// Whether a slot of that format tells up to which stamp what was seen of it is over.
pub(crate) fn has_end(form: Form) -> bool
    ensures { result ≡ has_end form }
{
    match form {
        Form::First | Form::Second => false,
        Form::Third => true,
    }
}
