use lw_stamp::Text;
use std::marker::Model;

/// The value of an attribute (RFC 6690, section 2). Printing keeps plain and quoted apart.
#[derive(Drop)]
pub enum AttrValue {
    /// The attribute is a name alone.
    Absent,
    Plain(Text),
    /// The characters that are meant, without the backslashes before them.
    Quoted(Text),
}

/// An attribute of a link (RFC 6690, section 2).
#[derive(Drop)]
pub struct Attr {
    pub name: Text,
    pub value: AttrValue,
}

/// A link (RFC 6690, section 2).
#[derive(Drop)]
pub struct Link {
    /// What stands between `<` and `>`.
    pub target: Text,
    pub attrs: Vec<Attr>,
}

impl Model for Link {
    ghost use Rattle.lw_link.specs.Link.{LinkContent};

    ghost Value = { LinkContent };

    ghost view = { λ a. record { target = a.target; attrs = a.attrs.items } };
}
