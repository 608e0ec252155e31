//! What is printed as JSON.

ghost use Rattle.std.specs.Prelude.{◌≡◌, ◌∷◌, [], IfOk, map, string_bytes};
ghost use Rattle.json.specs.Token.{key};
ghost use Rattle.json.specs.Print.{print};
ghost use Rattle.json.specs.Tree.{items_tokens};
ghost use Rattle.serde_json.specs.Data.{array};
ghost use Rattle.serde_json.specs.View.{items_of};
ghost use Rattle.serde_json.specs.Written.{compact_text, items_outline};
ghost use Rattle.lw_json.specs.inner.Tokens.{Adds, data_tokens};
ghost use Rattle.lw_json.specs.inner.Words.{Puts};

use json::Writer;
use lw_stamp::NoMemory;
use std::alloc::Global;
use std::mem;

/// What is printed as a value.
pub(crate) trait Print {
    ghost use Rattle.serde_json.specs.Data.{Data};
    ghost use Rattle.lw_json.specs.inner.Tokens.{Adds, data_tokens};

    /// Its value.
    ghost json: { Self → Data };

    /// Adds its value.
    fn put(&self, out: &mut Writer, alloc: Global) -> Result<(), NoMemory>
        ensures { Adds result out.old out.new (data_tokens (json self.now)) };
}

/// The text of what is printed, with no space between its members.
pub(crate) fn json_text<T: Print>(alloc: Global, printed: &T) -> Result<String, NoMemory>
    ensures { IfOk result (λ text. string_bytes text ≡ compact_text (T.json printed.now)) }
{
    let mut out = Writer::new(Vec::new(alloc));
    printed.put(&mut out, alloc)?;
    Ok(text_of(out))
}

/// The text of what is written.
fn text_of(out: Writer) -> String
    requires { out.before ≡ [] }
    ensures { string_bytes result ≡ print out.tokens }
{
    match String::from_utf8(out.into_inner()) {
        Ok(text) => text,
        Err(_) => unreachable!(),
    }
}

/// Adds the text of what is printed to a line.
pub(crate) fn put_json<T: Print>(
    line: &mut Vec<u8>,
    alloc: Global,
    printed: &T,
) -> Result<(), NoMemory>
    ensures { Puts result line.old.items line.new.items (compact_text (T.json printed.now)) }
{
    let mut out = Writer::new(mem::replace(line, Vec::new(alloc)));
    let put = printed.put(&mut out, alloc);
    *line = out.into_inner();
    put
}

/// Adds a member with the values of all, in order.
pub(crate) fn put_all<T: Print>(
    out: &mut Writer,
    alloc: Global,
    name: &str,
    items: &[T],
) -> Result<(), NoMemory>
    ensures { Adds result out.old out.new (key name.now ∷ data_tokens (array (items_of (map T.json items.now)))) }
{
    out.key(name)?;
    out.begin_array()?;
    put_items(out, alloc, items)
}

/// Adds the values of all, and the closing bracket.
fn put_items<T: Print>(out: &mut Writer, alloc: Global, items: &[T]) -> Result<(), NoMemory>
    ensures { Adds result out.old out.new (items_tokens (items_outline (items_of (map T.json items.now)))) }
{
    for item in items {
        item.put(out, alloc)?;
    }
    Ok(out.end_array()?)
}
