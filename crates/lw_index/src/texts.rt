ghost use Rattle.std.specs.Prelude.{◌≡◌, ◌≢◌, ◌↔◌, ◌||◌, ◌&&◌, not, false, ℕ, List, [], ◌∷◌, OnOk, OnErr, IfOk, IfSome, IfNone, IsOk, IsTrue, bytes_eq};
ghost use Rattle.std.specs.Cmp.Lexicographic.{slice_cmp};
ghost use Rattle.std.specs.Ordering.{nat_cmp};
ghost use Rattle.std.specs.List.Sorted.{IsStrictlySortedBy};
ghost use Rattle.std.specs.BTreeSet.{contains_text};
ghost use Rattle.lw_index.specs.inner.Shown.{texts_in};
ghost use Rattle.lw_index.specs.inner.Texts.{has_text};

use crate::endpoints::Endpoints;
use lw_stamp::NoMemory;
use std::alloc::Global;
use std::collections::BTreeSet;
use std::marker::Model;

// A set of one text is the text alone.
#[derive(Drop)]
enum Form {
    One(String),
    Several(BTreeSet<String>),
}

/// The endpoints of a key, rising by their bytes. They lie in a block of their own, so that the tree which
/// holds them moves a pointer alone.
#[derive(Drop)]
pub(crate) struct Texts {
    form: Box<Form>,
}

impl Model for Texts {
    ghost use Rattle.std.specs.Prelude.{ℕ, List};
    ghost use Rattle.lw_index.specs.inner.Shown.{texts_in};

    ghost Value = { List (List ℕ) };

    ghost view = { λ t. texts_in t.form.value };
}

impl Texts {
    pub(crate) fn one(alloc: Global, text: &str) -> Result<Texts, NoMemory>
        ensures { IfOk result (λ texts. texts ≡ text.now ∷ []) }
    {
        let text = String::from_str(alloc, text)?;
        Ok(Texts {
            form: Box::new(alloc, Form::One(text))?,
        })
    }

    pub(crate) fn iter(&self) -> Endpoints<'_>
        ensures texts { result ≡ self.now }
        ensures rising { IsStrictlySortedBy (slice_cmp nat_cmp) result }
    {
        match &*self.form {
            Form::One(text) => Endpoints::one(text.as_str()),
            Form::Several(set) => Endpoints::several(set),
        }
    }

    pub(crate) fn is_only(&self, text: &str) -> bool
        ensures { IsTrue result ↔ (self.now ≡ text.now ∷ []) }
    {
        self.form.is_only(text)
    }

    pub(crate) fn add(&mut self, alloc: Global, text: &str) -> Result<(), NoMemory>
        ensures members { OnOk result ((e : List ℕ)
            → has_text self.new e ≡ (has_text self.old e || bytes_eq text.now e)) }
        ensures some { OnOk result (self.new ≢ []) }
        ensures present { IsTrue (has_text self.old text.now) → IsOk result × (self.new ≡ self.old) }
        ensures unchanged { OnErr result (self.new ≡ self.old) }
    {
        self.form.add(alloc, text)
    }

    /// Takes the text out, where others are left.
    pub(crate) fn remove(&mut self, text: &str)
        requires { self.old ≢ text.now ∷ [] }
        ensures members { (e : List ℕ) → has_text self.new e ≡ (has_text self.old e && not (bytes_eq text.now e)) }
        ensures some { self.old ≢ [] → self.new ≢ [] }
        ensures absent { has_text self.old text.now ≡ false → self.new ≡ self.old }
    {
        self.form.remove(text);
    }
}

impl Form {
    // Whether this is the only text.
    fn is_only(&self, text: &str) -> bool
        ensures { IsTrue result ↔ (texts_in self.now ≡ text.now ∷ []) }
    {
        match self {
            Form::One(only) => only.as_str() == text,
            Form::Several(set) => set.len() == 1 && set.contains(text),
        }
    }

    fn add(&mut self, alloc: Global, text: &str) -> Result<(), NoMemory>
        ensures members { OnOk result ((e : List ℕ)
            → has_text (texts_in self.new) e ≡ (has_text (texts_in self.old) e || bytes_eq text.now e)) }
        ensures some { OnOk result (texts_in self.new ≢ []) }
        ensures present { IsTrue (has_text (texts_in self.old) text.now) → IsOk result
            × (texts_in self.new ≡ texts_in self.old) }
        ensures unchanged { OnErr result (texts_in self.new ≡ texts_in self.old) }
    {
        match self {
            Form::One(only) => {
                if only.as_str() == text {
                    return Ok(());
                }
                let set = two(alloc, only.as_str(), text)?;
                *self = Form::Several(set);
                Ok(())
            }
            Form::Several(set) => put(alloc, set, text),
        }
    }

    fn remove(&mut self, text: &str)
        requires { texts_in self.old ≢ text.now ∷ [] }
        ensures members { (e : List ℕ)
            → has_text (texts_in self.new) e ≡ (has_text (texts_in self.old) e && not (bytes_eq text.now e)) }
        ensures some { texts_in self.old ≢ [] → texts_in self.new ≢ [] }
        ensures absent { has_text (texts_in self.old) text.now ≡ false → texts_in self.new ≡ texts_in self.old }
    {
        let Form::Several(set) = self else {
            return;
        };
        set.remove(text);
        if let Some(last) = take_last(set) {
            *self = Form::One(last);
        }
    }
}

// The text of a set that has no other, which is left without it.
fn take_last(set: &mut BTreeSet<String>) -> Option<String>
    ensures one { IfSome result (λ text. set.old.keys ≡ text ∷ []) }
    ensures none { IfNone result (set.new.keys ≡ set.old.keys) }
{
    if set.len() != 1 {
        return None;
    }
    set.pop_first()
}

// Puts a copy of the text into the set.
fn put(alloc: Global, set: &mut BTreeSet<String>, text: &str) -> Result<(), NoMemory>
    ensures members { OnOk result ((e : List ℕ)
        → contains_text set.new e ≡ (contains_text set.old e || bytes_eq text.now e)) }
    ensures some { OnOk result (set.new.keys ≢ []) }
    ensures present { IsTrue (contains_text set.old text.now) → IsOk result × (set.new.keys ≡ set.old.keys) }
    ensures unchanged { OnErr result (set.new.keys ≡ set.old.keys) }
{
    if set.contains(text) {
        return Ok(());
    }
    set.insert(String::from_str(alloc, text)?)?;
    Ok(())
}

// The set of copies of two texts.
fn two(alloc: Global, first: &str, second: &str) -> Result<BTreeSet<String>, NoMemory>
    ensures members { IfOk result (λ set. (e : List ℕ)
        → contains_text set e ≡ (bytes_eq first.now e || bytes_eq second.now e)) }
    ensures some { IfOk result (λ set. set.keys ≢ []) }
{
    let mut set = BTreeSet::new(alloc);
    put(alloc, &mut set, first)?;
    put(alloc, &mut set, second)?;
    Ok(set)
}
