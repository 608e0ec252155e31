//! What is known of a registration, with memory only where something is known.

ghost use Rattle.std.specs.Prelude.{◌≡◌, ◌↔◌, IsTrue, IsOk, IfOk, IfSome, Some, None};
ghost use Rattle.std.specs.Option.{option_copied};
ghost use Rattle.lw_join.specs.declared.or_gone.OrGone.TheVariants.{Here, Gone};
ghost use Rattle.lw_reg.specs.Body.{nothing};
ghost use Rattle.lw_reg.specs.BodyOrGone.{known_in, KeepsAttributes};
ghost use Rattle.lw_reg.specs.inner.BodyOrGone.{body_or_nothing};

use crate::body::Body;
use lw_join::{Copied, Join};
use lw_stamp::NoMemory;
use std::alloc::Global;
use std::marker::Model;

/// What is known of a registration, or that it was removed. Contracts see the body, also where it has no box.
/// What is kept under a name is an attribute.
#[derive(Drop)]
pub(crate) struct Told {
    kept: Kept,
}

#[derive(Drop)]
enum Kept {
    Nothing,
    Known(Box<Body>),
    Removed,
}

impl Model for Told {
    ghost use Rattle.lw_join.specs.declared.or_gone.OrGone.{OrGone};
    ghost use Rattle.lw_reg.specs.declared.body.Body.{Body as Bodies};

    ghost Value = { OrGone Bodies };

    ghost use Rattle.lw_reg.specs.contracts.body.Body as bodies;
    ghost use Rattle.std.specs.Coded.{codes};

    ghost coded = { Prim.hlevel (codes, bodies.the_row.coded) };

    ghost use Rattle.lw_reg.specs.inner.Repr.{told_in};

    ghost view = { λ t. told_in t.kept };

    ghost use Rattle.lw_reg.specs.BodyOrGone.{KeepsAttributes};

    ghost invariant = { λ t. KeepsAttributes (told_in t.kept) };
}

impl Told {
    pub(crate) fn removed() -> Told
        ensures { result ≡ Gone }
    {
        Told {
            kept: Kept::Removed,
        }
    }

    pub(crate) fn of(alloc: Global, body: Body) -> Result<Told, NoMemory>
        requires { KeepsAttributes (Here body) }
        ensures told { IfOk result (λ told. told ≡ Here body) }
        ensures calm { body ≡ nothing → IsOk result }
    {
        let kept = if body.is_nothing() {
            Kept::Nothing
        } else {
            Kept::Known(Box::new(alloc, body)?)
        };
        Ok(Told { kept })
    }

    pub(crate) fn is_removed(&self) -> bool
        ensures { IsTrue result ↔ (self.now ≡ Gone) }
    {
        matches!(self.kept, Kept::Removed)
    }

    /// What is known; nothing of a removed registration.
    pub(crate) fn body(&self) -> Option<&Body>
        ensures known { body_or_nothing (option_copied result) ≡ known_in self.now }
        ensures keeps { IfSome result (λ body. KeepsAttributes (Here body.now)) }
    {
        match &self.kept {
            Kept::Known(body) => Some(body),
            Kept::Nothing | Kept::Removed => None,
        }
    }
}

impl Join for Told {
    ghost use Rattle.lw_join.specs.OrGone.{gone_below, gone_join, gone_in_place};
    ghost use Rattle.lw_join.specs.OrGoneLaws.{gone_laws};
    ghost use Rattle.lw_reg.specs.Body.{BodyBelow, body_join, body_in_place};
    ghost use Rattle.lw_reg.specs.BodyLaws.{body_laws};

    ghost below = { gone_below BodyBelow };

    ghost join = { gone_join body_join };

    ghost in_place = { gone_in_place body_in_place };

    ghost laws = { gone_laws body_laws };

    fn le(&self, other: &Told) -> bool {
        match (&self.kept, &other.kept) {
            (_, Kept::Removed) => true,
            (Kept::Removed, _) => false,
            (Kept::Nothing, _) => true,
            (Kept::Known(body), Kept::Nothing) => body.is_nothing(),
            (Kept::Known(body), Kept::Known(other)) => body.le(other),
        }
    }

    fn join_with(&mut self, other: Told) -> Result<(), NoMemory> {
        match other.kept {
            Kept::Nothing => Ok(()),
            Kept::Removed => {
                self.kept = Kept::Removed;
                Ok(())
            }
            Kept::Known(other) => self.join_body(other),
        }
    }
}

impl Told {
    ghost use Rattle.lw_stamp.specs.declared.moment.Moment.{Moment as Moments};
    ghost use Rattle.lw_stamp.specs.declared.stamp.Stamp.{Stamp as Stamps};
    ghost use Rattle.lw_join.specs.OrGone.{gone_join, gone_in_place};
    ghost use Rattle.lw_reg.specs.Body.{body_join, body_in_place, ended_alone};
    ghost use Rattle.std.specs.Prelude.{OnOk, OnErr};

    /// A box is moved in where nothing was known.
    fn join_body(&mut self, other: Box<Body>) -> Result<(), NoMemory>
        requires { KeepsAttributes (Here other.value) }
        ensures ok { OnOk result (self.new ≡ gone_join body_join self.old (Here other.value)) }
        ensures err { OnErr result (self.new ≡ self.old) }
        ensures never_refused { gone_in_place body_in_place self.old (Here other.value) → IsOk result }
    {
        match &mut self.kept {
            Kept::Removed => Ok(()),
            Kept::Nothing => {
                self.kept = Kept::Known(other);
                Ok(())
            }
            Kept::Known(body) => body.join_with(Box::into_inner(other)),
        }
    }

    /// Tells that what was seen of the registration is over. Where nothing was seen, nothing is told.
    pub(crate) fn lift(&mut self)
        ensures lifted { (at : Stamps) (v : Moments) → (known_in self.old).seen.write ≡ Some (at, v)
            → self.new ≡ gone_join body_join self.old (Here (ended_alone at)) }
        ensures unseen { (known_in self.old).seen.write ≡ None → self.new ≡ self.old }
    {
        match &mut self.kept {
            Kept::Known(body) => body.lift(),
            Kept::Nothing | Kept::Removed => {}
        }
    }
}

impl Copied for Told {
    fn copy(&self, alloc: Global) -> Result<Told, NoMemory> {
        let kept = match &self.kept {
            Kept::Nothing => Kept::Nothing,
            Kept::Removed => Kept::Removed,
            Kept::Known(body) => Kept::Known(Box::new(alloc, body.copy(alloc)?)?),
        };
        Ok(Told { kept })
    }
}
