ghost use Rattle.std.specs.Prelude.{◌≡◌, IfOk};

use crate::both::Both;
use crate::exact::Exact;
use crate::flag::Flag;
use crate::last::Last;
use crate::lex::Lex;
use crate::lww::Lww;
use crate::once::Once;
use crate::or_gone::OrGone;
use crate::parts::Parts;
use lw_stamp::{Moment, NoMemory, Stamp, Text};
use std::alloc::Global;

/// Values that can be copied: a copy is equal to its original, as contracts see them.
pub trait Copied: Drop {
    /// A value that is equal to the original.
    fn copy(&self, alloc: Global) -> Result<Self, NoMemory>
        ensures { IfOk result (λ copy. copy ≡ self.now) };
}

impl Copied for bool {
    fn copy(&self, _alloc: Global) -> Result<bool, NoMemory> {
        Ok(*self)
    }
}

impl Copied for u16 {
    fn copy(&self, _alloc: Global) -> Result<u16, NoMemory> {
        Ok(*self)
    }
}

impl Copied for u32 {
    fn copy(&self, _alloc: Global) -> Result<u32, NoMemory> {
        Ok(*self)
    }
}

impl Copied for Stamp {
    fn copy(&self, _alloc: Global) -> Result<Stamp, NoMemory> {
        Ok(*self)
    }
}

impl Copied for Moment {
    fn copy(&self, _alloc: Global) -> Result<Moment, NoMemory> {
        Ok(*self)
    }
}

impl Copied for Text {
    fn copy(&self, alloc: Global) -> Result<Text, NoMemory> {
        Text::copy_of(alloc, self.as_str())
    }
}

impl<V: Copied> Copied for Option<V> {
    fn copy(&self, alloc: Global) -> Result<Option<V>, NoMemory> {
        match self {
            None => Ok(None),
            Some(value) => Ok(Some(value.copy(alloc)?)),
        }
    }
}

impl<A: Copied, B: Copied> Copied for (A, B) {
    fn copy(&self, alloc: Global) -> Result<(A, B), NoMemory> {
        Ok((self.0.copy(alloc)?, self.1.copy(alloc)?))
    }
}

impl Copied for Flag {
    fn copy(&self, _alloc: Global) -> Result<Flag, NoMemory> {
        Ok(*self)
    }
}

impl<V: Copied> Copied for Once<V> {
    fn copy(&self, alloc: Global) -> Result<Once<V>, NoMemory> {
        let value = self.value.copy(alloc)?;
        Ok(Once { value })
    }
}

impl<V: Copied> Copied for Lww<V> {
    fn copy(&self, alloc: Global) -> Result<Lww<V>, NoMemory> {
        let write = self.write.copy(alloc)?;
        Ok(Lww { write })
    }
}

impl<V: Copied> Copied for Last<V> {
    fn copy(&self, alloc: Global) -> Result<Last<V>, NoMemory> {
        Ok(Last {
            write: self.write.copy(alloc)?,
        })
    }
}

impl<J: Copied> Copied for Lex<J> {
    fn copy(&self, alloc: Global) -> Result<Lex<J>, NoMemory> {
        Ok(Lex {
            stamp: self.stamp,
            value: self.value.copy(alloc)?,
        })
    }
}

impl<J: Copied> Copied for OrGone<J> {
    fn copy(&self, alloc: Global) -> Result<OrGone<J>, NoMemory> {
        match self {
            OrGone::Gone => Ok(OrGone::Gone),
            OrGone::Here(value) => Ok(OrGone::Here(value.copy(alloc)?)),
        }
    }
}

impl<K: Exact + Copied, J: Copied> Copied for Parts<K, J> {
    fn copy(&self, alloc: Global) -> Result<Parts<K, J>, NoMemory> {
        self.copied(alloc)
    }
}

impl<K: Exact + Copied, J: Copied, L: Exact + Copied, M: Copied> Copied for Both<K, J, L, M> {
    fn copy(&self, alloc: Global) -> Result<Both<K, J, L, M>, NoMemory> {
        Ok(Both {
            left: self.left.copy(alloc)?,
            right: self.right.copy(alloc)?,
        })
    }
}
