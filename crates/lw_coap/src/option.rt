ghost use Rattle.std.specs.Prelude.{◌≡◌, ℕ, ◌<◌, List, ◌++◌, length, IfSome, IfNone, IfOk, IfErr};
ghost use Rattle.lw_coap.specs.Grammar.{IsExtended, IsOption};
ghost use Rattle.lw_coap.specs.Faults.{HasExtension, IsPartFault};
ghost use Rattle.lw_coap.specs.inner.Body.{IsBodyEnd};

use crate::fault::Fault;

/// An option where it stands in a datagram, and the bytes behind it.
#[derive(Clone, Copy)]
pub(crate) struct OptionAt<'a> {
    pub number: u16,
    pub value: &'a [u8],
    pub rest: &'a [u8],
}

/// The number of a nibble and the bytes that extend it, and the bytes behind those. There is none where
/// they are cut.
fn extended(nibble: u8, bytes: &[u8]) -> Option<(usize, &[u8])>
    requires { nibble < 15 }
    ensures some { IfSome result (λ x. (front : List ℕ) × IsExtended nibble front x.0 × (bytes.now ≡ front ++ x.1.now)) }
    ensures none { IfNone result ((count : ℕ) × HasExtension nibble count × (length bytes.now < count)) }
{
    if nibble < 13 {
        return Some((nibble as usize, bytes));
    }
    if nibble == 13 {
        let [a, rest @ ..] = bytes else {
            return None;
        };
        return Some((*a as usize + 13, rest));
    }
    let [a, b, rest @ ..] = bytes else {
        return None;
    };
    Some((u16::from_be_bytes([*a, *b]) as usize + 269, rest))
}

/// The option at the front, behind an option of the number before.
pub(crate) fn next_option(before: u16, bytes: &[u8]) -> Result<OptionAt<'_>, Fault>
    requires { IsBodyEnd bytes.now → ⊥ }
    ensures found { IfOk result (λ o. (front : List ℕ) × IsOption before front (record { number = o.number; value = o.value.now }) × (bytes.now ≡ front ++ o.rest.now)) }
    ensures fault { IfErr result (IsPartFault before bytes.now) }
{
    let [head, rest @ ..] = bytes else {
        unreachable!()
    };
    let delta_nibble = *head / 16;
    let length_nibble = *head % 16;
    if delta_nibble == 15 || length_nibble == 15 {
        return Err(Fault::OptionHead);
    }
    let Some((delta, rest)) = extended(delta_nibble, rest) else {
        return Err(Fault::Truncated);
    };
    let Some((len, rest)) = extended(length_nibble, rest) else {
        return Err(Fault::Truncated);
    };
    let Ok(number) = u16::try_from(before as usize + delta) else {
        return Err(Fault::OptionHead);
    };
    if rest.len() < len {
        return Err(Fault::Truncated);
    }
    let (value, rest) = rest.split_at(len);
    Ok(OptionAt {
        number,
        value,
        rest,
    })
}
