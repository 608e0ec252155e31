//! Printing an address.

ghost use Rattle.std.specs.Prelude.{◌≡◌, ◌++◌, IfOk, OnOk, string_bytes};
ghost use Rattle.std.specs.List.{join_with_byte};
ghost use Rattle.lw_reg.specs.declared.addr.Addr.TheVariants.{V4, V6};
ghost use Rattle.lw_reg.specs.Addr.{addr_text, hex_text, groups};

use std::alloc::{AllocError, Global};
use std::fmt::Write;

pub(super) fn v4(alloc: Global, address: [u8; 4], port: u16) -> Result<String, AllocError>
    ensures { IfOk result (λ text. string_bytes text ≡ addr_text (V4 address port)) }
{
    let [a, b, c, d] = address;
    format!(in alloc; "{a}.{b}.{c}.{d}:{port}")
}

pub(super) fn v6(alloc: Global, address: [u8; 16], port: u16) -> Result<String, AllocError>
    ensures { IfOk result (λ text. string_bytes text ≡ addr_text (V6 address port)) }
{
    let [a, b, c, d, e, f, g, h, i, j, k, l, m, n, o, p] = address;
    let mut text = String::from_str(alloc, "[")?;
    push_groups(&mut text, [a, b, c, d, e, f, g, h])?;
    text.push(':')?;
    push_groups(&mut text, [i, j, k, l, m, n, o, p])?;
    write!(text, "]:{port}")?;
    Ok(text)
}

fn push_groups(text: &mut String, bytes: [u8; 8]) -> Result<(), AllocError>
    ensures { OnOk result (string_bytes text.new ≡ string_bytes text.old ++ join_with_byte 58 (groups bytes)) }
{
    let [a, b, c, d, e, f, g, h] = bytes;
    push_group(text, a, b)?;
    text.push(':')?;
    push_group(text, c, d)?;
    text.push(':')?;
    push_group(text, e, f)?;
    text.push(':')?;
    push_group(text, g, h)
}

fn push_group(text: &mut String, high: u8, low: u8) -> Result<(), AllocError>
    ensures { OnOk result (string_bytes text.new ≡ string_bytes text.old ++ (hex_text high ++ hex_text low)) }
{
    push_byte(text, high)?;
    push_byte(text, low)
}

fn push_byte(text: &mut String, byte: u8) -> Result<(), AllocError>
    ensures { OnOk result (string_bytes text.new ≡ string_bytes text.old ++ hex_text byte) }
{
    write!(text, "{byte:02x}")
}
