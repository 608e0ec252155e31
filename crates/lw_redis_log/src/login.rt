//! Who logs in.

ghost use Rattle.std.specs.Prelude.{◌≡◌, ◌↔◌, ◌++◌, ◌∷◌, ℕ, List, Err, IfOk, IfSome, IfNone, IsTrue, All, ◌≢◌, ◌==◌, position, false, Some};
ghost use Rattle.lw_redis_log.specs.Logins.{IsPart, IsLogin, is_control as is_controlling};
ghost use Rattle.lw_redis_log.specs.inner.Logins.{IsFirstLine, IsLast, IsPartOf, IsReturned};
ghost use Rattle.lw_redis_log.specs.declared.login.LoginFault.TheVariants.{Malformed as NoLogin, NoMemory as OutOfMemory};

use std::alloc::{AllocError, AllocFailed, Global};
use thiserror::Error;

/// How many bytes a user or a password has at most.
pub const MAX_PART: usize = 256;

/// A user and a password.
#[derive(Drop)]
pub struct Login {
    pub(crate) user: Vec<u8>,
    pub(crate) password: Vec<u8>,
}

/// Why the text of a file is no login.
#[derive(Clone, Copy, Debug, PartialEq, Eq, Error)]
pub enum LoginFault {
    /// It is not two lines, each of 1 to 256 bytes with no control byte among them.
    #[error("the login is not two lines, a user and a password")]
    Malformed,
    /// A growth was refused.
    #[error("out of memory")]
    NoMemory,
}

impl From<AllocError> for LoginFault {
    ghost from_gives = { λ _ fault. fault ≡ OutOfMemory };

    fn from(_error: AllocError) -> LoginFault {
        LoginFault::NoMemory
    }
}

impl<T: Drop> From<AllocFailed<T>> for LoginFault {
    ghost from_gives = { λ _ fault. fault ≡ OutOfMemory };

    fn from(_error: AllocFailed<T>) -> LoginFault {
        LoginFault::NoMemory
    }
}

fn is_control(byte: u8) -> bool
    ensures { result ≡ is_controlling byte }
{
    byte < b' ' || byte == 127
}

fn is_clean(part: &[u8]) -> bool
    ensures { IsTrue result ↔ All (λ byte. is_controlling byte ≡ false) part.now }
{
    for byte in part {
        if is_control(*byte) {
            return false;
        }
    }
    true
}

/// Whether this can be a user or a password.
fn is_part(part: &[u8]) -> bool
    ensures { IsTrue result ↔ IsPart part.now }
{
    !part.is_empty() && part.len() <= MAX_PART && is_clean(part)
}

/// The line without a carriage return at its end.
fn without_return(line: &[u8]) -> &[u8]
    ensures { IsPartOf (IsReturned line.now) result.now }
{
    match line.strip_suffix(b"\r") {
        Some(part) => part,
        None => line,
    }
}

/// The last line without its end.
fn last_line(bytes: &[u8]) -> &[u8]
    ensures { IsPartOf (IsLast bytes.now) result.now }
{
    match bytes.strip_suffix(b"\n") {
        Some(line) => without_return(line),
        None => bytes,
    }
}

fn feed_place(bytes: &[u8]) -> Option<usize>
    ensures { result ≡ position (λ byte. byte == 10) bytes.now }
{
    bytes.iter().position(|byte| *byte == b'\n')
}

/// The line before the first line feed, which stands at the place, and what stands behind it.
fn line_to(place: usize, bytes: &[u8]) -> (&[u8], &[u8])
    requires { position (λ byte. byte == 10) bytes.now ≡ Some place }
    ensures { IsFirstLine bytes.now result.0.now result.1.now }
{
    let (line, end) = bytes.split_at(place);
    (line, &end[1..])
}

/// The first line without its line feed, and what stands behind that.
fn first_line(bytes: &[u8]) -> Option<(&[u8], &[u8])>
    ensures found { IfSome result (λ p. IsFirstLine bytes.now p.0.now p.1.now) }
    ensures none { IfNone result ((line behind : List ℕ) → bytes.now ≢ line ++ 10 ∷ behind) }
{
    match feed_place(bytes) {
        Some(place) => Some(line_to(place, bytes)),
        None => None,
    }
}

/// A user and a password, which the parts of the bytes are.
fn both<'a>(line: &'a [u8], behind: &'a [u8]) -> Option<(&'a [u8], &'a [u8])>
    ensures found { IfSome result (λ p. (bytes : List ℕ) → IsFirstLine bytes line.now behind.now
        → IsLogin bytes p.0.now p.1.now) }
    ensures none { IfNone result ((bytes user password : List ℕ) → IsFirstLine bytes line.now behind.now
        → ¬ IsLogin bytes user password) }
{
    let user = without_return(line);
    let password = last_line(behind);
    if is_part(user) && is_part(password) {
        return Some((user, password));
    }
    None
}

/// A user and a password, each on a line.
fn parts(bytes: &[u8]) -> Option<(&[u8], &[u8])>
    ensures found { IfSome result (λ p. IsLogin bytes.now p.0.now p.1.now) }
    ensures none { IfNone result ((user password : List ℕ) → ¬ IsLogin bytes.now user password) }
{
    match first_line(bytes) {
        Some((line, behind)) => both(line, behind),
        None => None,
    }
}

impl Login {
    /// Reads two lines, a user and a password.
    pub fn read(alloc: Global, bytes: &[u8]) -> Result<Login, LoginFault>
        ensures read { IfOk result (λ login. IsLogin bytes.now login.user.items login.password.items) }
        ensures none { result ≡ Err NoLogin → (user password : List ℕ) → ¬ IsLogin bytes.now user password }
    {
        let Some((user, password)) = parts(bytes) else {
            return Err(LoginFault::Malformed);
        };
        Ok(Login {
            user: user.to_vec(alloc)?,
            password: password.to_vec(alloc)?,
        })
    }
}
