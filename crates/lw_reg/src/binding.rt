ghost use Rattle.std.specs.Prelude.{◌≡◌, ◌==◌, ◌-◌, ◌≤◌, ◌++◌, ◌↔◌, IsTrue, codes, IsSome, IfSome, length, replicate};
ghost use Rattle.std.specs.Char.{is_ascii_uppercase};
ghost use Rattle.std.specs.List.{list_all, list_any};
ghost use Rattle.lw_reg.specs.BindingText.{IsBindingText, IsPadded, text_in};

/// A binding: 1 to 8 letters A to Z, ordered by its text.
#[derive(Clone, Copy, Debug, PartialEq, Eq, PartialOrd, Ord)]
pub struct Binding {
    letters: [u8; 8],
    pub ghost padded: { IsPadded letters },
}

impl Binding {
    ghost use Rattle.lw_reg.specs.Binding.{binding_text};

    /// The binding of a client that names none.
    pub const U: Binding = Binding {
        letters: [b'U', 0, 0, 0, 0, 0, 0, 0],
    };

    /// There is none for a text of no or more than 8 characters, or with any other character.
    pub fn read(text: &str) -> Option<Binding>
        ensures accepted { IsSome result ↔ IsBindingText text.now }
        ensures value { IfSome result (λ b. binding_text b ≡ text.now) }
    {
        let bytes = text.as_bytes();
        if is_binding(bytes) {
            Some(Binding {
                letters: padded(bytes),
            })
        } else {
            None
        }
    }

    /// Its letters.
    #[tactic(auto, using(crate::proofs::BindingLemmas::text_is_utf8))]
    pub fn as_str(&self) -> &str
        ensures { result.now ≡ binding_text self.now }
    {
        let length = text_length(&self.letters);
        std::str::from_utf8(&self.letters[..length]).unwrap()
    }

    /// Whether it holds the letter Q.
    #[tactic(auto, using(crate::proofs::BindingLemmas::queue_in_text))]
    pub(crate) fn asks_for_queue(&self) -> bool
        ensures { result ≡ list_any (λ c. c == 81) (binding_text self.now) }
    {
        holds_queue(&self.letters)
    }
}

impl Default for Binding {
    ghost use Rattle.lw_reg.specs.Binding.{binding_text};

    fn default() -> Binding
        ensures { binding_text result ≡ codes "U" }
    {
        Binding::U
    }
}

fn is_binding(text: &[u8]) -> bool
    ensures { IsTrue result ↔ IsBindingText text.now }
{
    !text.is_empty() && text.len() <= 8 && all_letters(text)
}

fn all_letters(text: &[u8]) -> bool
    ensures { result ≡ list_all is_ascii_uppercase text.now }
{
    text.iter().all(|c| c.is_ascii_uppercase())
}

fn padded(text: &[u8]) -> [u8; 8]
    requires { length text.now ≤ 8 }
    ensures { result ≡ text.now ++ replicate (8 - length text.now) 0 }
{
    let mut letters = [0; 8];
    letters[..text.len()].copy_from_slice(text);
    letters
}

fn holds_queue(letters: &[u8]) -> bool
    ensures { result ≡ list_any (λ c. c == 81) letters.now }
{
    letters.iter().any(|letter| *letter == b'Q')
}

fn text_length(letters: &[u8]) -> usize
    ensures { result ≡ length (text_in letters.now) }
{
    letters.iter().take_while(|c| **c > 0).count()
}
