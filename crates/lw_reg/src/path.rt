ghost use Rattle.std.specs.Prelude.{◌≡◌, ◌↔◌, ◌≤◌, ◌-◌, ◌++◌, IsSome, IfSome, IsTrue, length, replicate, refl};
ghost use Rattle.std.specs.List.{list_all};
ghost use Rattle.std.specs.Ordering.{eq_by_cmp, as_partial_cmp};
ghost use Rattle.lw_reg.specs.PathNumbers.{IsPathNumbers, IsKept, is_number};
ghost use Rattle.lw_reg.specs.ByNumbers.{by_numbers, by_numbers_total, by_numbers_equivalence, by_numbers_partial_equivalence, by_numbers_partial_order};

use std::cmp::Ordering;

/// The path of what is observed: an object, and of it an instance, a resource and a resource instance.
///
/// It has 1 to 4 numbers, each from 0 to 65534. Paths are ordered number by number, a path before those
/// that it begins.
#[derive(Clone, Copy, Debug)]
pub struct Path {
    numbers: [u16; 4],
    length: u8,
    pub ghost kept: { IsKept numbers length },
}

impl Path {
    ghost use Rattle.lw_reg.specs.Path.{path_numbers};

    /// The most numbers of a path.
    pub const MAX_LENGTH: usize = 4;

    /// The greatest number of a path. The next one names no object.
    pub const MAX_NUMBER: u16 = 65_534;

    /// There is none for no or more than 4 numbers, or with a number of 65535.
    pub fn new(numbers: &[u16]) -> Option<Path>
        ensures accepted { IsSome result ↔ IsPathNumbers numbers.now }
        ensures value { IfSome result (λ path. path_numbers path ≡ numbers.now) }
    {
        let length = length_of(numbers)?;
        Some(Path {
            numbers: padded(numbers),
            length,
        })
    }

    /// Its 1 to 4 numbers.
    pub fn numbers(&self) -> &[u16]
        ensures value { result.now ≡ path_numbers self.now }
        ensures numbers { IsPathNumbers result.now }
    {
        &self.numbers[..usize::from(self.length)]
    }
}

fn are_numbers(numbers: &[u16]) -> bool
    ensures { result ≡ list_all is_number numbers.now }
{
    numbers.iter().all(|n| *n <= Path::MAX_NUMBER)
}

/// How many numbers there are, where they are those of a path.
fn length_of(numbers: &[u16]) -> Option<u8>
    ensures some { IfSome result (λ n. IsPathNumbers numbers.now × (n ≡ length numbers.now)) }
    ensures accepted { IsSome result ↔ IsPathNumbers numbers.now }
{
    if !are_numbers(numbers) {
        return None;
    }
    match numbers.len() {
        1 => Some(1),
        2 => Some(2),
        3 => Some(3),
        4 => Some(4),
        _ => None,
    }
}

fn padded(numbers: &[u16]) -> [u16; 4]
    requires { length numbers.now ≤ 4 }
    ensures { result ≡ numbers.now ++ replicate (4 - length numbers.now) 0 }
{
    let mut path = [0; 4];
    path[..numbers.len()].copy_from_slice(numbers);
    path
}

impl PartialEq for Path {
    ghost use Rattle.lw_reg.specs.Path.{path_numbers};

    ghost eq = { eq_by_cmp (by_numbers path_numbers) };

    ghost laws = { by_numbers_partial_equivalence path_numbers };

    fn eq(&self, other: &Path) -> bool {
        self.cmp(other).is_eq()
    }
}

impl Eq for Path {
    ghost use Rattle.lw_reg.specs.Path.{path_numbers};

    ghost laws = { by_numbers_equivalence path_numbers };
}

impl PartialOrd for Path {
    ghost use Rattle.lw_reg.specs.Path.{path_numbers};

    ghost partial_cmp = { as_partial_cmp (by_numbers path_numbers) };

    ghost laws = { by_numbers_partial_order path_numbers };

    fn partial_cmp(&self, other: &Path) -> Option<Ordering> {
        Some(self.cmp(other))
    }
}

impl Ord for Path {
    ghost use Rattle.lw_reg.specs.Path.{path_numbers};

    ghost cmp = { by_numbers path_numbers };

    ghost total = { by_numbers_total path_numbers };

    ghost matches_partial_cmp = { λ x y. refl };

    ghost matches_eq = { λ x y. refl };

    fn cmp(&self, other: &Path) -> Ordering {
        self.numbers().cmp(other.numbers())
    }
}
