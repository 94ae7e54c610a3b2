ghost use Rattle.std.specs.Prelude.{◌≡◌, ◌<◌, ◌≤◌, ◌↔◌, [], ◌∷◌, ◌++◌, length, IsTrue};
ghost use Rattle.rows.specs.Numbers.{numbers_in};

use crate::numbers::Numbers;

impl<const N: usize> Numbers<N> {
    pub fn empty() -> Self
        ensures { numbers_in result ≡ [] }
    {
        Numbers { at: [0; N], len: 0 }
    }

    // A list of these numbers.
    pub fn from_slice(numbers: &[i64]) -> Self
        requires { length numbers.now ≤ N }
        ensures { numbers_in result ≡ numbers.now }
    {
        let mut at = [0; N];
        let len = numbers.len();
        at[..len].copy_from_slice(numbers);
        Numbers { at, len }
    }

    pub fn len(&self) -> usize
        ensures { result ≡ length (numbers_in self.now) }
    {
        self.as_slice().len()
    }

    // Puts a number after the others.
    pub fn push(&mut self, number: i64)
        requires { length (numbers_in self.old) < N }
        ensures { numbers_in self.new ≡ numbers_in self.old ++ (number ∷ []) }
    {
        self.at[self.len] = number;
        self.len += 1;
    }

    pub fn as_slice(&self) -> &[i64]
        ensures value { result.now ≡ numbers_in self.now }
        ensures few { length result.now ≤ N }
    {
        &self.at[..self.len]
    }
}
